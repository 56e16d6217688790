//! A small library, which shows how the trait is met and serves the tests of the layers above: trees of numbers, and
//! tasks that add them up.
ghost use Rattle.std.specs.Prelude.{◌≡◌, ◌≤◌, length, IfOk, OnOk};
ghost use Rattle.task_types.specs.Sums.{aim_name, arity_of, IsSoundTerm, sum_meanings, given, number_outcome, halves_outcome, asking, total_answer, number_in, other_input};

use crate::body::Body;
use crate::inputs::{Inputs, View};
use crate::kinds::{Kinds, kind_text};
use crate::library::Library;
use crate::outcome::{NewChunk, NewTask, Outcome, Place, Places};
use crate::payload::Payload;
use cht_ids::{List, Memory, Short};
use std::alloc::Global;

/// The content of a chunk.
#[derive(Clone, Copy, Debug, PartialEq, Eq)]
pub enum Term {
    /// A number, without children.
    Number(u64),
    /// The sum of two children.
    Sum,
}

impl Payload for Term {
    ghost arity = { arity_of };

    ghost sound = { IsSoundTerm };

    ghost use Rattle.task_types.specs.SumLaws.{few_children_of};

    ghost few_children = { few_children_of };

    fn arity(&self) -> u32 {
        match self {
            Term::Number(_) => 0,
            Term::Sum => 2,
        }
    }
}

/// What a task computes.
#[derive(Clone, Copy, Debug, PartialEq, Eq)]
pub enum Aim {
    /// The total of a tree.
    Total,
    /// The sum of two numbers.
    Plus,
}

/// A kind of task: what it computes, and the height of the tree that it is given.
#[derive(Clone, Copy, Debug, PartialEq, Eq)]
pub struct SumKind {
    /// What it computes.
    pub aim: Aim,
    /// How many sums stand above each number.
    pub height: u32,
}

impl Kinds for SumKind {
    ghost name_of = { λ kind. aim_name kind.aim };

    ghost height_of = { λ kind. kind.height };

    ghost use Rattle.task_types.specs.SumLaws.{names_named, kinds_differ};

    ghost named = { λ kind. names_named kind.aim };

    ghost told_apart = { kinds_differ };

    fn text(&self) -> Short {
        match self.aim {
            Aim::Total => kind_text(b"total", self.height),
            Aim::Plus => kind_text(b"plus", self.height),
        }
    }

    fn of_words(name: &[u8], height: u32) -> Option<SumKind> {
        let aim = match name {
            b"total" => Aim::Total,
            b"plus" => Aim::Plus,
            _ => return None,
        };
        Some(SumKind { aim, height })
    }
}

/// The library of sums. A total of a sum asks for the totals of its children that are there, and for their sum.
pub struct Sums;

impl Library for Sums {
    type Chunk = Term;

    type Kind = SumKind;

    ghost meanings = { sum_meanings };

    ghost use Rattle.task_types.specs.SumLaws.{few_terms, works_add_up};

    ghost few_inputs = { few_terms };

    ghost adds_up = { works_add_up };

    fn execute(
        alloc: Global,
        kind: SumKind,
        inputs: &Inputs<Term>,
    ) -> Result<Outcome<Term, SumKind>, Memory> {
        match kind.aim {
            Aim::Total => total(alloc, kind.height, &inputs.first),
            Aim::Plus => number(alloc, number_in(&inputs.first) + number_in(&inputs.second)),
        }
    }

    fn fallback(
        alloc: Global,
        kind: SumKind,
        inputs: &Inputs<Term>,
    ) -> Result<Outcome<Term, SumKind>, Memory> {
        Ok(match kind.aim {
            Aim::Total => given(alloc, Place::Null),
            Aim::Plus => given(alloc, other_input(&inputs.first, &inputs.second)),
        })
    }
}

// An outcome without new chunks and tasks.
fn given(alloc: Global, output: Place) -> Outcome<Term, SumKind>
    ensures { result ≡ given output }
{
    Outcome {
        chunks: List::new(alloc),
        tasks: List::new(alloc),
        result: output,
    }
}

// A number as a new chunk, or null for 0.
fn number(alloc: Global, n: u64) -> Result<Outcome<Term, SumKind>, Memory>
    ensures { IfOk result (λ outcome. outcome ≡ number_outcome n) }
{
    if n == 0 {
        return Ok(given(alloc, Place::Null));
    }
    let chunk = NewChunk {
        body: Body::new(alloc, Term::Number(n))?,
        children: Places::of(&[]),
    };
    let mut outcome = given(alloc, Place::Chunk(0));
    outcome.chunks.push(chunk).map_err(|_| Memory)?;
    Ok(outcome)
}

// The total of one input, as far as it shows.
fn total(alloc: Global, height: u32, input: &View<Term>) -> Result<Outcome<Term, SumKind>, Memory>
    ensures { IfOk result (λ outcome. outcome ≡ total_answer height input.now) }
{
    match input {
        View::Nothing => Ok(given(alloc, Place::Null)),
        View::There { content, .. } => match *content.get() {
            Term::Number(n) => number(alloc, n),
            Term::Sum => halves(
                alloc,
                height.saturating_sub(1),
                input.has_child(0),
                input.has_child(1),
            ),
        },
    }
}

// The totals of the children that are there, and their sum.
fn halves(
    alloc: Global,
    height: u32,
    first: bool,
    second: bool,
) -> Result<Outcome<Term, SumKind>, Memory>
    ensures { IfOk result (λ outcome. outcome ≡ halves_outcome height first second) }
{
    if !first && !second {
        return Ok(given(alloc, Place::Null));
    }
    let mut outcome = given(alloc, Place::Task(if first && second { 2 } else { 0 }));
    if first {
        ask(&mut outcome, Aim::Total, height, &[Place::Child(0, 0)])?;
    }
    if second {
        ask(&mut outcome, Aim::Total, height, &[Place::Child(0, 1)])?;
    }
    if first && second {
        ask(
            &mut outcome,
            Aim::Plus,
            0,
            &[Place::Task(0), Place::Task(1)],
        )?;
    }
    Ok(outcome)
}

// Adds a task to an outcome.
fn ask(
    outcome: &mut Outcome<Term, SumKind>,
    aim: Aim,
    height: u32,
    inputs: &[Place],
) -> Result<(), Memory>
    requires { length inputs.now ≤ 4 }
    ensures { OnOk result (outcome.new ≡ asking outcome.old aim height inputs.now) }
{
    let task = NewTask {
        kind: SumKind { aim, height },
        inputs: Places::of(inputs),
    };
    outcome.tasks.push(task).map_err(|_| Memory)
}

// The number that an input shows, or 0.
fn number_in(input: &View<Term>) -> u64
    ensures { result ≡ number_in input.now }
{
    match input {
        View::There { content, .. } => match *content.get() {
            Term::Number(n) => n,
            Term::Sum => 0,
        },
        View::Nothing => 0,
    }
}

// Of two inputs with a null one, the other.
fn other_input(first: &View<Term>, second: &View<Term>) -> Place
    ensures { result ≡ other_input first.now second.now }
{
    match (first, second) {
        (View::There { .. }, _) => Place::Input(0),
        (_, View::There { .. }) => Place::Input(1),
        _ => Place::Null,
    }
}
