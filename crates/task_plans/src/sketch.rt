// Outcomes that are put together by a plan.
ghost use Rattle.std.specs.Prelude.{◌≡◌, ◌+◌, ◌≤◌, ◌++◌, [], ◌∷◌, length, IfOk, OnOk};
ghost use Rattle.std.specs.List.{list_all};
ghost use Rattle.task_types.specs.declared.outcome.Place.TheVariants.{Task, Chunk};
ghost use Rattle.task_types.specs.Shown.{presences_in};
ghost use Rattle.task_types.specs.Formed.{may_stand};
ghost use Rattle.task_plans.specs.Plans.{task_of, with_place, with_itself, with_alone, with_either, with_pair, is_ready, term_task};
ghost use Rattle.task_plans.specs.Portions.{AreSound};
ghost use Rattle.task_plans.specs.Outcomes.{bare_chunk};
ghost use Rattle.task_plans.specs.Sketches.{draft_of, redrawn, with_taken, sketched, outcome_of};

use crate::outcomes::{are_null, given};
use crate::plan::{Ending, Operation, Part, Term};
use crate::portions::Portions;
use cht_ids::{List, Memory};
use std::alloc::Global;
use task_types::{Body, Inputs, Kinds, NewChunk, NewTask, Outcome, Payload, Place, Places};

// The new chunks and tasks so far, the places of the parts, and the portions that are not yet in a new chunk.
#[derive(Drop)]
pub(crate) struct Sketch<C: Payload, K> {
    pub(crate) portions: Portions<C>,
    pub(crate) chunks: List<NewChunk<C>>,
    pub(crate) tasks: List<NewTask<K>>,
    pub(crate) places: List<Place>,
}

impl<C: Payload, K: Kinds> Sketch<C, K> {
    // One more place.
    fn give(&mut self, place: Place) -> Result<(), Memory>
        ensures { OnOk result (self.new ≡ redrawn self.old (with_place (draft_of self.old) place)) }
    {
        self.places.push(place).map_err(|_| Memory)
    }

    // One more task. The answer is the place of its output.
    fn ask(&mut self, task: NewTask<K>) -> Result<Place, Memory>
        requires { length self.old.tasks ≤ 15 }
        ensures task { OnOk result (self.new ≡ record self.old { tasks = self.old.tasks ++ task ∷ [] }) }
        ensures output { IfOk result (λ output. output ≡ Task (length self.old.tasks)) }
    {
        let output = Place::Task(self.tasks.len() as u8);
        self.tasks.push(task).map_err(|_| Memory)?;
        Ok(output)
    }

    // One more chunk, without children. The answer is its place.
    fn register(&mut self, alloc: Global, content: C) -> Result<Place, Memory>
        requires few { length self.old.chunks ≤ 12 }
        requires sound { C.sound content }
        ensures chunk { OnOk result (self.new ≡ record self.old { chunks = self.old.chunks ++ bare_chunk content ∷ [] }) }
        ensures place { IfOk result (λ place. place ≡ Chunk (length self.old.chunks)) }
    {
        let place = Place::Chunk(self.chunks.len() as u8);
        let chunk = NewChunk {
            body: Body::new(alloc, content)?,
            children: Places::of(&[]),
        };
        self.chunks.push(chunk).map_err(|_| Memory)?;
        Ok(place)
    }

    // A portion that is left as a new chunk, and a task on it; null where it has no entry.
    fn portion(&mut self, alloc: Global, kind: K, number: u8) -> Result<(), Memory>
        requires tasks { length self.old.tasks ≤ 12 }
        requires chunks { length self.old.chunks ≤ 12 }
        requires sound { AreSound C.sound self.old.portions }
        ensures { OnOk result (self.new ≡ with_taken self.old kind number) }
    {
        match self.portions.take(number) {
            None => self.give(Place::Null),
            Some(content) => {
                let input = self.register(alloc, content)?;
                let inputs = Places::of(&[input]);
                let output = self.ask(NewTask { kind, inputs })?;
                self.give(output)
            }
        }
    }

    // A place, or null where it is not there.
    fn itself(&mut self, place: Place, is_there: bool) -> Result<(), Memory>
        ensures { OnOk result (self.new ≡ redrawn self.old (with_itself (draft_of self.old) place is_there)) }
    {
        if is_there {
            self.give(place)
        } else {
            self.give(Place::Null)
        }
    }

    // The output of one task, or null where it is not ready.
    fn alone(&mut self, task: NewTask<K>, is_ready: bool) -> Result<(), Memory>
        requires { length self.old.tasks ≤ 12 }
        ensures { OnOk result (self.new ≡ redrawn self.old (with_alone (draft_of self.old) task is_ready)) }
    {
        if is_ready {
            let output = self.ask(task)?;
            self.give(output)
        } else {
            self.give(Place::Null)
        }
    }

    // A task on the children with one number of two inputs, or the one that is there.
    fn either(&mut self, kind: K, child: u8, first: bool, second: bool) -> Result<(), Memory>
        requires { length self.old.tasks ≤ 12 }
        ensures { OnOk result (self.new ≡ redrawn self.old (with_either (draft_of self.old) kind child first second)) }
    {
        match (first, second) {
            (false, false) => self.give(Place::Null),
            (true, false) => self.give(Place::Child(0, child)),
            (false, true) => self.give(Place::Child(1, child)),
            (true, true) => {
                let inputs = Places::of(&[Place::Child(0, child), Place::Child(1, child)]);
                let output = self.ask(NewTask { kind, inputs })?;
                self.give(output)
            }
        }
    }

    // Two tasks: the sum of their outputs, or the output of the one that is ready.
    fn pair(
        &mut self,
        first: NewTask<K>,
        second: NewTask<K>,
        sum: K,
        are_ready: (bool, bool),
    ) -> Result<(), Memory>
        requires { length self.old.tasks ≤ 12 }
        ensures { OnOk result (self.new
            ≡ redrawn self.old (with_pair (draft_of self.old) first second sum are_ready.0 are_ready.1)) }
    {
        match are_ready {
            (false, false) => self.give(Place::Null),
            (true, false) => {
                let output = self.ask(first)?;
                self.give(output)
            }
            (false, true) => {
                let output = self.ask(second)?;
                self.give(output)
            }
            (true, true) => {
                let one = self.ask(first)?;
                let other = self.ask(second)?;
                let inputs = Places::of(&[one, other]);
                let output = self.ask(NewTask { kind: sum, inputs })?;
                self.give(output)
            }
        }
    }

    // One more part, one level below at height `low`.
    pub(crate) fn part<O: Operation<Kind = K>>(
        &mut self,
        alloc: Global,
        low: u32,
        inputs: &Inputs<C>,
        part: &Part<O>,
    ) -> Result<(), Memory>
        requires tasks { length self.old.tasks ≤ 12 }
        requires chunks { length self.old.chunks ≤ 12 }
        requires sound { AreSound C.sound self.old.portions }
        ensures { OnOk result (self.new ≡ sketched (O.kind_at low) (presences_in inputs.now) self.old part.now) }
    {
        match part {
            Part::Portion { what, number, .. } => self.portion(alloc, what.kind_at(low), *number),
            Part::Itself { input, child } => {
                let is_there = inputs.has_child(*input, *child);
                self.itself(Place::Child(*input, *child), is_there)
            }
            Part::Alone(term) => self.alone(task_of(low, term), is_ready(inputs, term)),
            Part::Either { what, child } => {
                let first = inputs.has_child(0, *child);
                let second = inputs.has_child(1, *child);
                self.either(what.kind_at(low), *child, first, second)
            }
            Part::Pair { first, second, sum } => {
                let are_ready = (is_ready(inputs, first), is_ready(inputs, second));
                let (first, second) = (task_of(low, first), task_of(low, second));
                self.pair(first, second, sum.kind_at(low), are_ready)
            }
        }
    }

    // The outcome once all parts are there, for a kind of this height: a task joins their places, or there is one place.
    pub(crate) fn outcome<O: Operation<Kind = K>>(
        mut self,
        alloc: Global,
        height: u32,
        ending: Ending<O>,
    ) -> Result<Outcome<C, K>, Memory>
        requires tasks { length self.tasks ≤ 15 }
        requires places { length self.places ≤ 4 }
        ensures { IfOk result (λ outcome. outcome ≡ outcome_of (O.kind_at height) ending self) }
    {
        let inputs = Places::of(self.places.as_slice());
        let output = match ending {
            Ending::Joined(_) if are_null(self.places.as_slice()) => {
                return Ok(given(alloc, Place::Null));
            }
            Ending::Joined(what) => {
                let kind = what.kind_at(height);
                self.ask(NewTask { kind, inputs })?
            }
            Ending::Single => inputs.first,
        };
        Ok(Outcome {
            chunks: self.chunks,
            tasks: self.tasks,
            result: output,
        })
    }
}

// The task of a term, one level below at height `low`.
fn task_of<O: Operation>(low: u32, term: &Term<O>) -> NewTask<O::Kind>
    ensures { result ≡ term_task (O.kind_at low) term.now }
{
    NewTask {
        kind: term.what.kind_at(low),
        inputs: term.inputs,
    }
}

// Whether all that a term names is there.
#[tactic(auto, using(std::proofs::lemmas::List::take_min))]
fn is_ready<C, O>(inputs: &Inputs<C>, term: &Term<O>) -> bool
    ensures { result ≡ is_ready (presences_in inputs.now) term.now }
{
    let places = &term.inputs;
    let all = [places.first, places.second, places.third, places.fourth];
    are_there(inputs, &all[..places.count.min(4) as usize])
}

// Whether each of these places is null, or names an input or a child that is there.
fn are_there<C>(inputs: &Inputs<C>, places: &[Place]) -> bool
    ensures { result ≡ list_all (may_stand (presences_in inputs.now) 0 0) places.now }
{
    places.iter().all(|place| is_there(inputs, *place))
}

fn is_there<C>(inputs: &Inputs<C>, place: Place) -> bool
    ensures { result ≡ may_stand (presences_in inputs.now) 0 0 place }
{
    match place {
        Place::Null => true,
        Place::Input(i) => inputs.is_present(i),
        Place::Child(i, j) => inputs.has_child(i, j),
        Place::Chunk(_) | Place::Task(_) => false,
    }
}
