ghost use Rattle.std.specs.Prelude.{◌≡◌, ℕ};

use task_types::{Kinds, Places};

/// What a task computes, whatever the height of its blocks: with a height it is a kind.
pub trait Operation: Copy {
    /// The kinds of tasks.
    type Kind: Kinds;

    /// The kind that computes it on blocks of a height.
    ghost kind_at: { ℕ → Self → Self.Kind };

    /// The kind that computes it on blocks of this height. What computes numbers may have one height alone.
    fn kind_at(self, height: u32) -> Self::Kind
        ensures { result ≡ kind_at height self };
}

/// A task one level below, on children of the inputs, or on inputs themselves. It is there where all that it names is there.
#[derive(Clone, Copy, Debug)]
pub struct Term<O> {
    /// What it computes.
    pub what: O,
    /// Places `Child` and `Input` alone.
    pub inputs: Places,
}

/// One part of what a kind computes: it gives one place. Children, inputs and portions count from 0.
#[derive(Clone, Copy, Debug)]
pub enum Part<O> {
    /// A portion of a list of entries as a new chunk, and a task on it; null where the portion has no entry.
    Portion {
        /// What the task computes.
        what: O,
        /// Which portion: the number of the quadrant, or of the half, in which its entries lie.
        number: u8,
        /// Whether the portion is the upper triangle of a symmetric block.
        symmetric: bool,
    },
    /// A child of an input as it is; null where it is not there.
    Itself {
        /// Which input.
        input: u8,
        /// Which of its children.
        child: u8,
    },
    /// One term: the output of its task; null where it is not there.
    Alone(Term<O>),
    /// A task on the children with one number of the first two inputs where both are there, else the one that is there.
    Either {
        /// What the task computes.
        what: O,
        /// Which child.
        child: u8,
    },
    /// Two terms: the output of a task that adds their outputs, or of the one that is there; null where none is.
    Pair {
        /// The term whose task comes first.
        first: Term<O>,
        /// The other term.
        second: Term<O>,
        /// What adds their outputs.
        sum: O,
    },
}

/// How the places of the parts become the result.
#[derive(Clone, Copy, Debug)]
pub enum Ending<O> {
    /// A task at the height of the kind joins them, if one of them is not null.
    Joined(O),
    /// It is the place of the one part.
    Single,
}
