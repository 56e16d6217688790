ghost use Rattle.std.specs.Prelude.{◌≡◌};
ghost use Rattle.cht_script.specs.declared.checked.ScriptRefused.TheVariants.{Memory as OutOfMemory};

use crate::script::{Fault, Statement};
use cht_ids::{List, Memory};
use mm_text::Form;
use std::alloc::{AllocError, AllocFailed};
use thiserror::Error;

/// How many rows and columns a matrix has, and how it is listed.
#[derive(Clone, Copy, Debug, PartialEq, Eq)]
pub struct Shape {
    pub rows: u32,
    pub columns: u32,
    pub form: Form,
}

/// The shapes of the matrices of a statement's names, in the order of its line: the first `count` of them. Those past
/// `count` repeat the first. The name that `delete` takes has the shape that it had.
#[derive(Clone, Copy, Debug, PartialEq, Eq)]
pub struct Shapes {
    pub count: u32,
    pub first: Shape,
    pub second: Shape,
    pub third: Shape,
}

/// A statement that breaks no rule, with the shapes of its names.
#[derive(Drop)]
pub struct Step {
    pub statement: Statement,
    pub shapes: Shapes,
}

/// A script without a fault: the largest number of rows and columns, the side of a leaf block, how many levels the trees of
/// its matrices have above the leaves, and its statements.
#[derive(Drop)]
pub struct Checked {
    pub grid: u32,
    pub leaf: u32,
    pub height: u32,
    pub steps: List<Step>,
}

/// Why a script is not run.
#[derive(Clone, Copy, Debug, PartialEq, Eq, Error)]
pub enum ScriptRefused {
    /// The first line that breaks a rule, with the least code that is broken there.
    #[error("line {} breaks rule {}", .0.line, .0.code)]
    Fault(Fault),
    #[error("out of memory")]
    Memory,
}

impl From<Memory> for ScriptRefused {
    ghost from_gives = { λ _ refused. refused ≡ OutOfMemory };

    fn from(_: Memory) -> ScriptRefused {
        ScriptRefused::Memory
    }
}

impl From<AllocError> for ScriptRefused {
    ghost from_gives = { λ _ refused. refused ≡ OutOfMemory };

    fn from(_: AllocError) -> ScriptRefused {
        ScriptRefused::Memory
    }
}

impl<T: Drop> From<AllocFailed<T>> for ScriptRefused {
    ghost from_gives = { λ _ refused. refused ≡ OutOfMemory };

    fn from(_: AllocFailed<T>) -> ScriptRefused {
        ScriptRefused::Memory
    }
}
