ghost use Rattle.std.specs.Prelude.{◌≡◌, None};
ghost use Rattle.task_plans.specs.Portions.{portion_in, without, no_portions};

use std::mem;

/// The contents of new chunks that wait for the parts of a plan, each by the number of its portion. `None` is a portion
/// without entries.
#[derive(Drop)]
pub struct Portions<C> {
    /// Portion 0.
    pub first: Option<C>,
    /// Portion 1.
    pub second: Option<C>,
    /// Portion 2.
    pub third: Option<C>,
    /// Portion 3.
    pub fourth: Option<C>,
}

impl<C> Portions<C> {
    /// No portion has an entry.
    pub fn none() -> Portions<C>
        ensures { result ≡ no_portions }
    {
        Portions {
            first: None,
            second: None,
            third: None,
            fourth: None,
        }
    }

    // Takes the content of a portion. It is not left.
    pub(crate) fn take(&mut self, number: u8) -> Option<C>
        ensures content { result ≡ portion_in self.old number }
        ensures rest { self.new ≡ without self.old number }
    {
        match number {
            0 => self.first.take(),
            1 => self.second.take(),
            2 => self.third.take(),
            3 => self.fourth.take(),
            _ => None,
        }
    }
}
