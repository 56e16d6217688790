ghost use Rattle.std.specs.Prelude.{◌≡◌, IfOk};

use cht_ids::Memory;
use std::alloc::Global;
use std::marker::Model;
use std::sync::Arc;

/// A value that several owners share, on any threads, and that nobody changes.
#[derive(Drop)]
pub struct Shared<C> {
    owner: Arc<C>,
}

impl<C> Model for Shared<C> {
    ghost Value = { C };

    ghost view = { λ shared. shared.owner.value };
}

impl<C: Drop> Shared<C> {
    /// Moves a value where others can share it.
    pub fn new(alloc: Global, content: C) -> Result<Shared<C>, Memory>
        ensures { IfOk result (λ shared. shared ≡ content) }
    {
        Ok(Shared {
            owner: Arc::new(alloc, content)?,
        })
    }
}

impl<C> Shared<C> {
    /// The value.
    pub fn get(&self) -> &C
        ensures { result.now ≡ self.now }
    {
        &self.owner
    }

    /// One more owner of the same value. It copies nothing.
    pub fn again(&self) -> Result<Shared<C>, Memory>
        ensures { IfOk result (λ shared. shared ≡ self.now) }
    {
        Ok(Shared {
            owner: Arc::try_clone(&self.owner)?,
        })
    }
}
