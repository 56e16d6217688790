ghost use Rattle.std.specs.Prelude.{◌≡◌, List, ℕ, None, Some, if◌then◌else◌, OnOk};
ghost use Rattle.std.specs.Str.{bytes_eq};
ghost use Rattle.cht_script.specs.Judging.{look};

use crate::checked::Shape;
use cht_ids::Memory;
use std::alloc::Global;
use std::collections::BTreeMap;

/// What is known of a name that was bound: the shape of its matrix, and whether it was deleted.
#[derive(Clone, Copy)]
pub(crate) struct Kept {
    pub shape: Shape,
    pub is_deleted: bool,
}

/// The names that were bound.
#[derive(Drop)]
pub(crate) struct KnownNames<'a> {
    kept: BTreeMap<&'a [u8], Kept>,
}

impl<'a> KnownNames<'a> {
    /// No name was bound.
    pub(crate) fn new(alloc: Global) -> KnownNames<'a>
        ensures { (name : List ℕ) → look name result ≡ None }
    {
        KnownNames {
            kept: BTreeMap::new(alloc),
        }
    }

    /// What is known of a name; `None` where it was not bound.
    pub(crate) fn find(&self, name: &[u8]) -> Option<Kept>
        ensures { result ≡ look name.now self.now }
    {
        Some(*self.kept.get(name)?)
    }

    /// Keeps this of a name, in place of what was kept of it.
    pub(crate) fn keep(&mut self, name: &'a [u8], kept: Kept) -> Result<(), Memory>
        ensures { OnOk result ((other : List ℕ) → look other self.new ≡ (if bytes_eq name.now other then Some kept else look other self.old)) }
    {
        self.kept.insert(name, kept)?;
        Ok(())
    }
}
