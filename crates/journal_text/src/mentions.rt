ghost use Rattle.std.specs.Prelude.{◌≡◌, ◌+◌, ◌<◌, ◌≤◌, [], ◌∷◌, ◌++◌, length};

use cht_ids::Ref;
use std::marker::Model;

/// At most four references, in order, kept without memory.
#[derive(Drop)]
pub(crate) struct Mentions {
    refs: [Ref; 4],
    count: usize,
}

impl Model for Mentions {
    ghost use Rattle.std.specs.Prelude.{List, take, ◌≤◌};
    ghost use Rattle.cht_ids.specs.declared.refs.Ref.{Ref};

    ghost Value = { List Ref };

    ghost view = { λ mentions. take mentions.count mentions.refs };

    ghost invariant = { λ mentions. mentions.count ≤ 4 };
}

impl Mentions {
    /// No references.
    pub(crate) fn new() -> Mentions
        ensures { result ≡ [] }
    {
        Mentions {
            refs: [Ref::Null; 4],
            count: 0,
        }
    }

    /// How many references there are.
    pub(crate) fn len(&self) -> usize
        ensures { result ≡ length self.now }
    {
        self.as_slice().len()
    }

    /// Adds a reference for which there is room.
    pub(crate) fn push(&mut self, r: Ref)
        requires { length self.old < 4 }
        ensures { self.new ≡ self.old ++ r ∷ [] }
    {
        self.refs[self.count] = r;
        self.count += 1;
    }

    /// The references.
    pub(crate) fn as_slice(&self) -> &[Ref]
        ensures { result.now ≡ self.now }
    {
        &self.refs[..self.count]
    }
}
