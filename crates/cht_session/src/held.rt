ghost use Rattle.std.specs.Prelude.{◌≡◌, ◌<◌, ◌++◌, ◌∷◌, [], ℕ, List, None, OnOk, vec_len, vec_capacity};
ghost use Rattle.cht_session.specs.Bindings.{found_in, IsSameHeld, IsAdded, IsEnded};

use cht_ids::{Memory, Ref};
use cht_script::Shape;
use std::alloc::Global;
use std::collections::BTreeMap;

/// What is held of a name: the shape and form of its matrix, its reference, and the number of that reference in the order of all, counted
/// from 0.
#[derive(Clone, Copy)]
pub(crate) struct Binding {
    pub(crate) shape: Shape,
    pub(crate) at: Ref,
    number: usize,
}

/// The names that a script has bound, with their references. A name's bytes are those of the script. Look-ups take time by the logarithm of
/// the number of names, whichever they are.
#[derive(Drop)]
pub(crate) struct Held<'a> {
    // The side of a leaf block, and how many levels the trees have above the leaves.
    leaf: u32,
    height: u32,
    named: BTreeMap<&'a [u8], Binding>,
    // The references of all names in the order in which they were bound, null where one was deleted.
    order: Vec<Ref>,
}

impl<'a> Held<'a> {
    /// No names, for leaf blocks of that side and so many levels above them. It takes no memory.
    pub(crate) fn new(alloc: Global, leaf: u32, height: u32) -> Held<'a>
        ensures nothing { (name : List ℕ) → found_in result name ≡ None }
        ensures leaf { result.leaf ≡ leaf }
        ensures height { result.height ≡ height }
        ensures order { result.order.items ≡ [] }
    {
        Held {
            leaf,
            height,
            named: BTreeMap::new(alloc),
            order: Vec::new(alloc),
        }
    }

    /// The side of a leaf block.
    pub(crate) fn leaf(&self) -> u32
        ensures { result ≡ self.now.leaf }
    {
        self.leaf
    }

    /// How many levels the trees have above the leaves.
    pub(crate) fn height(&self) -> u32
        ensures { result ≡ self.now.height }
    {
        self.height
    }

    /// The references of all names in the order in which they were bound; null stands for a name that was ended.
    pub(crate) fn references(&self) -> &[Ref]
        ensures { result.now ≡ self.now.order.items }
    {
        &self.order
    }

    /// Makes room for one more reference, that of a name which is not bound. A name that is bound is answered with `Memory`: no script that
    /// is judged binds one twice.
    pub(crate) fn make_room(&mut self, name: &[u8]) -> Result<(), Memory>
        ensures same { IsSameHeld self.old self.new }
        ensures room { OnOk result (vec_len self.new.order < vec_capacity self.new.order) }
        ensures fresh { OnOk result (found_in self.new name.now ≡ None) }
    {
        self.order.reserve(1)?;
        match self.named.get(name) {
            None => Ok(()),
            Some(_) => Err(Memory),
        }
    }

    /// What is held of a name.
    pub(crate) fn find(&self, name: &[u8]) -> Option<Binding>
        ensures { result ≡ found_in self.now name.now }
    {
        self.named.get(name).copied()
    }

    /// Binds a name that is not bound. After `Memory` the reference is in the order, but has no name.
    pub(crate) fn bind(&mut self, name: &'a [u8], shape: Shape, at: Ref) -> Result<(), Memory>
        requires { vec_len self.old.order < vec_capacity self.old.order }
        ensures leaf { self.new.leaf ≡ self.old.leaf }
        ensures height { self.new.height ≡ self.old.height }
        ensures order { self.new.order.items ≡ self.old.order.items ++ at ∷ [] }
        ensures bound { OnOk result (IsAdded self.old name.now shape at self.new) }
    {
        let number = self.order.len();
        self.order.push_reserved(at);
        let one = Binding { shape, at, number };
        self.named.insert(name, one)?;
        Ok(())
    }

    /// Ends a name. Answers its reference, which then is no longer in the order; null where the name is not bound.
    pub(crate) fn end(&mut self, name: &[u8]) -> Ref
        ensures leaf { self.new.leaf ≡ self.old.leaf }
        ensures height { self.new.height ≡ self.old.height }
        ensures ended { IsEnded self.old name.now result self.new }
    {
        let Some(one) = self.named.remove(name) else {
            return Ref::Null;
        };
        if let Some(place) = self.order.get_mut(one.number) {
            *place = Ref::Null;
        }
        one.at
    }
}
