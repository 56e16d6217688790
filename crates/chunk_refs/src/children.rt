// The children of a body as four references.
ghost use Rattle.std.specs.Prelude.{◌≡◌, ◌+◌, ◌≤◌, ◌<◌, ◌^◌, length, drop, slice_get, Some};
ghost use Rattle.name_states.specs.Steps.{drawn_by, present, numbered_ref, numbered};
ghost use Rattle.task_types.specs.Shown.{bit as bit_of};
ghost use Rattle.chunk_refs.specs.Inside.{refs_of, all_four, AreNull};
ghost use Rattle.chunk_refs.specs.Masks.{is_some_ref, mask_in};

use cht_ids::{Counter, Id, Ref};

// The children of a body: the first `count`, of at most four. Those past them are null.
#[derive(Clone, Copy)]
pub(crate) struct Children {
    pub count: u32,
    pub first: Ref,
    pub second: Ref,
    pub third: Ref,
    pub fourth: Ref,
}

// One number for a child that is not null.
fn draws(child: Ref) -> u32
    ensures value { result ≡ drawn_by child }
    ensures few { result ≤ 1 }
{
    match child {
        Ref::Null => 0,
        Ref::Id(_) => 1,
    }
}

// One bit of a mask for a child: whether it is not null.
#[inline(always)]
fn bit(child: &Ref) -> u8
    ensures value { result ≡ bit_of (is_some_ref child.now) }
    ensures few { result ≤ 1 }
{
    match child {
        Ref::Null => 0,
        Ref::Id(_) => 1,
    }
}

// The identifier that a body has for a child: null for null, else the next number with the same owner.
fn number(child: Ref, counter: &mut Counter) -> Ref
    requires { counter.old < 2 ^ 100 }
    ensures value { result ≡ numbered_ref counter.old child }
    ensures drawn { counter.new ≡ counter.old + drawn_by child }
{
    match child {
        Ref::Null => Ref::Null,
        Ref::Id(id) => Ref::Id(Id {
            owner: id.owner,
            number: counter.next(),
        }),
    }
}

impl Children {
    /// At most four references in order, with null past them.
    pub fn of(children: &[Ref]) -> Children
        requires { length children.now ≤ 4 }
        ensures refs { refs_of result ≡ children.now }
        ensures padded { AreNull (drop result.count (all_four result)) }
    {
        let null = Ref::Null;
        let (count, first, second, third, fourth) = match children {
            [] => (0, null, null, null, null),
            [first] => (1, *first, null, null, null),
            [first, second] => (2, *first, *second, null, null),
            [first, second, third] => (3, *first, *second, *third, null),
            [first, second, third, fourth, ..] => (4, *first, *second, *third, *fourth),
        };
        Children {
            count,
            first,
            second,
            third,
            fourth,
        }
    }

    /// How many are not null.
    pub fn present(&self) -> u32
        ensures value { result ≡ present (all_four self.now) }
        ensures few { result ≤ 4 }
    {
        draws(self.first) + draws(self.second) + draws(self.third) + draws(self.fourth)
    }

    /// The identifiers that a body has for these children, numbered in order.
    pub fn numbered(&self, counter: &mut Counter) -> Children
        requires { counter.old < 2 ^ 99 + 2 }
        ensures refs { all_four result ≡ numbered counter.old (all_four self.now) }
        ensures count { result.count ≡ self.now.count }
        ensures drawn { counter.new ≡ counter.old + present (all_four self.now) }
    {
        let first = number(self.first, counter);
        let second = number(self.second, counter);
        let third = number(self.third, counter);
        let fourth = number(self.fourth, counter);
        Children {
            count: self.count,
            first,
            second,
            third,
            fourth,
        }
    }

    /// The mask of those that are not null: bit j, counted from 0, for child j.
    pub fn mask(&self) -> u8
        ensures { result ≡ mask_in self.now }
    {
        bit(&self.first) + 2 * bit(&self.second) + 4 * bit(&self.third) + 8 * bit(&self.fourth)
    }

    /// Child `j`, counted from 0; `None` past the last one.
    pub fn nth(&self, j: u32) -> Option<Ref>
        ensures { result ≡ slice_get (refs_of self.now) j }
    {
        if j >= self.count {
            return None;
        }
        match j {
            0 => Some(self.first),
            1 => Some(self.second),
            2 => Some(self.third),
            3 => Some(self.fourth),
            _ => None,
        }
    }

    /// Child `j`, counted from 0.
    pub fn get(&self, j: u32) -> Ref
        requires { j < length (refs_of self.now) }
        ensures { slice_get (refs_of self.now) j ≡ Some result }
    {
        match j {
            0 => self.first,
            1 => self.second,
            2 => self.third,
            _ => self.fourth,
        }
    }
}
