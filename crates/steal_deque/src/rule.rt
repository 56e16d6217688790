// What holds of one deque between any two steps, and what each kind of step tells.
use crossbeam_deque::protocol::{Join, Lesson, Outcome, Protocol, Split};
use std::collections::LinkedList;

/// What a pass knows of its deque, for contracts alone. No value of it is made.
pub struct View {
    /// The number of the pass: 0 is the owner's, and thieves count from 1.
    pub port: u64,
    /// Of the owner: how many passes thieves have.
    pub made: u64,
    /// Of the owner: all numbers that it exposed, in order.
    pub exposed: LinkedList<u128>,
    /// Of the owner: the numbers that it exposed and did not take back itself, oldest first.
    pub pending: LinkedList<u128>,
    /// What this pass took, in order: the owner by takes, a thief by steals.
    pub taken: LinkedList<u128>,
    /// Of the owner, at the end: passes of thieves with what they took.
    pub joined: LinkedList<(u64, LinkedList<u128>)>,
    /// Whether this pass was joined into the owner's.
    pub over: bool,
}

// The fact between steps.
pub(crate) struct InOrder;

impl Protocol<u128, View> for InOrder {
    ghost use Rattle.steal_deque.specs.History.{Kept, owner_view, spent};

    ghost holds = { Kept };

    ghost first = { owner_view };

    ghost guest = { spent };
}

// A number is exposed.
pub(crate) struct Expose;

impl Outcome<u128, View> for Expose {
    ghost use Rattle.std.specs.Prelude.{◌≡◌};
    ghost use Rattle.steal_deque.specs.History.{exposing};

    ghost then = { λ before numbers after. after ≡ exposing before numbers };
}

// The owner takes the newest number, or finds the deque empty.
pub(crate) struct Take;

impl Outcome<u128, View> for Take {
    ghost use Rattle.steal_deque.specs.History.{Takes, WasEmpty};

    ghost then = { Takes };

    ghost empty = { WasEmpty };
}

// A thief takes the oldest number, or finds at most one.
pub(crate) struct Steal;

impl Outcome<u128, View> for Steal {
    ghost use Rattle.std.specs.Prelude.{◌≡◌};
    ghost use Rattle.steal_deque.specs.History.{stealing, HeldFew};

    ghost then = { λ before numbers after. after ≡ stealing before numbers };

    ghost empty = { HeldFew };
}

// A pass for one more thief.
pub(crate) struct OneMore;

impl Split<View> for OneMore {
    ghost use Rattle.steal_deque.specs.History.{one_more, newcomer};

    ghost left = { one_more };

    ghost right = { newcomer };
}

// The owner learns what a thief took.
pub(crate) struct Returned;

impl Join<View> for Returned {
    ghost use Rattle.steal_deque.specs.History.{joined_with, spent};

    ghost both = { joined_with };

    ghost spent = { spent };
}

// What is left at the end.
pub(crate) struct Rest;

impl Lesson<u128, View> for Rest {
    ghost use Rattle.steal_deque.specs.History.{Settles};

    ghost fact = { Settles };
}
