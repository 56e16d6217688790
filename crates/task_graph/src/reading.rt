// What is read of tasks.
ghost use Rattle.std.specs.Prelude.{◌≡◌, ◌<◌, ◌≤◌, ◌↔◌, ℕ, take, length, slice_get, option_map, Some, None, IsSome, IfSome, IsTrue};
ghost use Rattle.task_states.specs.Awaiters.{IsLeastOf, IsLater, IsWanted};
ghost use Rattle.task_states.specs.States.{caller_of, is_awaiting};
ghost use Rattle.task_links.specs.Inside.{inputs_of, shown_place};
ghost use Rattle.task_links.specs.Kept.{opened};
ghost use Rattle.task_graph.specs.Contents.{input_of};
ghost use Rattle.task_graph.specs.Graphs.{graph_of, IsWhole};
ghost use Rattle.task_graph.specs.Reading.{IsCeiling, is_wanted};
ghost use Rattle.std.specs.List.{list_any};

use crate::parts::Parts;
use task_links::{Caller, Kept, Place};
use task_states::Slot;

/// An input as callers give it.
#[inline(always)]
pub(crate) fn slot(place: &Place) -> Slot
    ensures { input_of result ≡ shown_place place.now }
{
    match place {
        Place::Known(r) => Slot::Known(*r),
        Place::Awaits(link) => Slot::Awaits(link.task, link.number),
    }
}

// Whether an input awaits a task.
#[inline(always)]
fn awaits(slot: &Slot) -> bool
    ensures { result ≡ is_awaiting (input_of slot.now) }
{
    match slot {
        Slot::Known(_) => false,
        Slot::Awaits(_, _) => true,
    }
}

/// Whether one of these inputs awaits a task.
pub(crate) fn any_awaits(slots: &[Slot]) -> bool
    ensures { result ≡ list_any (λ slot. is_awaiting (input_of slot)) slots.now }
{
    slots.iter().any(|slot| awaits(slot))
}

/// The input of a task at a place, counted from 0, if there is one.
pub(crate) fn input<K: Copy>(kept: &Kept<K>, place: u32) -> Option<Slot>
    requires { kept.now.count ≤ 4 }
    ensures input { option_map input_of result ≡ option_map shown_place (slice_get (inputs_of (opened kept.now)) place) }
    ensures few { IfSome result (λ _. place < 4) }
{
    match kept.input(place) {
        None => None,
        Some(found) => Some(slot(&found)),
    }
}

// Whether a caller has a task and is not stopped.
fn wanted(row: &Caller) -> bool
    ensures { result ≡ is_wanted row.now }
{
    !row.stopped && row.first.is_some()
}

// Whether a caller that is not stopped has a task.
fn any_wanted(rows: &[Caller]) -> bool
    ensures { result ≡ list_any is_wanted rows.now }
{
    rows.iter().any(|row| wanted(row))
}

impl<K: Copy> Parts<K> {
    // The least task of a caller above a number, looked for from a task of the caller on.
    fn above(&self, caller: u32, after: u128, from: Option<u128>, last: u128) -> Option<u128>
        requires whole { IsWhole self.now }
        requires last { (task : ℕ) → caller_of (graph_of self.now) task ≡ Some caller → task ≤ last }
        requires from { IsCeiling (graph_of self.now) caller after from }
        ensures { IsLeastOf (IsLater (graph_of self.now) caller after) result }
    {
        let mut at = from;
        while let Some(task) = at {
            if task > after {
                return at;
            }
            let kept = self.entries.look(task);
            at = kept.follower();
        }
        None
    }

    /// The least task of a caller above a number.
    pub fn next_of(&self, caller: u32, after: u128) -> Option<u128>
        requires whole { IsWhole self.now }
        requires caller { caller < 64 }
        ensures { IsLeastOf (IsLater (graph_of self.now) caller after) result }
    {
        if let Some(kept) = self.entries.find(after) {
            if kept.caller == caller {
                return kept.follower();
            }
        }
        let row = self.callers.get(caller);
        match row.last {
            None => None,
            Some(last) => {
                if last <= after {
                    None
                } else {
                    self.above(caller, after, row.first, last)
                }
            }
        }
    }

    /// Whether a task has a caller that is not stopped.
    pub fn any(&self) -> bool
        requires { IsWhole self.now }
        ensures { IsTrue result ↔ ((task : ℕ) × IsWanted (graph_of self.now) task) }
    {
        any_wanted(&self.callers.rows)
    }
}
