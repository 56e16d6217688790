ghost use Rattle.std.specs.Prelude.{◌≡◌, [], ◌∷◌, ◌++◌, ℕ, List, length, OnOk, IfOk, IfErr, OnErr, IfSome, IfNone};
ghost use Rattle.steal_deque.specs.Ends.{exposed_by, pending_of, taken_by, own_view, own_deque, victim_view, victim_deque, SameOwn};
ghost use Rattle.steal_deque.specs.History.{WasEmpty, owner_view, one_more, newcomer, joined_with, Settles};

use crate::rule::{Expose, OneMore, Rest, Returned, Take};
use crate::{Own, Victim};
use cht_ids::{Memory, TaskNo};
use crossbeam_deque::Worker;
use std::alloc::Global;

// The slots with which a deque begins.
const FIRST_ROOM: usize = 64;

impl Own {
    /// Adds a number at the back. It comes back for want of memory; a greatest size of the deque counts as that.
    pub fn expose(&mut self, task: TaskNo) -> Result<(), TaskNo>
        ensures same { SameOwn self.old self.new }
        ensures exposed { OnOk result (exposed_by self.new ≡ exposed_by self.old ++ task ∷ []) }
        ensures pending { OnOk result (pending_of self.new ≡ pending_of self.old ++ task ∷ []) }
        ensures taken { taken_by self.new ≡ taken_by self.old }
        ensures handed_back { IfErr result (λ back. back ≡ task) }
        ensures unchanged { OnErr result (own_view self.new ≡ own_view self.old) }
    {
        self.worker.push_as::<Expose>(task)
    }

    /// Takes the newest of the numbers that are pending. `None` only where the deque was empty at a moment of this call.
    pub fn take(&mut self) -> Option<TaskNo>
        ensures same { SameOwn self.old self.new }
        ensures newest { IfSome result (λ task. pending_of self.old ≡ pending_of self.new ++ task ∷ []) }
        ensures taken { IfSome result (λ task. taken_by self.new ≡ taken_by self.old ++ task ∷ []) }
        ensures exposed { exposed_by self.new ≡ exposed_by self.old }
        ensures none { IfNone result (WasEmpty (own_view self.old) × (own_view self.new ≡ own_view self.old)) }
    {
        self.worker.pop_as::<Take>()
    }

    // A deque with nothing in it, and with no thief.
    pub(crate) fn open(alloc: Global) -> Result<Own, Memory>
        ensures { IfOk result (λ own. own_view own ≡ owner_view) }
    {
        let worker = Worker::lifo_as(alloc, FIRST_ROOM)?;
        Ok(Own { worker })
    }

    // One more thief's end.
    pub(crate) fn hire(&mut self) -> Result<Victim, Memory>
        requires { (own_view self.old).joined ≡ [] }
        ensures same { own_deque self.new ≡ own_deque self.old }
        ensures hired { IfOk result (λ victim. (own_view self.new ≡ one_more (own_view self.old)) × (victim_view victim ≡ newcomer (own_view self.old)) × (victim_deque victim ≡ own_deque self.old)) }
    {
        let stealer = self.worker.stealer()?;
        let pass = self.worker.another::<OneMore>();
        Ok(Victim { stealer, pass })
    }

    // A thief's end comes back, with what it knows.
    pub(crate) fn take_back(&mut self, victim: Victim)
        requires { victim_deque victim ≡ own_deque self.old }
        ensures same { own_deque self.new ≡ own_deque self.old }
        ensures joined { own_view self.new ≡ joined_with (own_view self.old) (victim_view victim) }
    {
        let Victim { stealer: _, pass } = victim;
        self.worker.absorb::<Returned>(pass);
    }

    // How many numbers are left.
    pub(crate) fn left(&mut self) -> usize
        ensures { (left : List ℕ) × (length left ≡ result) × Settles (own_view self.old) left }
    {
        self.worker.len_as::<Rest>()
    }
}
