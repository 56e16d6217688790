ghost use Rattle.std.specs.Prelude.{◌≡◌, [], ◌∷◌, ◌++◌, MatchOption};
ghost use Rattle.crossbeam_deque.specs.Steals.{MatchSteal};
ghost use Rattle.steal_deque.specs.Ends.{victim_view, SameVictim};
ghost use Rattle.steal_deque.specs.History.{HeldFew, stealing};

use crate::Victim;
use crate::rule::Steal as Stole;
use cht_ids::TaskNo;
use crossbeam_deque::Steal;
use std::sync::Wait;

impl Victim {
    // Takes the oldest number that is left, and looks again as long as others take numbers under its hand. `None` only
    // where at most one was left at a moment of this call.
    pub(crate) fn steal<R: Wait>(&mut self, rt: &R) -> Option<TaskNo>
        ensures same { SameVictim self.old self.new }
        ensures told { MatchOption result (HeldFew (victim_view self.old) × (victim_view self.new ≡ victim_view self.old)) (λ task. victim_view self.new ≡ stealing (victim_view self.old) (task ∷ [])) }
    {
        for _ in rt.forever() {
            match self.look() {
                Steal::Success(task) => return Some(task),
                Steal::Empty => return None,
                Steal::Retry => {}
            }
        }
        unreachable!()
    }

    // One look at the oldest number.
    fn look(&mut self) -> Steal<TaskNo>
        ensures same { SameVictim self.old self.new }
        ensures told { MatchSteal result (HeldFew (victim_view self.old) × (victim_view self.new ≡ victim_view self.old)) (victim_view self.new ≡ victim_view self.old) (λ task. victim_view self.new ≡ stealing (victim_view self.old) (task ∷ [])) }
    {
        self.stealer.steal_as::<Stole>(&mut self.pass)
    }
}
