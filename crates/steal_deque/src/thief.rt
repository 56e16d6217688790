ghost use Rattle.std.specs.Prelude.{◌≡◌, ◌<◌, [], ◌∷◌, length, slice_set, MatchOption};
ghost use Rattle.steal_deque.specs.History.{HeldFew, stealing};
ghost use Rattle.steal_deque.specs.Groups.{views_of, view_at, SameThief, reach_of};

use crate::Victim;
use cht_ids::TaskNo;
use std::sync::Wait;

/// The thieves' ends of all deques, for one worker.
#[derive(Drop)]
pub struct Thief {
    pub(crate) number: u32,
    pub(crate) victims: Vec<Victim>,
}

impl Thief {
    /// Takes the oldest number of a worker's deque. `None` only where that deque held at most one number at a moment of
    /// this call: the last one may be in its owner's hand.
    pub fn steal<R: Wait>(&mut self, rt: &R, victim: u32) -> Option<TaskNo>
        requires { victim < reach_of self.old }
        ensures same { SameThief self.old self.new }
        ensures told { MatchOption result (HeldFew (view_at self.old victim) × (views_of self.new ≡ views_of self.old)) (λ task. views_of self.new ≡ slice_set (views_of self.old) victim (stealing (view_at self.old victim) (task ∷ []))) }
    {
        self.victims[victim as usize].steal(rt)
    }
}
