ghost use Rattle.std.specs.Prelude.{ℕ, Bool, IsTrue, IsFalse};

use cht_ids::TaskNo;
use std::sync::Wait;

/// What the workers of an engine pass around their executions. A gate changes when workers run, and never what they do.
pub trait Gate {
    /// The workers that the gate may send away, as a test on their numbers, which count from 0. It never changes.
    ghost may_send_away: { Self → ℕ → Bool };

    /// A worker is about to execute a task. It may wait here.
    fn enter<R: Wait>(&self, rt: &R, worker: u32, task: TaskNo);

    /// A worker has executed a task.
    fn leave(&self, worker: u32, task: TaskNo);

    /// Whether a worker goes on with the current ask. `false` only for a worker that the gate may send away.
    fn goes_on(&self, worker: u32) -> bool
        ensures { IsFalse result → IsTrue (may_send_away self.now worker) };
}
