ghost use Rattle.std.specs.Prelude.{◌≡◌};
ghost use Rattle.cht_gate.specs.Looks.{looks_of};

use crate::Gate;
use cht_ids::TaskNo;
use crossbeam_utils::CachePadded;
use std::sync::Wait;
use std::sync::atomic::AtomicU64;
use std::sync::atomic::Ordering::SeqCst;
use std::thread;

// What the counter says: nobody is held, one execution is held, or two have met. It may stand above `MET`.
const NOBODY: u64 = 0;

const HELD: u64 = 1;

const MET: u64 = 2;

/// A gate for tests, at which two executions meet where the second enters while the first is held. It sends nobody away.
///
/// While no two have met, an execution that finds none held is held itself, until another one enters or until it has
/// looked a fixed number of times. Each look is one atomic step.
#[derive(Drop)]
pub struct MeetGate {
    turns: u64,
    entered: CachePadded<AtomicU64>,
}

impl MeetGate {
    /// A gate at which nobody has met, and where each execution that is held looks at most `turns` times.
    pub fn new(turns: u64) -> MeetGate
        ensures { looks_of result ≡ turns }
    {
        MeetGate {
            turns,
            entered: CachePadded::new(AtomicU64::new(NOBODY)),
        }
    }

    /// Whether two executions have met here.
    pub fn met(&self) -> bool {
        self.entered.load(SeqCst) >= MET
    }

    // Looks until another execution has entered, `turns` times at most, and then is held no more.
    fn hold(&self) {
        for _ in 0..self.turns {
            if self.met() {
                return;
            }
            thread::yield_now();
        }
        // Where this fails another execution entered after the last look.
        let _ = self.entered.compare_exchange(HELD, NOBODY, SeqCst, SeqCst);
    }
}

impl Gate for MeetGate {
    ghost use Rattle.std.specs.Prelude.{false};

    ghost may_send_away = { λ gate worker. false };

    fn enter<R: Wait>(&self, _rt: &R, _worker: u32, _task: TaskNo) {
        if self.met() {
            return;
        }
        // One step tells who was first: the second of two finds `HELD` and leaves `MET`.
        if self.entered.fetch_add(1, SeqCst) == NOBODY {
            self.hold();
        }
    }

    fn leave(&self, _worker: u32, _task: TaskNo) {}

    fn goes_on(&self, _worker: u32) -> bool {
        true
    }
}
