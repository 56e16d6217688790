// What is kept for each caller.
ghost use Rattle.std.specs.Prelude.{◌≡◌, ◌<◌, ℕ, cond, nat_eq, Some, None, false, length};
ghost use Rattle.task_links.specs.Callers.{caller_at};

/// The first and the last task of a caller, how many of its tasks are Running, and whether it is stopped.
#[derive(Clone, Copy)]
pub struct Caller {
    pub first: Option<u128>,
    pub last: Option<u128>,
    pub running: u32,
    pub stopped: bool,
}

/// All callers by number.
#[derive(Drop)]
pub struct Callers {
    pub rows: [Caller; 64],
}

impl Callers {
    /// No caller has a task, and none is stopped.
    pub fn new() -> Callers
        ensures rows { (caller : ℕ) → caller < 64 → caller_at result caller ≡ Some (record { first = None; last = None; running = 0; stopped = false }) }
        ensures len { length result.rows ≡ 64 }
    {
        let none = Caller {
            first: None,
            last: None,
            running: 0,
            stopped: false,
        };
        Callers { rows: [none; 64] }
    }

    /// What is kept for a caller.
    #[inline]
    pub fn get(&self, caller: u32) -> Caller
        requires { caller < 64 }
        ensures { caller_at self.now caller ≡ Some result }
    {
        self.rows[caller as usize]
    }

    /// Writes what is kept for a caller.
    #[inline]
    pub fn set(&mut self, caller: u32, row: Caller)
        requires { caller < 64 }
        ensures at { (q : ℕ) → caller_at self.new q ≡ cond (nat_eq q caller) (Some row) (caller_at self.old q) }
        ensures len { length self.new.rows ≡ length self.old.rows }
    {
        self.rows[caller as usize] = row;
    }
}
