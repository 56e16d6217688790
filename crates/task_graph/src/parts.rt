// Tasks among those of their callers.
ghost use Rattle.std.specs.Prelude.{◌≡◌, ◌<◌, ◌≤◌, ◌+◌, ℕ, Some, None, IsSome, length, OnOk, Option};
ghost use Rattle.std.specs.Option.{option_map};
ghost use Rattle.std.specs.HashMap.{hash_map_len};
ghost use Rattle.task_links.specs.Inside.{entries_at, room_of, station_at, IsSameSize, shown_entry};
ghost use Rattle.task_links.specs.Kept.{opened};
ghost use Rattle.task_links.specs.Weave.{IsBeside, Middle, IsInserted, IsWithout, link_at};
ghost use Rattle.task_links.specs.Callers.{caller_at, bounds_at, load_at};
ghost use Rattle.task_links.specs.Order.{IsOrdered, IsJustBelow, IsBehind, with_after_at, with_before_at, with_first_at, with_last_at};
ghost use Rattle.task_links.specs.declared.entries.Spot.{Spot as AnySpot};
ghost use Rattle.task_links.specs.declared.entries.Link.{Link as AnyLink};
ghost use Rattle.task_states.specs.States.{task_at, AwaitsNothing};
ghost use Rattle.task_states.specs.Awaiters.{IsNotAwaited};
ghost use Rattle.task_states.specs.Steps.{removed, added};
ghost use Rattle.task_graph.specs.Graphs.{graph_of, IsWhole, IsBare};

use cht_ids::Memory;
use task_links::{Caller, Callers, Entries, Entry, Kept};

// All tasks, and what is kept for their callers.
#[derive(Drop)]
pub(crate) struct Parts<K> {
    pub entries: Entries<K>,
    pub callers: Callers,
}

impl<K: Copy> Parts<K> {
    // The task of a caller with the greatest lower number, looked for from the last.
    fn below(&self, caller: u32, task: u128) -> Option<u128>
        requires caller { caller < 64 }
        requires ordered { IsOrdered (bounds_at (caller_at self.now.callers)) (station_at (entries_at self.now.entries)) }
        requires new { entries_at self.now.entries task ≡ None }
        ensures { IsJustBelow (station_at (entries_at self.now.entries)) caller task result }
    {
        let row = self.callers.get(caller);
        let mut at = row.last;
        while let Some(other) = at {
            if other < task {
                return at;
            }
            let kept = self.entries.look(other);
            at = kept.leader();
        }
        None
    }

    // What follows a task among those of its caller, or the first where none is given.
    fn behind(&self, caller: u32, before: Option<u128>) -> Option<u128>
        requires caller { caller < 64 }
        requires there { (q : ℕ) → before ≡ Some q → IsSome (entries_at self.now.entries q) }
        ensures { IsBehind (bounds_at (caller_at self.now.callers)) (station_at (entries_at self.now.entries)) caller before result }
    {
        match before {
            None => {
                let row = self.callers.get(caller);
                row.first
            }
            Some(task) => {
                let kept = self.entries.look(task);
                kept.follower()
            }
        }
    }

    // Between which two tasks of a caller a number stands. Where it is greater than all others it is found at once.
    fn around(&self, caller: u32, task: u128) -> (Option<u128>, Option<u128>)
        requires caller { caller < 64 }
        requires ordered { IsOrdered (bounds_at (caller_at self.now.callers)) (station_at (entries_at self.now.entries)) }
        requires new { entries_at self.now.entries task ≡ None }
        ensures below { IsJustBelow (station_at (entries_at self.now.entries)) caller task result.0 }
        ensures behind { IsBehind (bounds_at (caller_at self.now.callers)) (station_at (entries_at self.now.entries)) caller result.0 result.1 }
    {
        let row = self.callers.get(caller);
        if let Some(last) = row.last {
            if last < task {
                return (Some(last), None);
            }
        }
        let before = self.below(caller, task);
        let after = self.behind(caller, before);
        (before, after)
    }

    // Writes what follows a task among those of a caller, or the first where none is given.
    fn lead_on(&mut self, caller: u32, before: Option<u128>, to: Option<u128>)
        requires caller { caller < 64 }
        requires there { (q : ℕ) → before ≡ Some q → IsSome (entries_at self.old.entries q) }
        ensures stations { (q : ℕ) → station_at (entries_at self.new.entries) q ≡ option_map (with_after_at q before to) (station_at (entries_at self.old.entries) q) }
        ensures bounds { (q : ℕ) → bounds_at (caller_at self.new.callers) q ≡ option_map (with_first_at q caller before to) (bounds_at (caller_at self.old.callers) q) }
        ensures load { (q : ℕ) → load_at (caller_at self.new.callers) q ≡ load_at (caller_at self.old.callers) q }
        ensures rows { length self.new.callers.rows ≡ length self.old.callers.rows }
        ensures beside { IsBeside (entries_at self.old.entries) (entries_at self.new.entries) }
        ensures size { IsSameSize self.old.entries self.new.entries }
    {
        match before {
            None => {
                let row = self.callers.get(caller);
                self.callers.set(caller, Caller { first: to, ..row });
            }
            Some(task) => self.entries.set_after(task, to),
        }
    }

    // Writes what stands before a task among those of a caller, or the last where none is given.
    fn lead_back(&mut self, caller: u32, after: Option<u128>, to: Option<u128>)
        requires caller { caller < 64 }
        requires there { (q : ℕ) → after ≡ Some q → IsSome (entries_at self.old.entries q) }
        ensures stations { (q : ℕ) → station_at (entries_at self.new.entries) q ≡ option_map (with_before_at q after to) (station_at (entries_at self.old.entries) q) }
        ensures bounds { (q : ℕ) → bounds_at (caller_at self.new.callers) q ≡ option_map (with_last_at q caller after to) (bounds_at (caller_at self.old.callers) q) }
        ensures load { (q : ℕ) → load_at (caller_at self.new.callers) q ≡ load_at (caller_at self.old.callers) q }
        ensures rows { length self.new.callers.rows ≡ length self.old.callers.rows }
        ensures beside { IsBeside (entries_at self.old.entries) (entries_at self.new.entries) }
        ensures size { IsSameSize self.old.entries self.new.entries }
    {
        match after {
            None => {
                let row = self.callers.get(caller);
                self.callers.set(caller, Caller { last: to, ..row });
            }
            Some(task) => self.entries.set_before(task, to),
        }
    }

    /// One more task, among those of its caller.
    pub fn place(&mut self, task: u128, entry: Kept<K>)
        requires caller { entry.caller < 64 }
        requires ordered { IsOrdered (bounds_at (caller_at self.old.callers)) (station_at (entries_at self.old.entries)) }
        requires new { entries_at self.old.entries task ≡ None }
        requires room { 0 < room_of self.old.entries }
        ensures ordered { IsOrdered (bounds_at (caller_at self.new.callers)) (station_at (entries_at self.new.entries)) }
        ensures beside { (middle : Middle K) × IsInserted (entries_at self.old.entries) middle task (opened entry) × IsBeside middle (entries_at self.new.entries) }
        ensures load { (q : ℕ) → load_at (caller_at self.new.callers) q ≡ load_at (caller_at self.old.callers) q }
        ensures rows { length self.new.callers.rows ≡ length self.old.callers.rows }
        ensures len { hash_map_len self.new.entries.tasks ≡ hash_map_len self.old.entries.tasks + 1 }
        ensures room { room_of self.old.entries ≤ room_of self.new.entries + 1 }
    {
        let caller = entry.caller;
        let gap = self.around(caller, task);
        let before = gap.0;
        let after = gap.1;
        self.entries.insert(task, entry, before, after);
        self.lead_on(caller, before, Some(task));
        self.lead_back(caller, after, Some(task));
    }

    /// Takes a task out from those of its caller. Answers what was kept of it.
    pub fn take(&mut self, task: u128) -> Entry<K>
        requires ordered { IsOrdered (bounds_at (caller_at self.old.callers)) (station_at (entries_at self.old.entries)) }
        requires there { IsSome (entries_at self.old.entries task) }
        requires callers { (q : ℕ) → IsSome (bounds_at (caller_at self.old.callers) q) → q < 64 }
        ensures ordered { IsOrdered (bounds_at (caller_at self.new.callers)) (station_at (entries_at self.new.entries)) }
        ensures entry { entries_at self.old.entries task ≡ Some result }
        ensures beside { (middle : Middle K) × IsWithout (entries_at self.old.entries) middle task × IsBeside middle (entries_at self.new.entries) }
        ensures load { (q : ℕ) → load_at (caller_at self.new.callers) q ≡ load_at (caller_at self.old.callers) q }
        ensures rows { length self.new.callers.rows ≡ length self.old.callers.rows }
        ensures len { hash_map_len self.new.entries.tasks + 1 ≡ hash_map_len self.old.entries.tasks }
        ensures room { room_of self.old.entries ≤ room_of self.new.entries }
    {
        let entry = self.entries.remove(task);
        self.lead_on(entry.caller, entry.before, entry.after);
        self.lead_back(entry.caller, entry.after, entry.before);
        entry
    }

    /// A task that awaits nothing, and that nobody awaits, goes.
    pub fn remove(&mut self, task: u128)
        requires whole { IsWhole self.old }
        requires there { IsSome (task_at (graph_of self.old) task) }
        requires waits { AwaitsNothing (graph_of self.old) task }
        requires awaited { IsNotAwaited (graph_of self.old) task }
        ensures whole { IsWhole self.new }
        ensures graph { graph_of self.new ≡ removed (graph_of self.old) task }
        ensures len { hash_map_len self.new.entries.tasks + 1 ≡ hash_map_len self.old.entries.tasks }
        ensures room { room_of self.old.entries ≤ room_of self.new.entries }
    {
        let entry = self.take(task);
        if entry.runner.is_some() {
            let row = self.callers.get(entry.caller);
            self.count(entry.caller, row.running - 1);
        }
    }

    /// One more task that awaits nothing yet.
    pub fn place_idle(&mut self, task: u128, entry: Kept<K>)
        requires whole { IsWhole self.old }
        requires caller { entry.caller < 64 }
        requires new { entries_at self.old.entries task ≡ None }
        requires bare { IsBare (opened entry) }
        requires room { 0 < room_of self.old.entries }
        ensures whole { IsWhole self.new }
        ensures graph { graph_of self.new ≡ added (graph_of self.old) task entry.caller entry.kind (shown_entry (opened entry)).inputs }
        ensures links { (p : AnySpot) (l : AnyLink) → link_at (entries_at self.new.entries) p ≡ Some l → link_at (entries_at self.old.entries) p ≡ Some l }
        ensures len { hash_map_len self.new.entries.tasks ≡ hash_map_len self.old.entries.tasks + 1 }
        ensures room { room_of self.old.entries ≤ room_of self.new.entries + 1 }
    {
        self.place(task, entry);
    }

    /// Makes room for so many tasks.
    pub fn reserve(&mut self, tasks: u32) -> Result<(), Memory>
        ensures at { (q : ℕ) → entries_at self.new.entries q ≡ entries_at self.old.entries q }
        ensures callers { self.new.callers ≡ self.old.callers }
        ensures len { hash_map_len self.new.entries.tasks ≡ hash_map_len self.old.entries.tasks }
        ensures ok { OnOk result (tasks ≤ room_of self.new.entries) }
        ensures room { room_of self.old.entries ≤ room_of self.new.entries }
    {
        self.entries.tasks.reserve(tasks as usize)?;
        Ok(())
    }
}
