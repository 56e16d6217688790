ghost use Rattle.std.specs.Prelude.{◌≡◌, ◌↔◌, ◌&&◌, nat_eq, ℕ, ◌+◌, ◌^◌, ◌<◌, ◌≤◌, [], length, Some, None, IfOk, OnOk, IfSome, IfNone, IsSome, IsTrue, option_map, true};
ghost use Rattle.std.specs.FinMap as map;
ghost use Rattle.task_states.specs.States.{task_at, is_stopped as is_stopped_in, running as running_in};
ghost use Rattle.task_states.specs.Awaiters.{IsLeastOf, IsRunnable, IsWanted};
ghost use Rattle.task_graph.specs.Rows.{unfinished_in};
ghost use Rattle.name_machine.specs.States.{Ask, has_ask as has_ask_in};
ghost use Rattle.name_machine.specs.Control.{no_control};
ghost use Rattle.name_machine.specs.Forgetting.{forgotten};
ghost use Rattle.name_machine.specs.Replay.{runs_nothing};
ghost use Rattle.name_machine.specs.Standing.{HasNothing};
ghost use Rattle.cht_ids.specs.declared.refs.Ref.{Ref as AnyRef};
ghost use Rattle.core_steps.specs.Conditions.{HangsTogether, RunsTask};
ghost use Rattle.core_state.specs.Lists.{AreIdle};

use crate::asked::Asks;
use crate::finish::Space;
use cht_history::Journal;
use cht_ids::{Counter, Memory, Ref, TaskNo};
use chunk_refs::Refs;
use std::alloc::Global;
use std::marker::Model;
use task_graph::{TaskRow, Tasks};
use task_types::Payload;

/// The control state of a core with up to 64 callers and 64 workers, and the journal of the events that led there.
///
/// Each call that changes it is one event: it makes of the control state what the event makes of it, and writes the event,
/// or answers `Memory`, and then all is as before. A call costs a constant, or a logarithm of what is live, for each identifier
/// and task that it makes, hands on or ends.
#[derive(Drop)]
pub struct CoreState<C: Payload, K: Copy> {
    pub(crate) alloc: Global,
    pub(crate) counter: Counter,
    pub(crate) names: Refs<C>,
    pub(crate) asks: Asks,
    pub(crate) graph: Tasks<K>,
    pub(crate) journal: Journal<K>,
    // for how many events that take no memory room in the journal is kept
    pub(crate) owed: u64,
    // what each worker runs
    pub(crate) running: Vec<Option<TaskNo>>,
    // what the next finish fills
    pub(crate) space: Space,
    pub(crate) callers: u32,
}

impl<C: Payload, K: Copy> Model for CoreState<C, K> {
    ghost use Rattle.core_state.specs.Contents.{Contents};
    ghost use Rattle.core_state.specs.Codes.{contents_code};

    ghost Value = { Contents C K };

    ghost coded = { contents_code C.code K.code };

    ghost use Rattle.core_state.specs.Inside.{contents_of, IsKept};

    ghost view = { λ state. contents_of state.counter state.names state.asks state.graph.graph state.journal state.callers state.running.items };

    ghost invariant = { λ state. IsKept state.counter state.names state.asks state.graph.graph state.journal state.callers state.running.items state.owed };
}

// Whether no identifiers are left, and no asks.
fn none_left(ids: u64, asked: bool) -> bool
    ensures { result ≡ (nat_eq ids 0 && asked) }
{
    ids == 0 && asked
}

// So many workers that run nothing.
fn idle_workers(alloc: Global, workers: u32) -> Result<Vec<Option<TaskNo>>, Memory>
    ensures len { IfOk result (λ running. length running.items ≡ workers) }
    ensures idle { IfOk result (λ running. AreIdle running.items) }
{
    let mut running = Vec::new(alloc);
    for _worker in 0..workers {
        running.push(None)?;
    }
    Ok(running)
}

// Makes room for what is owed and so many events more.
pub(crate) fn make_room<K: Copy>(
    journal: &mut Journal<K>,
    owed: u64,
    more: u64,
) -> Result<(), Memory>
    requires { more ≤ 8 }
    ensures events { journal.new.events ≡ journal.old.events }
    ensures spare { journal.old.spare ≤ journal.new.spare }
    ensures room { OnOk result (owed + more ≤ journal.new.spare) }
    ensures few { OnOk result (owed < 2 ^ 31) }
{
    if owed >= 1 << 31 {
        return Err(Memory);
    }
    journal.reserve((owed + more) as u32)
}

impl<C: Payload, K: Copy> CoreState<C, K> {
    /// Nothing is held, asked or begun, and the journal is empty. Callers and workers count from 0.
    pub fn new(alloc: Global, callers: u32, workers: u32) -> Result<CoreState<C, K>, Memory>
        requires callers { callers ≤ 64 }
        requires some { 1 ≤ workers }
        requires workers { workers ≤ 64 }
        ensures control { IfOk result (λ state. state.control ≡ no_control) }
        ensures events { IfOk result (λ state. state.events ≡ []) }
        ensures callers { IfOk result (λ state. state.callers ≡ callers) }
        ensures workers { IfOk result (λ state. state.workers ≡ workers) }
    {
        let names = Refs::new(alloc, workers)?;
        let asks = Asks::new(alloc, callers)?;
        let running = idle_workers(alloc, workers)?;
        Ok(CoreState {
            alloc,
            counter: Counter::new(),
            names,
            asks,
            graph: Tasks::new(alloc),
            journal: Journal::new(alloc),
            owed: 0,
            running,
            space: Space::new(alloc),
            callers,
        })
    }

    /// What is known of a task, found at once; `None` exactly where there is no such unfinished task.
    pub fn row(&self, task: TaskNo) -> Option<TaskRow<K>>
        ensures row { option_map unfinished_in result ≡ task_at self.now.control.graph task }
        ensures few { IfSome result (λ row. row.count ≤ 4) }
    {
        self.graph.row(task)
    }

    /// Whether a caller is stopped.
    pub fn is_stopped(&self, c: u32) -> bool
        requires { c < self.now.callers }
        ensures { result ≡ is_stopped_in self.now.control.graph c }
    {
        self.graph.is_stopped(c)
    }

    /// How many tasks of a caller are Running.
    pub fn running(&self, c: u32) -> u32
        requires { c < self.now.callers }
        ensures { result ≡ running_in self.now.control.graph c }
    {
        self.graph.running(c)
    }

    /// The least Ready task of a caller that is not stopped; `None` exactly where there is none.
    pub fn least_ready(&self) -> Option<TaskNo>
        ensures { IsLeastOf (IsRunnable self.now.control.graph) result }
    {
        self.graph.least_ready()
    }

    /// Whether an unfinished task has a caller that is not stopped.
    pub fn any(&self) -> bool
        ensures { IsTrue result ↔ ((task : ℕ) × IsWanted self.now.control.graph task) }
    {
        self.graph.any()
    }

    /// Whether a caller has an ask: of a task whose output it has not collected.
    pub fn has_ask(&self, c: u32) -> bool
        requires { c < self.now.callers }
        ensures { result ≡ has_ask_in self.now.control.asks c }
    {
        self.asks.has(c)
    }

    /// The output of a task that was asked, once it was delivered.
    pub fn delivered(&self, task: TaskNo) -> Option<Ref>
        requires { IsSome (map.get self.now.control.asks task) }
        ensures { (ask : Ask (Unit {0}) AnyRef) → map.get self.now.control.asks task ≡ Some ask → result ≡ ask.delivered }
    {
        self.asks.delivered(task)
    }

    /// The task that a worker runs; `None` exactly where it runs none.
    pub fn runs(&self, w: u32) -> Option<TaskNo>
        requires { w < self.now.workers }
        ensures task { IfSome result (RunsTask self.now.control w) }
        ensures none { IfNone result (runs_nothing (forgotten C.arity self.now.control) w ≡ true) }
    {
        self.running[w as usize]
    }

    /// Whether nothing is left: no identifier, body, ask or unfinished task, and no caller is stopped.
    pub fn is_empty(&self) -> bool
        requires { HangsTogether self.now.control }
        ensures { IsTrue result ↔ HasNothing self.now.control }
    {
        self.names.rules();
        none_left(self.names.live_ids(), self.asks.is_empty())
    }

    /// How many events there are.
    pub fn events(&self) -> u64
        ensures { result ≡ length self.now.events }
    {
        self.journal.len()
    }

    /// The journal of all events.
    pub fn into_journal(self) -> Journal<K>
        ensures { result.events ≡ self.events }
    {
        self.journal
    }
}
