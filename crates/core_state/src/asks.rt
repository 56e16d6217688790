ghost use Rattle.std.specs.Prelude.{◌≡◌, ℕ, ◌+◌, ◌<◌, ◌≤◌, [], cond, ◌^◌, length, IfOk, OnOk, OnErr, true, false};
ghost use Rattle.std.specs.FinMap as map;
ghost use Rattle.std.specs.List.{list_all};
ghost use Rattle.task_states.specs.States.{is_stopped as is_stopped_in};
ghost use Rattle.cht_history.specs.declared.event.Event.TheVariants.{Ask as AskEvent, Collect, Stop};
ghost use Rattle.name_machine.specs.States.{has_ask as has_ask_in};
ghost use Rattle.name_machine.specs.Forgetting.{forgotten};
ghost use Rattle.name_machine.specs.Replay.{may_mention, is_delivered};
ghost use Rattle.name_machine.specs.Standing.{IsOrderly};
ghost use Rattle.chunk_refs.specs.Room.{workers_of};
ghost use Rattle.core_state.specs.AskTable.{room_at};
ghost use Rattle.core_state.specs.Contents.{after_event};
ghost use Rattle.core_steps.specs.Conditions.{HangsTogether, IsDelivered};

use crate::asked::Asks;
use crate::inputs::{given, hold_inputs};
use crate::state::{CoreState, make_room};
use cht_history::{Event, Journal};
use cht_ids::{List, Memory, Ref, TaskNo};
use chunk_refs::Refs;
use task_graph::Tasks;
use task_types::Payload;

// Room for an ask with at most four inputs, and for the events that are owed then.
fn make_ask_room<C: Payload, K: Copy>(
    journal: &mut Journal<K>,
    names: &mut Refs<C>,
    graph: &mut Tasks<K>,
    asks: &mut Asks,
    owed: u64,
    c: u32,
) -> Result<(), Memory>
    requires worker { 0 < workers_of names.old }
    requires caller { c < length asks.old.rooms }
    ensures events { journal.new.events ≡ journal.old.events }
    ensures spare { journal.old.spare ≤ journal.new.spare }
    ensures names { names.new.names ≡ names.old.names }
    ensures stores { length names.new.room.bodies ≡ length names.old.room.bodies }
    ensures graph { graph.new.graph ≡ graph.old.graph }
    ensures asks { asks.new.asks ≡ asks.old.asks }
    ensures callers { length asks.new.rooms ≡ length asks.old.rooms }
    ensures few { OnOk result (owed < 2 ^ 31) }
    ensures journal { OnOk result (owed + 5 ≤ journal.new.spare) }
    ensures ids { OnOk result (4 ≤ names.new.room.ids) }
    ensures tasks { OnOk result (1 ≤ graph.new.spare) }
    ensures more { OnOk result (1 ≤ asks.new.spare) }
    ensures room { OnOk result (1 ≤ room_at asks.new.rooms c) }
{
    make_room(journal, owed, 5)?;
    names.reserve(0, 0, 4)?;
    graph.reserve(1)?;
    asks.reserve(c)
}

// How many events more are owed for an ask: its collect and a delete, and with the caller's first ask its stop and its abandon.
fn due_for_ask(asks_already: bool) -> u64
    ensures { result ≡ cond asks_already 2 4 }
{
    if asks_already { 2 } else { 4 }
}

// How many events fewer are owed once an ask was collected: itself, and with the caller's last ask its stop and its abandon.
fn due_for_collect(asks_more: bool) -> u64
    ensures { result ≡ cond asks_more 1 3 }
{
    if asks_more { 1 } else { 3 }
}

impl<C: Payload, K: Copy> CoreState<C, K> {
    /// A caller asks a task of this kind on what at most four references name. Answers the task's number.
    pub fn ask(&mut self, c: u32, kind: K, inputs: &[Ref]) -> Result<TaskNo, Memory>
        requires caller { c < self.old.callers }
        requires few { length inputs.now ≤ 4 }
        requires goes_on { is_stopped_in self.old.control.graph c ≡ false }
        requires mentioned { list_all (may_mention (forgotten C.arity self.old.control) c) inputs.now ≡ true }
        requires orderly { IsOrderly C.arity self.old.control }
        requires together { HangsTogether self.old.control }
        ensures task { IfOk result (λ task. task ≡ self.old.control.drawn + 1) }
        ensures event { IfOk result (λ task. self.new ≡ after_event self.old [] (AskEvent c task kind inputs.now)) }
        ensures unchanged { OnErr result (self.new ≡ self.old) }
    {
        let mut mentioned = List::new(self.alloc);
        mentioned.extend(inputs)?;
        make_ask_room(
            &mut self.journal,
            &mut self.names,
            &mut self.graph,
            &mut self.asks,
            self.owed,
            c,
        )?;
        let _events = self.journal.len();
        let more = due_for_ask(self.asks.has(c));
        let task = self.counter.next();
        let held = hold_inputs(&mut self.names, &mut self.counter, task, inputs);
        let number = self.counter.next();
        self.graph.add(task, c, kind, given(&held, inputs.len()));
        self.graph.asked(task, number);
        self.asks.add(c, task, number);
        self.names.rules();
        self.owed += more;
        self.journal.push_reserved(Event::Ask {
            caller: c,
            task,
            kind,
            inputs: mentioned,
        });
        Ok(task)
    }

    /// A caller collects the output of a task that it asked, which was delivered. It takes no memory.
    pub fn collect(&mut self, c: u32, task: TaskNo) -> Ref
        requires caller { c < self.old.callers }
        requires goes_on { is_stopped_in self.old.control.graph c ≡ false }
        requires delivered { IsDelivered self.old.control c task }
        requires orderly { IsOrderly C.arity self.old.control }
        ensures output { is_delivered c result (map.get self.old.control.asks task) ≡ true }
        ensures event { self.new ≡ after_event self.old [] (Collect c task result) }
    {
        let got = self.asks.take(task).unwrap();
        self.names.rules();
        self.owed -= due_for_collect(self.asks.has(c));
        self.journal.push_reserved(Event::Collect {
            caller: c,
            task,
            got,
        });
        got
    }

    /// A caller that has an ask is stopped. It takes no memory.
    pub fn stop(&mut self, c: u32)
        requires caller { c < self.old.callers }
        requires asked { has_ask_in self.old.control.asks c ≡ true }
        requires goes_on { is_stopped_in self.old.control.graph c ≡ false }
        ensures { self.new ≡ after_event self.old [] (Stop c) }
    {
        self.names.rules();
        self.graph.stop(c);
        self.owed -= 1;
        self.journal.push_reserved(Event::Stop { caller: c });
    }
}
