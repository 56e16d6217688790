// The asks, and what leads to them: the number of the output, and a set of each caller's.
ghost use Rattle.std.specs.Prelude.{◌≡◌, ◌==◌, ◌&&◌, cond, nat_eq, ℕ, ◌≤◌, ◌<◌, length, None, Some, IsSome, IfOk, OnOk, IfSome};
ghost use Rattle.std.specs.FinMap as map;
ghost use Rattle.std.specs.Option.{is_some};
ghost use Rattle.std.specs.List.{list_any, IsDistinct};
ghost use Rattle.std.specs.Map.{lookup, keys_of};
ghost use Rattle.std.specs.HashMap.{spare};
ghost use Rattle.cht_ids.specs.declared.refs.Ref.{Ref as AnyRef};
ghost use Rattle.name_machine.specs.States.{Ask, has_ask};
ghost use Rattle.name_machine.specs.Control.{is_uncollected, answered_with, with_number};
ghost use Rattle.task_states.specs.Maps.{each_changed};
ghost use Rattle.core_state.specs.AskTable.{room_at, IsAskOf};
ghost use Rattle.core_state.specs.Lists.{is_listed, items_of, rooms_of};

use crate::rows::{empty_rows, last_task, list_task, reserve_row, unlist_task};
use cht_ids::{Memory, Ref, TaskNo};
use indexmap::IndexSet;
use std::alloc::Global;
use std::collections::HashMap;
use std::marker::Model;

// An ask: whose it is, the number of its output, and the output once it was delivered.
#[derive(Clone, Copy)]
pub(crate) struct Kept {
    pub caller: u32,
    pub number: u128,
    pub delivered: Option<Ref>,
}

// All asks.
#[derive(Drop)]
pub(crate) struct Asks {
    by_task: HashMap<TaskNo, Kept>,
    by_output: HashMap<u128, TaskNo>,
    of_callers: Vec<IndexSet<TaskNo>>,
}

impl Model for Asks {
    ghost use Rattle.core_state.specs.AskTable.{AskTable, ask_table_code};

    ghost Value = { AskTable };

    ghost coded = { ask_table_code };

    ghost use Rattle.core_state.specs.Asked.{table_of, IsTable};

    ghost view = { table_of };

    ghost invariant = { IsTable };
}

// Whether an ask is of a caller and was delivered.
fn is_delivered_to(kept: &Kept, c: u32) -> bool
    ensures { result ≡ (nat_eq kept.now.caller c && is_some kept.now.delivered) }
{
    kept.caller == c && kept.delivered.is_some()
}

// Room for one more ask of a caller.
fn reserve_all(
    asks: &mut HashMap<TaskNo, Kept>,
    outputs: &mut HashMap<u128, TaskNo>,
    rows: &mut Vec<IndexSet<TaskNo>>,
    c: u32,
) -> Result<(), Memory>
    requires { c < length rows.old.items }
    ensures asks { (q : ℕ) → lookup (nat_eq q) asks.new.entries ≡ lookup (nat_eq q) asks.old.entries }
    ensures unique { IsDistinct nat_eq (keys_of asks.new.entries) }
    ensures outputs { (n : ℕ) → lookup (nat_eq n) outputs.new.entries ≡ lookup (nat_eq n) outputs.old.entries }
    ensures items { items_of rows.new.items ≡ items_of rows.old.items }
    ensures len { length rows.new.items ≡ length rows.old.items }
    ensures more_asks { OnOk result (1 ≤ spare asks.new) }
    ensures more_outputs { OnOk result (1 ≤ spare outputs.new) }
    ensures room { OnOk result (1 ≤ room_at (rooms_of rows.new.items) c) }
{
    asks.reserve(1)?;
    outputs.reserve(1)?;
    reserve_row(rows, c)
}

// One more ask, for which there is room.
fn put_ask(asks: &mut HashMap<TaskNo, Kept>, task: TaskNo, kept: Kept)
    requires { 1 ≤ spare asks.old }
    ensures at { (q : ℕ) → lookup (nat_eq q) asks.new.entries ≡ cond (nat_eq task q) (Some kept) (lookup (nat_eq q) asks.old.entries) }
    ensures unique { IsDistinct nat_eq (keys_of asks.new.entries) }
{
    let reserved: Result<_, _> = asks.insert(task, kept);
    let _old = reserved.unwrap();
}

// Another ask in place of one that is there.
fn write_ask(asks: &mut HashMap<TaskNo, Kept>, task: TaskNo, kept: Kept)
    requires { IsSome (lookup (nat_eq task) asks.old.entries) }
    ensures at { (q : ℕ) → lookup (nat_eq q) asks.new.entries ≡ cond (nat_eq task q) (Some kept) (lookup (nat_eq q) asks.old.entries) }
    ensures unique { IsDistinct nat_eq (keys_of asks.new.entries) }
{
    if let Some(place) = asks.get_mut(&task) {
        *place = kept;
    }
}

// Takes an ask out.
fn take_ask(asks: &mut HashMap<TaskNo, Kept>, task: TaskNo) -> Kept
    requires { IsSome (lookup (nat_eq task) asks.old.entries) }
    ensures kept { lookup (nat_eq task) asks.old.entries ≡ Some result }
    ensures at { (q : ℕ) → lookup (nat_eq q) asks.new.entries ≡ cond (nat_eq task q) None (lookup (nat_eq q) asks.old.entries) }
    ensures unique { IsDistinct nat_eq (keys_of asks.new.entries) }
{
    asks.remove(&task).unwrap()
}

// The number of one more output, for which there is room.
fn put_output(outputs: &mut HashMap<u128, TaskNo>, number: u128, task: TaskNo)
    requires { 1 ≤ spare outputs.old }
    ensures { (n : ℕ) → lookup (nat_eq n) outputs.new.entries ≡ cond (nat_eq number n) (Some task) (lookup (nat_eq n) outputs.old.entries) }
{
    let reserved: Result<_, _> = outputs.insert(number, task);
    let _old = reserved.unwrap();
}

// Takes the number of an output out.
fn take_output(outputs: &mut HashMap<u128, TaskNo>, number: u128)
    ensures { (n : ℕ) → lookup (nat_eq n) outputs.new.entries ≡ cond (nat_eq number n) None (lookup (nat_eq n) outputs.old.entries) }
{
    let _task = outputs.remove(&number);
}

impl Asks {
    /// No asks of so many callers.
    pub fn new(alloc: Global, callers: u32) -> Result<Asks, Memory>
        ensures asks { IfOk result (λ table. table.asks ≡ map.empty) }
        ensures callers { IfOk result (λ table. length table.rooms ≡ callers) }
    {
        let of_callers = empty_rows(alloc, callers)?;
        Ok(Asks {
            by_task: HashMap::new(alloc),
            by_output: HashMap::new(alloc),
            of_callers,
        })
    }

    /// Makes room, so that one more ask of a caller takes no memory. After `Memory` all asks are as before.
    pub fn reserve(&mut self, c: u32) -> Result<(), Memory>
        requires { c < length self.old.rooms }
        ensures asks { self.new.asks ≡ self.old.asks }
        ensures callers { length self.new.rooms ≡ length self.old.rooms }
        ensures spare { OnOk result (1 ≤ self.new.spare) }
        ensures room { OnOk result (1 ≤ room_at self.new.rooms c) }
    {
        reserve_all(
            &mut self.by_task,
            &mut self.by_output,
            &mut self.of_callers,
            c,
        )
    }

    /// One more ask of a caller, for which there is room: of a task that nobody asked, with a number for the output that no other
    /// output has.
    pub fn add(&mut self, c: u32, task: TaskNo, number: u128)
        requires caller { c < length self.old.rooms }
        requires spare { 1 ≤ self.old.spare }
        requires room { 1 ≤ room_at self.old.rooms c }
        requires new { map.get self.old.asks task ≡ None }
        requires free { (key : ℕ) (ask : Ask (Unit {0}) AnyRef) → map.get self.old.asks key ≡ Some ask → ask.number ≡ number → ⊥ }
        ensures asks { self.new.asks ≡ map.insert self.old.asks task (record { caller = c; number = number; goal = tt; delivered = None }) }
        ensures callers { length self.new.rooms ≡ length self.old.rooms }
    {
        let kept = Kept {
            caller: c,
            number,
            delivered: None,
        };
        put_ask(&mut self.by_task, task, kept);
        put_output(&mut self.by_output, number, task);
        list_task(&mut self.of_callers, c, task);
    }

    /// The ask whose output has this number, if there is one, gets this output: null, or a reference with this number.
    pub fn answer(&mut self, number: u128, output: Ref)
        ensures asks { (r : AnyRef) → output ≡ with_number r number → self.new.asks ≡ each_changed (answered_with (Some number) r) self.old.asks }
        ensures callers { length self.new.rooms ≡ length self.old.rooms }
    {
        match self.by_output.get(&number) {
            None => {}
            Some(task) => {
                let task = *task;
                let kept = *self.by_task.get(&task).unwrap();
                let answered = Kept {
                    delivered: Some(output),
                    ..kept
                };
                write_ask(&mut self.by_task, task, answered);
            }
        }
    }

    /// Takes out the ask of a task, and answers what was delivered.
    pub fn take(&mut self, task: TaskNo) -> Option<Ref>
        requires { IsSome (map.get self.old.asks task) }
        ensures asks { self.new.asks ≡ map.remove self.old.asks task }
        ensures delivered { (ask : Ask (Unit {0}) AnyRef) → map.get self.old.asks task ≡ Some ask → result ≡ ask.delivered }
        ensures callers { length self.new.rooms ≡ length self.old.rooms }
    {
        let kept = take_ask(&mut self.by_task, task);
        take_output(&mut self.by_output, kept.number);
        unlist_task(&mut self.of_callers, kept.caller, task);
        kept.delivered
    }

    /// A task that a caller asked; `None` exactly where the caller has no ask.
    pub fn any_of(&self, c: u32) -> Option<TaskNo>
        requires { c < length self.now.rooms }
        ensures task { IfSome result (IsAskOf self.now.asks c) }
        ensures some { is_some result ≡ has_ask self.now.asks c }
    {
        last_task(&self.of_callers, c)
    }

    /// Whether there are no asks.
    pub fn is_empty(&self) -> bool
        ensures { result ≡ (map.len self.now.asks == 0) }
    {
        self.by_task.len() == 0
    }

    /// Whether a caller has an ask.
    pub fn has(&self, c: u32) -> bool
        requires { c < length self.now.rooms }
        ensures { result ≡ has_ask self.now.asks c }
    {
        self.any_of(c).is_some()
    }

    /// What was delivered for the task that was asked.
    pub fn delivered(&self, task: TaskNo) -> Option<Ref>
        requires { IsSome (map.get self.now.asks task) }
        ensures { (ask : Ask (Unit {0}) AnyRef) → map.get self.now.asks task ≡ Some ask → result ≡ ask.delivered }
    {
        match self.by_task.get(&task) {
            None => None,
            Some(kept) => kept.delivered,
        }
    }

    /// Whether the output of an ask of a caller has this number, and was delivered.
    pub fn is_output(&self, c: u32, number: u128) -> bool
        ensures { result ≡ list_any (is_uncollected c number) (map.values self.now.asks) }
    {
        match self.by_output.get(&number) {
            None => false,
            Some(task) => match self.by_task.get(task) {
                None => false,
                Some(kept) => is_delivered_to(kept, c),
            },
        }
    }
}
