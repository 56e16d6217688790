// A set of tasks for each caller.
ghost use Rattle.std.specs.Prelude.{◌≡◌, ◌&&◌, cond, nat_eq, ℕ, ◌≤◌, ◌<◌, length, true, false, IfOk, OnOk, IfSome, IfNone};
ghost use Rattle.std.specs.HashSet.{spare};
ghost use Rattle.std.specs.List.{list_any};
ghost use Rattle.core_state.specs.AskTable.{room_at};
ghost use Rattle.core_state.specs.Lists.{is_listed, items_of, rooms_of};

use cht_ids::{Memory, TaskNo};
use indexmap::IndexSet;
use std::alloc::Global;

/// As many empty sets as there are callers.
pub(crate) fn empty_rows(alloc: Global, callers: u32) -> Result<Vec<IndexSet<TaskNo>>, Memory>
    ensures len { IfOk result (λ rows. length rows.items ≡ callers) }
    ensures empty { IfOk result (λ rows. (caller task : ℕ) → is_listed (items_of rows.items) caller task ≡ false) }
{
    let mut rows = Vec::new(alloc);
    for _caller in 0..callers {
        rows.push(IndexSet::new(alloc))?;
    }
    Ok(rows)
}

/// Makes room for one more task of a caller.
pub(crate) fn reserve_row(rows: &mut Vec<IndexSet<TaskNo>>, c: u32) -> Result<(), Memory>
    requires { c < length rows.old.items }
    ensures items { items_of rows.new.items ≡ items_of rows.old.items }
    ensures len { length rows.new.items ≡ length rows.old.items }
    ensures room { OnOk result (1 ≤ room_at (rooms_of rows.new.items) c) }
{
    rows[c as usize].reserve(1)?;
    Ok(())
}

// One more task in a set that has room for it.
fn put_in(row: &mut IndexSet<TaskNo>, task: TaskNo)
    requires { 1 ≤ spare row.old }
    ensures { (q : ℕ) → list_any (nat_eq q) row.new.keys ≡ cond (nat_eq task q) true (list_any (nat_eq q) row.old.keys) }
{
    let reserved: Result<_, _> = row.insert(task);
    let _new = reserved.unwrap();
}

// A task less in a set.
fn take_out(row: &mut IndexSet<TaskNo>, task: TaskNo)
    ensures { (q : ℕ) → list_any (nat_eq q) row.new.keys ≡ cond (nat_eq task q) false (list_any (nat_eq q) row.old.keys) }
{
    let _was = row.swap_remove(&task);
}

/// One more task of a caller, for which there is room.
pub(crate) fn list_task(rows: &mut Vec<IndexSet<TaskNo>>, c: u32, task: TaskNo)
    requires within { c < length rows.old.items }
    requires room { 1 ≤ room_at (rooms_of rows.old.items) c }
    ensures len { length rows.new.items ≡ length rows.old.items }
    ensures listed { (caller q : ℕ) → is_listed (items_of rows.new.items) caller q ≡ cond (nat_eq c caller && nat_eq task q) true (is_listed (items_of rows.old.items) caller q) }
{
    put_in(&mut rows[c as usize], task);
}

/// A task less of a caller.
pub(crate) fn unlist_task(rows: &mut Vec<IndexSet<TaskNo>>, c: u32, task: TaskNo)
    requires { c < length rows.old.items }
    ensures len { length rows.new.items ≡ length rows.old.items }
    ensures listed { (caller q : ℕ) → is_listed (items_of rows.new.items) caller q ≡ cond (nat_eq c caller && nat_eq task q) false (is_listed (items_of rows.old.items) caller q) }
{
    take_out(&mut rows[c as usize], task);
}

/// One of the tasks of a caller; `None` exactly where it has none.
pub(crate) fn last_task(rows: &Vec<IndexSet<TaskNo>>, c: u32) -> Option<TaskNo>
    requires { c < length rows.now.items }
    ensures some { IfSome result (λ task. is_listed (items_of rows.now.items) c task ≡ true) }
    ensures none { IfNone result ((task : ℕ) → is_listed (items_of rows.now.items) c task ≡ false) }
{
    rows[c as usize].last().copied()
}
