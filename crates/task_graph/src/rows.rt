// What is known of a task, read at once.
ghost use Rattle.std.specs.Prelude.{◌≡◌, ◌<◌, ◌≤◌, take, slice_get, option_map, IfSome};
ghost use Rattle.task_states.specs.States.{status_of, task_at};
ghost use Rattle.task_links.specs.Inside.{shown_entry};
ghost use Rattle.task_links.specs.Kept.{opened};
ghost use Rattle.task_graph.specs.Contents.{input_of};
ghost use Rattle.task_graph.specs.Rows.{unfinished_in};
ghost use Rattle.task_graph.specs.Graphs.{graph_of, IsWhole};

use crate::parts::Parts;
use crate::reading::slot;
use task_links::{Kept, KeptPlace, any_awaits};
use task_states::{Slot, TaskStatus};

/// What is known of an unfinished task. Its inputs are the first `count` of the places, of which there are at most four; each is
/// opened when it is asked for.
#[derive(Clone, Copy)]
pub struct TaskRow<K> {
    pub places: [KeptPlace; 4],
    pub asked: Option<u128>,
    pub runner: Option<u32>,
    pub caller: u32,
    pub count: u32,
    pub kind: K,
}

// What is known of a task of which this is kept.
#[inline(always)]
fn row_of<K: Copy>(kept: &Kept<K>) -> TaskRow<K>
    ensures row { unfinished_in result ≡ shown_entry (opened kept.now) }
    ensures count { result.count ≡ kept.now.count }
{
    TaskRow {
        places: kept.places,
        asked: kept.asked(),
        runner: kept.runner,
        caller: kept.caller,
        count: kept.count,
        kind: kept.kind,
    }
}

impl<K: Copy> TaskRow<K> {
    // The inputs of the task, as they are kept.
    #[inline(always)]
    fn given(&self) -> &[KeptPlace]
        ensures { result.now ≡ take self.now.count self.now.places }
    {
        if self.count < 4 {
            &self.places[..self.count as usize]
        } else {
            &self.places
        }
    }

    /// How far the task is.
    #[inline]
    pub fn status(&self) -> TaskStatus
        ensures { result ≡ status_of (unfinished_in self.now) }
    {
        if any_awaits(self.given()) {
            TaskStatus::Waiting
        } else if self.runner.is_some() {
            TaskStatus::Running
        } else {
            TaskStatus::Ready
        }
    }

    /// The input at a place, counted from 0; `None` exactly where the task has no such input.
    #[inline]
    pub fn input(&self, place: u32) -> Option<Slot>
        ensures input { option_map input_of result ≡ slice_get (unfinished_in self.now).inputs place }
        ensures few { IfSome result (λ _. place < 4) }
    {
        if place < 4 && place < self.count {
            let kept = self.places[place as usize];
            Some(slot(&kept.open()))
        } else {
            None
        }
    }
}

impl<K: Copy> Parts<K> {
    /// What is known of a task; `None` exactly where there is no such unfinished task.
    pub fn row(&self, task: u128) -> Option<TaskRow<K>>
        requires whole { IsWhole self.now }
        ensures row { option_map unfinished_in result ≡ task_at (graph_of self.now) task }
        ensures few { IfSome result (λ row. row.count ≤ 4) }
    {
        match self.entries.find(task) {
            None => None,
            Some(kept) => Some(row_of(kept)),
        }
    }
}
