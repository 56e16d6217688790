// How many await a task.
ghost use Rattle.std.specs.Prelude.{◌≡◌, ◌≤◌, ◌^◌, Some, None, IfSome, IfNone, length};
ghost use Rattle.task_links.specs.Inside.{entries_at};
ghost use Rattle.task_links.specs.Kept.{opened};
ghost use Rattle.task_states.specs.Listing.{awaiters};
ghost use Rattle.task_graph.specs.Graphs.{graph_of, IsWhole};
ghost use Rattle.task_graph.specs.Counted.{IsCounted};

use crate::parts::Parts;
use task_links::{Kept, Spot};

impl<K: Copy> Parts<K> {
    // How many inputs await a task, from the first on; `None` where more await it than 32 bits count.
    fn inputs_awaiting(&self, task: u128, first: Option<Spot>) -> Option<u32>
        requires whole { IsWhole self.now }
        requires first { IsCounted self.now task first 0 }
        ensures some { IfSome result (λ n. IsCounted self.now task None n) }
        ensures none { IfNone result (2 ^ 32 ≤ length (awaiters (graph_of self.now) task)) }
    {
        let mut count: u32 = 0;
        let mut next = first;
        while let Some(spot) = next {
            let link = self.entries.link(spot);
            if count == u32::MAX {
                return None;
            }
            count += 1;
            next = link.next;
        }
        Some(count)
    }

    // How many await a task of which this is kept; `None` exactly where more await it than 32 bits count.
    fn awaiters_of(&self, task: u128, kept: &Kept<K>) -> Option<u32>
        requires whole { IsWhole self.now }
        requires there { entries_at self.now.entries task ≡ Some (opened kept.now) }
        ensures some { IfSome result (λ n. n ≡ length (awaiters (graph_of self.now) task)) }
        ensures none { IfNone result (2 ^ 32 ≤ length (awaiters (graph_of self.now) task)) }
    {
        let first = kept.first();
        let asked = kept.asked();
        match self.inputs_awaiting(task, first) {
            None => None,
            Some(inputs) => match asked {
                None => Some(inputs),
                Some(_) => {
                    if inputs == u32::MAX {
                        return None;
                    }
                    Some(inputs + 1)
                }
            },
        }
    }

    /// How many await a task; `None` exactly where more await it than 32 bits count.
    pub fn awaiters(&self, task: u128) -> Option<u32>
        requires whole { IsWhole self.now }
        ensures some { IfSome result (λ n. n ≡ length (awaiters (graph_of self.now) task)) }
        ensures none { IfNone result (2 ^ 32 ≤ length (awaiters (graph_of self.now) task)) }
    {
        match self.entries.find(task) {
            None => Some(0),
            Some(kept) => self.awaiters_of(task, kept),
        }
    }
}
