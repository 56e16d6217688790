// Numbers of tasks by rising number, with those that are no longer wanted among them.
ghost use Rattle.std.specs.Prelude.{◌≡◌, ◌+◌, ◌<◌, ◌≤◌, ◌||◌, ℕ, Some, None, OnOk, IsOk, nat_eq, false, true, ◌↔◌, IsTrue, Option};
ghost use Rattle.task_links.specs.Queue.{is_queued, IsQueueLeast, IsQueue, queue_len, queue_capacity};

use cht_ids::Memory;
use std::alloc::Global;
use std::cmp::Reverse;
use std::collections::BinaryHeap;

/// Numbers, from which the least is taken out. One that is no longer wanted stays until it is the least.
#[derive(Drop)]
pub struct Queue {
    pub heap: BinaryHeap<Reverse<u128>>,
}

impl Queue {
    /// No numbers.
    pub fn new(alloc: Global) -> Queue
        ensures queue { IsQueue result }
        ensures empty { (q : ℕ) → is_queued q result ≡ false }
        ensures len { queue_len result ≡ 0 }
    {
        Queue {
            heap: BinaryHeap::new(alloc),
        }
    }

    /// The least number, if there is one.
    #[inline]
    pub fn least(&self) -> Option<u128>
        requires { IsQueue self.now }
        ensures { IsQueueLeast self.now result }
    {
        match self.heap.peek() {
            None => None,
            Some(least) => Some(least.0),
        }
    }

    /// Takes the least number out.
    pub fn drop_least(&mut self)
        requires queue { IsQueue self.old }
        ensures queue { IsQueue self.new }
        ensures rest { (least : ℕ) → IsQueueLeast self.old (Some least) → (q : ℕ) → is_queued q self.old ≡ (nat_eq q least || is_queued q self.new) }
        ensures len { queue_len self.new ≤ queue_len self.old }
        ensures shorter { (least : ℕ) → IsQueueLeast self.old (Some least) → queue_len self.new < queue_len self.old }
        ensures capacity { queue_capacity self.new ≡ queue_capacity self.old }
    {
        let _least = self.heap.pop();
    }

    /// One more number, for which there is room.
    #[inline]
    pub fn push(&mut self, number: u128)
        requires queue { IsQueue self.old }
        requires room { queue_len self.old < queue_capacity self.old }
        ensures queue { IsQueue self.new }
        ensures queued { (q : ℕ) → is_queued q self.new ≡ (nat_eq q number || is_queued q self.old) }
        ensures len { queue_len self.new ≡ queue_len self.old + 1 }
        ensures capacity { queue_capacity self.old ≤ queue_capacity self.new }
    {
        let reserved: Result<_, _> = self.heap.push(Reverse(number));
        reserved.unwrap();
    }

    /// Whether there is no room for one more number.
    #[inline]
    pub fn is_full(&self) -> bool
        ensures { IsTrue result ↔ (queue_capacity self.now ≤ queue_len self.now) }
    {
        self.heap.capacity() <= self.heap.len()
    }

    /// Takes all numbers out.
    pub fn clear(&mut self)
        ensures queue { IsQueue self.new }
        ensures empty { (q : ℕ) → is_queued q self.new ≡ false }
        ensures len { queue_len self.new ≡ 0 }
        ensures capacity { queue_capacity self.new ≡ queue_capacity self.old }
    {
        self.heap.clear();
    }

    /// Makes room for so many numbers in all.
    pub fn reserve(&mut self, numbers: usize) -> Result<(), Memory>
        ensures same { (q : ℕ) → is_queued q self.new ≡ is_queued q self.old }
        ensures queue { IsQueue self.old → IsQueue self.new }
        ensures least { (o : Option ℕ) → IsQueueLeast self.old o → IsQueueLeast self.new o }
        ensures ok { OnOk result (numbers ≤ queue_capacity self.new) }
        ensures capacity { queue_capacity self.old ≤ queue_capacity self.new }
    {
        if self.heap.capacity() < numbers {
            let more = numbers - self.heap.len();
            self.heap.reserve(more)?;
        }
        Ok(())
    }
}
