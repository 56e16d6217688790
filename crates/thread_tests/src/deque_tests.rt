ghost use Rattle.std.specs.Prelude.{◌≡◌, ◌<◌, ℕ, length, slice_index_or, IfOk};
ghost use Rattle.steal_deque.specs.Ends.{SameOwn};
ghost use Rattle.steal_deque.specs.Groups.{SameThief, AreAll, reach_of};
ghost use Rattle.thread_tests.specs.Crew.{AreCrew};

use cht_ids::{List, Memory, TaskNo};
use std::alloc::Global;
use std::sync::Wait;
use std::test::Fail;
use std::thread::{Threads, for_each_mut};
use steal_deque::{Left, Own, Thief, deques, settle};

// How many numbers each worker exposes.
const EACH: u32 = 100_000;

// One of four workers, with the numbers that it got.
#[derive(Drop)]
struct Worker {
    own: Own,
    thief: Thief,
    got: Vec<TaskNo>,
    short: bool,
    ghost reaches: { reach_of thief ≡ 4 },
}

impl Worker {
    // Exposes its numbers and takes one of three back at once, then goes on as long as it finds one.
    fn work<R: Wait>(&mut self, rt: &R, place: u32)
        requires { place < 4 }
        ensures { SameOwn self.old.own self.new.own × SameThief self.old.thief self.new.thief }
    {
        for k in 0..EACH {
            if self.own.expose(TaskNo::from(place * EACH + k)).is_err() {
                self.short = true;
            }
            if k % 3 == 0 {
                self.next(rt);
            }
        }
        for _ in 0..EACH * 8 {
            if !self.next(rt) {
                break;
            }
        }
    }

    // Takes the newest number of its own, or steals one.
    fn next<R: Wait>(&mut self, rt: &R) -> bool
        ensures { SameOwn self.old.own self.new.own × SameThief self.old.thief self.new.thief }
    {
        if let Some(task) = self.own.take() {
            self.keep(task);
            return true;
        }
        for victim in 0..4 {
            if let Some(task) = self.thief.steal(rt, victim) {
                self.keep(task);
                return true;
            }
        }
        false
    }

    fn keep(&mut self, task: TaskNo)
        ensures { (self.new.own ≡ self.old.own) × (self.new.thief ≡ self.old.thief) }
    {
        if self.got.push(task).is_err() {
            self.short = true;
        }
    }
}

// Each end of a deque with a thief.
fn crew(alloc: Global, owns: List<Own>, thieves: List<Thief>) -> Result<Vec<Worker>, Memory>
    requires { AreAll owns thieves × (length owns ≡ 4) }
    ensures { IfOk result (λ workers. AreCrew (λ worker. worker.own) (λ worker. worker.thief) workers.items) }
{
    let mut owns = owns.into_vec();
    let mut thieves = thieves.into_vec();
    let mut workers = Vec::new(alloc);
    while let Some(own) = owns.pop() {
        let Some(thief) = thieves.pop() else {
            unreachable!()
        };
        workers.push(Worker {
            own,
            thief,
            got: Vec::new(alloc),
            short: false,
        })?;
    }
    Ok(workers)
}

// All numbers that the workers got, by rising number, with what is left.
fn settled(alloc: Global, mut workers: Vec<Worker>) -> Result<(Vec<TaskNo>, Left, bool), Memory>
    requires { AreCrew (λ worker. worker.own) (λ worker. worker.thief) workers.items }
{
    let mut owns = Vec::new(alloc);
    let mut thieves = Vec::new(alloc);
    let mut all = Vec::new(alloc);
    let mut short = false;
    while let Some(worker) = workers.pop() {
        let Worker {
            own,
            thief,
            got,
            short: missed,
        } = worker;
        owns.push(own)?;
        thieves.push(thief)?;
        all.extend_from_slice(&got)?;
        short |= missed;
    }
    all.sort_unstable();
    let left = settle(List::from_vec(owns), List::from_vec(thieves));
    Ok((all, left, short))
}

// Four threads, each with a deque of its own.
fn run<R: Threads + Wait + Sync>(
    rt: &R,
    alloc: Global,
) -> Result<(Vec<TaskNo>, Left, bool), Memory> {
    let (owns, thieves) = deques(alloc, 4)?;
    let mut workers = crew(alloc, owns, thieves)?;
    race(rt, &mut workers);
    settled(alloc, workers)
}

// Each worker works in a thread of its own.
fn race<R: Threads + Wait + Sync>(rt: &R, workers: &mut Vec<Worker>)
    ensures len { length workers.new.items ≡ length workers.old.items }
    ensures ends { (i : ℕ) (d : _) → i < length workers.old.items → SameOwn (slice_index_or workers.old.items i d).own (slice_index_or workers.new.items i d).own × SameThief (slice_index_or workers.old.items i d).thief (slice_index_or workers.new.items i d).thief }
{
    for_each_mut(
        rt,
        workers,
        4,
        &|place, worker: &mut Worker| worker.work(rt, (place % 4) as u32),
    );
}

#[test]
fn four_threads_account_for_all_numbers(rt: HostRuntime) -> Result<(), Fail> {
    let (all, left, short) = run(&rt, rt.alloc())?;
    assert!(rt; !short);
    assert_eq!(rt; (all.len(), left.numbers), (400_000, 0));
    assert!(rt;
        all.iter()
            .enumerate()
            .all(|(place, number)| *number == place as u128)
    );
    Ok(())
}
