ghost use Rattle.std.specs.Prelude.{◌≡◌, ◌+◌, map, length, replicate, IfOk};
ghost use Rattle.steal_deque.specs.History.{newcomer};
ghost use Rattle.steal_deque.specs.Ends.{own_view, own_deque};
ghost use Rattle.steal_deque.specs.Groups.{AreAll, AreNew, owner_with, views_of, deques_of};

use crate::{Own, Thief};
use cht_ids::{List, Memory};
use std::alloc::Global;

/// One empty deque for each worker: the owners' ends by worker, and for each worker the thieves' ends of all.
pub fn deques(alloc: Global, workers: u32) -> Result<(List<Own>, List<Thief>), Memory>
    ensures count { IfOk result (λ made. length made.0 ≡ workers) }
    ensures all { IfOk result (λ made. AreAll made.0 made.1) }
    ensures empty { IfOk result (λ made. AreNew made.0 made.1) }
{
    let mut owns = open_all(alloc, workers)?;
    let thieves = hire_all(alloc, &mut owns, workers)?;
    Ok((List::from_vec(owns), List::from_vec(thieves)))
}

// The owners' ends, with no thief yet.
fn open_all(alloc: Global, workers: u32) -> Result<Vec<Own>, Memory>
    ensures { IfOk result (λ owns. map own_view owns.items ≡ replicate workers (owner_with 0)) }
{
    let mut owns = Vec::new(alloc);
    for _worker in 0..workers {
        owns.push(Own::open(alloc)?)?;
    }
    Ok(owns)
}

// A thief for each worker.
fn hire_all(alloc: Global, owns: &mut Vec<Own>, workers: u32) -> Result<Vec<Thief>, Memory>
    requires { map own_view owns.old.items ≡ replicate workers (owner_with 0) }
    ensures { IfOk result (λ thieves. (length owns.new.items ≡ workers) × AreAll owns.new.items thieves.items × AreNew owns.new.items thieves.items) }
{
    let mut thieves = Vec::new(alloc);
    for number in 0..workers {
        thieves.push(hire(alloc, owns, number)?)?;
    }
    Ok(thieves)
}

// One thief's ends of all deques.
fn hire(alloc: Global, owns: &mut Vec<Own>, number: u32) -> Result<Thief, Memory>
    requires { map own_view owns.old.items ≡ replicate (length owns.old.items) (owner_with number) }
    ensures owns { IfOk result (λ thief. (map own_view owns.new.items ≡ replicate (length owns.old.items) (owner_with (number + 1))) × (map own_deque owns.new.items ≡ map own_deque owns.old.items)) }
    ensures thief { IfOk result (λ thief. (thief.number ≡ number) × (deques_of thief ≡ map own_deque owns.old.items) × (views_of thief ≡ replicate (length owns.old.items) (newcomer (owner_with number)))) }
{
    let mut victims = Vec::new(alloc);
    let mut worker = 0;
    while worker < owns.len() {
        victims.push(owns[worker].hire()?)?;
        worker += 1;
    }
    Ok(Thief { number, victims })
}
