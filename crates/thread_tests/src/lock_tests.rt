ghost use Rattle.std.specs.Prelude.{◌≡◌, ◌∷◌, [], ◌<◌, length, None, slice_get, Some, IfOk};
ghost use Rattle.seat_lock.specs.Seats.{IsSeatOf, SameSeat, turn_of, number_of};

use cht_ids::{List, Memory};
use seat_lock::{Parted, Seat, SeatLock};
use std::alloc::Global;
use std::sync::Wait;
use std::test::Fail;
use std::thread::{Threads, join};

// Two counters, one for each seat.
#[derive(Drop)]
struct Counters {
    first: u32,
    second: u32,
}

impl Parted for Counters {
    type Part = u32;

    ghost parts = { λ counters. counters.first ∷ counters.second ∷ [] };
}

// One turn, which adds 1 to the counter of seat 0 or of seat 1.
fn add_one<R: Wait>(rt: &R, lock: &SeatLock<Counters>, seat: &mut Seat<Counters>)
    requires seat { IsSeatOf lock.now seat.old × (number_of seat.old < 2) }
    requires rests { turn_of seat.old ≡ None }
    ensures { IsSeatOf lock.now seat.new × SameSeat seat.old seat.new × (turn_of seat.new ≡ None) }
{
    let mut turn = lock.take(rt, seat);
    let counters = turn.value_mut();
    if seat.number() == 0 {
        counters.first = counters.first.wrapping_add(1);
    } else {
        counters.second = counters.second.wrapping_add(1);
    }
    lock.put(turn, seat);
}

// A thousand turns of one seat.
fn add_thousand<R: Wait>(
    rt: &R,
    lock: &SeatLock<Counters>,
    mut seat: Seat<Counters>,
) -> Seat<Counters>
    requires seat { IsSeatOf lock.now seat × (number_of seat < 2) }
    requires rests { turn_of seat ≡ None }
    ensures { IsSeatOf lock.now result × (number_of result ≡ number_of seat) × (turn_of result ≡ None) }
{
    for _ in 0..1000 {
        add_one(rt, lock, &mut seat);
    }
    seat
}

// Two threads of a thousand turns each, on a lock over two counters that stand at 0.
fn count<R: Threads + Wait + Sync>(rt: &R, alloc: Global) -> Result<Counters, Memory> {
    let counters = Counters {
        first: 0,
        second: 0,
    };
    let (lock, seats) = SeatLock::new(alloc, counters, 2)?;
    let mut seats = seats.into_vec();
    let Some(second) = seats.pop() else {
        unreachable!()
    };
    let Some(first) = seats.pop() else {
        unreachable!()
    };
    let shared = &lock;
    let (first, second) = join(
        rt,
        move ||
            requires { IsSeatOf shared.now first × (number_of first < 2) × (turn_of first ≡ None) }
            ensures { IsSeatOf shared.entry.now result × (number_of result ≡ number_of first) × (turn_of result ≡ None) }
        { add_thousand(rt, shared, first) },
        move ||
            requires { IsSeatOf shared.now second × (number_of second < 2) × (turn_of second ≡ None) }
            ensures { IsSeatOf shared.entry.now result × (number_of result ≡ number_of second) × (turn_of result ≡ None) }
        { add_thousand(rt, shared, second) },
    );
    let mut seats = List::new(alloc);
    let Ok(()) = seats.push(first) else {
        return Err(Memory);
    };
    let Ok(()) = seats.push(second) else {
        return Err(Memory);
    };
    Ok(lock.close(seats))
}

#[test]
fn two_threads_of_a_thousand_turns_each(rt: HostRuntime) -> Result<(), Fail> {
    let counters = count(&rt, rt.alloc())?;
    assert_eq!(rt; (counters.first, counters.second), (1000, 1000));
    Ok(())
}
