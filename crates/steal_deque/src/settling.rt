ghost use Rattle.std.specs.Prelude.{◌≡◌, ◌^◌, ◌-◌, ◌++◌, min, map, length, List, ℕ, IsPermutation};
ghost use Rattle.steal_deque.specs.Ends.{own_view, own_deque};
ghost use Rattle.steal_deque.specs.Groups.{views_of, Reaches, AreAll, all_taken, all_stolen, all_exposed, returned_all, returned_by, AllSettle, total};

use crate::{Own, Thief};
use cht_ids::List;

/// What a group of deques had at its end.
#[derive(Clone, Copy, Debug, PartialEq, Eq)]
pub struct Left {
    /// How many numbers were left in all deques, or 2^64 - 1 where there were more.
    pub numbers: u64,
}

/// Ends a group of deques. All that was taken and stolen, with what is left, is all that was exposed: no number is lost, and
/// none comes twice. Of each deque by itself: what was stolen from it, in one order of all its steals, and then what is left is
/// what its owner exposed and did not take back, oldest first.
pub fn settle(owns: List<Own>, thieves: List<Thief>) -> Left
    requires { AreAll owns thieves }
    ensures whole { (left : List ℕ) × IsPermutation (all_taken owns ++ all_stolen thieves ++ left) (all_exposed owns) × (result.numbers ≡ min (length left) (2 ^ 64 - 1)) }
    ensures orders { (lefts : List (List ℕ)) × AllSettle (returned_by (map own_view owns) (map views_of thieves)) lefts × (result.numbers ≡ min (total lefts) (2 ^ 64 - 1)) }
{
    let mut owns = owns.into_vec();
    let mut thieves = thieves.into_vec();
    while let Some(thief) = thieves.pop() {
        give_back(&mut owns, thief);
    }
    count_left(owns)
}

// The owners learn what a thief took.
fn give_back(owns: &mut Vec<Own>, thief: Thief)
    requires { Reaches owns.old.items thief.victims.items }
    ensures deques { map own_deque owns.new.items ≡ map own_deque owns.old.items }
    ensures views { map own_view owns.new.items ≡ returned_all (map own_view owns.old.items) (views_of thief) }
{
    let Thief {
        number: _,
        mut victims,
    } = thief;
    while let Some(victim) = victims.pop() {
        owns[victims.len()].take_back(victim);
    }
}

// The numbers that are left.
fn count_left(mut owns: Vec<Own>) -> Left
    ensures { (lefts : List (List ℕ)) × AllSettle (map own_view owns.items) lefts × (result.numbers ≡ min (total lefts) (2 ^ 64 - 1)) }
{
    let mut numbers: u64 = 0;
    while let Some(mut own) = owns.pop() {
        numbers = numbers.saturating_add(own.left() as u64);
    }
    Left { numbers }
}
