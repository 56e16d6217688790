ghost use Rattle.std.specs.Prelude.{◌≡◌, ◌<◌, false};
ghost use Rattle.crossbeam_deque.specs.Handles.{view, stealer_flavor, stealer_deque, IsPassOf};

use crate::View;
use crate::rule::InOrder;
use crossbeam_deque::{Pass, Stealer};
use std::alloc::Global;

/// A thief's end of one worker's deque.
#[derive(Drop)]
pub struct Victim {
    pub(crate) stealer: Stealer<u128, Global, View, InOrder>,
    pub(crate) pass: Pass<u128, View>,
    ghost thief: { (0 < (view pass).port) × ((view pass).over ≡ false) },
    ghost oldest: { stealer_flavor stealer ≡ 1 },
    ghost of: { IsPassOf (stealer_deque stealer) pass },
}
