ghost use Rattle.std.specs.Prelude.{◌≡◌, false};
ghost use Rattle.crossbeam_deque.specs.Handles.{worker_view, worker_flavor};

use crate::View;
use crate::rule::InOrder;
use crossbeam_deque::Worker;
use std::alloc::Global;

/// The owner's end of one worker's deque.
#[derive(Drop)]
pub struct Own {
    pub(crate) worker: Worker<u128, Global, View, InOrder>,
    ghost owner: { ((worker_view worker).port ≡ 0) × ((worker_view worker).over ≡ false) },
    ghost newest: { worker_flavor worker ≡ 1 },
}
