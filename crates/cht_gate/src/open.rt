use crate::Gate;
use cht_ids::TaskNo;
use std::sync::Wait;

/// A gate that lets every worker pass at once, and sends nobody away.
#[derive(Clone, Copy, Debug, Drop)]
pub struct OpenGate;

impl Gate for OpenGate {
    ghost use Rattle.std.specs.Prelude.{false};

    ghost may_send_away = { λ gate worker. false };

    fn enter<R: Wait>(&self, _rt: &R, _worker: u32, _task: TaskNo) {}

    fn leave(&self, _worker: u32, _task: TaskNo) {}

    fn goes_on(&self, _worker: u32) -> bool {
        true
    }
}
