use cht_gate::{Gate, MeetGate, OpenGate};
use std::thread::join;

#[test]
fn two_executions_meet(rt: HostRuntime) {
    let gate = MeetGate::new(1 << 40);
    assert!(rt; !gate.met());
    let handle = &rt;
    let shared = &gate;
    join(
        handle,
        || shared.enter(handle, 0, 1),
        || shared.enter(handle, 1, 2),
    );
    gate.leave(0, 1);
    assert!(rt; gate.met() && gate.goes_on(1));
}

#[test]
fn one_alone_looks_and_goes_on(rt: HostRuntime) {
    let gate = MeetGate::new(3);
    gate.enter(&rt, 0, 1);
    gate.enter(&rt, 0, 2);
    assert!(rt; !gate.met());
}

#[test]
fn the_open_gate_keeps_everybody(rt: HostRuntime) {
    OpenGate.enter(&rt, 0, 1);
    OpenGate.leave(0, 1);
    assert!(rt; OpenGate.goes_on(7));
}
