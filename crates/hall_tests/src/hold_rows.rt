//! A gate that holds an instance.

use pipe_model::node::NodeId;
use pipe_worker::gate::Gate;
use pipe_worker::hold::HoldGate;
use std::sync::Wait;
use std::thread::join;

const HELD: NodeId = NodeId {
    iteration: 0,
    index: 1,
};

const UNTIL: NodeId = NodeId {
    iteration: 1,
    index: 0,
};

#[test]
fn an_instance_is_held_until_another_comes(rt: HostRuntime) {
    let gate = HoldGate::new(HELD, UNTIL, u64::MAX);
    join(&rt, || gate.at(&rt, 0, HELD), || gate.at(&rt, 1, UNTIL));
    assert!(rt; gate.met());
}

// Whether an instance is let go after its turns, and the other instance, which comes then, is noticed.
fn is_let_go<R: Wait>(rt: &R) -> bool {
    let gate = HoldGate::new(HELD, UNTIL, 3);
    gate.at(rt, 0, HELD);
    let before = gate.met();
    gate.at(rt, 1, UNTIL);
    let between = gate.met();
    gate.at(rt, 0, HELD);
    let after = gate.met();
    !before && !between && after
}

#[test]
fn an_instance_is_let_go_after_its_turns(rt: HostRuntime) {
    assert!(rt; is_let_go(&rt));
}
