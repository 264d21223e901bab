//! A gate that makes two instances overlap.

use crate::gate::Gate;
use crossbeam_utils::Backoff;
use pipe_model::node::NodeId;
use std::sync::Wait;
use std::sync::atomic::{AtomicBool, Ordering};

/// Holds one instance until another is at the gate, but only for a number of turns. It is a test
/// double: a test names two instances that may run at the same time, and asks by `met` whether they
/// did.
#[derive(Drop)]
pub struct HoldGate {
    held: NodeId,
    until: NodeId,
    turns: u64,
    came: AtomicBool,
    met: AtomicBool,
}

impl HoldGate {
    /// Returns a gate that holds `held` until `until` is at it, for at most `turns` turns.
    pub fn new(held: NodeId, until: NodeId, turns: u64) -> HoldGate {
        HoldGate {
            held,
            until,
            turns,
            came: AtomicBool::new(false),
            met: AtomicBool::new(false),
        }
    }

    /// Returns whether the held instance was let go because the other was at the gate.
    pub fn met(&self) -> bool {
        self.met.load(Ordering::SeqCst)
    }

    // Waits until the other instance is at the gate.
    fn hold(&self) {
        let backoff = Backoff::new();
        for _ in 0..self.turns {
            if self.came.load(Ordering::SeqCst) {
                self.met.store(true, Ordering::SeqCst);
                return;
            }
            backoff.snooze();
        }
    }
}

impl Gate for HoldGate {
    fn at<R: Wait>(&self, rt: &R, worker: u32, node: NodeId) {
        let _ = rt;
        let _ = worker;
        if node == self.until {
            self.came.store(true, Ordering::SeqCst);
        }
        if node == self.held {
            self.hold();
        }
    }
}
