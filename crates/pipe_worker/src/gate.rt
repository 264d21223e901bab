//! What workers pass before they run an instance.

use pipe_model::node::NodeId;
use std::sync::Wait;

/// A place that each worker passes before it runs an instance. It may make the worker wait, and
/// changes nothing else. Runs use `OpenGate`; tests may hold workers, to make instances overlap.
pub trait Gate {
    /// Is called by a worker before it runs an instance.
    fn at<R: Wait>(&self, rt: &R, worker: u32, node: NodeId);
}

/// Lets each worker pass at once.
#[derive(Drop)]
pub struct OpenGate;

impl Gate for OpenGate {
    fn at<R: Wait>(&self, rt: &R, worker: u32, node: NodeId) {
        let _ = rt;
        let _ = (worker, node);
    }
}
