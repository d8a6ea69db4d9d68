//! Gates, through which each execute step goes.

/// What is passed once before each execute step of a node. With several threads the one that makes the step holds the node and the wires
/// of its inputs then.
pub trait Gate: Sync {
    fn pass(&self, node: u32);
}

/// A gate that is always open.
pub struct OpenGate;

impl Gate for OpenGate {
    fn pass(&self, _node: u32) {}
}
