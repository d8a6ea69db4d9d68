//! What a net holds between two half steps.
use hume_base::{List, Value};

/// The values on each wire, the oldest first; and for each node its part.
#[derive(Drop)]
pub struct State {
    pub wires: List<List<Value>>,
    pub pending: List<Option<List<Option<Value>>>>,
    pub orders: List<List<u32>>,
    pub coming: List<List<Value>>,
    pub taken: List<List<Value>>,
}

/// What belongs to one node alone.
#[derive(Drop)]
pub struct Part {
    /// The outputs that a box has yet to assert.
    pub pending: Option<List<Option<Value>>>,
    /// The numbers of a box's rules in the order in which it tries them.
    pub order: List<u32>,
    /// The values that an input stream has yet to assert.
    pub coming: List<Value>,
    /// The values that an output stream has taken.
    pub taken: List<Value>,
}

/// A node's part, and the values on each wire of its side, after a half step.
#[derive(Drop)]
pub struct HalfStep {
    pub part: Part,
    pub side: List<List<Value>>,
}
