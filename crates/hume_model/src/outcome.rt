//! What evaluations come to.
use hume_base::{List, Value};

/// What an expression comes to.
#[derive(Drop)]
pub enum Outcome {
    Gives(Value),
    /// An exception, with what it carries.
    Raises(u32, Option<Value>),
}

/// What expressions come to that are evaluated one after another.
#[derive(Drop)]
pub enum Several {
    All(List<Value>),
    Raised(u32, Option<Value>),
}

/// What the result of a rule comes to.
#[derive(Drop)]
pub enum Outputs {
    Asserts(List<Option<Value>>),
    Throws(u32, Option<Value>),
}

/// A box that fires: the rule's number, which inputs are taken, and the outputs.
#[derive(Drop)]
pub struct Firing {
    pub rule: u32,
    pub taken: List<bool>,
    pub outs: List<Option<Value>>,
}
