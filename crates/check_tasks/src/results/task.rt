//! What is still to be done of an elaboration of a result. Each form of result is a list of tasks: first this, then that.
use crate::Task;
use hume_ast::{Exp, Pat};

/// A task. It works on the stacks of results, of outputs and of their alternatives, and on what tasks of expressions work on.
#[derive(Clone, Copy)]
pub enum ResultTask<'a> {
    /// The core of a result for outputs of the types that are the parts of the last type, a tuple.
    Result(&'a Exp),
    /// The core of one output of the last type.
    Output(&'a Exp),
    /// Outputs of the types of the last type, a tuple, from a part on.
    Outputs(&'a [Exp], usize),
    /// Alternatives of a `case`: their patterns against the last but one type, their bodies results as above.
    Arms(&'a [(Pat, Exp)]),
    /// A task of expressions.
    Plain(Task<'a>),
    /// What is made of the cores.
    Make(ResultMake),
}

/// What is made of the cores on the stacks, at the last type where the core has a type.
#[derive(Clone, Copy)]
pub enum ResultMake {
    /// An output that isn't there.
    Absent,
    /// An output of the last core.
    Value,
    /// A result of so many of the last outputs.
    Outs(usize),
    /// `let`, with the last core, which is the last variable, and the last result.
    Binding,
    /// `if`, with the last core and the last two results.
    Branches,
    /// An alternative of the last pattern and the last result.
    Arm,
    /// A `case` of the last core, which is of the last type, with so many of the last alternatives.
    Alternatives(usize),
    /// An exception that carries nothing.
    Raise(u32),
    /// An exception that carries the last core.
    RaiseWith(u32),
}
