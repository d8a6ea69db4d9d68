//! From results of rules and handlers to their cores.
//!
//! Main call: `ResultElaboration::result` finds the core of a result for outputs of known types (`Results.antt` of
//! `check_typing`, by its walk). Each form of result is a list of tasks (`check_tasks::results`) on a stack, so a deep result needs no
//! deep stack of calls.
//!
//! Proved: `ResultElaboration::result` pushes exactly the core that the walk of `check_typing` finds of the result, and answers
//! `NoType` only where there is none.
//!
//! It knows forms of results. It doesn't know forms of expressions, or which names a rule's patterns bring into scope.

mod elaboration;
mod first;
mod leaves;
mod making;
mod output_tasks;
mod raises;
mod result_forms;
mod walk;

pub(crate) use elaboration::ResultElaboration;
