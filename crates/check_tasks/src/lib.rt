//! The tasks by which expressions and patterns are elaborated, and that they do what the typing says; definitions and laws,
//! nothing runs.
//!
//! `Task` is a step that is still to be done. `Tasks.antt` says what each does to a state (`States.antt`: the variables in
//! scope, a stack of types, and stacks of the cores made so far), and what tasks do one after the other (`run`). So code that
//! does task after task elaborates without recursion, however deep an expression is.
//!
//! Proved: the tasks of each form of expression and pattern, done one after the other, do exactly what the walk of
//! `check_typing` finds of the form. Laws: `tasks_are_done_in_order`, `open_parts_are_int32`.
//!
//! It knows forms and their tasks.
#![tactic(auto)]

mod laws;
pub mod results;
mod task;

pub use laws::{open_parts_are_int32, tasks_are_done_in_order};
pub use task::{CoreTask, Task, TypeTask};
