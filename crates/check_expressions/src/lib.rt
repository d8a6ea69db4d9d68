//! From expressions and patterns to their cores, task by task.
//!
//! Main calls: `own` finds the type and the core of an expression by itself, `against` its core against the last type of a
//! stack, and `perform_one` does one task with all that it leads to. Each form puts its tasks before the others
//! (`own_tasks.rt`, `against_tasks.rt`, `list_tasks.rt`, `pattern_tasks.rt`), and `walk.rt` does one after the other: only the
//! question whether an expression is open recurs.
//!
//! Proved: `own` pushes the type and the core of an expression by itself and `against` its core against the last type, exactly
//! where the walk of `check_typing` finds them, which is proved equal to the typing relations. They stop with `NoType` exactly
//! where it finds none.
//!
//! It knows expressions, patterns, types and cores. It doesn't know results of rules, declarations, or which rule is reported.
#![tactic(auto)]

mod access;
mod against_forms;
mod against_tasks;
mod core_tasks;
mod elaboration;
mod first;
mod leaves;
mod list_tasks;
mod literals;
mod named_tasks;
mod numbers;
mod open;
mod own_forms;
mod own_tasks;
mod pattern_tasks;
mod scopes;
mod stop;
mod type_tasks;
mod walk;

pub use elaboration::Elaboration;
pub use stop::Stop;
pub use walk::{against, own, perform_one};
