//! The tasks by which results are elaborated, and that they do what the typing says; definitions and laws, nothing runs.
//!
//! `ResultTasks.antt` says what each task does to a state.
//!
//! Proved: the tasks of each form of result do exactly what the walk of `check_typing` finds of the form. Law:
//! `result_tasks_are_done_in_order`.
//!
//! It knows results, outputs and alternatives. What is done of expressions is a task of `check_tasks`.

mod laws;
mod task;

pub use laws::result_tasks_are_done_in_order;
pub use task::{ResultMake, ResultTask};
