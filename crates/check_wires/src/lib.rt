//! The wires of a program: the types at their ends, their first values, and their cores.
//!
//! Main calls: `first_values::first_without_value` gives the first wire that breaks the rule on first values, and `cores::wires`
//! the wires of the core. The files of `specs/first_values` and `specs/cores` define both, over those of `specs/types`.
//!
//! It knows signatures and written declarations. It doesn't know rules of boxes, or equations of functions.
#![tactic(auto)]

pub mod constants;
pub mod cores;
pub mod first_values;
pub mod types;
