//! What is known where an expression stands: the variables in scope, a stack of types, and what names of declarations stand
//! for.
//!
//! `Environment` gives each type of a signature its number once, so that a use of a name costs no more than its length.
//! Contracts speak of types (`Known.antt`). `push_written` puts a written type on the stack (`Written.antt`).
//!
//! Proved: each call of `Environment` changes the variables and the stack of types exactly as it says of types. `find`,
//! `push_function`, `push_exception` and `push_constructor` give exactly what a name stands for, the last variable or the first
//! declaration of it, and push its type. `push_written` pushes the written type, and answers no exactly where none is written.
//!
//! It knows types and signatures. It doesn't know expressions, or which types are right.
#![tactic(auto)]

mod environment;
mod named;
pub mod signatures;
mod signed;
pub mod types;
mod written;

pub use environment::Environment;
