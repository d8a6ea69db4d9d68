//! Types, patterns and expressions, each read from the front of a list of tokens.
//!
//! Main calls: `ty`, `pattern`, `input_pattern` and `expression`. The definitions of `parse_readers` say what they read. The private
//! definitions are views of the code that the contracts of its functions need.
//!
//! Proved: each call gives what its reader gives on the list, and leaves a shorter list, or stops where the reader stops.
//!
//! It knows slices of tokens with their places, and how deep a tree may be. It doesn't know declarations.
#![tactic(auto)]

mod expressions;
mod leaves;
mod operators;
mod patterns;
pub mod tokens;
mod trees;
mod types;

pub use expressions::expression;
pub use patterns::{input_pattern, pat_atom, pattern, starts_pat};
pub use types::{ty, type_list};
