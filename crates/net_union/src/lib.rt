//! The calls that unite programs: cores side by side as one core.
//!
//! Main calls: `unite` makes the union of two cores that is within the limits of a program, `join` any union, and `owner` tells
//! whose node a node is. What the union is and why each program runs in it as alone is said in `union_laws`.
//!
//! Proved: `join` gives exactly the union that is defined, if memory doesn't run out, and `owner` the program whose node it is.
//! `unite` answers `OverLimit` exactly where the union has no room (`HasRoom` of `union_laws`), and otherwise gives it, if memory
//! doesn't run out.
//!
//! It knows cores. It doesn't know sources or runs.
#![tactic(auto)]

mod boxes;
mod expressions;
mod functions;
mod gathering;
mod joining;
mod numbers;
mod owners;
mod patterns;
mod results;
mod room;
mod types;
mod uniting;
mod wires;

pub use joining::join;
pub use owners::owner;
pub use uniting::{UniteError, unite};
