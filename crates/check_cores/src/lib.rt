//! Stacks of cores, from which the cores of larger expressions and patterns are made.
//!
//! `Builder` has a stack of cores of expressions and one of patterns, each with whether a literal in it is out of the range of
//! its type. A call takes the parts off and pushes the whole (`Stacks.antt`, and `Cores.antt` of `check_typing`). So code that
//! visits an expression holds no tree itself.
//!
//! Proved: each call takes the parts off the stacks and pushes exactly the core that `check_typing` gives the whole
//! (`Stacks.antt`).
//!
//! It knows cores. It doesn't know expressions, types of variables, or which core belongs to what.
#![tactic(auto)]

mod builder;
mod forms;
mod gather;
mod pattern_forms;
pub mod results;
mod stack;

pub use builder::Builder;
pub use stack::Stack;
