//! Stacks from which the cores of results of rules and handlers are made.
//!
//! `ResultBuilder` has three stacks: of results, of outputs and of alternatives, each with whether a literal in it is out of
//! the range of its type. A call takes the parts off and pushes the whole (`Stacks.antt`, and `Results.antt` of `check_typing`).
//! It is given the cores of expressions and of patterns.
//!
//! Proved: each call of `ResultBuilder` takes the parts off the stacks and pushes exactly the core that `check_typing` gives the
//! whole.
//!
//! It knows cores. It doesn't know expressions, types of variables, or which core belongs to what.

mod builder;
mod forms;
mod gather;

pub use builder::ResultBuilder;
