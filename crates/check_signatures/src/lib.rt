//! The signatures of a program: its data types, exceptions and functions, each in the order of its numbers.
//!
//! Main call: `signatures_of` finds the signatures (`SignaturesOf.antt` of `check_rules`) and the order in which functions are
//! numbered.
//!
//! Proved: `signatures_of` gives the signatures of a program and the order of its functions exactly where it has signatures
//! (`AreSignatures`). A program of the grammar that breaks no rule on names and counts has some.
//!
//! It knows declarations and the types that they write down. It doesn't know expressions, boxes, wires or rules.
#![tactic(auto)]

mod data_types;
mod exceptions;
mod functions;
mod names;
mod ordered;
mod sizes;
mod types;

pub use ordered::{Ordered, signatures_of};
