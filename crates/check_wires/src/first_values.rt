//! The rule on first values of wires: each has the type of its wire.
//!
//! Main call: `first_without_value` gives the first wire with a first value that isn't built as values are, or isn't of the
//! wire's type (`TypeRules.antt` of `check_rules`).
//!
//! Proved: `first_without_value` gives the first wire that breaks rule 45, by the signatures of the program.
//!
//! It knows declarations and the signatures of their program. It doesn't know sizes, or which wires need a first value.

mod first;

pub use first::first_without_value;
