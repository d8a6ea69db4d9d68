//! The first values of wires: which expressions write down a value, and which value of a type it is.
//!
//! Main calls: `is_built` says whether an expression is built as values are, and `constant` gives the value of a type that it
//! writes down, if it is one (`Constants.antt` of `check_rules`).
//!
//! Proved: `constant` gives the value of a type that an expression writes down exactly where it is one, and `is_built` says
//! whether it is built as values are.
//!
//! It knows expressions, types and what names of constructors stand for. It doesn't know wires.

mod built;
mod constants;
mod literals;

pub use built::is_built;
pub use constants::constant;
