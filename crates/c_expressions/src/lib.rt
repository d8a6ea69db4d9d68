//! Expressions in C.
//!
//! An expression is written in one of two ways: its value is built at a destination, or an expression of C gives it, behind
//! statements. Statements are written in the order in which parts are evaluated; an exception returns its number from
//! the function.
//!
//! Main calls: `built` gives the statements that write a value to a destination, `value` the number that an expression gives or the
//! object that has its value (`Expressions.antt`), and `matched` the tests that an object passes where it matches a pattern
//! (`Patterns.antt`).
//!
//! Proved: the statements, values and tests are exactly those that are defined, if memory doesn't run out.
//!
//! It knows typed expressions and patterns. It doesn't know boxes, wires or the file around.
#![tactic(auto)]

mod arms;
mod building;
mod calls;
mod made;
mod operations;
mod parts;
mod patterns;
mod values;
mod vectors;

pub use arms::{Way, is_last_way, none_tried, tests_of, ways_tried, when_none};
pub use building::{built, raised, raised_with};
pub use made::{
    Code, Destination, Made, behind, behind_object, defined, ended, enter, nothing, plain,
};
pub use patterns::{conjunction, matched};
pub use values::{subject, value};
