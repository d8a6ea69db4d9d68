//! What is found out about typed expressions before they are written in C.
//!
//! A `Setting` is what expressions are written by: a core, its types in C, and the functions that are written already
//! (`Targets.antt`). Main calls: `may_raise` says whether an expression may raise (`Raises.antt`), `is_plain` whether it is an
//! expression of C with no statement before it (`Plain.antt`), `needs_test` whether a value is tested where it is matched with a
//! pattern (`Needs.antt`), and `mark_used` which variables an expression uses (`Uses.antt`). `Seen.antt` says how a function goes by
//! the forms of expressions.
//!
//! Proved: each answer is exactly the one that these files define, if memory doesn't run out.
//!
//! It knows typed expressions and patterns. It doesn't know how expressions are written.
#![tactic(auto)]

mod complete;
mod needs;
mod plain;
mod raises;
mod setting;
mod uses;

pub use complete::{Alternative, are_complete, are_irrefutable, arms_are_complete};
pub use needs::needs_test;
pub use plain::{is_connective, is_division, is_plain, is_word};
pub use raises::{is_inside, is_nonzero, may_raise, word_of};
pub use setting::{Called, Callee, Setting};
pub use uses::{is_looked_at, mark_used, pop_some_marked, push_unmarked, uses_argument, uses_next};
