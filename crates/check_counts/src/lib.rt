//! The rules on counts, on `*`, and on how many of each thing there may be.
//!
//! Main calls: `first_miscounted`, the first declaration with a wrong count (rule 42, `Miscounts.antt`), `first_stray_star`,
//! the first with a `*` that is no output (44, `Stars.antt`), and `first_past_limits` (72, `Limits.antt`). `CountRules.antt`
//! says what these are of a declaration.
//!
//! Proved: `first_miscounted`, `first_stray_star` and `first_past_limits` give the first declaration that breaks rule 42, 44
//! and 72.
//!
//! It knows trees of programs and how many parameters, fields and values names have. It doesn't know types, or which names are
//! declared: an unknown name has no count, so no count of it is wrong.
#![tactic(auto)]

mod counts;
mod declarations;
mod expressions;
mod first;
mod limits;
mod patterns;
mod results;
mod stars;
mod tally;
mod types;

pub use counts::Counts;
pub use first::{first_miscounted, first_stray_star};
pub use limits::first_past_limits;
pub use tally::Tally;
