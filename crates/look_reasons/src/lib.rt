//! What is told of a source: what breaks a rule, and warnings of what is probably a mistake.
//!
//! Main calls: `Resolved::of` finds what each name of a source stands for; `tell_repeated`, `tell_unknown`, `tell_counts` and
//! `tell_limits` say of a `Site`, where a source is refused, what breaks the rule; `tell_habit` and `Misfit` say what stands for a sign of
//! another language; `sentence` and `remedy` are the words of each rule; `hints::put_all_hints` puts the warnings of a source.
//!
//! Proved: a site's places and names are those of its tokens (`Sites.antt`), each sentence and each remedy is one line, and what is
//! put or told stands behind all that stood on the page (`Grows`). `breaks_limits` gives refusals in later and later lines. Beyond it
//! nothing but safety: no call fails but for memory, and each ends.
//!
//! It knows tokens, trees and cores. It doesn't know how a source is accepted.
#![tactic(auto)]

mod counts;
mod habits;
pub mod hints;
mod limits;
mod name_table;
mod names;
mod ranges;
mod reason;
mod resolved;
mod sentences;
mod site;
mod slices;
mod types;
mod unknown;
mod words;

pub use counts::{tell_counts, tell_miscounted};
pub use habits::{Misfit, tell_habit};
pub use limits::{breaks_limits, tell_limits};
pub use names::{is_repeated, tell_repeated};
pub use ranges::{put_numbers, tell_comparison};
pub use reason::Reason;
pub use resolved::Resolved;
pub use sentences::{remedy, sentence};
pub use site::Site;
pub use types::types_of_source;
pub use unknown::tell_unknown;
pub use words::Words;
