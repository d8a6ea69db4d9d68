//! Results of rules in which a call is unfolded: the first one that can be.
//!
//! Main call: `unfold_further`, which changes a result in its place. `Unfolding.antt` of `calculus_laws` says what it makes of one. In a
//! `case` it passes over the first alternatives, where they are known to have no such call (`Clear.antt`).
//!
//! Proved: it makes exactly the result that is defined, and leaves one as it is in which no call can be unfolded, if memory doesn't
//! run out. Of as many first alternatives of the new result as it answers, none has such a call.
//!
//! It knows cores. It doesn't know steps, boxes, or where a result comes from.
#![tactic(auto)]

mod calls;
mod counts;
mod further;
mod gathering;
mod patterns;
mod renumbering;
mod unfolding;
mod unfolding_results;

pub use counts::{count, plus};
pub use further::unfold_further;
