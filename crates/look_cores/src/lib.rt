//! What is shown of a core: its net as Graphviz text, where the bounds of its boxes come from, and what breaks a rule.
//!
//! Main calls: `put_net`, `put_bounds`, and `tell_of_core`, which tells what breaks a rule on wires, exceptions or bounds;
//! `broken_in` finds all declarations that break one, and
//! `gaps_of` what lets a rule raise `NoCase`.
//!
//! Proved: `may_raise` and `first_raised` find exactly the exceptions that rules and handlers let out of their boxes (`Raised.antt`).
//! What is put or told stands behind all that stood on the page (`Grows`), `broken_in` gives refusals in later and later lines, and
//! `gaps_of` three gaps at most. Beyond it nothing but safety: no call fails but for memory, and each ends. That the bounds are those
//! of `space_costs` is compared over the examples.
//!
//! It knows cores. It doesn't know sources, or why one is refused.
#![tactic(auto)]

mod alternatives;
mod bound;
mod bounds;
mod box_bounds;
mod broken;
mod building;
mod chain;
mod expression_bounds;
mod found;
mod gaps;
mod guess;
mod known;
mod left_out;
mod net;
mod pattern_counts;
mod raised;
mod result_bounds;
mod slices;
mod texts;

pub use bounds::put_bounds;
pub use broken::{Culprit, tell_of_core};
pub use found::broken_in;
pub use gaps::{Gap, gaps_of};
pub use left_out::Cause;
pub use net::put_net;
pub use raised::{first_raised, may_raise};
pub use texts::put_type;
