//! What is shown of a source: pages of text, the lines and columns of places, and the tokens of each part of a program.
//!
//! Main calls: `Page` gathers what is printed, `Spot` finds the line and column of a place, and `spans_of` lists the parts of a
//! program with the tokens that spell them.
//!
//! Proved: unless memory runs out, what is put on a page stands behind all that stood there (`Appends`), and `finish` gives just that.
//! `Spot::of` gives the line and the column of a place (`Spots.antt`), and `spans_of` leaves no declaration out (`Parts.antt`).
//! Beyond it nothing but safety: no call fails but for memory, and each ends.
//!
//! It knows bytes, tokens and trees. It doesn't know rules, cores, or why a source is refused.
#![tactic(auto)]

mod covering;
mod page;
mod span;
mod spot;
mod walk;
mod walk_boxes;
mod walk_declarations;
mod walk_expressions;
mod walk_patterns;
mod walk_types;

pub use page::Page;
pub use span::{Sort, Span};
pub use spot::Spot;
pub use walk_declarations::spans_of;
