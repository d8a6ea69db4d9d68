//! What a designer looks at: why a source is refused, where a bound comes from, the net as a picture, and warnings.
//!
//! Main calls: `look`, by a word of `read_word`; and `told`, which says why a call of the tool failed. `look` asks
//! `hume_front::accept` whether a source is accepted, and `why` asks it again of sources with one part put away, to find the part that
//! breaks the rule.
//!
//! Proved: `look` says that a source is accepted exactly where it is. Of a refused source `net` and `hints` show the line of
//! `hume check`, and `bounds` shows it first (`Shown.antt`). Beyond it nothing but safety: no call fails but for memory, and each
//! ends. That `why` tells the code and the line of `hume check` is so since both call `accept`.
//!
//! It knows sources, programs, cores, and the words of calls. It doesn't know runs.
#![tactic(auto)]

mod failures;
mod hints;
mod looking;
mod sources;
mod why;

pub use failures::told;
pub use looking::{Shown, Word, look, read_word};
