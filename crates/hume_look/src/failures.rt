//! Why a call of the tool failed: the words, the source, the ports or the lines of an input are looked at once more.
//!
//! Main call: `told`, by the status of the call and its words. `refusals` finds the rule that a source or a script breaks; the rest is
//! said by `look_told`. No net is run.
//!
//! Proved: nothing beyond safety.

mod programs;
mod refusals;
mod telling;

pub use telling::told;
