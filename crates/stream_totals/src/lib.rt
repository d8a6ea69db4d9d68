//! How many values an output stream has taken in all, and the sum of the numbers that they stand for.
//!
//! Main calls: `Total::add`, which counts the values of a log, and `chain_line`, which tells a total. `Totals.antt` says what the
//! total of values is, and `ChainLines.antt` how it is told.
//!
//! Proved: `add` makes of the total of some values that of these and the log's, exactly, where the first are no
//! more than 2^61. It leaves the log. `chain_line` puts the line. Neither takes memory.
//!
//! It knows logs and the words of values. It doesn't know cores, rounds or ports.
#![tactic(auto)]

mod chain_lines;
mod total;

pub use chain_lines::{CHAIN_LINE_BYTES, chain_line};
pub use total::Total;
