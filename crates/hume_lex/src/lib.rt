//! The lexer: it cuts any bytes into tokens with their places, or reports the first place that no token fits.
//!
//! Main call: `lex`. `Reading.antt`, over `Spelling.antt`, defines the tokens of a source as a relation between bytes and
//! tokens; `BadPlaces.antt` defines a bad place.
//!
//! Proved: `lex` gives the tokens of a source with their places exactly where the source has a reading within the limits.
//! Otherwise it gives the first bad place with its cause, or `NoMemory`. Laws: a source has at most one reading, and either one
//! within the limits or one bad place (`one_answer`); every reported place lies in the source (`places_are_within`).
//!
//! It knows bytes, tokens and their limits. It doesn't know what tokens stand for.
#![tactic(auto)]

mod bytes;
mod laws;
mod lexer;
mod scan;

pub use laws::{one_answer, places_are_within};
pub use lexer::{LexError, lex};
