//! What a program has from the tokens of its source, whatever the rules say; laws, nothing runs.
//!
//! `OfTokens.antt` of `check_rules` defines it: names and texts have at least one byte and at most as many as allowed, data
//! types have few constructors, and there are few declarations.
//!
//! Proved: names, texts and constructors of a program that is read from a source are as its tokens make them
//! (`read_programs_are_of_tokens`), and it has no more declarations than tokens (`read_programs_are_short`).
//!
//! It knows tokens and trees. It doesn't know how they are read, or rules.

mod laws;

pub use laws::{read_programs_are_of_tokens, read_programs_are_short};
