//! Readers of lists of tokens, for the proofs of the parser alone: definitions and laws, nothing runs.
//!
//! Nobody has to believe these readers: `hume_ast` defines the grammar, and the parser is proved to read slices of tokens as
//! the readers read lists. `Readers.antt` says what a reader is and how readers are combined; `Programs.antt` has the reader of
//! programs. Where no program continues, a reader says which token is wrong, and whether only depth forbids it.
//!
//! Proved: the readers read exactly what is spelled, and stop exactly at the first token with which nothing continues. Law
//! (`one_spelling`): two trees of the grammar with one spelling are one tree, programs except for the places of their
//! declarations; and tokens with their places stand for at most one program.
//!
//! It knows lists of tokens and trees. It doesn't know memory, slices or errors.
#![tactic(auto)]

mod laws;

pub use laws::one_spelling;
