//! The parser: from the tokens of a source to the one program that they stand for, or to the place where no program continues.
//!
//! Main call: `parse`. `hume_ast` defines for which program tokens stand (`StandsFor`), and `parse_errors` what is reported
//! where they stand for none. The private definitions are views of the code that the contracts of its functions need.
//!
//! Proved: `parse` gives the program that the tokens stand for, and no other (`only`). Otherwise it reports the one wrong place
//! (`IsWrongPlace` of `parse_errors`), or `NoMemory`. Its functions do what the readers of `parse_readers` do on lists. Its
//! laws are those of `parse_errors` and `parse_readers`.
//!
//! It knows slices of tokens with their places, and how deep a tree may be. It doesn't know bytes, declared names, or types of
//! expressions.
#![tactic(auto)]

mod boxes;
mod declarations;
mod functions;
mod items;
mod parser;
mod program;

pub use parser::parse;
