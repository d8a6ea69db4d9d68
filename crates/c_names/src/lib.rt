//! The names of a C file: those of its functions, types and objects, by the names of the source.
//!
//! Each name of the file begins with a word that says what it names, and the name of the source follows. The names that
//! other files see begin with the program's name. Where the program is named like one of the words, a mark stands before each
//! word, so that no two names are the same.
//!
//! Proved: each call gives exactly the name that `Names.antt` defines, if memory doesn't run out.
//!
//! It knows how names are made. It doesn't know what they name.
#![tactic(auto)]

mod names;
mod words;

pub use names::Names;
pub use words::{argument, constructor_member, field, input, output, variable};
