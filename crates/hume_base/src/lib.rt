//! The types, values, tokens, rules and limits that every layer uses, and the containers that trees are made of.
//!
//! `size` counts the words of a type (`Sizes.antt`) and `line_of` finds the line of a place (`Places.antt`). `Values.antt` says
//! which values a type has, `Flat.antt` which words stand for a value, and `Least.antt` which of several broken rules is
//! reported. `limits` holds each limit of the language once.
//!
//! Proved: a copy equals its original (`copy_ty`, `copy_value`); `size` counts the words of a type as defined; `line_of` gives
//! the line of a place; a keyword or a sign is found exactly where a text spells it (`from_text`). Laws: a value has as
//! many words as its type's size (`values_have_their_sizes`), and they distinguish it from every other value of its type
//! (`words_tell_values_apart`).
//!
//! It doesn't know programs, the bytes of sources, or ports.
#![tactic(auto)]

mod boxed;
mod copy;
mod finding;
mod keyword;
mod laws;
pub mod limits;
pub mod lines;
mod list;
mod list_traits;
mod place;
mod rule;
mod shared;
mod symbol;
mod text;
mod token;
mod type_size;
mod types;
mod words;

pub use boxed::Box;
pub use copy::{copy_ty, copy_tys, copy_value, copy_values, same_ty, share_tys};
pub use finding::{Finding, earlier};
pub use keyword::Keyword;
pub use laws::{values_have_their_sizes, words_tell_values_apart};
pub use list::List;
pub use place::line_of;
pub use rule::{Refusal, Rule};
pub use shared::Shared;
pub use symbol::Symbol;
pub use text::Text;
pub use token::{Kind, Token};
pub use type_size::size;
pub use types::{ConDef, SumDef, Ty, Types, Value};
pub use words::{int_of_word, word_of_int};
