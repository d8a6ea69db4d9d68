//! The rules on sizes: no type of a declaration has too many words, and neither have all wires of a program together.
//!
//! Main calls: `first_large_type` gives the first declaration with too large a type, and `first_past_words` the first wire with
//! which all wires have too many words (`SizeRules.antt` of `check_rules`). Sizes stop one word past what all wires may have
//! (the private `Capped.antt`), so nothing overflows.
//!
//! Proved: `first_large_type` gives the first declaration that breaks rule 73, and `first_past_words` the first wire that
//! breaks rule 74, by the signatures of the program: both tests are exact.
//!
//! It knows declarations and the signatures of their program. It doesn't know values, or how deep a wire may be.
#![tactic(auto)]

mod casts;
mod data_sizes;
mod declarations;
mod large_types;
mod wire_words;
mod words;
mod written_words;

pub use large_types::first_large_type;
pub use wire_words::first_past_words;
