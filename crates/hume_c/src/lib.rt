//! The call that writes a source as C: what words ask for, and what the call owes.
//!
//! Main call: `hume_c`. `Words.antt` says what words ask for, `Texts.antt` which text belongs to a core, `Owed.antt` what a call owes, and
//! `Headline.antt` how it ends.
//!
//! Proved: `hume_c` reads its source and, where that is accepted, writes the text that `text_of` defines for its core and the typed trees of
//! it to `std_out` and finishes it; of another source it tells a rule that it breaks. It touches no port but these two. Where a port fails,
//! or memory runs out, it answers so, and which acts it had made then is said.
//!
//! It knows ports, words, and how a source is accepted. It doesn't know how the C file is made.
#![tactic(auto)]

mod call;
mod texts;
mod words;

pub use call::hume_c;
pub use words::Kind;
