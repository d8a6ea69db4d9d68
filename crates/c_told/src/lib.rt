//! The types that a C file declares for a core.
//!
//! Main call: `types_of` takes in the types that a core and its typed trees tell (`Told.antt`).
//!
//! Proved: exactly the types that are defined are taken in, in that order, if memory doesn't run out.
//!
//! It knows cores and typed trees. It doesn't know what a file declares beside types.
#![tactic(auto)]

mod told;
mod types;

pub use types::types_of;
