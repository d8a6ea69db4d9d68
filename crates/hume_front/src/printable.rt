//! Values on wires have texts, and each text has one meaning; laws, nothing runs.
//!
//! Proved: the types of the wires of a well-formed core have texts within their bound (`well_formed_types_are_printable`,
//! `Bounds.antt` of `hume_text`). In the core of a program that is read from a source and breaks no rule, the constructors of
//! each data type have names, no two the same (`constructors_of_sources_have_names`, `Names.antt` of `hume_text`).
//!
//! It knows tokens, trees, cores, and what texts of values require of types. It doesn't know how texts are printed or read, or
//! streams.

mod laws;

pub use laws::{constructors_of_sources_have_names, well_formed_types_are_printable};
