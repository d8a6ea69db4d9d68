//! Which core a program stands for, and which rules of names, counts, types and limits it breaks; definitions and laws,
//! nothing runs.
//!
//! `CoreOf.antt` says which core belongs to a program in a source, over `SignaturesOf.antt` (its data types, exceptions and
//! functions by their numbers), `Declared.antt` and `Constants.antt` (first values of wires). `CheckRules.antt` lists the rules
//! of four phases: `TypeRules.antt` and `SizeRules.antt` are here, the others in the crates that decide them. `OfTokens.antt`
//! says what a program has from its tokens.
//!
//! Proved: a program has at most one list of data types, exceptions and functions (`signatures_are_unique`), and a source
//! stands for at most one core (`cores_are_unique`); of the rules that a program breaks, one is the least
//! (`least_broken_rule_is_one`). The core of a program that breaks none is well-formed (`cores_are_well_formed`), if the
//! program is one of the grammar (`IsFit`) with names and constructors as tokens make them (`IsOfTokens`); the parser's
//! contract and `hume_front::programs` say so of the programs of sources. Parts of that need less: data types hold only smaller ones
//! (`cores_hold_smaller`), functions call only smaller ones and have their types, as boxes do (`calls_go_down`,
//! `functions_and_boxes_are_typed`, `cores_have_sound_parts`), wires have their ends and first values of their types
//! (`wires_have_their_ends`), and there are no more parts than allowed (`cores_have_few_parts`).
//!
//! It knows trees of programs, types and cores. It doesn't know tokens, wiring, raised exceptions, or costs.
#![tactic(auto)]

mod laws;

pub use laws::{
    calls_go_down, cores_are_unique, cores_are_well_formed, cores_have_few_parts,
    cores_have_sound_parts, cores_have_their_exceptions, cores_hold_smaller,
    functions_and_boxes_are_typed, least_broken_rule_is_one, signatures_are_unique,
    wires_have_their_ends, wires_have_written_types,
};
