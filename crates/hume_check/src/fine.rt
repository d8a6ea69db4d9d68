//! What a program that breaks no rule of names, counts, types and limits has: signatures, wires and a core; laws, nothing runs.
//!
//! The laws are over definitions of `check_rules`: `CheckRules.antt` says which rules a program breaks, `SignaturesOf.antt`
//! which signatures it has, and `CoreOf.antt` which core it stands for.
//!
//! Proved: each program breaks a least rule or none (`each_program_breaks_a_least_rule_or_none`). One that breaks no rule on names
//! and counts has its signatures (`fine_names_have_signatures`). In one that breaks no rule each wire has its ends, its type and
//! its first value (`fine_wires_have_cores`), and the program has a core (`fine_programs_have_cores`).
//!
//! It knows trees of programs, types and cores. It doesn't know how cores are found, or that there is at most one, which
//! `check_rules` says.

mod laws;

pub use laws::{
    each_program_breaks_a_least_rule_or_none, fine_names_have_signatures, fine_programs_have_cores,
    fine_wires_have_cores,
};
