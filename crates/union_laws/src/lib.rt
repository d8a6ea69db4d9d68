//! Several programs as one net: the disjoint union of cores, in which each program runs as it runs alone; definitions and laws,
//! nothing runs.
//!
//! `Moving.antt` says what becomes of a program whose numbers move up, and `Union.antt` what the union of two programs and of a list
//! of programs is. `Shares.antt` says which part of a united state is a program's own, and `Room.antt` when a union is within the
//! limits of a program.
//!
//! Proved: from every state and after any number of supersteps a program's share of the united state is what it has alone, of two
//! programs and of a list (`programs_run_as_alone`), and a union starts as its programs do (`programs_start_as_alone`). A union of
//! well-formed programs that is within the limits is well formed (`unions_are_well_formed`), and its wires and handlers break only
//! what those of its programs break (`unions_break_no_rules`). A box's bounds of heap, stack and work are those that it has alone
//! (`boxes_have_the_bounds_that_they_have_alone`), and so are its peaks (`nodes_take_what_they_take_alone`).
//!
//! It knows cores, what their nets do and what steps take. It doesn't know how a union is made, or who runs it.
#![tactic(auto)]

mod laws;
mod moves;

pub use laws::{
    boxes_have_the_bounds_that_they_have_alone, nodes_take_what_they_take_alone,
    programs_run_as_alone, programs_start_as_alone, unions_are_well_formed, unions_break_no_rules,
};
pub use moves::Moves;
