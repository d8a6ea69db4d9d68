//! The wires of a program's core.
//!
//! Main call: `wires` makes them in the order of their declarations, by the nodes of the core and the signatures of the program
//! (`IsWireOf` in `CoreOf.antt` of `check_rules`). It takes time for each wire and for the inputs and outputs of the boxes at
//! its ends, not for the number of boxes.
//!
//! Proved: `wires` makes exactly the wires of the core, and gives none only where a declared wire has no core (`Missing.antt`):
//! one of its ends is nowhere, or its first value isn't of its type.
//!
//! It knows declarations, nodes with their names, types and the lines of a source. It doesn't know rules, or whether an input
//! or an output has a wire.

mod ends;
mod joined;
mod nodes;
mod wire_cores;

pub use wire_cores::wires;
