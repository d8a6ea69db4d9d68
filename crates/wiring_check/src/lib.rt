//! The rules on wires: whether each input and each output of a core has its one wire, and which wire that is.
//!
//! Main call: `check_wires`, which gives the `Wiring` of the core or refuses it; `Wiring::input` and `Wiring::output` name the
//! wire at a position. `WireRules.antt` of `hume_model` defines the rules, and `Wires.antt` a wiring.
//!
//! Proved: `check_wires` gives the wiring of a core exactly where its wires break no rule, and otherwise the least rule that
//! they break (`BreaksWires`); `Wiring::input` and `output` give the one wire at a place. Laws: a core whose wires break no
//! rule has a wiring (`fine_wires_have_a_wiring`); a well-formed one has one wire at each input and output, and wires that meet
//! have one type (`fine_wires_are_wired`).
//!
//! It knows the nodes and the wires of cores. It doesn't know sources, what boxes do, or what is on the wires.
#![tactic(auto)]

mod check;
mod findings;
mod first_wires;
mod laws;
mod side;
mod slots;
mod wiring;

pub use check::{WireError, check_wires};
pub use laws::{fine_wires_are_wired, fine_wires_have_a_wiring};
pub use wiring::Wiring;
