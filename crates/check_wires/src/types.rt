//! The types that declarations write down, and the types of wires, found by the names at their ends.
//!
//! Main calls: `written` gives the type that is written. `WireTypes::make` records the types of all inputs and outputs once,
//! and `between` finds the type of a wire (`TypeRules.antt` of `check_rules`, `NodeTypes.antt`).
//!
//! Proved: `written` gives the type that is written exactly where it is one. `WireTypes::make` has the types of all inputs and
//! outputs by the names of their nodes, and `between` finds the type at two ends. Law: that is the type of the wire between
//! them (`types_between_ends`).
//!
//! It knows boxes, streams and the data types that names stand for. It doesn't know values, sizes or rules.

mod laws;
mod ports;
mod types;
mod wires;

pub use laws::types_between_ends;
pub use ports::Ports;
pub use types::written;
pub use wires::{NodeTypes, WireTypes};
