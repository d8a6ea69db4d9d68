//! Which accepted programs may run as one: their union with its wiring and its bounds, or the first program at which a limit is passed.
//!
//! Main call: `unite_all`. `Unions.antt` says what the union of accepted programs is, and when a limit is passed.
//!
//! Proved: `unite_all` gives the union of the programs' cores in their order, which can be run as that of one source, or the first
//! program at which the union of those up to it passes a limit, unless memory runs out.
//!
//! It knows accepted programs and their cores. It doesn't know ports, or how a union is run.
#![tactic(auto)]

mod union;
mod uniting;

pub use union::{Union, UnionError};
pub use uniting::unite_all;
