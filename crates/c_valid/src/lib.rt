//! Whether an object of a C file holds a value of its type.
//!
//! A hook may deliver what is no value: 9 for a number of 3 bits, or a tag that no constructor has. Main calls: `valid_functions` writes,
//! for each input stream of whose type an object may hold no value, a function that tells (`Streams.antt`), with the functions of the
//! structs that it tests (`Tests.antt`, `Functions.antt`); `valid_prototypes` declares those of the streams.
//!
//! Proved: the functions and their declarations are exactly those that are defined, if memory doesn't run out.
//!
//! It knows types, and the streams of a core. It doesn't know boxes, or the file around.
#![tactic(auto)]

mod bodies;
mod functions;
mod streams;
mod tested;
mod tests;

pub use streams::{valid_functions, valid_prototypes};
