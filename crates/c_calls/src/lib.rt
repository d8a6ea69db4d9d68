//! The two calls of a C file, and what other files see of it.
//!
//! Main calls: `init_function` starts the net and `step_function` makes a superstep: the execute step of each node, and then the super
//! step of each (`Streams.antt`, `Steps.antt`). `object_items` are the objects of boxes and output streams, `exception_items` the numbers
//! of exceptions with the objects of what they carry (`Exceptions.antt`), and `header_items` what other files see: the hooks of streams, which
//! they define, the two calls, and the functions that tell whether an object holds a value (`Hooks.antt`, `Headers.antt`).
//!
//! Proved: all of these are exactly those that are defined, if memory doesn't run out.
//!
//! It knows the nodes and wires of a core. It doesn't know the functions of boxes, or the file around.
#![tactic(auto)]

mod exceptions;
mod header;
mod hooks;
mod net;
mod steps;

pub use exceptions::exception_items;
pub use header::{head_comment, header_items, headers, outer_items};
pub use net::{init_function, object_items};
pub use steps::step_function;
