//! The C file of a core.
//!
//! Main call: `c_of` makes the file of a program of a name: types, hooks for streams, arithmetic, functions and boxes, functions that tell
//! whether objects hold values, a call that starts the net, and one that makes a superstep (`File.antt`). `Trees` are the typed trees of
//! the core's functions and boxes.
//!
//! Proved: the file is exactly the one that is defined, if memory doesn't run out.
//!
//! It knows cores and the parts of the file. It doesn't know sources, or how the file is printed.
#![tactic(auto)]

mod boxes;
mod file;

pub use file::c_of;
