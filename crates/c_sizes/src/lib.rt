//! How many bytes of static memory a C file takes, and how deep its calls go.
//!
//! Main calls: `static_memory` gives the bytes of each object (`Memory.antt`, by the layouts of `Layout.antt`), `deepest_calls` the
//! chain of calls whose variables take the most (`Calls.antt`, `Frames.antt`), and `put_table` appends the lines of both
//! (`Table.antt`). Each number of bytes is four: for compilers that align numbers to 1, 2, 4 or 8 bytes at most.
//!
//! Proved: each call gives what is defined, for all trees.
//!
//! It knows the trees of `c_tree`. It doesn't know what they are made of, or what a compiler keeps in registers.
#![tactic(auto)]

mod bytes;
mod calls;
mod expressions;
mod frame;
mod layout;
mod lines;
mod memory;
mod statements;
mod table;

pub use bytes::Bytes;
pub use calls::{Chain, deepest_calls};
pub use lines::put_table;
pub use memory::{Row, static_memory, together};
