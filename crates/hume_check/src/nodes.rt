//! The functions, boxes and streams of a program's core.
//!
//! Main calls: `functions_in_order` makes the functions in the order of their numbers, and `nodes` the boxes and streams in the
//! order of their declarations (`CoreOf.antt` of `check_rules`). The trees of equations, rules and handlers are given; here they
//! are erased, and get their names, lines, signatures and ports.
//!
//! Proved: `functions_in_order` makes exactly the functions of the core, and `nodes` its boxes and streams, for a program of
//! these signatures and trees.
//!
//! It knows whole declarations, their lines, signatures and trees. It doesn't know how trees are found, or wires.

mod boxes;
mod declared;
mod functions;
mod node_cores;
mod ports;

pub(crate) use functions::functions_in_order;
pub(crate) use node_cores::nodes;
