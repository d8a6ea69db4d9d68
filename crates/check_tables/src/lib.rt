//! What a check looks things up in: names with numbers, and graphs of what leads to what.
//!
//! Main calls: `names::NameTable::find` gives a name's number in about constant time (`Names.antt`), `graph::first_in_cycle` the
//! first node that leads to itself (`Cycles.antt`), and `graph::order` the nodes in the order of their numbers (`Orders.antt`).
//!
//! It knows names and numbers. It doesn't know what they stand for.
#![tactic(auto)]

pub mod graph;
pub mod names;
