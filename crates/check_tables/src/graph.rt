//! Cycles of a graph, and the order in which its nodes are numbered: functions by their calls, and data types by what they
//! hold.
//!
//! Main calls: `first_in_cycle`, the first node that leads to itself, and `order`, the nodes by their numbers. `Cycles.antt`
//! and `Orders.antt` define both.
//!
//! Proved: `order` gives the nodes by their numbers, as far as they get one, and `first_in_cycle` the first node that leads to
//! itself. Laws: a graph has one order (`orders_are_unique`), nodes lead to earlier ones (`orders_go_up`), and all have a
//! number exactly where none is in a cycle (`orders_have_all_where_nothing_is_in_a_cycle`).
//!
//! It knows numbers. It doesn't know what they stand for.

mod cycle;
mod laws;
mod numbering;
mod reversed;
mod rows;

pub use cycle::first_in_cycle;
pub use laws::{orders_are_unique, orders_go_up, orders_have_all_where_nothing_is_in_a_cycle};
pub use numbering::order;
