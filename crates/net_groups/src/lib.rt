//! A partition of a net's nodes into groups of about equal work that share few wires.
//!
//! Main call: `partition`. Connected nodes are taken in depth-first order. A component that is more than a worker's share of the work is
//! cut into pieces of equal work; many pieces are packed, the heaviest first. Workers get shares of groups in a row. `grouping_by` makes
//! groups by numbers that are given, so that any grouping can be tried.
//!
//! Proved: the groups are a grouping of the plan (`IsGrouping` of `superstep_core`), those of `partition` at most four for each worker. Nothing is said of how
//! good they are: any grouping serves, and `bench/` measures this one.
//!
//! It knows plans and numbers that stand for work. It doesn't know boxes, cells, or how workers use their shares.
#![tactic(auto)]

mod groups;
mod numbers;
mod order;
mod packing;
mod pieces;
mod shares;

pub use groups::{WorkerGroups, grouping_by, partition};
