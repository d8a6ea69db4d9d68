//! The bounds of heap, stack and work of each box of a core, and the rules on them.
//!
//! Main call: `costs` counts the bounds, or refuses the core. `Bounds.antt` of `box_costs` defines them, and `CostRules.antt`
//! there the limits that they may break. Each function and each data type is counted once, in the order of its number. A sum
//! that passes the greatest limit stops one past it; the private `Standing.antt` says what is counted.
//!
//! Proved: `costs` gives the bounds of each box exactly where they break no rule (`BreaksCosts`), or `NoMemory`, and otherwise
//! the least rule that they break; `Costs::heap`, `stack` and `work` are those bounds.
//!
//! It knows expressions, results, rules and boxes. It doesn't know values, evaluation, wires, or sources.
#![tactic(auto)]

mod boxes;
mod builds;
mod check;
mod combine;
mod expressions;
mod findings;
mod functions;
mod node_costs;
mod nodes;
mod patterns;
mod positions;
mod results;

pub use check::{CostError, costs};
pub use node_costs::Costs;
