//! A round of supersteps that is shared among workers: each has groups of nodes, and makes the half steps that may be made.
//!
//! Main calls: `Division::make`, which finds the sides of groups, and `share_round`, on cells that all are at time 0. `Items.antt` says when
//! a group or the cell of a crossing wire is right for all that a round opens with, and `Divisions.antt` what a division is; `step_turns`
//! says where the cells stand before and after.
//!
//! A group has the cells of its nodes and of its inner wires, all at one time. A worker claims a group and the crossing wires of its side in
//! a locker, makes the half step of each member, and hands all on one half step later. It makes those of its own share of groups first.
//!
//! Proved: `share_round` leaves each cell at its place, at balanced times that are not beyond the end, and right for every opening for
//! which all cells were right before: whatever the groups, the number of workers and the interleaving of their half steps, and also where
//! a worker leaves early. At `Err` all cells are as they were. A half step is made between cells that one worker holds, and no other
//! worker sees any of them before it is made. Nothing is said of how many half steps are made: the caller makes those that are left.
//!
//! It knows half steps, sides, groups and the locker. It doesn't know kinds of nodes, how good groups are, nor how the half steps that are
//! left are made.
#![tactic(auto)]

mod cells;
mod closing;
mod division;
mod empties;
mod gathering;
mod halves;
mod items;
mod placing;
mod rounds;
mod scans;
mod stowing;
mod turns;
mod unpacking;
mod ways;

pub use cells::{Group, NetCell};
pub use division::Division;
pub use items::{Item, Opens};
pub use rounds::share_round;
pub use step_turns::{Gate, OpenGate};
pub use ways::Ways;
