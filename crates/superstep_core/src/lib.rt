//! Nodes that make their half steps one by one, in any order that their wires allow: each ends where all nodes at once end.
//!
//! Main calls: `Turns::enabled`, `Turns::apply` and `Turns::some_enabled`, a machine that knows the times of nodes alone.
//! `Schedules.antt` says which nodes are enabled and what a schedule is, `Playing.antt` what half steps of single nodes do to a
//! state, over the words of `Plan.antt` and `Times.antt` of `hume_net`. `Grouping` is nodes in groups; `Groups.antt` says what it has to
//! keep, and what the plan of the groups is, which `Grouping::quotient` makes.
//!
//! Proved: After any schedule of half steps each node's part and each wire is as the lockstep has it at its own time
//! (`schedules_keep_items_on_time`). Complete schedules end in the state of the lockstep
//! (`complete_schedules_end_in_the_lockstep`), and so do parts and wires that are each at its end, whatever brought them there
//! (`items_at_their_end_are_the_lockstep`). A half step changes only its node's part and the wires of its side
//! (`half_steps_change_their_side_alone`), and takes exactly these wires one time further (`wires_go_on_with_their_side`). While
//! the times are balanced, a node of the least time is enabled unless it is at its end (`some_node_is_enabled`); half steps of
//! enabled nodes keep times balanced (`half_steps_keep_times_balanced`, `times_of_schedules_are_balanced`). Times are those of a
//! schedule exactly where they are balanced and none is beyond the end (`balanced_times_are_scheduled`). `Turns` is exact:
//! `node_time` and `wire_time` give these times, `enabled` is true exactly where the node is enabled, `apply` takes its time one
//! further, and `some_enabled` gives an enabled node, or none exactly where all are at their end. Its one condition is that the
//! plan joins nodes (`IsPlan`). Groups of nodes are the nodes of a plan again, and its times, wires and schedules are those of the
//! nodes (`groups_are_nodes_of_a_plan`). No run goes by `Turns` or by groups.
//!
//! It knows plans, times and states. It doesn't know cells, threads, or how a half step is computed.
#![tactic(auto)]

mod group_laws;
mod grouping;
mod laws;
mod turns;

pub use group_laws::groups_are_nodes_of_a_plan;
pub use grouping::Grouping;
pub use laws::{
    balanced_times_are_scheduled, complete_schedules_end_in_the_lockstep,
    half_steps_change_their_side_alone, half_steps_keep_times_balanced,
    items_at_their_end_are_the_lockstep, schedules_keep_items_on_time, some_node_is_enabled,
    times_of_schedules_are_balanced, wires_go_on_with_their_side,
};
pub use turns::Turns;
