//! A net of boxes and streams joined by wires, its supersteps, and a plain, slow net that computes exactly what is defined.
//!
//! Main calls: `net_make` makes the net in its first state, `Net::step` makes one superstep, and `find_plan` tells how the nodes
//! are joined. `HalfSteps.antt` defines the half steps of one node, `Sides.antt` what each node sees of a state, and
//! `Lockstep.antt` supersteps over them. `Plan.antt` and `Times.antt` have the words for nodes that make half steps each at its
//! own time, `Parts.antt` those for a state that is read part by part, `StreamSteps.antt` those for streams that go on.
//!
//! Proved: `net_make` gives the first state, `Net::step` makes exactly one superstep, and `find_plan` gives the plan of the core.
//! Laws: supersteps and their halves keep types, places, orders and the entries of outputs (`supersteps_keep_types`,
//! `starts_have_types`, `locksteps_keep_types`, `locksteps_have_places`, `locksteps_have_all_outputs`), from any state and at any
//! time too (`states_keep_types_at_all_times`, `states_keep_outputs_places_and_depths`); no wire holds more than its depth
//! (`wires_keep_within_their_depths`); streams take and assert at most one value a superstep (`streams_go_on_value_by_value`); a
//! node sees what is on its wires (`nodes_see_their_wires`), which are found at their ends (`wires_are_found_at_their_ends`,
//! `wired_cores_find_all_wires`); each node's part and each wire follow from one half step, which depends on that node's part and
//! wires alone (`times_count_half_steps`, `times_follow_one_another`, `parts_follow_half_steps`, `wires_follow_half_steps`,
//! `half_steps_see_their_sides`); a state is no more than its parts and wires (`states_are_made_of_their_parts`,
//! `made_states_have_their_parts`); the plan of a net joins nodes as its wires do (`plans_join_nodes`, `sound_cores_have_plans`);
//! a well-formed core whose wires agree is a typed net (`well_formed_nets_are_typed`).
//!
//! It knows cores, and the values on wires, pending, to come and taken. It doesn't know sources, ports, threads, or how a box
//! evaluates its rules beyond `first_firing`.
#![tactic(auto)]

mod copying;
mod ends;
mod half_steps;
mod laws;
mod net;
mod phases;
mod plan;
pub mod rounds;
mod start;
mod state;
mod super_steps;

pub use laws::{
    half_steps_see_their_sides, locksteps_have_all_outputs, locksteps_have_places,
    locksteps_keep_types, made_states_have_their_parts, nodes_see_their_wires,
    parts_follow_half_steps, plans_join_nodes, sound_cores_have_plans, starts_have_types,
    states_are_made_of_their_parts, states_keep_outputs_places_and_depths,
    states_keep_types_at_all_times, streams_go_on_value_by_value, supersteps_keep_types,
    times_count_half_steps, times_follow_one_another, well_formed_nets_are_typed,
    wired_cores_find_all_wires, wires_are_found_at_their_ends, wires_follow_half_steps,
    wires_keep_within_their_depths,
};
pub use net::{Net, net_make};
pub use plan::{Plan, find_plan};
pub use state::{HalfStep, Part, State};
