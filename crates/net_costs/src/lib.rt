//! How much the execute steps of a net take, and that each keeps the bound of its box; definitions and laws, nothing runs.
//!
//! `Steps.antt` says what a node takes from a state, and what the peaks of `count` supersteps are.
//!
//! Proved: an execute step takes exactly what the rule that fires takes, and nothing where none fires
//! (`steps_take_what_the_rule_takes`), by the node's part and inputs alone (`costs_depend_on_inputs_alone`). In every state of a
//! net whose values have their types, and so in each state of a lockstep, no execute step of a box takes more than its bound
//! (`steps_keep_bounds`). The peaks, the greatest heap, stack and work over several supersteps, keep it too
//! (`peaks_keep_bounds`) and grow step by step (`peaks_grow_step_by_step`, `peaks_grow_in_execute_steps`).
//!
//! It knows nets, their states and the costs of boxes. It doesn't know sources, ports, or code.
#![tactic(auto)]

mod laws;

pub use laws::{
    costs_depend_on_inputs_alone, peaks_grow_in_execute_steps, peaks_grow_step_by_step,
    peaks_keep_bounds, steps_keep_bounds, steps_take_what_the_rule_takes,
};
