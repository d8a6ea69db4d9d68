//! Cores without functions and results: what code that only matches, queues and asserts needs of a core.
//!
//! Main call: `bare`. `Bare.antt` defines the bare form of a core.
//!
//! Proved: `bare` gives exactly the core without its functions, with rules and handlers that give nothing (`bare_of`). Laws: the
//! bare form of a core with a sound frame has one (`bare_forms_keep_the_frame`). It has the core's types and wires
//! (`bare_forms_keep_types_and_wires`, `bare_forms_are_wired_alike`), and at each place the bare form of the node
//! (`bare_forms_stand_at_their_places`), with the same ports (`bare_nodes_have_the_same_ports`).
//!
//! It knows cores. It doesn't know what they mean, or who uses their bare form.
#![tactic(auto)]

mod cores;
mod laws;
mod parts;
mod types;

pub use cores::bare;
pub use laws::{
    bare_forms_are_wired_alike, bare_forms_keep_the_frame, bare_forms_keep_types_and_wires,
    bare_forms_stand_at_their_places, bare_nodes_have_the_same_ports,
};
