//! The wires, objects and supersteps of a net in C.
//!
//! A box is a static struct: the wires that lead to it, the outputs that it has yet to assert, and which of them are pending. An
//! `Inlet` is a wire at its input, with what is read and written there (`Inlets.antt`, `Nets.antt`). Main calls: `box_item` is the
//! object of a box and `box_start` makes it as it is at first (`Parts.antt`, `Objects.antt`); `super_function` is its super step
//! (`SuperSteps.antt`).
//!
//! `FairRules.antt` says how the order of rules changes, `Taking.antt` what rules take, `Values.antt` how a value is written, and
//! `GivenOutputs.antt` when all outputs are given.
//!
//! Proved: each call gives exactly the declarations, the statements and the expressions that these files define, if memory doesn't run
//! out; whether all outputs are given is answered exactly.
//!
//! It knows boxes and wires. It doesn't know how expressions are written, or the file around.
#![tactic(auto)]

mod given;
mod inlets;
mod net;
mod objects;
mod orders;
mod parts;
mod super_steps;
mod taking;
mod values;

pub use given::{Arm, all_are_given};
pub use inlets::{
    Inlet, byte, inlet_members, is_there, next_value, no_room, note_read, oldest, start, take_out,
};
pub use net::{box_inlet, inlet_of, input_at, outlet, stream_inlet, target_of};
pub use objects::{box_item, box_start, is_fair};
pub use orders::{counted, moved_last, ordered};
pub use parts::{bit_of, mask_width, output_of, pending};
pub use super_steps::{plain_function, super_function};
pub use taking::{handled, taken, wait};
