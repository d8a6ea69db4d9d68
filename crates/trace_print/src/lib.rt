//! The lines that report bounds and peaks of boxes, supersteps, and what is on wires.
//!
//! `space_line` appends the line of one box to a chunk, and `total_line` that of all boxes together (`SpaceLines.antt`).
//! `step_line`, `wire_line` and `peak_line` append those of a superstep, a wire and a box (`TraceLines.antt`); `line_bound` tells
//! how many bytes a line of a core's wires takes at most (`Rooms.antt`). None of them takes memory. `InTurn.antt` says what it is
//! that lines are written in turn.
//!
//! Proved: each call appends exactly the line that is defined, and `line_bound` is the room that `Rooms.antt` defines, in which
//! each line of a wire fits. Law: the lines of bounds, peaks and supersteps have at most 128 bytes (`lines_are_short`).
//!
//! It knows names, bounds, cells of wires and chunks. It doesn't know when a line is reported.
#![tactic(auto)]

mod laws;
mod space_lines;
pub mod table;
mod trace_lines;
mod wire_lines;

pub use laws::lines_are_short;
pub use space_lines::{LINE_BYTES, space_line, total_line};
pub use trace_lines::{peak_line, step_line};
pub use wire_lines::{line_bound, wire_line};
