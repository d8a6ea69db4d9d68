//! The compiler: from checked cores to the code of boxes.
//!
//! Main call: `compile`, which gives each box of a core its program. `Programs.antt` defines what those programs have to be, by
//! `RepresentsBox` of `box_code`. Words are only appended: the private `Emitted.antt` says what then stands where.
//! `src/sizes.rt` counts the words of a form before they are written, and they are compared afterwards.
//!
//! Proved: `compile` gives a program for each box of a core, in source order, and each represents its box (`RepresentsBox`):
//! each rule, handler and function stands in its code, and its bounds are those that are printed. The one other answer is
//! `NoMemory`. Law: the program of a box is found by how many boxes stand before it (`boxes_have_their_programs`).
//!
//! It knows cores, their bounds, and which code stands for which form. It doesn't know what runs the code, or the inputs of a
//! run.
#![tactic(auto)]

mod boxes;
mod counts;
mod expressions;
mod finding;
mod functions;
mod laws;
mod leaves;
mod needed;
mod pattern_code;
mod places;
mod program_list;
mod results;
mod sizes;
mod spots;
mod writer;

pub use laws::boxes_have_their_programs;
pub use program_list::compile;
