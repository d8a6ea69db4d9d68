//! Boxes in C.
//!
//! The execute step of a box is a function: the first rule that fits fires. A rule that may raise an exception is a function of its
//! own, and what it raises is handled by another. Main call: `box_functions` writes a box's functions, its super step among them
//! (`Boxes.antt`). `Rules.antt` says when a rule fits and what it does, `Results.antt` what is written of a result, and `Marks.antt`
//! which variables a result uses.
//!
//! Proved: the functions of a box are exactly those that are defined, if memory doesn't run out.
//!
//! It knows boxes and their typed trees. It doesn't know the file around, or streams.
#![tactic(auto)]

mod boxes;
mod execute;
mod fair;
mod handlers;
mod results;
mod rules;
mod uses;

pub use boxes::box_functions;
