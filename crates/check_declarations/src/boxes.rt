//! From boxes to their trees.
//!
//! Main call: `box_cores` makes the trees of a box's rules and handlers, with whether a literal in one of them is out of the
//! range of its type (`Boxes.antt`, and `DeclarationWalk.antt` of `check_typing`). The positions of a rule are checked against
//! the types of the inputs, the results of rules and handlers against those of the outputs.
//!
//! Proved: `box_cores` gives exactly the trees of a box's rules and handlers, with whether a literal in one of them is out of
//! range, and leaves the state as it was; it answers `NoType` only where the box has no trees.
//!
//! It knows boxes. It doesn't know functions, or how signatures are made.

mod boxes;
mod handlers;
mod ports;
mod positions;
mod rules;

pub(crate) use boxes::box_cores;
