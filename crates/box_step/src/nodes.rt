//! The cells of nodes, each at its own time, and their half steps over the cells of wires, which are at home: each in the place of its
//! number. A half step is told the numbers of its node's side, in order, and leaves all other cells as they are.
//!
//! Main calls: `BoxCell::execute` and `BoxCell::super_step`. A `BoxCell` is what runs a node: a box as code, the queue of an input
//! stream, or the log of an output stream, with the number of the node and its time. `Openings.antt` says what a round opens
//! with, `Sides.antt` which cells are those of a node's inputs and outputs, `Right.antt` when cells are right for an opening,
//! `Beginnings.antt` what a cell begins with, and `Lends.antt` what becomes of a cell whose queue or log is lent.
//!
//! Proved: from cells that are right for an opening, each at its own time, `execute` and `super_step` lead to cells that are right
//! for it one half step later; so it is for every opening for which they were right. So a box makes the execute step of the
//! meaning and asserts all its pending outputs at once or none, an input stream asserts its next value, an output stream takes
//! the value that is there, and the peaks of heap and stack are the most that the steps took. The cells of wires keep all but
//! values and times. `begin` leads a cell back to time 0, right for the opening to which its supersteps led. `make` gives a cell that
//! is right for an opening in which its node has made no half step, with a heap and a stack of exactly the printed lengths. `queue`
//! and `log` lend the queue or the log of a stream, and change nothing else of the cell.
//!
//! It knows cells of wires, boxes as code, queues and logs. It doesn't know which node comes next, or how its side is found.

mod asserting;
mod cell;
mod executing;
mod half_steps;
mod lends;
mod making;
mod ticking;

pub use cell::BoxCell;
