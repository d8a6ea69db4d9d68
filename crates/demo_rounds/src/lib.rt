//! The demo of a core: its supersteps by rounds, after each of which the values that output streams have taken are counted.
//!
//! Main calls: `Demo::make` and `Demo::run`. `Chains.antt` says which lines a demo tells, and `Opened.antt` what it is before its
//! first superstep.
//!
//! Proved: `run` writes exactly a line for each output stream, with the total of all values that it takes in so many supersteps
//! from the start, or one of these writes has failed (`demo_lines`). The lines are the same whatever the number of workers and the
//! interleaving of their steps. `run` reads nothing. `make` takes all memory that is needed: if a round gets none for its workers, it
//! is made on one thread.
//!
//! It knows cores, an engine that runs a net, and workers that it hands on. It doesn't know which net is shown.
#![tactic(auto)]

mod chains;
mod counting;
mod demo;

pub use demo::Demo;
