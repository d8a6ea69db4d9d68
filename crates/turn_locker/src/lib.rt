//! Nodes and wires whose cells are claimed in turn by any number of threads. Nothing waits and nothing locks.
//!
//! Main calls: `Locker::vacant`, `place` and `split` before the threads start, `try_claim`, `put_back` and `pass` in each of them,
//! `join` and `close` after them. `Rule.antt` says what the words, the values at home and the views of all seats meet between any two
//! steps, `Views.antt` what each step makes of a seat's view, `Asking.antt` what put back and pass ask of it, and `Closing.antt` what
//! values come out at the end.
//!
//! Proved: Between any two atomic steps the rule holds, whatever the interleaving (`steps_keep_the_rule`): an item is at home with its
//! one value, which has the item's number and the time of its word and is right, or it is held by one seat alone. The half step of a
//! node passes the wires of its side first, all of them held before the first is passed, and the node last. `try_claim` gives the value
//! of that item at that time, or none where the item's word was odd or of another time. `close` gives all values in order, each right,
//! with times that are balanced, and on each wire the time that its nodes give it. The nodes' half steps, where one that has passed a
//! wire counts as made, are those of a schedule (`counts_are_times_of_a_schedule`). Where nothing is passed, a node of the least time may
//! make its next one (`nodes_of_the_least_time_are_enabled`). Here "right" is what the item's type says it is (`Timed`).
//!
//! It knows plans, times and a table of words and slots. It doesn't know cells, what a half step is, or threads: its calls take no runtime.
#![tactic(auto)]

mod closing;
mod laws;
mod locker;
mod plays;
mod rule;
mod timed;
mod view;

pub use laws::{
    counts_are_times_of_a_schedule, nodes_of_the_least_time_are_enabled, steps_keep_the_rule,
};
pub use locker::{Locker, Seat};
pub use timed::Timed;
pub use view::View;
