//! Laws of calls in all forms: what each writes, which ports it touches, what its steps take, and what a fault tells.
//!
//! Nothing runs: each law is the contract of a function that does nothing, or that only makes calls of other laws. They say of the forms
//! beside `run` what `hume_run` says of `run`. `memory.rt` is about the cells of boxes (`Memory.antt`), `equal_calls.rt` about two calls of
//! the same words (`EqualCalls.antt`), `bounds.rt` about steps and peaks (`Bounds.antt`), `lines.rt` about what is written and which ports
//! are touched (`Rounds.antt`), and `failed_reads.rt` about what a failed read tells (`FailedReads.antt`).
//!
//! Proved: in a run of an accepted source the cell of each box has a heap and a stack of exactly the lengths that are printed, and there
//! never were more words in them (`cells_have_the_printed_memory`); when the box fires, no instruction of its machine has more words
//! in the heap or on the stack (`instructions_keep_the_memory_of_their_cell`). Two calls of the same words over the same texts, of which none
//! ends with Fault or NoMemory, give the same answer and write the same bytes, whatever the ports had been given before
//! (`equal_calls_write_the_same_bytes`). No run takes more than its bounds, in whatever form, and its peaks are no greater
//! (`all_runs_keep_bounds`). What `calc` and `union` write are the lines that their definitions list (`calc_and_union_write_their_lines`),
//! and each form reads, writes and finishes its own ports alone (`checks_and_demos_touch_their_port`, `calc_touches_its_ports`,
//! `unions_touch_their_ports`). A failed read of an input stream tells before which round or superstep it came, and what was written by
//! then (`failed_reads_of_logged_runs_tell_their_superstep`, `failed_reads_of_calc_and_unions_tell_their_round`).
//!
//! It knows calls, what they owe to their ports, and the cells of boxes. It doesn't know how a call is made.
#![tactic(auto)]

mod bounds;
mod equal_calls;
mod failed_reads;
mod lines;
mod memory;

pub use bounds::all_runs_keep_bounds;
pub use equal_calls::equal_calls_write_the_same_bytes;
pub use failed_reads::{
    failed_reads_of_calc_and_unions_tell_their_round,
    failed_reads_of_logged_runs_tell_their_superstep,
};
pub use lines::{
    calc_and_union_write_their_lines, calc_touches_its_ports, checks_and_demos_touch_their_port,
    unions_touch_their_ports,
};
pub use memory::{cells_have_the_printed_memory, instructions_keep_the_memory_of_their_cell};
