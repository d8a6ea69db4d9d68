//! Laws of the forms of a call beside `run`: what their streams get is what `run` gives them.
//!
//! Nothing runs: each law is the contract of a function that does nothing. `rewrites.rt` is about `calc`; `unions.rt` says what the
//! run of a union reads, writes and tells of each of its programs (`Unions.antt`), and `union_calls.rt` the same of calls of `union` and of
//! `run` (`UnionCalls.antt`).
//!
//! Proved: the core that a script makes starts as the first core does (`scripts_keep_starts`) and has the same streams
//! (`scripts_keep_streams`), to which the same values come (`scripts_keep_inputs`). Its rounds read and write the same, and a bad
//! line blocks the same round and is told by the same line (`scripts_keep_rounds`). So its run gives the same answer, and the same
//! bytes to each port but `std_out`, where the table of bounds and the peaks of boxes may differ (`scripts_keep_bytes`). In words of
//! calls: what `calc` owes to a port of a stream is what `run` of the same source owes to it, where neither is refused
//! (`calc_owes_the_bytes_of_run`). So two such calls end alike over the same texts (`calc_ends_as_run`). What comes to a union is what
//! comes to each of its programs from the same texts (`unions_read_what_their_programs_read`). The first blocked round of a union is the
//! first in which one of its programs, run alone, is blocked (`unions_are_blocked_as_their_programs`). The port of an output stream gets
//! from a union the bytes that it gets from a run of its program alone, of as many supersteps as the union makes
//! (`unions_write_what_each_program_writes_alone`). Of a blocked round the bad line of the first of its programs is told that is blocked
//! in it, with the program's number and as the program tells it alone; else the peaks of each program are told, as the program tells them
//! alone (`unions_tell_what_their_programs_tell`). So it is of what a call of `union` and calls of `run` owe, and the first is answered
//! with BadValue exactly where one of the others is (`union_calls_owe_what_runs_owe`).
//!
//! It knows what calls and runs of cores owe to their ports. It doesn't know how a call is made.
#![tactic(auto)]

mod rewrites;
mod union_calls;
mod unions;

pub use rewrites::{
    calc_ends_as_run, calc_owes_the_bytes_of_run, scripts_keep_bytes, scripts_keep_inputs,
    scripts_keep_rounds, scripts_keep_starts, scripts_keep_streams,
};
pub use union_calls::union_calls_owe_what_runs_owe;
pub use unions::{
    unions_are_blocked_as_their_programs, unions_begin_with_their_first_program,
    unions_read_what_their_programs_read, unions_tell_what_their_programs_tell,
    unions_write_what_each_program_writes_alone,
};
