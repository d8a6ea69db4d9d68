//! The top call: from the words, the source's bytes and the ports to the answer.
//!
//! Main call: `hume`. Its contract is the promise of the tool: `Headline.antt` of `hume_calls` defines it, over what a call owes
//! (`Owed.antt` there). `docs/PROMISE.md` lists every definition that it rests on.
//!
//! Proved: `hume` keeps the promise, which `docs/PROOFS.md` explains clause by clause, for every number of workers, runtime and
//! gate. Memory can run out only before the first byte is written. Laws: for given words, names and texts a call owes one thing
//! (`each_call_owes_one_thing`), whose writes are the lines that its definition lists (`calls_write_their_lines`) and whose ports
//! are those of the program's streams and `std_out` (`runs_touch_their_ports`). A call over ports with room is answered as it
//! owes, unless memory runs out (`calls_with_room_are_answered`), and two calls over the same texts end alike
//! (`equal_calls_end_alike`). A fault comes from one of those ports or the source's (`faults_come_from_their_ports`), and tells by
//! the counts that rose how far the call had come (`faults_tell_what_was_written`, `failed_inputs_tell_their_round`). Each execute
//! step of a box in a run of an accepted source takes at most the heap, stack and work that the table gives it
//! (`runs_keep_bounds`). A recorded run writes the log of its run, and of a log that is verified Done is answered exactly where its
//! bytes are that log (`logs_are_those_of_their_runs`).
//!
//! It knows ports, words and what is owed to them. It doesn't know files, command lines or exit statuses.
#![tactic(auto)]

mod calc;
mod demo;
mod laws;
mod log;
mod top;
mod union;

pub use hume_calls::{Order, Status, read_words, words};
pub use laws::{
    calls_with_room_are_answered, calls_write_their_lines, each_call_owes_one_thing,
    equal_calls_end_alike, failed_inputs_tell_their_round, faults_come_from_their_ports,
    faults_tell_what_was_written, logged_runs_touch_their_ports, logs_are_those_of_their_runs,
    runs_keep_bounds, runs_touch_their_ports,
};
pub use top::hume;
