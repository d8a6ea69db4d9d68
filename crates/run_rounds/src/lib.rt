//! The run of a core by rounds: before each round its input streams are read, and after it the lines of the round are written.
//!
//! Main calls: `Running::make` and `Running::run`, or `Running::run_union` for the core of several programs; both make rounds
//! (`make_rounds`) and then tell peaks or a bad line. `Inputs.antt` says which values the texts bring to the streams, `Writes.antt`
//! what a run writes and which round is blocked, `RunActs.antt` which reads and writes it makes and in which order, `Runs.antt`
//! how a run ended, `MadeRounds.antt` how its rounds ended before anything was told of them, `Members.antt` what a run of several
//! programs tells, and `Opened.antt` what a run is before its first superstep.
//!
//! Proved: `run` makes exactly the acts that the texts of the ports owe (`RunsTo`), or one of them has failed and those before it
//! were made (`FailsToRun`). A read failed only where the whole lines that were taken from its port have fewer good values than its
//! stream had asserted and may need in the round (`run_few`). No definition of what is owed names a worker: the acts are the same
//! whatever the number of workers and the interleaving of their steps. `make` takes all memory that is needed: if a round gets none
//! for its workers, it is made on one thread. Laws: every list of texts brings values to the streams (`each_run_has_inputs`), the
//! same ones each time (`inputs_are_unique`), and they have the types of the streams (`inputs_have_types`). What the acts write is
//! what `Writes.antt` says, and they finish nothing (`runs_write_their_lines`). Each of their reads is for one round, before which
//! exactly the earlier rounds have written (`wants_stand_before_rounds`).
//!
//! It knows cores, an engine that runs a net, rounds, the places of ports, and workers that it hands on. It doesn't know sources, or
//! how a core was accepted.
#![tactic(auto)]

mod bad_line;
mod draining;
mod filling;
mod laws;
mod members;
mod nodes;
mod rounds;
mod run;
mod telling;

pub use bad_line::{BadLine, put_bad_line};
pub use laws::{
    each_run_has_inputs, inputs_are_unique, inputs_have_types, runs_write_their_lines,
    wants_stand_before_rounds,
};
pub use members::Member;
pub use nodes::{is_input, is_output};
pub use rounds::SPAN;
pub use run::Running;
pub use telling::{tell_bad_line, tell_peaks, tell_wires};
