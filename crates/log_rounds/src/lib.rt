//! The rounds of a run that is logged: before each superstep its input streams are read, and each of its halves is written to a log or
//! compared with one.
//!
//! Main calls: `LoggedRun::make`, `LoggedRun::record` and `LoggedRun::verify`. `RecordActs.antt` says which reads and writes a recorded run
//! makes, `Outcomes.antt` what comes of a log that is verified, `VerifyActs.antt` what a verified run reads and tells, and `Ended.antt` how
//! each of them ended.
//!
//! Proved: `record` makes exactly the acts that the texts of the ports owe, or one of them has failed. `verify` finds the outcome of the
//! log among those that its text has, and makes exactly the acts of this outcome, or one of them has failed. It reads no block of the log
//! behind the first one that differs. A read failed only where too few bytes of the log had come, or too few values of a stream. `make`
//! takes all memory that is needed, and none of it is for the length of a log. Laws: what a recorded run writes to the log is the log of
//! its supersteps (`records_are_logs`), and each reads only ports of streams and the log (`logged_runs_read_their_ports`). Each log has
//! one outcome (`each_log_has_one_outcome`): it holds exactly where its bytes are the log of the run (`logs_hold_exactly`). All is read
//! before the one line is told (`verified_runs_tell_one_line`).
//!
//! It knows cores, a run that is logged, supersteps and the places of ports. It doesn't know sources, or how a core was accepted.
#![tactic(auto)]

mod filling;
mod laws;
mod logged_run;
mod recording;
mod telling;
mod verdict;
mod verifying;

pub use laws::{
    each_log_has_one_outcome, logged_runs_read_their_ports, logs_hold_exactly, records_are_logs,
    verified_runs_tell_one_line,
};
pub use logged_run::LoggedRun;
pub use verdict::Verdict;
