//! The log of a run: what is on each wire at the start and at each half of each superstep, written to a port or compared with one.
//!
//! Main calls: `LogRun::make`, which takes all memory that is needed, `LogRun::fill`, `LogRun::half`, `LogRun::write` and
//! `LogRun::compare`, and `at_end`. `Logs.antt` says what the log of a run is, `Moments.antt` where a run stands and what its next half
//! makes of it, `Faults.antt` which line of a log is the first wrong one and which node is blamed for it, and `Compared.antt` what a
//! comparison reads and answers.
//!
//! Proved: `half` makes exactly the execute steps of a superstep, or exactly its super steps, in turn. `write` makes one write for each
//! line of the block of the present half, or one of them has failed. `compare` reads as many bytes as the block has, or all that are
//! left if these are fewer. It finds no fault exactly where they are the block's bytes, and else tells the first line that differs. A
//! wire that is wrong in the midst of a superstep is laid to the node that takes from it, and one that is wrong at an end to the node
//! that asserts on it. Only `make` needs memory, and none of it is for the length of a log. Laws: a log goes on with two blocks for each
//! superstep (`logs_go_on_by_supersteps`), and the blocks of a net that is fed before each superstep, and forgets what output streams
//! took, are those of the whole run (`halves_keep_pieces`).
//!
//! It knows an engine that runs a net, its halves, lines of wires and places of ports. It doesn't know how many supersteps a log has,
//! which port belongs to which stream, or how a log came about.
#![tactic(auto)]

mod blaming;
mod blocks;
mod comparing;
mod fault;
mod forgetting;
mod half;
mod laws;
mod line_read;
mod log_run;
mod net;
mod writing;

pub use comparing::at_end;
pub use fault::LogFault;
pub use half::Half;
pub use laws::{halves_keep_pieces, logs_go_on_by_supersteps};
pub use log_run::LogRun;
