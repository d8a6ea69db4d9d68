//! The console: a net that is stepped by commands, looked at between them, and given other ports while it stands.
//!
//! Main call: `console`. `Headline.antt` says what it promises: `Commands.antt` which lines are commands, `Session.antt` where a
//! session stands and what a step and an exchange make of it, `Serving.antt` what is owed for each line, and `Courses.antt` how a call
//! ends that owes acts to ports of which some leave on the way (`Hands.antt`). `EachPort.antt` says what that adds up to for each port.
//!
//! Proved: a session ends as its commands and the texts of its ports ask for, for every number of workers, runtime and gate: each line
//! is answered by the state that the language defines, whatever ports were exchanged before, and each port has exactly the lines of
//! the stretches in which a stream had it; or one of the acts failed, when all before it were made. Memory can run out only before the
//! first byte is written. Laws: after a session that went through each port, there or gone, has exactly what the course wrote to it while
//! it was there (`each_port_is_served`); a session writes to a port other than `std_out` only while an output stream has it
//! (`sessions_write_to_their_outputs`); it finishes `std_out` and each port that an output stream has or had, last of all
//! (`sessions_finish_their_outputs`); it owes one course (`each_session_owes_one_course`).
//!
//! It knows ports, commands and an engine that runs a net. It doesn't know files, terminals or exit statuses.
#![tactic(auto)]

mod answering;
mod calling;
mod closing;
mod command;
mod command_lines;
mod ending;
mod exchanging;
mod finding;
mod laws;
mod lines;
mod opening;
mod places;
mod preparing;
mod refusing;
mod retiring;
mod serving;
mod session;
mod starting;
mod stepping;
mod telling;
mod words;

pub use calling::console;
pub use ending::Ending;
pub use laws::{
    each_port_is_served, each_session_owes_one_course, sessions_finish_their_outputs,
    sessions_write_to_their_outputs,
};
pub use words::{Opening, read_words};
