//! The calls of the tool: what words ask for, what a call owes, and what all calls do with a source; and the run of one source.
//!
//! Main calls: `read_words`, which answers an `Order`; `read_source`, `refuse`, `check_text` and `find_places`; `run_text`, and `run_ready`
//! for a core that is ready. `Status` is how a call ends. `Headline.antt` is the promise of a call, over what it owes (`Owed.antt`).
//! `Words.antt` says what words ask for, `Reading.antt` and `Few.antt` what is read first, and `Ended.antt` how the parts of a call end
//! that come after its source was read.
//!
//! Proved: words are read as the order that they ask for. A source is read to its end or one byte further than it may be long. A refusal
//! and a check write what they owe. There are places for the streams of a core exactly where each port may be its stream's. An accepted
//! source is ready to run, and a run of it, traced or not, ends as it owes.
//!
//! It knows ports, words, sources and runs, and every form of a call by its definition. It makes only checks and runs of one source.
#![tactic(auto)]

mod check;
mod lines;
mod order;
mod program_refusal;
mod ready;
mod refusals;
mod run;
mod source;
mod status;
mod streams;
pub mod words;

pub use check::check_text;
pub use lines::{program_line, program_refused_line, refused_line};
pub use order::Order;
pub use program_refusal::ProgramRefusal;
pub use ready::{Ready, made_ready};
pub use refusals::{end_unaccepted, refuse, unfit_at};
pub use run::{Opened, open, run_ready, run_text};
pub use source::{SourceError, read_script, read_source};
pub use status::Status;
pub use streams::{PlacesError, find_places, is_named};
pub use words::read_words;
