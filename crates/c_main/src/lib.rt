//! The header of a C program, and a main that reads and writes the files of its streams as a run does.
//!
//! Main calls: `put_header` appends the header, and `put_main` the main, which includes the C file: `./NAME STEPS` makes so many
//! supersteps, by rounds of 64, and ends with 3 where a line is bad and with 4 where a file can't be opened or written.
//!
//! `Main.antt` says what both are: lines of C, whose gaps are filled with names, types and streams (`Texts.antt`). `Found.antt` says of which types
//! values are read or written, `Take.antt` and `Show.antt` which functions do that, and `Streams.antt` what belongs to a stream.
//!
//! Proved: exactly these texts are appended, if memory doesn't run out.
//!
//! It knows the streams and types of a core. It doesn't know boxes, or how the C file is made.
#![tactic(auto)]

mod gathered;
mod header;
mod lines;
mod program;
mod runtime;
mod show;
mod streams;
mod take;
mod type_names;

pub use header::put_header;
pub use program::put_main;
