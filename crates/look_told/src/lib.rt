//! What is said of a call that failed: of its words, its files, its ports and the lines of its inputs.
//!
//! Main calls: `Call::read` tells what each word of a call is; `put_words` says for what the words have no form, `put_unfit_port` which
//! stream can't have its port, `put_fault` which file couldn't be read or written, and `BadLines` which line of an input is no value.
//! A `Disk` lends a file to `first_bad` and `put_front` as a port.
//!
//! Proved: what is put stands behind all that stood on the page (`Grows`), the words of a `Call` are those that it was read of
//! (`Words.antt`), and a bad line that `first_bad` finds stands behind fewer good ones than it was asked for. Beyond it nothing but
//! safety: no call fails but for memory, and each ends. Which lines are bad is asked of `InQueue`, by which runs read them.
//!
//! It knows words, cores and the lines of streams, and asks a `Disk` for files. It doesn't know sources, or why one is refused.
#![tactic(auto)]

mod disk;
mod faults;
mod forms;
mod lines;
mod nearest;
mod numbers;
mod places;
mod quoted;
mod sentences;
mod unfit;
mod words;

pub use disk::{Disk, text_of_file};
pub use faults::{Known, put_fault};
pub use forms::{Call, Kind, number_of};
pub use lines::{Bad, BadLines, Rounds, first_bad, put_front};
pub use places::{Program, put_head};
pub use sentences::sentence_of_line;
pub use unfit::put_unfit_port;
pub use words::put_words;
