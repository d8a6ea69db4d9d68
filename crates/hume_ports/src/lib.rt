//! The outside as the tool sees it: named ports that are read, written and finished, and calls on lists of them.
//!
//! The trait is `Port`. `read_at`, `fill_at`, `write_at` and `finish_at` call a port in a list, and `find` searches one.
//! `Port.antt` says what a call does, and `Delivery.antt` what calls on a list do together. `MemPort` is the port of the tests
//! (`Memory.antt`). `FilePort`, `StdIn` and `StdOut` are the edge to the world (`Files.antt`).
//!
//! Proved: the calls on lists keep what the trait says of the one port, and touch no other. `MemPort` is proved to the byte and
//! to the call that fails. `FilePort`, `StdIn` and `StdOut` keep the contract of the trait without telling bytes; what a call
//! of `FilePort` does to the open file is a clause of its own (`file`), and so is where the bytes of `StdIn` come from
//! (`input`).
//!
//! It knows names, bytes, counts of faults and rooms. It doesn't know what is written to a port, or why.
#![tactic(auto)]

mod file;
mod input;
mod list;
mod lookup;
mod memory;
mod output;
mod port;
mod transfer;

pub use file::FilePort;
pub use input::StdIn;
pub use list::{fill_at, finish_at, read_at, write_at};
pub use lookup::{find, find_bytes};
pub use memory::{Fail, MemPort};
pub use output::StdOut;
pub use port::{Failed, Port};
pub use transfer::{read_once, write_whole};
