//! A port over a file that keeps nothing back: what is written to it is in the file when the call returns. A program that answers
//! what comes through pipes needs such ports.
//!
//! `DirectFile` is that port. What its calls do is the trait's (`hume_ports/specs/Port.antt`), and what they do to the open file is
//! said by `GoesOn` (`hume_ports/specs/Files.antt`).
//!
//! Proved: `DirectFile` keeps the contract of the trait without telling bytes; what a read and a write do to the open file is a
//! clause of its own (`file`).
//!
//! It knows a file by its name. It doesn't know what is written, or why.
#![tactic(auto)]

mod file;

pub use file::DirectFile;
