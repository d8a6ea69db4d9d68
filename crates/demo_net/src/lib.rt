//! The net of `demo`: a program of 200 boxes in ten chains, made for a number.
//!
//! Main call: `demo_source`. `Source.antt` has the text of the program, line by line.
//!
//! Proved: `demo_source` gives exactly this text. It takes memory, and has no other refusal.
//!
//! It knows the words of that one program. It doesn't know whether a source is accepted, or what it means.
#![tactic(auto)]

mod boxes;
mod source;

pub use source::{MAX_NUMBER, demo_source};
