//! The machine that runs the code of a rule on heap and stack.
//!
//! Main call: `run_rule`. It starts with a heap and a stack that hold the built inputs, runs up to the outputs, writes these as
//! flat words, and counts the instructions. `Running.antt` says what it requires, that the code ends within the program's work
//! and that there is room for what it puts, and what it leaves.
//!
//! Proved: `run_rule` leaves heap, stack with its peak, outputs, answer and number of instructions exactly as the machine that
//! `box_code` defines has them at its end, wherever that machine ends within the program's work and has room for what it puts
//! (`EndsInRoom`). It takes no memory and refuses nothing. It has no laws: `code_laws` proves that the code of a box ends
//! so, with the outputs of the meaning.
//!
//! It knows instructions, words, objects and types. It doesn't know expressions, rules or wires.
#![tactic(auto)]

mod arithmetic;
mod calls;
mod code_run;
mod jumps;
mod objects;
mod operations;
mod outputs;
mod paths;
mod ran;
mod registers;
mod run;
mod stack_words;
mod standing;
mod turn;

pub use ran::Ran;
pub use run::run_rule;
