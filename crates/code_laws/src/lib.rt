//! Why code is right: a machine that runs it computes what the core means and spends what the core spends; definitions and
//! laws, nothing runs.
//!
//! `Running.antt` says what a machine reaches, `Variables.antt` where variables stand, `Ending.antt` how a machine ends, and
//! `RuleEnding.antt` what a whole rule leaves.
//!
//! Proved: of every core whose parts are sound: on a machine where words stand for the variables, code that represents an
//! expression reaches a word for its value, or the handler with a word for what is raised (`expressions_run`); a result ends
//! with the flat words of its outputs (`results_run`, `handlers_run`); a program that represents a box runs each rule that fits
//! to the outputs of the meaning, and says which exception was handled (`rules_run`). Each time the words of new objects, the
//! peak of the stack and the number of instructions are exactly what the evaluation spends.
//!
//! It knows the meaning of cores, what it spends, code and the machine. It doesn't know how code is made or stored.
#![tactic(auto)]

mod laws;

pub use laws::{expressions_run, handlers_run, results_run, rules_run};
