//! The call that runs a rule of a compiled box, with its contract in the words of the meaning.
//!
//! Main call: `run_ready_rule`. `Runs.antt` says when a rule is ready to run (`IsReadyToRun`) and what its run leaves (`HasRun`).
//!
//! Proved: `run_ready_rule` runs a rule that fits its inputs, in a program that represents a box of a core whose parts are sound and
//! that handles all that it raises, on a heap and a stack of the printed lengths that hold the built inputs. The outputs have
//! the flat words of what the meaning gives and no others, the answer says which exception was handled, and the words of the
//! heap, the peak of the stack and the number of instructions are exactly what the firing spends. Law: such a rule ends within
//! the program's work, in the room that there is (`ready_rules_end`).
//!
//! It knows what cores mean and spend, and the machine that runs code. It doesn't know how code is made, or how inputs are
//! built.

mod laws;
mod runs;

pub use laws::ready_rules_end;
pub use runs::run_ready_rule;
