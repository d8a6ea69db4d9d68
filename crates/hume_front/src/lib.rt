//! Which sources are accepted: from bytes to the checked program, or to the least rule that the source breaks.
//!
//! Main call: `accept` has the text cut into tokens, read as a program and checked; then it asks the rules on wires, on
//! exceptions and on heap, stack and work of the program's core. `accept_typed` gives the typed trees of the core too, for a
//! generator of code; `check_source` leaves out the rules on heap, stack and work. `Accepted.antt` is the one definition of what
//! an accepted source has and of which rule another source breaks; the tables of `Broken.antt` name each rule, in the words of the
//! crate that decides it.
//!
//! Proved: `accept` gives the program with core, wiring and costs exactly where the source breaks no rule, or `NoMemory`, and
//! otherwise the least rule that it breaks with its line. `accept_typed` does the same, and its trees are those of the core
//! (`AreTrees` of `typed_core`). Laws: each source is accepted, or refused for one rule at one line,
//! never both (`one_answer`), and it is accepted as one program with one core (`one_program`); the core of an accepted source is
//! well-formed and wired, handles all that it raises and keeps the limits on its boxes (`accepted_cores_are_sound`). The same holds
//! of sound sources, but for the limits (`one_sound_answer`, `sound_cores_are_wired`).
//!
//! It knows sources and the crates of the phases. It doesn't know runs, ports, or how a refusal is reported.
#![tactic(auto)]

mod acceptance;
mod error;
mod laws;
pub mod printable;
pub mod programs;
mod refused;

pub use acceptance::{Accepted, Sound, TypedSource, accept, accept_typed, check_source};
pub use error::FrontError;
pub use laws::{
    accepted_cores_are_sound, one_answer, one_program, one_sound_answer, sound_cores_are_wired,
};
