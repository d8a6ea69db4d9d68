//! The check of a program: its core, or the least rule of names, counts, types and limits that it breaks.
//!
//! Main calls: `check` asks the rules phase by phase, and makes the core of a program that breaks none; `check_typed` gives the
//! typed trees beside the core. `CheckRules.antt` of `check_rules` lists the rules, `CoreOf.antt` there says which core belongs to
//! a program, and `Refused.antt` at which line a program is refused; `Trees.antt` of `typed_core` says which trees are
//! those of a core.
//!
//! Proved: `check` gives a core of the program exactly where it breaks no rule of names, counts, types and limits, or
//! `NoMemory`, and otherwise the least rule that it breaks (`IsRefusedFor`), at the line of the declaration that breaks it.
//! `check_typed` does the same, and its trees are those of the core, in the core's order: they erase to its functions, rules and
//! handlers, and are typed (`AreTrees`).
//!
//! It knows programs and the crates that decide each rule. It doesn't know tokens, wiring, raised exceptions, or costs.
#![tactic(auto)]

mod assembly;
mod checking;
mod core_trees;
mod counts;
pub mod fine;
mod limits;
mod nodes;
mod refused;
mod types;

pub use checking::{CheckError, Typed, check, check_typed};
pub use refused::refusal;
