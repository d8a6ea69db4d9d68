//! Rewrites of a core that keep every run: the box calculus.
//!
//! Main calls: `run_script` makes the steps of a script one after the other; `read_step` reads a step from one of its lines, and
//! `rewrite` makes it. `Lines.antt` says which lines ask for which steps, `Scripts.antt` what a script makes of a core or at which
//! line it ends, and `Kept.antt` what it leaves as it is. What a step makes of a core, why it is refused and why runs are kept is
//! said in `calculus_laws`.
//!
//! Proved: `rewrite` gives exactly the core that is defined, and refuses a step exactly for its cause (`refusal`), if memory
//! doesn't run out. `read_step` gives exactly the step that the line asks for, and answers `Bad` exactly where it asks for
//! none. `run_script` gives exactly the core that the lines make in turn, or the first line that is refused with its cause
//! (`scripted`). Laws: a script changes no run (`scripts_keep_runs`); it keeps a core well formed, wired and handling all that it
//! raises (`scripts_keep_cores_sound`); and it changes nothing but functions and the rules of boxes (`scripts_keep_nets`). The
//! command `calc` runs scripts.
//!
//! It knows cores, steps and their lines. It doesn't know sources, where a script comes from, or who asks for it.
#![tactic(auto)]

mod added;
mod apart;
mod depths;
mod known;
mod laws;
mod lines;
mod names;
mod naming;
mod numbers;
mod output;
mod parts;
mod rewriting;
mod scripts;
mod sizes;
mod swap;
mod unfold;
mod variables;

pub use laws::{scripts_keep_cores_sound, scripts_keep_nets, scripts_keep_runs};
pub use lines::{RulePlace, StepError, read_step};
pub use rewriting::rewrite;
pub use scripts::{
    MAX_SCRIPT_BYTES, MAX_SCRIPT_LINE_BYTES, MAX_SCRIPT_LINES, ScriptError, run_script,
};
