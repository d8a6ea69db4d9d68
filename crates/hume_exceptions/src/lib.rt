//! Which exceptions expressions and results may raise, and whether each box handles those of its rules.
//!
//! Main calls: `raises` computes the sets of a core's functions, and by them `check_handlers` refuses a core or finds nothing
//! to refuse. `Raising.antt` and `Completeness.antt` of `hume_model` define which exceptions may be raised, `HandlerRules.antt`
//! there what a box has to handle, and `Sets.antt` when sets are those of a core.
//!
//! Proved: `raises`, `may_raise` and `result_may_raise` give exactly the exceptions that the forms alone allow, each function's
//! computed once; `check_handlers` refuses a core exactly where it breaks a rule on handlers, by the least (`BreaksHandlers`).
//! Laws: whatever is raised on values of the right types may be raised (`raised_is_expected`); complete patterns leave no value
//! out (`complete_patterns_match`); a well-formed core that breaks no rule on handlers handles all that its rules raise
//! (`fine_handlers_handle_all`).
//!
//! It knows expressions, patterns, rules and handlers. It doesn't know wires, values, costs, or sources.
#![tactic(auto)]

mod completeness;
mod exn_set;
mod expressions;
mod function_sets;
mod functions;
mod handlers;
mod laws;
mod patterns;
mod results;

pub use exn_set::ExnSet;
pub use function_sets::Raises;
pub use functions::raises;
pub use handlers::check_handlers;
pub use laws::{complete_patterns_match, fine_handlers_handle_all, raised_is_expected};
pub use results::{may_raise, result_may_raise};
