//! How much heap, stack and work the evaluation of expressions, results, rules and boxes takes, and how much it may take at
//! most; definitions and laws, nothing runs.
//!
//! `Costs.antt` says how costs are combined, `Bounds.antt` what the form of an expression, a rule or a box allows,
//! `Spending.antt` and `ResultSpending.antt` what one evaluation takes, `Building.antt` what building an input takes,
//! `Straight.antt` where nothing is chosen, and `CostRules.antt` what exceeds the limits.
//!
//! Proved: the evaluation that counts its costs is the meaning (`what_spends_is_the_meaning`). No evaluation takes more heap,
//! stack or work than the bound of its form, whatever the values, and neither does a rule that fits, or a box that fires, on
//! values of its inputs' types (`bounds_are_kept`). Where nothing is chosen and nothing is raised it takes exactly the bound,
//! each of the three by itself (`bounds_are_met`). The boxes of a core that breaks no rule on costs keep the limits
//! (`boxes_keep_the_limits`).
//!
//! It knows the words of heap and stack and the instructions of each form. It doesn't know code or machines.
#![tactic(auto)]

mod cost;
mod laws;

pub use cost::Cost;
pub use laws::{
    bounds_are_kept, bounds_are_met, boxes_keep_the_limits, every_expression_takes_a_word,
    what_spends_is_the_meaning,
};
