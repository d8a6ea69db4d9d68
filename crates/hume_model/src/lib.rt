//! Checked programs (cores), what their expressions, patterns, rules and boxes mean, and the plain evaluator that computes this
//! meaning.
//!
//! Main calls: `eval_plain` evaluates an expression, `first_firing` fires a box, and `value_of` reads a value. `Meaning.antt`
//! says what an expression evaluates to, `Matching.antt` what fits and is taken at an input, `Firing.antt` what a box does, and
//! `Reading.antt` which words are those of a value. `WellFormed.antt` says which cores are checked programs. `WireRules.antt`
//! and `HandlerRules.antt` define the rules on wires and handlers, `Raising.antt` and `Completeness.antt` which exceptions may
//! be raised.
//!
//! Proved: `eval_plain` gives exactly the meaning of an expression, `first_firing` exactly what a box does, and `value_of` the
//! value that has the given words. Laws: calls unfold (`calls_unfold`); expressions, results and firings keep types
//! (`evaluation_keeps_types`, `results_keep_types`, `firing_keeps_types`); a rule takes only what is there
//! (`what_is_taken_is_there`); a box that handles what it raises gives all its outputs (`handled_boxes_give_all_outputs`); a
//! well-formed core is sound (`well_formed_cores_are_sound`), its types have values that `value_of` may read
//! (`well_formed_types_are_readable`), and its own exceptions have their numbers (`own_exceptions_have_their_numbers`); the flat
//! words of a value are read back as that value (`flat_words_are_read_back`).
//!
//! It knows types, expressions, rules, boxes and the wires between them. It doesn't know sources, supersteps, ports, or fast
//! execution.
#![tactic(auto)]

mod arithmetic;
mod core_tree;
mod declarations;
mod evaluate;
mod exceptions;
mod firing;
mod forms_told;
mod laws;
mod matching;
mod operations;
mod outcome;
mod patterns;
mod reading;
mod results;

pub use core_tree::{
    BoxC, Core, EqC, ExnDef, Expr, Forms, FunC, HandC, InPat, NodeC, Op, PatC, PortC, Res, RuleC,
    StreamC, WireC,
};
pub use declarations::declared_line;
pub use evaluate::eval_plain;
pub use exceptions::{DIV_ZERO, NO_CASE, RANGE, own_exceptions};
pub use firing::first_firing;
pub use forms_told::forms_of;
pub use laws::{
    calls_unfold, evaluation_keeps_types, firing_keeps_types, flat_words_are_read_back,
    handled_boxes_give_all_outputs, own_exceptions_have_their_numbers, results_keep_types,
    well_formed_cores_are_sound, well_formed_types_are_readable, what_is_taken_is_there,
};
pub use outcome::{Firing, Outcome, Outputs, Several};
pub use reading::value_of;
