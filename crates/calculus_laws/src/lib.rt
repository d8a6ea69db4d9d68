//! Steps that rewrite a core, and the laws that they keep every run: the box calculus by definitions and laws, nothing runs.
//!
//! `Steps.antt` says what a step makes of a core and why it is refused. There are three kinds: the swap of two rules
//! (`Swapping.antt`, and `Apart.antt` says when no inputs fit two rules), the naming of an output (`Naming.antt`, and `Names.antt`
//! says which names are free), and the unfolding of a call (`Unfolding.antt`; `Depth.antt` and `Parts.antt` say how
//! deep a result is and how many parts it has).
//! `Orders.antt` says of which states the runs are kept, and `UnfoldedBounds.antt` what becomes of a bound.
//!
//! Proved: a step that isn't refused changes no run, state by state (`rewrites_keep_runs`); the new core is well formed
//! (`rewrites_keep_cores_well_formed`) and breaks no rule on wires and exceptions that the old one keeps
//! (`rewrites_break_no_rules`). Data types, exceptions, wires and all of nodes but rules stay (`rewrites_keep_types`), and each input
//! and output keeps its one wire (`rewrites_keep_wiring`). Unfolding a call raises neither the heap nor the stack of a box
//! (`unfolds_raise_no_heap_or_stack`). An output that was named can be unfolded again, which doesn't give back the first rule
//! (`named_outputs_unfold`; `NamedAgain.antt`). A net starts with its boxes in the written order, and unfair ones keep it, in the
//! core that a step makes too (`unfair_boxes_keep_the_written_order`). The names that a step may give are those that the lexer
//! reads (`function_names_are_those_of_sources`).
//!
//! It knows cores, what their nets do and what they take. It doesn't know how a step is made, nor lines of scripts.
#![tactic(auto)]

mod laws;
mod step;

pub use laws::{
    function_names_are_those_of_sources, named_outputs_unfold, rewrites_break_no_rules,
    rewrites_keep_cores_well_formed, rewrites_keep_runs, rewrites_keep_types, rewrites_keep_wiring,
    unfair_boxes_keep_the_written_order, unfolds_raise_no_heap_or_stack,
};
pub use step::{CalcError, MAX_RESULT_DEPTH, MAX_RESULT_PARTS, Step};
