//! Which rule of a box fires, what it takes and what is built of its inputs, on the flat words in the cells of its inputs.
//!
//! `first_match` finds the first rule in an order that fits the oldest values, and `take_inputs` takes those that the rule
//! consumes, and builds those that its patterns look into, in heap and stack. A `RuleOrder` is the order in which a box tries
//! its rules. For a box that takes all inputs as they are, each a single word (`is_plain`), `first_plain` and `take_plain` do the
//! same without a look at patterns and types. They find each cell at home, by the number of its wire (`Homes.antt` of `wire_cells`),
//! and change no other. None of them takes memory. `Matching.antt` of `hume_model` says what fits and what is
//! taken; `Inputs.antt` says which cells are a box's inputs and what is built of them, `Plain.antt` which boxes are plain, and
//! `Outputs.antt` what asserting outputs leaves.
//!
//! Proved: `first_match` gives the first rule in the order that fits the oldest values, none exactly where none does; `take_inputs`
//! puts objects of exactly the words that a firing spends on its inputs, pushes for each input with a pattern a word that stands
//! for its value, and takes the values that the rule consumes and no others; `is_plain` says whether each rule of a box takes all
//! inputs as they are, each a single word, and for such a box `first_plain` gives the rule that `first_match` gives, and `take_plain`
//! takes and pushes what `take_inputs` does and puts no object; `fired` moves that rule last. Laws: an order has each
//! rule once (`orders_have_each_rule_once`); cells of the wires on a side of a node hold what a state has there, and have room
//! where it has (`cells_hold_what_a_side_has`), so cells of the wires of a box are those of its inputs and outputs
//! (`cells_of_wires_are_inputs`, `cells_of_wires_are_outputs`), and hold afterwards what is left or asserted on these wires
//! (`cells_hold_what_is_left`, `cells_hold_what_is_asserted`); what is built takes the words that a firing spends
//! (`built_inputs_are_those_of_firings`).
//!
//! It knows patterns, types and flat words. It doesn't know results, handlers, code or times.
#![tactic(auto)]

mod building;
mod choosing;
mod inputs;
mod laws;
mod order;
mod plain;
mod word_tests;

pub use choosing::first_match;
pub use inputs::take_inputs;
pub use laws::{
    built_inputs_are_those_of_firings, cells_hold_what_a_side_has, cells_hold_what_is_asserted,
    cells_hold_what_is_left, cells_of_wires_are_inputs, cells_of_wires_are_outputs,
    orders_have_each_rule_once,
};
pub use order::RuleOrder;
pub use plain::{first_plain, is_plain, take_plain};
