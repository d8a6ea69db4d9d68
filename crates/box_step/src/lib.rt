//! Boxes of a net that run as code: their execute step, on cells, in exactly the printed heap and stack.
//!
//! `nodes` has the half steps of nodes of all kinds, each at its own time. It stands on what follows.
//!
//! A `CompiledBox` is a box with its program, the order of its rules, a heap and a stack of exactly the printed lengths, and its
//! pending outputs. `CompiledBox::execute` makes its execute step over the cells of its inputs, at home at the numbers of the
//! side: it takes no memory, and gets only the bare forms of core and box, so it can make outputs by the code alone. Where the
//! rules of the box take all inputs as they are, it looks at neither patterns nor types. `output` gives the words of a pending
//! output, and `forget_outputs` drops them. `Views.antt` says what a compiled box has, `Boxes.antt` when it is at a part of a
//! state and where the step leaves it, and `Steps.antt` what the step takes.
//!
//! Proved: `CompiledBox::execute` makes the execute step of the meaning: from a box that is at a part of a state (`IsBoxAt`: its
//! program represents the box, it has the part's order of rules and its pending outputs as flat words) and cells that hold what
//! is on the wires of its inputs, to box and cells as the step leaves them (`HasExecuted`), with peaks of heap and stack and a
//! number of instructions that are exactly what the step spends. The box is one of a well-formed core that handles all that its
//! rules raise. The cells keep all but their values: numbers, sizes, depths and times. All other places at home stay as they are.
//! `make` gives heap and stack the printed lengths. `output` gives exactly the pending words, none where the output is absent;
//! `forget_outputs` leaves the box with nothing pending and changes nothing else; `is_pending` says whether outputs are pending.
//! Laws: the words of a pending output are the flat words of its value, as many as its type has
//! (`pending_words_are_those_of_pending_values`); a program of a box that keeps the rules on costs takes little
//! (`programs_of_boxes_take_little`); a box of a well-formed core is run by the bare forms that stand at its place
//! (`boxes_run_by_their_bare_forms`).
//!
//! It knows rules, cells, programs, the machine, queues and logs. It doesn't know how code is made, or which node comes next.
#![tactic(auto)]

mod compiled;
mod laws;
pub mod nodes;
pub mod runs;
mod stepping;

pub use compiled::{CompiledBox, Effort};
pub use laws::{
    boxes_run_by_their_bare_forms, pending_words_are_those_of_pending_values,
    programs_of_boxes_take_little,
};
