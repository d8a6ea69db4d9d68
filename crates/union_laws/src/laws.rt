//! Laws of the definitions, as contracts of functions that do nothing.
ghost use Rattle.std.specs.Prelude.{◌≡◌, ◌⊎◌, ◌+◌, ◌<◌, ℕ, All, List, Some, drop, length, slice_get, take};
ghost use Rattle.hume_base.specs.declared.finding.Finding.{Finding};
ghost use Rattle.hume_base.specs.declared.types.Value.{Value};
ghost use Rattle.hume_model.specs.declared.core_tree.BoxC.{BoxC};
ghost use Rattle.hume_model.specs.declared.core_tree.Core.{Core};
ghost use Rattle.hume_model.specs.declared.core_tree.NodeC.TheVariants.{Rules};
ghost use Rattle.hume_model.specs.HandlerRules.{BreaksHandlers};
ghost use Rattle.hume_model.specs.WellFormed.{IsWellFormed};
ghost use Rattle.hume_model.specs.WireRules.{BreaksWires};
ghost use Rattle.hume_net.specs.declared.state.State.{State};
ghost use Rattle.hume_net.specs.Lockstep.{lockstep};
ghost use Rattle.hume_net.specs.Start.{start};
ghost use Rattle.box_costs.specs.Bounds.{box_bound};
ghost use Rattle.net_costs.specs.Steps.{peaks};
ghost use Rattle.union_laws.specs.Moving.{moved_box};
ghost use Rattle.union_laws.specs.Room.{HasRoom};
ghost use Rattle.union_laws.specs.Shares.{left, nodes_before, right, share};
ghost use Rattle.union_laws.specs.Union.{behind, united, united_all};

/// A program of a union runs as it runs alone: from every state and after any number of supersteps its share of the state is
/// what comes of its share of the first state alone. So it is for each program of a list.
pub fn programs_run_as_alone()
    ensures left { (a b : Core) → IsWellFormed a → (state : State) (k : ℕ) → left a (lockstep (united a b) state k) ≡ lockstep a (left a state) k }
    ensures right { (a b : Core) → IsWellFormed a → IsWellFormed b → (state : State) (k : ℕ)
        → right a (lockstep (united a b) state k) ≡ lockstep b (right a state) k }
    ensures each { (programs : List Core) → All IsWellFormed programs → (place : ℕ) (program : Core) → slice_get programs place ≡ Some program
        → (state : State) (k : ℕ) → share programs place program (lockstep (united_all programs) state k)
        ≡ lockstep program (share programs place program state) k }
{}

/// The first state of a union is that of each program, with its share of the values that are to come.
pub fn programs_start_as_alone()
    ensures left { (a b : Core) (coming : List (List Value)) → left a (start (united a b) coming) ≡ start a (take (length a.nodes) coming) }
    ensures right { (a b : Core) (coming : List (List Value)) → right a (start (united a b) coming) ≡ start b (drop (length a.nodes) coming) }
    ensures each { (programs : List Core) → All IsWellFormed programs → (place : ℕ) (program : Core) → slice_get programs place ≡ Some program
        → (coming : List (List Value)) → share programs place program (start (united_all programs) coming)
        ≡ start program (take (length program.nodes) (drop (nodes_before programs place) coming)) }
{}

/// The union of two well-formed programs is well formed where it is within the limits of a program.
pub fn unions_are_well_formed()
    ensures { (a b : Core) → IsWellFormed a → IsWellFormed b → HasRoom (united a b) → IsWellFormed (united a b) }
{}

/// What the wires and the handlers of a union break, those of one of its two programs break, in a declaration of the same number.
pub fn unions_break_no_rules()
    ensures wires { (a b : Core) → IsWellFormed a → IsWellFormed b → (finding : Finding)
        → BreaksWires (united a b) finding → BreaksWires a finding ⊎ BreaksWires b finding }
    ensures handlers { (a b : Core) → IsWellFormed a → IsWellFormed b → (finding : Finding)
        → BreaksHandlers (united a b) finding → BreaksHandlers a finding ⊎ BreaksHandlers b finding }
{}

/// A node of a union takes in each superstep the heap, the stack and the work that it takes in its program alone, so that its
/// peaks are the same.
pub fn nodes_take_what_they_take_alone()
    ensures left { (a b : Core) → IsWellFormed a → (state : State) (steps n : ℕ) → n < length a.nodes
        → peaks (united a b) state steps n ≡ peaks a (left a state) steps n }
    ensures right { (a b : Core) → IsWellFormed a → IsWellFormed b → (state : State) (steps n : ℕ) → n < length b.nodes
        → peaks (united a b) state steps (length a.nodes + n) ≡ peaks b (right a state) steps n }
    ensures each { (programs : List Core) → All IsWellFormed programs → (place : ℕ) (program : Core) → slice_get programs place ≡ Some program
        → (state : State) (steps n : ℕ) → n < length program.nodes
        → peaks (united_all programs) state steps (nodes_before programs place + n) ≡ peaks program (share programs place program state) steps n }
{}

/// A box of a union has the bounds of heap, stack and work that it has in its program alone.
pub fn boxes_have_the_bounds_that_they_have_alone()
    ensures left { (a b : Core) → IsWellFormed a → IsWellFormed b → (n : ℕ) (box : BoxC) → slice_get a.nodes n ≡ Some (Rules box)
        → box_bound (united a b) box ≡ box_bound a box }
    ensures right { (a b : Core) → IsWellFormed a → IsWellFormed b → (n : ℕ) (box : BoxC) → slice_get b.nodes n ≡ Some (Rules box)
        → box_bound (united a b) (moved_box (behind a) box) ≡ box_bound b box }
{}
