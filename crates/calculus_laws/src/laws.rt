//! Laws of the definitions, as contracts of functions that do nothing.
ghost use Rattle.std.specs.Prelude.{◌≡◌, ◌≤◌, ℕ, true, List, map, None, Some, length};
ghost use Rattle.hume_base.specs.declared.limits.TheConstants.{MAX_NAME_BYTES};
ghost use Rattle.hume_base.specs.declared.token.Kind.TheVariants.{Lower};
ghost use Rattle.hume_lex.specs.Spelling.{Spells};
ghost use Rattle.hume_base.specs.declared.finding.Finding.{Finding};
ghost use Rattle.hume_base.specs.declared.types.Value.{Value};
ghost use Rattle.hume_model.specs.declared.core_tree.BoxC.{BoxC};
ghost use Rattle.hume_model.specs.declared.core_tree.Core.{Core};
ghost use Rattle.hume_model.specs.HandlerRules.{BreaksHandlers};
ghost use Rattle.hume_model.specs.WellFormed.{IsWellFormed};
ghost use Rattle.hume_model.specs.WireRules.{BreaksWires};
ghost use Rattle.hume_model.specs.Wiring.{IsWired, WiresAgree};
ghost use Rattle.box_costs.specs.Bounds.{box_bound};
ghost use Rattle.hume_net.specs.declared.state.State.{State};
ghost use Rattle.hume_net.specs.Lockstep.{lockstep};
ghost use Rattle.hume_net.specs.Start.{start};
ghost use Rattle.calculus_laws.specs.declared.step.Step.{Step};
ghost use Rattle.calculus_laws.specs.declared.step.Step.TheVariants.{Unfold};
ghost use Rattle.calculus_laws.specs.Boxes.{box_at, without_rules};
ghost use Rattle.calculus_laws.specs.NamedAgain.{rule_again};
ghost use Rattle.calculus_laws.specs.Names.{is_function_name};
ghost use Rattle.calculus_laws.specs.Naming.{OnlyOutput, calling_box, named_output, output_at};
ghost use Rattle.calculus_laws.specs.Orders.{HasWrittenOrders};
ghost use Rattle.calculus_laws.specs.Steps.{IsOnRule, refusal, rewritten};
ghost use Rattle.calculus_laws.specs.UnfoldedBounds.{IsUnfoldedBound};
ghost use Rattle.calculus_laws.specs.Unfolding.{unfolded_at};

/// A step that isn't refused changes no run: after any number of supersteps the whole state is the same, from each state
/// whose unfair boxes have the written order.
pub fn rewrites_keep_runs()
    ensures { (core : Core) (step : Step) → IsWellFormed core → IsOnRule core step → refusal core step ≡ None
        → (state : State) → HasWrittenOrders core state → (k : ℕ) → lockstep (rewritten core step) state k ≡ lockstep core state k }
{}

/// A step that isn't refused keeps a core well formed.
pub fn rewrites_keep_cores_well_formed()
    ensures { (core : Core) (step : Step) → IsWellFormed core → IsOnRule core step → refusal core step ≡ None → IsWellFormed (rewritten core step) }
{}

/// A step that isn't refused breaks no rule on wires and handlers: what the new core breaks, the old one broke at the same place.
pub fn rewrites_break_no_rules()
    ensures wires { (core : Core) (step : Step) → IsWellFormed core → IsOnRule core step → refusal core step ≡ None
        → (finding : Finding) → BreaksWires (rewritten core step) finding → BreaksWires core finding }
    ensures handlers { (core : Core) (step : Step) → IsWellFormed core → IsOnRule core step → refusal core step ≡ None
        → (finding : Finding) → BreaksHandlers (rewritten core step) finding → BreaksHandlers core finding }
{}

/// A net starts with its boxes in the written order, and no superstep changes the order of a box that isn't fair. The written
/// orders of a core are those of the core that a step makes.
pub fn unfair_boxes_keep_the_written_order()
    ensures starts { (core : Core) (coming : List (List Value)) → HasWrittenOrders core (start core coming) }
    ensures supersteps { (core : Core) (state : State) → HasWrittenOrders core state → (k : ℕ) → HasWrittenOrders core (lockstep core state k) }
    ensures steps { (core : Core) (step : Step) → IsOnRule core step → refusal core step ≡ None
        → (state : State) → HasWrittenOrders core state → HasWrittenOrders (rewritten core step) state }
{}

/// Unfolding a call raises neither the heap nor the stack of any box, and the work of its box by at most 16 instructions.
pub fn unfolds_raise_no_heap_or_stack()
    ensures { (core : Core) → IsWellFormed core → (node rule : ℕ) → IsOnRule core (Unfold node rule) → refusal core (Unfold node rule) ≡ None
        → (n : ℕ) (old new : BoxC) → box_at core n ≡ Some old → box_at (rewritten core (Unfold node rule)) n ≡ Some new
        → IsUnfoldedBound (box_bound (rewritten core (Unfold node rule)) new) (box_bound core old) }
{}

/// A step changes no data type, no exception, no wire, and nothing of a node but the rules of a box.
pub fn rewrites_keep_types()
    ensures types { (core : Core) (step : Step) → IsOnRule core step → refusal core step ≡ None → (rewritten core step).types ≡ core.types }
    ensures exceptions { (core : Core) (step : Step) → IsOnRule core step → refusal core step ≡ None → (rewritten core step).exns ≡ core.exns }
    ensures wires { (core : Core) (step : Step) → IsOnRule core step → refusal core step ≡ None → (rewritten core step).wires ≡ core.wires }
    ensures nodes { (core : Core) (step : Step) → IsOnRule core step → refusal core step ≡ None
        → length (rewritten core step).nodes ≡ length core.nodes }
    ensures others { (core : Core) (step : Step) → IsOnRule core step → refusal core step ≡ None
        → map without_rules (rewritten core step).nodes ≡ map without_rules core.nodes }
{}

/// A step keeps the wires of a core: where each input and output has its one wire, it has it in the new core, and where types
/// agree along the wires they still do.
pub fn rewrites_keep_wiring()
    ensures wired { (core : Core) (step : Step) → IsOnRule core step → refusal core step ≡ None → IsWired core → IsWired (rewritten core step) }
    ensures agree { (core : Core) (step : Step) → IsOnRule core step → refusal core step ≡ None → WiresAgree core → WiresAgree (rewritten core step) }
{}

/// The call of an output that was named can be unfolded: then a `let` of each variable stands around the output. So naming and
/// unfolding change no run, but don't give back the first rule.
pub fn named_outputs_unfold()
    ensures { (core : Core) (node rule : ℕ) (name : List ℕ) (b : BoxC) (output : OnlyOutput) → output_at b rule ≡ Some output
        → unfolded_at (named_output core node rule name b (Some output)) (calling_box core.types (length core.funs) rule output b) rule
        ≡ Some (rule_again core.types b output) }
{}

/// A name that a step may give to a function is a lowercase name of a source, of at most 32 bytes, and each such name is one.
pub fn function_names_are_those_of_sources()
    ensures spelled { (name : List ℕ) → is_function_name name ≡ true → Spells (Lower name) name × (length name ≤ MAX_NAME_BYTES) }
    ensures each { (name : List ℕ) → Spells (Lower name) name → length name ≤ MAX_NAME_BYTES → is_function_name name ≡ true }
{}
