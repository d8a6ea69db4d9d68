//! Laws of the definitions, as contracts of functions that do nothing.
ghost use Rattle.std.specs.Prelude.{◌≡◌, ◌+◌, ◌%◌, ℕ, List, Option, None, Some, map, slice_get};
ghost use Rattle.hume_base.specs.declared.types.Value.{Value};
ghost use Rattle.hume_model.specs.declared.core_tree.BoxC.{BoxC};
ghost use Rattle.hume_model.specs.declared.core_tree.Core.{Core};
ghost use Rattle.hume_model.specs.declared.core_tree.NodeC.TheVariants.{Rules, From, To};
ghost use Rattle.hume_model.specs.declared.core_tree.RuleC.{RuleC};
ghost use Rattle.hume_model.specs.declared.core_tree.StreamC.{StreamC};
ghost use Rattle.hume_model.specs.declared.core_tree.WireC.{WireC};
ghost use Rattle.hume_model.specs.declared.outcome.Firing.{Firing as TheFiring};
ghost use Rattle.hume_model.specs.Firing.{fire};
ghost use Rattle.hume_net.specs.declared.state.State.{State};
ghost use Rattle.hume_net.specs.HalfSteps.{oldest};
ghost use Rattle.hume_net.specs.Lockstep.{lockstep, at_time, executes};
ghost use Rattle.hume_net.specs.Sides.{inputs, on_wire, part_of};
ghost use Rattle.hume_net.specs.Start.{start};
ghost use Rattle.hume_net.specs.StateTyping.{IsTypedNet, IsTypedState, InitialsAreTyped, ComingAreTyped};
ghost use Rattle.box_costs.specs.Costs.{IsAtMost, either, nothing};
ghost use Rattle.box_costs.specs.Bounds.{box_bound};
ghost use Rattle.box_costs.specs.ResultSpending.{rule_spent};
ghost use Rattle.net_costs.specs.Steps.{step_spent, peaks};

/// No execute step of a box takes more heap, stack or work than its bound, in any state whose values are of their types. So it
/// is in each state of a lockstep, where the values that come are.
pub fn steps_keep_bounds()
    ensures states { (core : Core) → IsTypedNet core → (state : State) → IsTypedState core state
        → (n : ℕ) (b : BoxC) → slice_get core.nodes n ≡ Some (Rules b) → IsAtMost (step_spent core state n) (box_bound core b) }
    ensures locksteps { (core : Core) → IsTypedNet core → InitialsAreTyped core → (coming : List (List Value)) → ComingAreTyped core coming
        → (k n : ℕ) (b : BoxC) → slice_get core.nodes n ≡ Some (Rules b)
        → IsAtMost (step_spent core (lockstep core (start core coming) k) n) (box_bound core b) }
{}

/// The greatest heap, stack and work over so many supersteps keep the bound of the box too, each by itself: from any state whose
/// values are of their types, and so from the first one.
pub fn peaks_keep_bounds()
    ensures states { (core : Core) → IsTypedNet core → (state : State) → IsTypedState core state
        → (steps n : ℕ) (b : BoxC) → slice_get core.nodes n ≡ Some (Rules b) → IsAtMost (peaks core state steps n) (box_bound core b) }
    ensures locksteps { (core : Core) → IsTypedNet core → InitialsAreTyped core → (coming : List (List Value)) → ComingAreTyped core coming
        → (steps n : ℕ) (b : BoxC) → slice_get core.nodes n ≡ Some (Rules b) → IsAtMost (peaks core (start core coming) steps n) (box_bound core b) }
{}

/// An execute step of a box takes just what the rule that fires takes, with its inputs and a handler. Nothing is taken where
/// outputs are pending, where no rule fits, and by a stream.
pub fn steps_take_what_the_rule_takes()
    ensures fires { (core : Core) (state : State) (n : ℕ) (b : BoxC) → slice_get core.nodes n ≡ Some (Rules b) → (part_of state n).pending ≡ None
        → (firing : TheFiring) → fire core b (part_of state n).order (map oldest (inputs core state n (Rules b))) ≡ Some firing
        → (rule : RuleC) → slice_get b.rules firing.rule ≡ Some rule
        → step_spent core state n ≡ (rule_spent core b (map oldest (inputs core state n (Rules b))) rule).cost }
    ensures rests { (core : Core) (state : State) (n : ℕ) (b : BoxC) → slice_get core.nodes n ≡ Some (Rules b) → (part_of state n).pending ≡ None
        → fire core b (part_of state n).order (map oldest (inputs core state n (Rules b))) ≡ None → step_spent core state n ≡ nothing }
    ensures waits { (core : Core) (state : State) (n : ℕ) (b : BoxC) → slice_get core.nodes n ≡ Some (Rules b)
        → (outs : List (Option Value)) → (part_of state n).pending ≡ Some outs → step_spent core state n ≡ nothing }
    ensures sources { (core : Core) (state : State) (n : ℕ) (stream : StreamC) → slice_get core.nodes n ≡ Some (From stream)
        → step_spent core state n ≡ nothing }
    ensures sinks { (core : Core) (state : State) (n : ℕ) (stream : StreamC) → slice_get core.nodes n ≡ Some (To stream)
        → step_spent core state n ≡ nothing }
{}

/// What an execute step takes depends only on the node's part and on the wires that lead to it.
pub fn costs_depend_on_inputs_alone()
    ensures { (core : Core) (s t : State) (n : ℕ) → part_of s n ≡ part_of t n
        → ((w : ℕ) (wire : WireC) → slice_get core.wires w ≡ Some wire → wire.to ≡ n → on_wire s w ≡ on_wire t w)
        → step_spent core s n ≡ step_spent core t n }
{}

/// Peaks begin at nothing, and each superstep makes them the greater of what they were and of what its execute step takes. Those
/// of so many supersteps and so many more are the greater of both parts.
pub fn peaks_grow_step_by_step()
    ensures none { (core : Core) (state : State) (n : ℕ) → peaks core state 0 n ≡ nothing }
    ensures next { (core : Core) (state : State) (steps n : ℕ)
        → peaks core state (steps + 1) n ≡ either (peaks core state steps n) (step_spent core (lockstep core state steps) n) }
    ensures parts { (core : Core) (state : State) (first more n : ℕ)
        → peaks core state (first + more) n ≡ either (peaks core state first n) (peaks core (lockstep core state first) more n) }
{}

/// The peaks of the execute steps before a time: an execute step adds to them what it takes, and a super step nothing.
pub fn peaks_grow_in_execute_steps()
    ensures even { (core : Core) (state : State) (n time : ℕ) → time % 2 ≡ 0
        → peaks core state (executes (time + 1)) n ≡ either (peaks core state (executes time) n) (step_spent core (at_time core state time) n) }
    ensures odd { (core : Core) (state : State) (n time : ℕ) → time % 2 ≡ 1
        → peaks core state (executes (time + 1)) n ≡ peaks core state (executes time) n }
{}
