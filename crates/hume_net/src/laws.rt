//! Laws of the definitions, as contracts of functions that do nothing.
ghost use Rattle.std.specs.Prelude.{◌≡◌, ◌<◌, ◌+◌, ◌-◌, ◌%◌, ℕ, Bool, List, Some, length, slice_get};
ghost use Rattle.std.specs.List.{position};
ghost use Rattle.hume_base.specs.declared.types.Value.{Value};
ghost use Rattle.hume_model.specs.declared.core_tree.Core.{Core};
ghost use Rattle.hume_model.specs.declared.core_tree.NodeC.{NodeC};
ghost use Rattle.hume_model.specs.declared.core_tree.WireC.{WireC};
ghost use Rattle.hume_model.specs.WellFormed.{HasSoundFrame, IsWellFormed};
ghost use Rattle.hume_model.specs.Wiring.{IsTheWire, IsWired, WiresAgree, comes_from, inputs_of, leads_to, outputs_of};
ghost use Rattle.hume_net.specs.declared.state.Part.{Part};
ghost use Rattle.hume_net.specs.declared.state.State.{State};
ghost use Rattle.hume_net.specs.Depths.{WiresHaveDepth, IsWithinDepths};
ghost use Rattle.hume_net.specs.Lockstep.{mid, up, superstep, lockstep, at_time, node_at, wire_at, executes, supers};
ghost use Rattle.hume_net.specs.Parts.{IsStateOf, state_of};
ghost use Rattle.hume_net.specs.Plan.{plan_of, wires_of, producer_of, consumer_of, IsPlan};
ghost use Rattle.hume_net.specs.Sides.{on_found, on_wire, part_of, executed, stepped, left_by, wire_from, wire_to};
ghost use Rattle.hume_net.specs.Start.{start};
ghost use Rattle.hume_net.specs.StatePlaces.{HasPlaces, HaveAllOutputs, BoxesHandleAll};
ghost use Rattle.hume_net.specs.StateTyping.{IsTypedNet, IsTypedState, InitialsAreTyped, ComingAreTyped};
ghost use Rattle.hume_net.specs.StreamSteps.{HasGrown, HasShrunk};

/// A superstep keeps types: the values on wires, those that are yet to be asserted and those that are taken are of theirs.
pub fn supersteps_keep_types()
    ensures middle { (core : Core) → IsTypedNet core → (state : State) → IsTypedState core state → IsTypedState core (mid core state) }
    ensures whole { (core : Core) → IsTypedNet core → (state : State) → IsTypedState core state → IsTypedState core (superstep core state) }
{}

/// The state before the first superstep has values of the right types, if the initial values and those to come do.
pub fn starts_have_types()
    ensures { (core : Core) → InitialsAreTyped core → (coming : List (List Value)) → ComingAreTyped core coming → IsTypedState core (start core coming) }
{}

/// And so has the state after any number of supersteps.
pub fn locksteps_keep_types()
    ensures { (core : Core) → IsTypedNet core → InitialsAreTyped core → (coming : List (List Value)) → ComingAreTyped core coming
        → (k : ℕ) → IsTypedState core (lockstep core (start core coming) k) }
{}

/// Values keep their types from any state on: after any number of supersteps, and at any time.
pub fn states_keep_types_at_all_times()
    ensures supersteps { (core : Core) → IsTypedNet core → (state : State) → IsTypedState core state
        → (k : ℕ) → IsTypedState core (lockstep core state k) }
    ensures times { (core : Core) → IsTypedNet core → (state : State) → IsTypedState core state
        → (time : ℕ) → IsTypedState core (at_time core state time) }
{}

/// From any state on, pending outputs have an entry for each output at any time, each wire, node and box has its place and an
/// order of its rules, and in a wired core no wire holds more values than its depth, if this holds of the state.
pub fn states_keep_outputs_places_and_depths()
    ensures outputs { (core : Core) → IsTypedNet core → BoxesHandleAll core → (state : State) → IsTypedState core state → HaveAllOutputs core state
        → (time : ℕ) → HaveAllOutputs core (at_time core state time) }
    ensures places { (core : Core) (state : State) → HasPlaces core state → (time : ℕ) → HasPlaces core (at_time core state time) }
    ensures depths { (core : Core) → IsWired core → (state : State) → IsWithinDepths core state → (time : ℕ) → IsWithinDepths core (at_time core state time) }
{}

/// A node takes one value at most in each execute step, behind those that it has taken, and asserts one at most of those that
/// come to it in each super step, the first one.
pub fn streams_go_on_value_by_value()
    ensures taken { (core : Core) (state : State) (n : ℕ) (node : NodeC) → slice_get core.nodes n ≡ Some node → (time count : ℕ)
        → HasGrown (executes (time + count) - executes time) (node_at core state n time).taken (node_at core state n (time + count)).taken }
    ensures coming { (core : Core) (state : State) (n : ℕ) (node : NodeC) → slice_get core.nodes n ≡ Some node → (time count : ℕ)
        → HasShrunk (supers (time + count) - supers time) (node_at core state n time).coming (node_at core state n (time + count)).coming }
    ensures supersteps_taken { (core : Core) (state : State) (n : ℕ) (node : NodeC) → slice_get core.nodes n ≡ Some node → (first more : ℕ)
        → HasGrown more (part_of (lockstep core state first) n).taken (part_of (lockstep core state (first + more)) n).taken }
    ensures supersteps_coming { (core : Core) (state : State) (n : ℕ) (node : NodeC) → slice_get core.nodes n ≡ Some node → (first more : ℕ)
        → HasShrunk more (part_of (lockstep core state first) n).coming (part_of (lockstep core state (first + more)) n).coming }
{}

/// The one wire that leads to an input is the wire found there, and the wire found there leads to it; so it is at outputs.
pub fn wires_are_found_at_their_ends()
    ensures input { (core : Core) (n input w : ℕ) → IsTheWire (leads_to n input) core.wires w → wire_to core n input ≡ Some w }
    ensures output { (core : Core) (n output w : ℕ) → IsTheWire (comes_from n output) core.wires w → wire_from core n output ≡ Some w }
    ensures leads { (core : Core) (n input w : ℕ) → wire_to core n input ≡ Some w
        → (wire : WireC) × (slice_get core.wires w ≡ Some wire) × (wire.to ≡ n) × (wire.to_port ≡ input) }
    ensures comes { (core : Core) (n output w : ℕ) → wire_from core n output ≡ Some w
        → (wire : WireC) × (slice_get core.wires w ≡ Some wire) × (wire.from ≡ n) × (wire.from_port ≡ output) }
{}

/// In a wired core a wire is found at each input and output of a node; and where the frame is sound, each wire at both its ends.
pub fn wired_cores_find_all_wires()
    ensures inputs { (core : Core) → IsWired core → (n input : ℕ) (node : NodeC) → slice_get core.nodes n ≡ Some node → input < inputs_of node
        → (w : ℕ) × (wire_to core n input ≡ Some w) }
    ensures outputs { (core : Core) → IsWired core → (n output : ℕ) (node : NodeC) → slice_get core.nodes n ≡ Some node → output < outputs_of node
        → (w : ℕ) × (wire_from core n output ≡ Some w) }
    ensures consumers { (core : Core) → IsWired core → HasSoundFrame core → (w : ℕ) (wire : WireC) → slice_get core.wires w ≡ Some wire
        → wire_to core wire.to wire.to_port ≡ Some w }
    ensures producers { (core : Core) → IsWired core → HasSoundFrame core → (w : ℕ) (wire : WireC) → slice_get core.wires w ≡ Some wire
        → wire_from core wire.from wire.from_port ≡ Some w }
{}

/// Each wire and each node has its place in every state of a lockstep, and each box has an order of its rules.
pub fn locksteps_have_places()
    ensures states { (core : Core) (state : State) → IsStateOf core state → (k : ℕ) → IsStateOf core (lockstep core state k) }
    ensures supersteps { (core : Core) (state : State) → HasPlaces core state → HasPlaces core (superstep core state) }
    ensures locksteps { (core : Core) (coming : List (List Value)) → length coming ≡ length core.nodes
        → (k : ℕ) → HasPlaces core (lockstep core (start core coming) k) }
{}

/// Where boxes handle what their rules raise, pending outputs have an entry for each output, in each state of a lockstep
/// and in the middle of each superstep.
pub fn locksteps_have_all_outputs()
    ensures whole { (core : Core) → IsTypedNet core → BoxesHandleAll core → InitialsAreTyped core → (coming : List (List Value)) → ComingAreTyped core coming
        → (k : ℕ) → HaveAllOutputs core (lockstep core (start core coming) k) }
    ensures middle { (core : Core) → IsTypedNet core → BoxesHandleAll core → InitialsAreTyped core → (coming : List (List Value)) → ComingAreTyped core coming
        → (k : ℕ) → HaveAllOutputs core (mid core (lockstep core (start core coming) k)) }
{}

/// In a wired core no wire ever holds more values than its depth, if each may hold one.
pub fn wires_keep_within_their_depths()
    ensures middle { (core : Core) → IsWired core → (state : State) → IsWithinDepths core state → IsWithinDepths core (mid core state) }
    ensures whole { (core : Core) → IsWired core → (state : State) → IsWithinDepths core state → IsWithinDepths core (superstep core state) }
    ensures lockstep { (core : Core) → IsWired core → WiresHaveDepth core → (coming : List (List Value))
        → (k : ℕ) → IsWithinDepths core (lockstep core (start core coming) k) }
{}

/// A node sees at an input or output with one wire what is on that wire. Where a core is wired (`IsWired`), each has one.
pub fn nodes_see_their_wires()
    ensures { (core : Core) (test : WireC → Bool) (w : ℕ) → IsTheWire test core.wires w
        → (state : State) → on_found state (position test core.wires) ≡ on_wire state w }
{}

/// A well-formed core whose wires agree is a typed net, which begins with values of the right types.
pub fn well_formed_nets_are_typed()
    ensures { (core : Core) → IsWellFormed core → WiresAgree core → IsTypedNet core × InitialsAreTyped core }
{}

/// From an even time to the next all nodes make their execute steps, from an odd one their super steps.
pub fn times_follow_one_another()
    ensures even { (core : Core) (state : State) (time : ℕ) → time % 2 ≡ 0 → at_time core state (time + 1) ≡ mid core (at_time core state time) }
    ensures odd { (core : Core) (state : State) (time : ℕ) → time % 2 ≡ 1 → at_time core state (time + 1) ≡ up core (at_time core state time) }
{}

/// A time counts the half steps before it, an execute step and a super step in turn.
pub fn times_count_half_steps()
    ensures all { (time : ℕ) → executes time + supers time ≡ time }
    ensures even { (time : ℕ) → time % 2 ≡ 0 → (executes (time + 1) ≡ executes time + 1) × (supers (time + 1) ≡ supers time) }
    ensures odd { (time : ℕ) → time % 2 ≡ 1 → (executes (time + 1) ≡ executes time) × (supers (time + 1) ≡ supers time + 1) }
{}

/// The plan of a core has its wires, and says of each where it comes from and where it leads.
pub fn plans_join_nodes()
    ensures count { (core : Core) → wires_of (plan_of core) ≡ length core.wires }
    ensures lists { (core : Core) (w : ℕ) (wire : WireC) → slice_get core.wires w ≡ Some wire
        → (slice_get (plan_of core).producer w ≡ Some wire.from) × (slice_get (plan_of core).consumer w ≡ Some wire.to) }
    ensures ends { (core : Core) (w : ℕ) (wire : WireC) → slice_get core.wires w ≡ Some wire
        → (producer_of (plan_of core) w ≡ wire.from) × (consumer_of (plan_of core) w ≡ wire.to) }
{}

/// A core whose frame is sound has a plan in which each wire joins two nodes.
pub fn sound_cores_have_plans()
    ensures { (core : Core) → HasSoundFrame core → IsPlan (plan_of core) }
{}

/// A node's part at the next time is what its half step makes of the state at a time.
pub fn parts_follow_half_steps()
    ensures even { (core : Core) (state : State) (time n : ℕ) (node : NodeC) → slice_get core.nodes n ≡ Some node → time % 2 ≡ 0
        → node_at core state n (time + 1) ≡ (executed core (at_time core state time) n).part }
    ensures odd { (core : Core) (state : State) (time n : ℕ) (node : NodeC) → slice_get core.nodes n ≡ Some node → time % 2 ≡ 1
        → node_at core state n (time + 1) ≡ (stepped core (at_time core state time) n).part }
{}

/// A wire at an odd time is what its consumer's execute step left, and at the next even time what its producer's super
/// step left.
pub fn wires_follow_half_steps()
    ensures even { (core : Core) (state : State) (time w : ℕ) (wire : WireC) → slice_get core.wires w ≡ Some wire → time % 2 ≡ 0
        → wire_at core state w (time + 1) ≡ left_by (executed core (at_time core state time) wire.to) wire.to_port }
    ensures odd { (core : Core) (state : State) (time w : ℕ) (wire : WireC) → slice_get core.wires w ≡ Some wire → time % 2 ≡ 1
        → wire_at core state w (time + 1) ≡ left_by (stepped core (at_time core state time) wire.from) wire.from_port }
{}

/// A half step of a node depends only on its part and on the wires of its side: those that lead to it for an execute step,
/// and those that come from it for a super step.
pub fn half_steps_see_their_sides()
    ensures executes { (core : Core) (s t : State) (n : ℕ) → part_of s n ≡ part_of t n
        → ((w : ℕ) (wire : WireC) → slice_get core.wires w ≡ Some wire → wire.to ≡ n → on_wire s w ≡ on_wire t w) → executed core s n ≡ executed core t n }
    ensures supers { (core : Core) (s t : State) (n : ℕ) → part_of s n ≡ part_of t n
        → ((w : ℕ) (wire : WireC) → slice_get core.wires w ≡ Some wire → wire.from ≡ n → on_wire s w ≡ on_wire t w) → stepped core s n ≡ stepped core t n }
{}

/// A state that is made of parts and wires has these parts and wires.
pub fn made_states_have_their_parts()
    ensures places { (core : Core) (part : ℕ → Part) (values : ℕ → List Value) → IsStateOf core (state_of core part values) }
    ensures parts { (core : Core) (part : ℕ → Part) (values : ℕ → List Value) (n : ℕ) → n < length core.nodes
        → part_of (state_of core part values) n ≡ part n }
    ensures wires { (core : Core) (part : ℕ → Part) (values : ℕ → List Value) (w : ℕ) → w < length core.wires
        → on_wire (state_of core part values) w ≡ values w }
{}

/// Each state of a core is made of its own parts and wires. Two with the same parts and wires are the same state.
pub fn states_are_made_of_their_parts()
    ensures own { (core : Core) (state : State) → IsStateOf core state → state_of core (part_of state) (on_wire state) ≡ state }
    ensures same { (core : Core) (s t : State) → IsStateOf core s → IsStateOf core t → ((n : ℕ) → n < length core.nodes → part_of s n ≡ part_of t n)
        → ((w : ℕ) → w < length core.wires → on_wire s w ≡ on_wire t w) → s ≡ t }
    ensures made { (core : Core) (part part' : ℕ → Part) (values values' : ℕ → List Value) → ((n : ℕ) → n < length core.nodes → part n ≡ part' n)
        → ((w : ℕ) → w < length core.wires → values w ≡ values' w) → state_of core part values ≡ state_of core part' values' }
{}
