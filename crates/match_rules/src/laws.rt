//! Laws of the definitions and of orders of rules.
ghost use Rattle.std.specs.Prelude.{◌≡◌, ℕ, Bool, List, Option, Some, true, length, map, slice_get, sum};
ghost use Rattle.hume_base.specs.declared.types.Ty.{Ty};
ghost use Rattle.hume_base.specs.declared.types.Value.{Value};
ghost use Rattle.hume_model.specs.declared.core_tree.InPat.{InPat};
ghost use Rattle.hume_model.specs.declared.core_tree.Core.{Core};
ghost use Rattle.hume_model.specs.declared.core_tree.BoxC.{BoxC};
ghost use Rattle.hume_model.specs.declared.core_tree.NodeC.TheVariants.{Rules};
ghost use Rattle.hume_model.specs.declared.core_tree.WireC.{WireC};
ghost use Rattle.hume_model.specs.BoxTyping.{port_types};
ghost use Rattle.hume_model.specs.Matching.{fits};
ghost use Rattle.hume_model.specs.ResultTyping.{are_outputs};
ghost use Rattle.hume_model.specs.Wiring.{WiresAgree};
ghost use Rattle.hume_net.specs.declared.state.Part.{Part};
ghost use Rattle.hume_net.specs.declared.state.State.{State};
ghost use Rattle.hume_net.specs.Sides.{inputs, outputs, numbered, on_found, room_on, wire_to, wire_from};
ghost use Rattle.hume_net.specs.HalfSteps.{asserted, have_room, oldest, without_taken};
ghost use Rattle.hume_net.specs.StatePlaces.{IsOrder};
ghost use Rattle.box_costs.specs.Building.{built_of};
ghost use Rattle.box_costs.specs.Bounds.{built_patterns};
ghost use Rattle.box_costs.specs.ResultSpending.{built_values, inputs_built};
ghost use Rattle.wire_cells.specs.Cells.{CellView, cell_has_room, without_values};
ghost use Rattle.match_rules.specs.Inputs.{AreCellsOf, IsCellAt, left_in};
ghost use Rattle.match_rules.specs.Outputs.{AreWordsOfOutputs, FitCells, asserted_in, have_room_for};

use crate::order::RuleOrder;

/// Each rule stands once in an order of rules.
pub fn orders_have_each_rule_once(order: &RuleOrder)
    ensures { IsOrder (length order.now) order.now }
{
    order.keeps_each_rule();
}

/// Cells of the wires on a side of a node, in order, hold what a state has there, and have room where it has. `found` gives the
/// number of the wire at each place of the side, as `wire_to` does for inputs and `wire_from` for outputs.
pub fn cells_hold_what_a_side_has()
    ensures values { (core : Core) (state : State) (found : ℕ → Option ℕ) (cells : List CellView)
        → ((place : ℕ) (cell : CellView) → slice_get cells place ≡ Some cell → IsCellAt core state (found place) cell)
        → (types : List Ty) → length cells ≡ length types
        → ((place number : ℕ) (wire : WireC) (type : Ty) → found place ≡ Some number → slice_get core.wires number ≡ Some wire
        → slice_get types place ≡ Some type → wire.ty ≡ type)
        → AreCellsOf core types cells (numbered (length types) (λ place. on_found state (found place))) }
    ensures rooms { (core : Core) (state : State) (found : ℕ → Option ℕ) (cells : List CellView)
        → ((place : ℕ) (cell : CellView) → slice_get cells place ≡ Some cell → IsCellAt core state (found place) cell)
        → numbered (length cells) (λ place. room_on core state (found place)) ≡ map cell_has_room cells }
{}

/// Cells of the wires that lead to a box's inputs, in order, are cells of its inputs, and hold what the box sees of the state.
pub fn cells_of_wires_are_inputs()
    ensures { (core : Core) (state : State) (node : ℕ) (b : BoxC) (cells : List CellView) → WiresAgree core → slice_get core.nodes node ≡ Some (Rules b)
        → length cells ≡ length b.ins
        → ((input : ℕ) (cell : CellView) → slice_get cells input ≡ Some cell → IsCellAt core state (wire_to core node input) cell)
        → AreCellsOf core (port_types b.ins) cells (inputs core state node (Rules b)) }
{}

/// Cells of the wires that come from a box's outputs, in order, are cells of its outputs, and hold what the box sees of the state.
pub fn cells_of_wires_are_outputs()
    ensures { (core : Core) (state : State) (node : ℕ) (b : BoxC) (cells : List CellView) → WiresAgree core → slice_get core.nodes node ≡ Some (Rules b)
        → length cells ≡ length b.outs
        → ((output : ℕ) (cell : CellView) → slice_get cells output ≡ Some cell → IsCellAt core state (wire_from core node output) cell)
        → AreCellsOf core (port_types b.outs) cells (outputs core state node (Rules b)) }
{}

/// What is left in cells once values are taken are the values that are left on their wires.
pub fn cells_hold_what_is_left()
    ensures { (core : Core) (types : List Ty) (cells : List CellView) (values : List (List Value)) (taken : List Bool)
        → AreCellsOf core types cells values → AreCellsOf core types (left_in taken cells) (without_taken taken values) }
{}

/// Where outputs are the words of values, cells have room for them where their wires have room for the values, each output has as
/// many words as its cell takes, and what asserting them leaves in the cells are the values that it leaves on the wires. Nothing
/// else of a cell changes.
pub fn cells_hold_what_is_asserted()
    ensures room { (core : Core) (types : List Ty) (cells : List CellView) (wires : List (List Value)) (values : List (Option Value))
        (outputs : ℕ → Option (List ℕ)) → AreCellsOf core types cells wires → AreWordsOfOutputs core.types types values outputs
        → have_room_for outputs 0 cells ≡ have_room values (map cell_has_room cells) }
    ensures whole { (core : Core) (types : List Ty) (cells : List CellView) (wires : List (List Value)) (values : List (Option Value))
        (outputs : ℕ → Option (List ℕ)) → AreCellsOf core types cells wires → AreWordsOfOutputs core.types types values outputs
        → are_outputs core.types types values ≡ true → FitCells outputs 0 cells }
    ensures held { (core : Core) (types : List Ty) (cells : List CellView) (wires : List (List Value)) (values : List (Option Value))
        (outputs : ℕ → Option (List ℕ)) → AreCellsOf core types cells wires → AreWordsOfOutputs core.types types values outputs
        → are_outputs core.types types values ≡ true → (before next : Part)
        → AreCellsOf core types (asserted_in outputs cells) (asserted before next values (map cell_has_room cells) wires).side }
    ensures rest { (outputs : ℕ → Option (List ℕ)) (cells : List CellView) → map without_values (asserted_in outputs cells) ≡ map without_values cells }
{}

/// The inputs that are built take the words that a firing spends on them, and of a rule that fits there are as many as its
/// positions with patterns.
pub fn built_inputs_are_those_of_firings()
    ensures words { (pats : List InPat) (ins : List (List Value))
        → sum (map built_of (built_values pats (map oldest ins))) ≡ inputs_built pats (map oldest ins) }
    ensures count { (pats : List InPat) (ins : List (List Value)) → fits pats (map oldest ins) ≡ true
        → length (built_values pats (map oldest ins)) ≡ length (built_patterns pats) }
{}
