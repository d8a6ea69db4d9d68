//! The half step of a node whose wires are at home.
ghost use Rattle.std.specs.Prelude.{◌≡◌, ◌+◌, ◌<◌, ◌%◌, ◌^◌, ℕ, Some, length, slice_get};
ghost use Rattle.wire_cells.specs.Homes.{IsOutside};
ghost use Rattle.box_step.specs.nodes.Openings.{Opening, IsOpeningOf};
ghost use Rattle.box_step.specs.nodes.Right.{HasRoom};
ghost use Rattle.step_turns.specs.Homes.{AreRightThere, IsHome, IsSideOf};

use crate::gate::Gate;
use box_step::nodes::BoxCell;
use hume_model::Core;
use wire_cells::WireCell;

/// Makes the next half step of a node, by the bare form of the core: `side` has the numbers of the wires of its side, whose cells are
/// at home at the node's time and stay there. The gate is passed before an execute step. It takes no memory.
pub fn turn<G: Gate>(
    core: &Core,
    side: &[u32],
    gate: &G,
    node: &mut BoxCell,
    home: &mut [Option<WireCell>],
)
    requires time { node.old.time < 2 ^ 40 }
    requires room { node.old.time % 2 ≡ 0 → HasRoom node.old.kind }
    requires side { IsSideOf core.now node.old.number node.old.time side.now }
    requires home { (place w : ℕ) → slice_get side.now place ≡ Some w → IsHome w node.old.time home.old }
    requires right { (opening : Opening) × IsOpeningOf core.now opening × AreRightThere opening node.old home.old }
    ensures number { node.new.number ≡ node.old.number }
    ensures time { node.new.time ≡ node.old.time + 1 }
    ensures home { (place w : ℕ) → slice_get side.now place ≡ Some w → IsHome w (node.old.time + 1) home.new }
    ensures others { (w : ℕ) → IsOutside side.now w → slice_get home.new w ≡ slice_get home.old w }
    ensures long { length home.new ≡ length home.old }
    ensures right { (opening : Opening) → IsOpeningOf core.now opening → AreRightThere opening node.old home.old → AreRightThere opening node.new home.new }
{
    if node.time() % 2 == 0 {
        gate.pass(node.number());
        node.execute(core, side, home);
    } else {
        node.super_step(core, side, home);
    }
}
