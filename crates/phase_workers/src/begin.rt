//! Cells go back to time 0, before the next round.
ghost use Rattle.std.specs.Prelude.{◌≡◌, ◌%◌, ℕ, map, Some, slice_get};
ghost use Rattle.box_step.specs.declared.nodes.cell.BoxCell.{BoxCell as AnyCell};
ghost use Rattle.phase_workers.specs.inner.Begun.{begun_cell, begun_wire};

use box_step::nodes::BoxCell;
use wire_cells::WireCell;

/// The cells of all nodes go back to time 0.
pub(crate) fn begin_nodes(nodes: &mut [BoxCell])
    requires { (n : ℕ) (cell : AnyCell) → slice_get nodes.old n ≡ Some cell → cell.time % 2 ≡ 0 }
    ensures { nodes.new ≡ map begun_cell nodes.old }
{
    for i in 0..nodes.len() {
        nodes[i].begin();
    }
}

/// The cells of all wires that are at home go back to time 0.
pub(crate) fn begin_wires(home: &mut [Option<WireCell>])
    ensures { home.new ≡ map begun_wire home.old }
{
    for i in 0..home.len() {
        begin_wire(&mut home[i]);
    }
}

fn begin_wire(cell: &mut Option<WireCell>)
    ensures { cell.new ≡ begun_wire cell.old }
{
    match cell {
        None => {}
        Some(cell) => cell.begin(),
    }
}
