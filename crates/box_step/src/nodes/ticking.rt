//! Cells of wires, one half step later.
ghost use Rattle.std.specs.Prelude.{◌≡◌, ◌<◌, ◌^◌, ℕ, List, map, Some, slice_get, slice_set};
ghost use Rattle.wire_cells.specs.Cells.{CellView};
ghost use Rattle.wire_cells.specs.Homes.{AreApart, AreAtHome, AreOthersKept};
ghost use Rattle.box_step.specs.nodes.Sides.{ticked};
ghost use Rattle.box_step.specs.inner.HalfSteps.{AreEarly};

use wire_cells::{WireCell, cell_in};

/// Each cell of the side goes on by one half step.
pub(crate) fn tick_all(side: &[u32], home: &mut [Option<WireCell>])
    requires apart { AreApart side.now }
    requires home { (cells : List CellView) × AreAtHome side.now home.old cells }
    requires early { (cells : List CellView) → AreAtHome side.now home.old cells → AreEarly cells }
    ensures others { AreOthersKept side.now home.old home.new }
    ensures cells { (cells : List CellView) → AreAtHome side.now home.old cells → AreAtHome side.now home.new (map ticked cells) }
{
    for k in 0..side.len() {
        tick_at(home, side[k]);
    }
}

// The cell at home at the number goes on by one half step.
#[inline(always)]
fn tick_at(home: &mut [Option<WireCell>], number: u32)
    requires { (cell : CellView) × (slice_get home.old number ≡ Some (Some cell)) × (cell.time < 2 ^ 40) }
    ensures { (cell : CellView) → slice_get home.old number ≡ Some (Some cell) → home.new ≡ slice_set home.old number (Some (ticked cell)) }
{
    cell_in(&mut home[number as usize]).tick();
}
