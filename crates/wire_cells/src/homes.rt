//! Cells at home, each at the number of its wire. Neither call takes memory.
ghost use Rattle.std.specs.Prelude.{◌≡◌, Some, slice_get};
ghost use Rattle.std.specs.Borrow.{sem};
ghost use Rattle.wire_cells.specs.Cells.{CellView};
ghost use Rattle.wire_cells.specs.Lending.{LendsCell};

use crate::cell::WireCell;

/// The cell that is at home at the number.
#[inline(always)]
pub fn cell_at(home: &[Option<WireCell>], number: u32) -> &WireCell
    requires { (cell : CellView) × (slice_get home.now number ≡ Some (Some cell)) }
    ensures { slice_get home.now number ≡ Some (Some result.now) }
{
    match &home[number as usize] {
        Some(cell) => cell,
        None => unreachable!(),
    }
}

/// Lends the cell that is in the place, as `cell_in(&mut home[number])`.
#[inline(always)]
pub fn cell_in(place: &mut Option<WireCell>) -> &mut WireCell
    requires { (cell : CellView) × (place.old ≡ Some cell) }
    ensures* writes_back { sem 𝓛 (LendsCell place.entry result) }
    ensures cell { place.old ≡ Some result.now }
{
    match place {
        Some(cell) => cell,
        None => unreachable!(),
    }
}
