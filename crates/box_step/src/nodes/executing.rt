//! What nodes of each kind do in the execute step.
ghost use Rattle.std.specs.Prelude.{◌≡◌, ◌<◌, ◌+◌, ◌++◌, ℕ, List, map, length, take, drop, Some, slice_get, slice_set};
ghost use Rattle.hume_model.specs.declared.core_tree.BoxC.{BoxC as AnyBox};
ghost use Rattle.hume_model.specs.declared.core_tree.NodeC.TheVariants.{Rules};
ghost use Rattle.hume_streams.specs.Logs.{log_view};
ghost use Rattle.wire_cells.specs.Cells.{CellView, without_values};
ghost use Rattle.wire_cells.specs.Homes.{AreApart, AreAtHome, AreOthersKept};
ghost use Rattle.box_step.specs.nodes.Openings.{Opening};
ghost use Rattle.box_step.specs.nodes.Right.{AreRightWires, HasRoom, IsRightBox, IsRightNode};
ghost use Rattle.box_step.specs.nodes.Sides.{ticked};
ghost use Rattle.box_step.specs.inner.HalfSteps.{CanExecute};

use crate::compiled::CompiledBox;
use crate::nodes::cell::Kind;
use hume_model::{BoxC, Core, NodeC};
use hume_streams::OutLog;
use wire_cells::{WireCell, cell_in};

/// The execute step of a node but for the times.
pub(crate) fn execute_kind(
    core: &Core,
    number: u32,
    kind: &mut Kind,
    side: &[u32],
    home: &mut [Option<WireCell>],
)
    requires room { HasRoom kind.old }
    requires apart { AreApart side.now }
    requires can { (ins : List CellView) × AreAtHome side.now home.old ins
        × (opening : Opening) × (time : ℕ) × CanExecute opening core.now number time ins × IsRightNode opening number time kind.old }
    ensures others { AreOthersKept side.now home.old home.new }
    ensures rest { (ins : List CellView) → AreAtHome side.now home.old ins
        → (after : List CellView) × AreAtHome side.now home.new after × (map without_values after ≡ map without_values ins) }
    ensures node { (opening : Opening) (time : ℕ) (ins : List CellView) → AreAtHome side.now home.old ins → CanExecute opening core.now number time ins
        → IsRightNode opening number time kind.old → IsRightNode opening number (time + 1) kind.new }
    ensures wires { (opening : Opening) (time : ℕ) (ins after : List CellView) → AreAtHome side.now home.old ins
        → CanExecute opening core.now number time ins → IsRightNode opening number time kind.old → AreAtHome side.now home.new after
        → AreRightWires opening (map ticked after) }
{
    match kind {
        Kind::Coded(compiled) => execute_box(core, number, &mut **compiled, side, home),
        Kind::Queued(_) => {}
        Kind::Logged(log) => take_value(&mut **log, side, home),
    }
}

// The box of that number.
fn the_box(core: &Core, number: u32) -> &BoxC
    requires { (b : AnyBox) × (slice_get core.now.nodes number ≡ Some (Rules b)) }
    ensures { slice_get core.now.nodes number ≡ Some (Rules result.now) }
{
    match core.nodes.get(number as usize) {
        Some(NodeC::Rules(b)) => b,
        _ => unreachable!(),
    }
}

// A box executes its program on the cells of its inputs.
fn execute_box(
    core: &Core,
    number: u32,
    compiled: &mut CompiledBox,
    side: &[u32],
    home: &mut [Option<WireCell>],
)
    requires apart { AreApart side.now }
    requires can { (ins : List CellView) × AreAtHome side.now home.old ins
        × (opening : Opening) × (time : ℕ) × CanExecute opening core.now number time ins × IsRightBox opening number time compiled.old }
    ensures others { AreOthersKept side.now home.old home.new }
    ensures rest { (ins : List CellView) → AreAtHome side.now home.old ins
        → (after : List CellView) × AreAtHome side.now home.new after × (map without_values after ≡ map without_values ins) }
    ensures node { (opening : Opening) (time : ℕ) (ins : List CellView) → AreAtHome side.now home.old ins → CanExecute opening core.now number time ins
        → IsRightBox opening number time compiled.old → IsRightBox opening number (time + 1) compiled.new }
    ensures wires { (opening : Opening) (time : ℕ) (ins after : List CellView) → AreAtHome side.now home.old ins
        → CanExecute opening core.now number time ins → IsRightBox opening number time compiled.old → AreAtHome side.now home.new after
        → AreRightWires opening (map ticked after) }
{
    let b = the_box(core, number);
    let _ran = compiled.execute(core, b, side, home);
}

// An output stream takes the value that is there.
#[inline(never)]
fn take_value(log: &mut OutLog, side: &[u32], home: &mut [Option<WireCell>])
    requires apart { AreApart side.now }
    requires one { length side.now ≡ 1 }
    requires home { (ins : List CellView) × AreAtHome side.now home.old ins }
    requires room { length (log_view log.old).values < (log_view log.old).span }
    requires whole { (ins : List CellView) → AreAtHome side.now home.old ins → (place : ℕ) (cell : CellView) (words : List ℕ)
        → slice_get ins place ≡ Some cell → slice_get cell.values 0 ≡ Some words → length words ≡ (log_view log.old).width }
    ensures log { (ins : List CellView) → AreAtHome side.now home.old ins → (cell : CellView) → slice_get ins 0 ≡ Some cell
        → log_view log.new ≡ record (log_view log.old) { values = (log_view log.old).values ++ take 1 cell.values } }
    ensures ins { (ins : List CellView) → AreAtHome side.now home.old ins
        → AreAtHome side.now home.new (map (λ (cell : CellView). record cell { values = drop 1 cell.values }) ins) }
    ensures others { AreOthersKept side.now home.old home.new }
{
    take_one_at(log, home, side[0]);
}

// Takes the value that is there in the cell at home at the number.
fn take_one_at(log: &mut OutLog, home: &mut [Option<WireCell>], number: u32)
    requires room { length (log_view log.old).values < (log_view log.old).span }
    requires whole { (cell : CellView) × (slice_get home.old number ≡ Some (Some cell))
        × ((words : List ℕ) → slice_get cell.values 0 ≡ Some words → length words ≡ (log_view log.old).width) }
    ensures log { (cell : CellView) → slice_get home.old number ≡ Some (Some cell)
        → log_view log.new ≡ record (log_view log.old) { values = (log_view log.old).values ++ take 1 cell.values } }
    ensures home { (cell : CellView) → slice_get home.old number ≡ Some (Some cell)
        → home.new ≡ slice_set home.old number (Some (record cell { values = drop 1 cell.values })) }
{
    take_one(log, cell_in(&mut home[number as usize]));
}

fn take_one(log: &mut OutLog, cell: &mut WireCell)
    requires room { length (log_view log.old).values < (log_view log.old).span }
    requires whole { (words : List ℕ) → slice_get cell.old.values 0 ≡ Some words → length words ≡ (log_view log.old).width }
    ensures log { log_view log.new ≡ record (log_view log.old) { values = (log_view log.old).values ++ take 1 cell.old.values } }
    ensures cell { cell.new ≡ record cell.old { values = drop 1 cell.old.values } }
{
    if cell.full() {
        log.add(cell.words());
        cell.take();
    }
}
