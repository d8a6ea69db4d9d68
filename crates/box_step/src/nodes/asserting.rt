//! What nodes of each kind do in the super step.
ghost use Rattle.std.specs.Prelude.{◌≡◌, ◌<◌, ◌≤◌, ◌+◌, ◌^◌, ℕ, List, true, map, length, drop, Some, None, slice_get, slice_set, if◌then◌else◌, MatchOption};
ghost use Rattle.hume_base.specs.declared.limits.TheConstants.{MAX_OUTPUTS};
ghost use Rattle.hume_model.specs.declared.core_tree.Core.{Core as AnyCore};
ghost use Rattle.hume_streams.specs.Queues.{queue_view};
ghost use Rattle.match_rules.specs.Outputs.{FitCells, asserted_in, cell_with, cells_with, has_room_for, have_room_for};
ghost use Rattle.wire_cells.specs.Cells.{CellView};
ghost use Rattle.wire_cells.specs.Homes.{AreApart, AreAtHome, AreOthersKept};
ghost use Rattle.box_step.specs.Views.{pending_words};
ghost use Rattle.box_step.specs.nodes.Openings.{Opening};
ghost use Rattle.box_step.specs.nodes.Right.{AreRightWires, IsRightNode};
ghost use Rattle.box_step.specs.nodes.Sides.{AreTicked, ticked};
ghost use Rattle.box_step.specs.inner.Buffers.{words_at};
ghost use Rattle.box_step.specs.inner.HalfSteps.{AreEarly, CanAssert, next_row};

use crate::compiled::CompiledBox;
use crate::nodes::cell::Kind;
use crate::nodes::ticking::tick_all;
use box_heap::OutBuf;
use hume_streams::InQueue;
use wire_cells::{WireCell, cell_at, cell_in};

/// The super step of a node but for its own time.
pub(crate) fn assert_kind(number: u32, kind: &mut Kind, side: &[u32], home: &mut [Option<WireCell>])
    requires apart { AreApart side.now }
    requires can { (outs : List CellView) × AreAtHome side.now home.old outs × AreEarly outs
        × (opening : Opening) × (bare : AnyCore) × (time : ℕ) × CanAssert opening bare number time outs × IsRightNode opening number time kind.old }
    ensures others { AreOthersKept side.now home.old home.new }
    ensures rest { (outs : List CellView) → AreAtHome side.now home.old outs
        → (after : List CellView) × AreAtHome side.now home.new after × AreTicked outs after }
    ensures node { (opening : Opening) (bare : AnyCore) (time : ℕ) (outs : List CellView) → AreAtHome side.now home.old outs
        → CanAssert opening bare number time outs → IsRightNode opening number time kind.old → IsRightNode opening number (time + 1) kind.new }
    ensures wires { (opening : Opening) (bare : AnyCore) (time : ℕ) (outs after : List CellView) → AreAtHome side.now home.old outs
        → CanAssert opening bare number time outs → IsRightNode opening number time kind.old → AreAtHome side.now home.new after
        → AreRightWires opening after }
{
    match kind {
        Kind::Coded(compiled) => assert_pending(&mut **compiled, side, home),
        Kind::Queued(queue) => assert_next(&mut **queue, side, home),
        Kind::Logged(_) => tick_all(side, home),
    }
}

// A box asserts its pending outputs, if it has some, and each cell goes on.
fn assert_pending(compiled: &mut CompiledBox, side: &[u32], home: &mut [Option<WireCell>])
    requires apart { AreApart side.now }
    requires few { length side.now ≤ MAX_OUTPUTS }
    requires long { length side.now ≡ length compiled.old.sizes }
    requires home { (outs : List CellView) × AreAtHome side.now home.old outs }
    requires early { (outs : List CellView) → AreAtHome side.now home.old outs → AreEarly outs }
    requires fit { (outs : List CellView) → AreAtHome side.now home.old outs → FitCells (pending_words compiled.old) 0 outs }
    ensures compiled { (outs : List CellView) → AreAtHome side.now home.old outs
        → compiled.new ≡ (if have_room_for (pending_words compiled.old) 0 outs then record compiled.old { pending = None } else compiled.old) }
    ensures others { AreOthersKept side.now home.old home.new }
    ensures outs { (outs : List CellView) → AreAtHome side.now home.old outs
        → AreAtHome side.now home.new (map ticked (asserted_in (pending_words compiled.old) outs)) }
{
    let Some(outputs) = compiled.pending_outputs() else {
        tick_all(side, home);
        return;
    };
    if assert_outputs(outputs, side, home) {
        compiled.forget_outputs();
    }
}

// All outputs are asserted at once where each has room, and each cell goes on. Answers whether each has.
fn assert_outputs(outputs: &OutBuf, side: &[u32], home: &mut [Option<WireCell>]) -> bool
    requires apart { AreApart side.now }
    requires few { length side.now ≤ MAX_OUTPUTS }
    requires long { length side.now ≡ length outputs.now }
    requires home { (outs : List CellView) × AreAtHome side.now home.old outs }
    requires early { (outs : List CellView) → AreAtHome side.now home.old outs → AreEarly outs }
    requires fit { (outs : List CellView) → AreAtHome side.now home.old outs → FitCells (words_at outputs.now) 0 outs }
    ensures room { (outs : List CellView) → AreAtHome side.now home.old outs → result ≡ have_room_for (words_at outputs.now) 0 outs }
    ensures others { AreOthersKept side.now home.old home.new }
    ensures outs { (outs : List CellView) → AreAtHome side.now home.old outs
        → AreAtHome side.now home.new (map ticked (asserted_in (words_at outputs.now) outs)) }
{
    let room = have_room(outputs, side, home);
    if room {
        put_outputs(outputs, side, home);
    } else {
        tick_all(side, home);
    }
    room
}

fn have_room(outputs: &OutBuf, side: &[u32], home: &[Option<WireCell>]) -> bool
    requires few { length side.now ≤ MAX_OUTPUTS }
    requires long { length side.now ≡ length outputs.now }
    requires home { (outs : List CellView) × AreAtHome side.now home.now outs }
    ensures { (outs : List CellView) → AreAtHome side.now home.now outs → result ≡ have_room_for (words_at outputs.now) 0 outs }
{
    for k in 0..side.len() {
        if !has_room(outputs, k as u32, cell_at(home, side[k])) {
            return false;
        }
    }
    true
}

fn has_room(outputs: &OutBuf, i: u32, cell: &WireCell) -> bool
    requires { i < length outputs.now }
    ensures { result ≡ has_room_for (words_at outputs.now i) cell.now }
{
    if cell.room() {
        return true;
    }
    match words_of(outputs, i) {
        None => true,
        Some(_) => false,
    }
}

// One loop puts the outputs and lets each cell go on: two loops take longer for the few cells of most boxes.
fn put_outputs(outputs: &OutBuf, side: &[u32], home: &mut [Option<WireCell>])
    requires apart { AreApart side.now }
    requires few { length side.now ≤ MAX_OUTPUTS }
    requires long { length side.now ≡ length outputs.now }
    requires home { (outs : List CellView) × AreAtHome side.now home.old outs }
    requires early { (outs : List CellView) → AreAtHome side.now home.old outs → AreEarly outs }
    requires room { (outs : List CellView) → AreAtHome side.now home.old outs → have_room_for (words_at outputs.now) 0 outs ≡ true }
    requires fit { (outs : List CellView) → AreAtHome side.now home.old outs → FitCells (words_at outputs.now) 0 outs }
    ensures others { AreOthersKept side.now home.old home.new }
    ensures outs { (outs : List CellView) → AreAtHome side.now home.old outs
        → AreAtHome side.now home.new (map ticked (cells_with (words_at outputs.now) 0 outs)) }
{
    for k in 0..side.len() {
        put_at(outputs, k as u32, home, side[k]);
    }
}

// The output is put into the cell at home at the number, which goes on.
#[inline(always)]
fn put_at(outputs: &OutBuf, i: u32, home: &mut [Option<WireCell>], number: u32)
    requires there { i < length outputs.now }
    requires cell { (cell : CellView) × (slice_get home.old number ≡ Some (Some cell)) × (cell.time < 2 ^ 40)
        × (has_room_for (words_at outputs.now i) cell ≡ true)
        × ((words : List ℕ) → words_at outputs.now i ≡ Some words → length words ≡ cell.size) }
    ensures { (cell : CellView) → slice_get home.old number ≡ Some (Some cell)
        → home.new ≡ slice_set home.old number (Some (ticked (cell_with (words_at outputs.now i) cell))) }
{
    put_output(outputs, i, cell_in(&mut home[number as usize]));
}

fn put_output(outputs: &OutBuf, i: u32, cell: &mut WireCell)
    requires early { cell.old.time < 2 ^ 40 }
    requires there { i < length outputs.now }
    requires room { has_room_for (words_at outputs.now i) cell.old ≡ true }
    requires fit { (words : List ℕ) → words_at outputs.now i ≡ Some words → length words ≡ cell.old.size }
    ensures { cell.new ≡ ticked (cell_with (words_at outputs.now i) cell.old) }
{
    if let Some(words) = words_of(outputs, i) {
        cell.assert_value(words);
    }
    cell.tick();
}

// The words of an output; none where it is absent.
fn words_of(outputs: &OutBuf, i: u32) -> Option<&[u64]>
    requires { i < length outputs.now }
    ensures { MatchOption result (words_at outputs.now i ≡ None) (λ words. words_at outputs.now i ≡ Some words.now) }
{
    outputs.get(i)
}

// An input stream asserts its next value where that has room, and the cell goes on.
#[inline(never)]
fn assert_next(queue: &mut InQueue, side: &[u32], home: &mut [Option<WireCell>])
    requires apart { AreApart side.now }
    requires one { length side.now ≡ 1 }
    requires home { (outs : List CellView) × AreAtHome side.now home.old outs }
    requires early { (outs : List CellView) → AreAtHome side.now home.old outs → AreEarly outs }
    requires fit { (outs : List CellView) → AreAtHome side.now home.old outs → FitCells (next_row (queue_view queue.old).values) 0 outs }
    ensures queue { (outs : List CellView) → AreAtHome side.now home.old outs
        → queue_view queue.new ≡ (if have_room_for (next_row (queue_view queue.old).values) 0 outs
        then record (queue_view queue.old) { values = drop 1 (queue_view queue.old).values } else queue_view queue.old) }
    ensures others { AreOthersKept side.now home.old home.new }
    ensures outs { (outs : List CellView) → AreAtHome side.now home.old outs
        → AreAtHome side.now home.new (map ticked (asserted_in (next_row (queue_view queue.old).values) outs)) }
{
    assert_first_at(queue, home, side[0]);
}

// The next value is asserted in the cell at home at the number, where that has room, and the cell goes on.
fn assert_first_at(queue: &mut InQueue, home: &mut [Option<WireCell>], number: u32)
    requires { (cell : CellView) × (slice_get home.old number ≡ Some (Some cell)) × (cell.time < 2 ^ 40)
        × ((words : List ℕ) → slice_get (queue_view queue.old).values 0 ≡ Some words → length words ≡ cell.size) }
    ensures queue { (cell : CellView) → slice_get home.old number ≡ Some (Some cell)
        → queue_view queue.new ≡ (if has_room_for (slice_get (queue_view queue.old).values 0) cell
        then record (queue_view queue.old) { values = drop 1 (queue_view queue.old).values } else queue_view queue.old) }
    ensures home { (cell : CellView) → slice_get home.old number ≡ Some (Some cell)
        → home.new ≡ slice_set home.old number (Some (ticked (if has_room_for (slice_get (queue_view queue.old).values 0) cell
        then cell_with (slice_get (queue_view queue.old).values 0) cell else cell))) }
{
    assert_first(queue, cell_in(&mut home[number as usize]));
}

fn assert_first(queue: &mut InQueue, cell: &mut WireCell)
    requires early { cell.old.time < 2 ^ 40 }
    requires fit { (words : List ℕ) → slice_get (queue_view queue.old).values 0 ≡ Some words → length words ≡ cell.old.size }
    ensures queue { queue_view queue.new ≡ (if has_room_for (slice_get (queue_view queue.old).values 0) cell.old
        then record (queue_view queue.old) { values = drop 1 (queue_view queue.old).values } else queue_view queue.old) }
    ensures cell { cell.new ≡ ticked (if has_room_for (slice_get (queue_view queue.old).values 0) cell.old
        then cell_with (slice_get (queue_view queue.old).values 0) cell.old else cell.old) }
{
    if queue.count() > 0 && cell.room() {
        cell.assert_value(queue.front());
        queue.drop_front();
    }
    cell.tick();
}
