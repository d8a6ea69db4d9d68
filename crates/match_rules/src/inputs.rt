//! The values that a rule takes from the cells of its inputs, those that its patterns look into built in the heap.
ghost use Rattle.std.specs.Prelude.{◌≡◌, ◌+◌, ◌<◌, ◌≤◌, List, [], ◌∷◌, length, map, drop, true};
ghost use Rattle.hume_base.specs.declared.types.Value.{Value};
ghost use Rattle.hume_model.specs.BoxTyping.{port_types};
ghost use Rattle.hume_model.specs.Matching.{fits_at, fits, taken_at};
ghost use Rattle.hume_model.specs.WellFormed.{HasSoundFrame};
ghost use Rattle.hume_net.specs.HalfSteps.{oldest};
ghost use Rattle.box_costs.specs.Building.{built_of};
ghost use Rattle.box_costs.specs.Bounds.{built_patterns};
ghost use Rattle.box_costs.specs.ResultSpending.{built_value, built_values, inputs_built, position_built};
ghost use Rattle.wire_cells.specs.Cells.{CellView, without_values};
ghost use Rattle.wire_cells.specs.Homes.{AreApart, AreAtHome, AreOthersKept};
ghost use Rattle.match_rules.specs.Inputs.{IsCellOf, AreCellsOf, AreBuilt, left_in};
ghost use Rattle.match_rules.specs.inner.Consuming.{consumed_at};

use crate::building::build_value;
use box_heap::{BoxHeap, BoxStack};
use hume_base::Ty;
use hume_model::{Core, InPat, PortC, RuleC};
use wire_cells::{WireCell, cell_in};

/// Takes the oldest value at each position of a rule that fits that consumes one that is there, and at no other. Each value at a
/// position with a pattern other than `_`, `*` and `_*` is built, in order, and the word that stands for it is pushed. Of the cells
/// nothing changes but their values. It takes no memory.
#[inline(never)]
pub fn take_inputs(
    core: &Core,
    ports: &[PortC],
    rule: &RuleC,
    side: &[u32],
    home: &mut [Option<WireCell>],
    heap: &mut BoxHeap,
    stack: &mut BoxStack,
)
    requires core { HasSoundFrame core.now }
    requires apart { AreApart side.now }
    requires fitting { (cells : List CellView) × (values : List (List Value)) × AreAtHome side.now home.old cells
        × AreCellsOf core.now (port_types ports.now) cells values
        × (fits rule.now.pats (map oldest values) ≡ true)
        × (length heap.old.words + inputs_built rule.now.pats (map oldest values) ≤ heap.old.room)
        × (length stack.old.words + length (built_patterns rule.now.pats) ≤ stack.old.room) }
    ensures built { (cells : List CellView) (values : List (List Value)) → AreAtHome side.now home.old cells
        → AreCellsOf core.now (port_types ports.now) cells values → fits rule.now.pats (map oldest values) ≡ true
        → AreBuilt (built_values rule.now.pats (map oldest values)) heap.old heap.new stack.old stack.new }
    ensures left { (cells : List CellView) (values : List (List Value)) → AreAtHome side.now home.old cells
        → AreCellsOf core.now (port_types ports.now) cells values
        → AreAtHome side.now home.new (left_in (taken_at rule.now.pats (map oldest values)) cells) }
    ensures rest { (cells after : List CellView) → AreAtHome side.now home.old cells → AreAtHome side.now home.new after
        → map without_values after ≡ map without_values cells }
    ensures others { AreOthersKept side.now home.old home.new }
{
    let pats = rule.pats.as_slice();
    for i in 0..pats.len().min(side.len()).min(ports.len()) {
        let cell = cell_in(&mut home[side[i] as usize]);
        take_position(core, &ports[i].ty, &pats[i], cell, heap, stack);
    }
}

#[inline(always)]
fn take_position(
    core: &Core,
    ty: &Ty,
    pat: &InPat,
    cell: &mut WireCell,
    heap: &mut BoxHeap,
    stack: &mut BoxStack,
)
    requires core { HasSoundFrame core.now }
    requires fitting { (held : List Value) × IsCellOf core.now ty.now cell.old held × (fits_at pat.now (oldest held) ≡ true)
        × (length heap.old.words + position_built pat.now (oldest held) ≤ heap.old.room)
        × (length stack.old.words + length (built_value pat.now (oldest held)) ≤ stack.old.room) }
    ensures built { (held : List Value) → IsCellOf core.now ty.now cell.old held → fits_at pat.now (oldest held) ≡ true
        → AreBuilt (built_value pat.now (oldest held)) heap.old heap.new stack.old stack.new }
    ensures left { cell.new ≡ consumed_at pat.now cell.old }
{
    match pat {
        InPat::Built(_) => take_built(core, ty, cell, heap, stack),
        _ => take_unbuilt(pat, cell),
    }
}

// At a position without a pattern.
#[inline(never)]
fn take_unbuilt(pat: &InPat, cell: &mut WireCell)
    ensures { cell.new ≡ consumed_at pat.now cell.old }
{
    match pat {
        InPat::Star => {}
        _ => take_if_full(cell),
    }
}

fn take_if_full(cell: &mut WireCell)
    ensures { cell.new ≡ record cell.old { values = drop 1 cell.old.values } }
{
    if cell.full() {
        cell.take();
    }
}

// Takes the oldest value out of a cell, builds it, and pushes the word that stands for it.
#[inline(always)]
fn take_built(core: &Core, ty: &Ty, cell: &mut WireCell, heap: &mut BoxHeap, stack: &mut BoxStack)
    requires core { HasSoundFrame core.now }
    requires there { (value : Value) × (later : List Value) × IsCellOf core.now ty.now cell.old (value ∷ later)
        × (length heap.old.words + built_of value ≤ heap.old.room) }
    requires room { length stack.old.words < stack.old.room }
    ensures built { (value : Value) (later : List Value) → IsCellOf core.now ty.now cell.old (value ∷ later)
        → AreBuilt (value ∷ []) heap.old heap.new stack.old stack.new }
    ensures left { cell.new ≡ record cell.old { values = drop 1 cell.old.values } }
{
    let word = build_value(&core.types, core.types.sums.len(), ty, cell.words(), heap);
    cell.take();
    stack.push(word);
}
