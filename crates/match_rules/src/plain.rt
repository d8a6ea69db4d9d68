//! Boxes whose rules take each input as it is: which these are, the first of their rules, and the words that it takes.
ghost use Rattle.std.specs.Prelude.{◌≡◌, ◌+◌, ◌<◌, ◌≤◌, ℕ, List, [], ◌∷◌, nat_lt, length, map, true};
ghost use Rattle.std.specs.List.{find, list_all};
ghost use Rattle.hume_base.specs.declared.types.Ty.{Ty};
ghost use Rattle.hume_base.specs.declared.types.Value.{Value};
ghost use Rattle.hume_model.specs.declared.core_tree.RuleC.{RuleC};
ghost use Rattle.hume_model.specs.declared.core_tree.Core.{Core};
ghost use Rattle.hume_model.specs.BoxTyping.{port_types};
ghost use Rattle.hume_model.specs.Matching.{taken_at};
ghost use Rattle.hume_net.specs.HalfSteps.{oldest};
ghost use Rattle.box_costs.specs.Bounds.{built_patterns};
ghost use Rattle.box_costs.specs.ResultSpending.{built_values};
ghost use Rattle.box_heap.specs.Heaps.{HeapView};
ghost use Rattle.box_heap.specs.Stacks.{with_word};
ghost use Rattle.wire_cells.specs.Cells.{CellView, without_values};
ghost use Rattle.wire_cells.specs.Homes.{AreApart, AreAtHome, AreOthersKept};
ghost use Rattle.match_rules.specs.Choosing.{first_fitting};
ghost use Rattle.match_rules.specs.Inputs.{AreCellsOf, AreBuilt, left_in};
ghost use Rattle.match_rules.specs.Plain.{plain_pattern, scalar, plain_rule, plain_box, ArePlainInputs};
ghost use Rattle.match_rules.specs.inner.Words.{is_full, word_in_cell, without_first};

use crate::order::RuleOrder;
use box_heap::BoxStack;
use hume_base::Ty;
use hume_base::limits::MAX_WIDTH;
use hume_model::{BoxC, InPat, PatC, PortC, RuleC};
use wire_cells::{WireCell, cell_at, cell_in};

/// Whether each rule of the box takes all inputs as they are, and each input is a single word.
pub fn is_plain(b: &BoxC) -> bool
    ensures { result ≡ plain_box b.now }
{
    for rule in b.rules.as_slice() {
        if !is_plain_rule(b.ins.as_slice(), rule) {
            return false;
        }
    }
    true
}

fn is_plain_rule(ports: &[PortC], rule: &RuleC) -> bool
    ensures { result ≡ plain_rule (port_types ports.now) rule.now }
{
    are_plain(rule.pats.as_slice()) && rule.pats.len() == ports.len() && are_scalar(ports)
}

fn are_plain(pats: &[InPat]) -> bool
    ensures { result ≡ list_all plain_pattern pats.now }
{
    pats.iter().all(|pat| is_plain_pattern(pat))
}

fn is_plain_pattern(pat: &InPat) -> bool
    ensures { result ≡ plain_pattern pat.now }
{
    match pat {
        InPat::Built(PatC::Var) => true,
        _ => false,
    }
}

fn are_scalar(ports: &[PortC]) -> bool
    ensures { result ≡ list_all scalar (port_types ports.now) }
{
    for port in ports {
        if !is_scalar(&port.ty) {
            return false;
        }
    }
    true
}

fn is_scalar(ty: &Ty) -> bool
    ensures { result ≡ scalar ty.now }
{
    match ty {
        Ty::Bool | Ty::Char => true,
        Ty::Int(bits) | Ty::Nat(bits) => 1 <= *bits && *bits <= MAX_WIDTH,
        _ => false,
    }
}

/// The number of the first rule in the order that fits the oldest values, in a box whose rules are plain; none exactly where none
/// does. It takes no memory.
#[inline(always)]
pub fn first_plain(
    b: &BoxC,
    order: &RuleOrder,
    side: &[u32],
    home: &[Option<WireCell>],
) -> Option<usize>
    requires plain { plain_box b.now ≡ true }
    requires home { (cells : List CellView) × AreAtHome side.now home.now cells }
    ensures { (core : Core) (cells : List CellView) (values : List (List Value)) → AreAtHome side.now home.now cells
        → AreCellsOf core (port_types b.now.ins) cells values → result ≡ first_fitting b.now order.now (map oldest values) }
{
    if all_full(side, home) {
        first_below(order, b.rules.len())
    } else {
        None
    }
}

#[inline(always)]
fn all_full(side: &[u32], home: &[Option<WireCell>]) -> bool
    requires home { (cells : List CellView) × AreAtHome side.now home.now cells }
    ensures { (cells : List CellView) → AreAtHome side.now home.now cells → result ≡ list_all is_full cells }
{
    for number in side {
        if !cell_at(home, *number).full() {
            return false;
        }
    }
    true
}

// The first number in the order that is below the count.
#[inline(always)]
fn first_below(order: &RuleOrder, count: usize) -> Option<usize>
    ensures { result ≡ find (λ number. nat_lt number count) order.now }
{
    for i in 0..order.count() {
        let number = order.at(i) as usize;
        if number < count {
            return Some(number);
        }
    }
    None
}

/// Takes the oldest value at each position of a plain rule that fits, and pushes the word that it is, in order. Nothing is built. Of
/// the cells nothing changes but their values. It takes no memory.
#[inline(always)]
pub fn take_plain(side: &[u32], home: &mut [Option<WireCell>], stack: &mut BoxStack)
    requires apart { AreApart side.now }
    requires fitting { (cells : List CellView) × (core : Core) × (types : List Ty) × (rule : RuleC) × (values : List (List Value))
        × AreAtHome side.now home.old cells × ArePlainInputs core types rule cells values
        × (length stack.old.words + length (built_patterns rule.pats) ≤ stack.old.room) }
    ensures built { (cells : List CellView) (core : Core) (types : List Ty) (rule : RuleC) (values : List (List Value)) → AreAtHome side.now home.old cells
        → ArePlainInputs core types rule cells values
        → (heap : HeapView) → AreBuilt (built_values rule.pats (map oldest values)) heap heap stack.old stack.new }
    ensures left { (cells : List CellView) (core : Core) (types : List Ty) (rule : RuleC) (values : List (List Value)) → AreAtHome side.now home.old cells
        → ArePlainInputs core types rule cells values → AreAtHome side.now home.new (left_in (taken_at rule.pats (map oldest values)) cells) }
    ensures rest { (cells after : List CellView) → AreAtHome side.now home.old cells → AreAtHome side.now home.new after
        → map without_values after ≡ map without_values cells }
    ensures others { AreOthersKept side.now home.old home.new }
{
    for i in 0..side.len() {
        take_word(cell_in(&mut home[side[i] as usize]), stack);
    }
}

// Takes the oldest value out of a cell, and pushes its only word.
#[inline(always)]
fn take_word(cell: &mut WireCell, stack: &mut BoxStack)
    requires there { (word : ℕ) × (later : List (List ℕ)) × (cell.old.values ≡ (word ∷ []) ∷ later) }
    requires room { length stack.old.words < stack.old.room }
    ensures left { cell.new ≡ without_first cell.old }
    ensures pushed { stack.new ≡ with_word stack.old (word_in_cell cell.old) }
{
    let word = cell.words()[0];
    cell.take();
    stack.push(word);
}
