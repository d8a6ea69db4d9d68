//! The first rule in an order that fits the oldest values in the cells of a box's inputs. The cells are at home, by the numbers of the side.
ghost use Rattle.std.specs.Prelude.{◌≡◌, List, map, slice_get};
ghost use Rattle.std.specs.List.{find};
ghost use Rattle.hume_base.specs.declared.types.Value.{Value};
ghost use Rattle.hume_base.specs.Sizes.{HaveTheirSizes};
ghost use Rattle.hume_model.specs.BoxTyping.{BoxHasFrame, port_types};
ghost use Rattle.hume_model.specs.WellFormed.{HasSoundFrame};
ghost use Rattle.hume_net.specs.HalfSteps.{oldest};
ghost use Rattle.wire_cells.specs.Cells.{CellView};
ghost use Rattle.wire_cells.specs.Homes.{AreAtHome};
ghost use Rattle.match_rules.specs.Choosing.{first_fitting};
ghost use Rattle.match_rules.specs.Inputs.{AreCellsOf};
ghost use Rattle.match_rules.specs.inner.WordTests.{position_test, positions_test, rule_test};

use crate::order::RuleOrder;
use crate::word_tests::words_match;
use hume_base::{Ty, Types};
use hume_model::{BoxC, Core, InPat, PatC, PortC};
use wire_cells::{WireCell, cell_at};

/// The number of the first rule in the order that fits the oldest values; none exactly where none does. It takes no memory.
#[inline(never)]
pub fn first_match(
    core: &Core,
    b: &BoxC,
    order: &RuleOrder,
    side: &[u32],
    home: &[Option<WireCell>],
) -> Option<usize>
    requires core { HasSoundFrame core.now }
    requires typed { BoxHasFrame core.now b.now }
    requires home { (cells : List CellView) × AreAtHome side.now home.now cells }
    ensures { (cells : List CellView) (values : List (List Value)) → AreAtHome side.now home.now cells
        → AreCellsOf core.now (port_types b.now.ins) cells values → result ≡ first_fitting b.now order.now (map oldest values) }
{
    first_passing(&core.types, b, order, side, home)
}

fn first_passing(
    types: &Types,
    b: &BoxC,
    order: &RuleOrder,
    side: &[u32],
    home: &[Option<WireCell>],
) -> Option<usize>
    requires sizes { HaveTheirSizes types.now }
    requires home { (cells : List CellView) × AreAtHome side.now home.now cells }
    ensures { (cells : List CellView) → AreAtHome side.now home.now cells
        → result ≡ find (λ number. rule_test types.now (port_types b.now.ins) cells (slice_get b.now.rules number)) order.now }
{
    for i in 0..order.count() {
        let number = order.at(i) as usize;
        if rule_passes(types, b, number, side, home) {
            return Some(number);
        }
    }
    None
}

fn rule_passes(
    types: &Types,
    b: &BoxC,
    number: usize,
    side: &[u32],
    home: &[Option<WireCell>],
) -> bool
    requires sizes { HaveTheirSizes types.now }
    requires home { (cells : List CellView) × AreAtHome side.now home.now cells }
    ensures { (cells : List CellView) → AreAtHome side.now home.now cells
        → result ≡ rule_test types.now (port_types b.now.ins) cells (slice_get b.now.rules number) }
{
    match b.rules.get(number) {
        None => false,
        Some(rule) => positions_pass(types, rule.pats.as_slice(), b.ins.as_slice(), side, home),
    }
}

fn positions_pass(
    types: &Types,
    pats: &[InPat],
    ports: &[PortC],
    side: &[u32],
    home: &[Option<WireCell>],
) -> bool
    requires sizes { HaveTheirSizes types.now }
    requires home { (cells : List CellView) × AreAtHome side.now home.now cells }
    ensures { (cells : List CellView) → AreAtHome side.now home.now cells
        → result ≡ positions_test types.now pats.now (port_types ports.now) cells }
{
    for (i, pat) in pats.iter().enumerate() {
        let Some(port) = ports.get(i) else {
            return false;
        };
        let Some(number) = side.get(i) else {
            return false;
        };
        if !position_passes(types, pat, &port.ty, cell_at(home, *number)) {
            return false;
        }
    }
    true
}

fn position_passes(types: &Types, pat: &InPat, ty: &Ty, cell: &WireCell) -> bool
    requires { HaveTheirSizes types.now }
    ensures { result ≡ position_test types.now pat.now ty.now cell.now }
{
    match pat {
        InPat::Star => true,
        InPat::AnyStar => true,
        InPat::Any => cell.full(),
        InPat::Built(PatC::Var) => cell.full(),
        InPat::Built(pattern) => cell.full() && words_match(types, pattern, ty, cell.words()),
    }
}
