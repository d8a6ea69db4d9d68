//! Which exceptions a rule or a handler of a box may raise.
ghost use Rattle.std.specs.Prelude.{◌≡◌, ◌-◌, ◌<◌, IfOk, slice_get};
ghost use Rattle.hume_base.specs.declared.limits.TheConstants.{MAX_EXCEPTIONS};
ghost use Rattle.hume_exceptions.specs.Sets.{IsRaisesOf};
ghost use Rattle.look_cores.specs.Raised.{IsFirstOut, handler_lets_out, lets_out, node_lets_out, part_lets_out, rule_lets_out};

use crate::broken::{Culprit, is_handled};
use crate::slices;
use hume_exceptions::{Raises, raises, result_may_raise};
use hume_model::{BoxC, Core, NodeC};
use look_sources::Sort;
use std::alloc::{AllocError, Global};

/// The first exception that the rule or handler of a box in the line may raise and the box doesn't handle.
pub fn first_raised(
    alloc: Global,
    core: &Core,
    line: u32,
    culprit: Culprit,
) -> Result<Option<u32>, AllocError>
    ensures { IfOk result (IsFirstOut core.now line culprit) }
{
    for exn in 0..core.exns.len().min(64) {
        let number = exn as u32;
        if may_raise(alloc, core, line, culprit, number)? {
            return Ok(Some(number));
        }
    }
    Ok(None)
}

/// Whether the rule or handler of a box in the line may raise the exception and the box doesn't handle it.
pub fn may_raise(
    alloc: Global,
    core: &Core,
    line: u32,
    culprit: Culprit,
    exn: u32,
) -> Result<bool, AllocError>
    ensures { IfOk result (λ answer. exn < MAX_EXCEPTIONS → answer ≡ lets_out core.now line culprit exn) }
{
    let raised = raises(alloc, core)?;
    for node in core.nodes.as_slice() {
        if node_raises(core, &raised, node, line, culprit, exn) {
            return Ok(true);
        }
    }
    Ok(false)
}

// Whether the node is a box in the line, and its rule or handler does.
fn node_raises(
    core: &Core,
    raised: &Raises,
    node: &NodeC,
    line: u32,
    culprit: Culprit,
    exn: u32,
) -> bool
    requires { IsRaisesOf core.now raised.now }
    ensures { exn < MAX_EXCEPTIONS → result ≡ node_lets_out core.now line culprit exn node.now }
{
    match node {
        NodeC::Rules(b) => b.line == line && raises_it(core, raised, b, culprit, exn),
        NodeC::From(_) => false,
        NodeC::To(_) => false,
    }
}

/// Whether that rule or handler of the box may raise the exception and the box doesn't handle it.
pub(crate) fn raises_it(core: &Core, raised: &Raises, b: &BoxC, culprit: Culprit, exn: u32) -> bool
    requires { IsRaisesOf core.now raised.now }
    ensures { exn < MAX_EXCEPTIONS → result ≡ part_lets_out core.now b.now exn (culprit.number - 1) culprit.sort }
{
    if exn >= 64 {
        return false;
    }
    let place = culprit.number.saturating_sub(1);
    match culprit.sort {
        Sort::Handler => handler_raises(core, raised, b, place, exn),
        _ => rule_raises(core, raised, b, place, exn),
    }
}

fn handler_raises(core: &Core, raised: &Raises, b: &BoxC, place: usize, exn: u32) -> bool
    requires raises { IsRaisesOf core.now raised.now }
    requires known { exn < MAX_EXCEPTIONS }
    ensures { result ≡ handler_lets_out core.now exn (slice_get b.now.handlers place) }
{
    match slices::handler_at(b, place) {
        None => false,
        Some(handler) => result_may_raise(core, raised, &handler.result).has(exn),
    }
}

fn rule_raises(core: &Core, raised: &Raises, b: &BoxC, place: usize, exn: u32) -> bool
    requires raises { IsRaisesOf core.now raised.now }
    requires known { exn < MAX_EXCEPTIONS }
    ensures { result ≡ rule_lets_out core.now b.now.handlers exn (slice_get b.now.rules place) }
{
    match slices::rule_at(b, place) {
        None => false,
        Some(rule) => {
            result_may_raise(core, raised, &rule.result).has(exn)
                && !is_handled(slices::handlers(b), exn)
        }
    }
}
