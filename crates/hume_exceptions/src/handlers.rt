//! The check of a core's handlers.
ghost use Rattle.std.specs.Prelude.{◌≡◌, ◌↔◌, ◌≤◌, IsTrue, IfErr, OnOk, None, Some, if◌then◌else◌};
ghost use Rattle.hume_base.specs.declared.rule.Rule.TheVariants.{C60, C61};
ghost use Rattle.hume_base.specs.declared.limits.TheConstants.{MAX_EXCEPTIONS};
ghost use Rattle.hume_base.specs.Least.{IsLeast, OfRule, earlier_of, finding_of};
ghost use Rattle.hume_model.specs.Declarations.{IsRefusal};
ghost use Rattle.hume_model.specs.HandlerRules.{BreaksHandlers, LeavesUnhandled, RaisesAgain, OfBox, has_handler};
ghost use Rattle.hume_model.specs.WellFormed.{HasSoundFrame};
ghost use Rattle.hume_exceptions.specs.Sets.{IsSetOf, IsRaisesOf};
ghost use Rattle.hume_exceptions.specs.inner.Boxes.{IsBeyond, IsBoxWith};

use crate::exn_set::ExnSet;
use crate::function_sets::Raises;
use crate::results::result_may_raise;
use hume_base::{Finding, Refusal, Rule, earlier};
use hume_model::{BoxC, Core, HandC, NodeC, declared_line};

/// Refuses the core by the least rule on handlers that one of its boxes breaks.
pub fn check_handlers(core: &Core, raises: &Raises) -> Result<(), Refusal>
    requires frame { HasSoundFrame core.now }
    requires raises { IsRaisesOf core.now raises.now }
    ensures fine { OnOk result (IsLeast (BreaksHandlers core.now) None) }
    ensures refused { IfErr result (IsRefusal core.now (BreaksHandlers core.now)) }
{
    match least_broken(core, raises) {
        None => Ok(()),
        Some(finding) => Err(refusal(core, finding)),
    }
}

fn refusal(core: &Core, finding: Finding) -> Refusal
    requires { IsLeast (BreaksHandlers core.now) (Some finding) }
    ensures { IsRefusal core.now (BreaksHandlers core.now) result }
{
    Refusal {
        rule: finding.rule,
        line: declared_line(core, finding.declaration),
    }
}

fn least_broken(core: &Core, raises: &Raises) -> Option<Finding>
    requires frame { HasSoundFrame core.now }
    requires raises { IsRaisesOf core.now raises.now }
    ensures { IsLeast (BreaksHandlers core.now) result }
{
    earlier(
        least_unhandled(core, raises),
        least_raised_again(core, raises),
    )
}

fn least_unhandled(core: &Core, raises: &Raises) -> Option<Finding>
    requires frame { HasSoundFrame core.now }
    requires raises { IsRaisesOf core.now raises.now }
    ensures { IsLeast (OfRule C60 (OfBox core.now LeavesUnhandled)) result }
{
    let nodes = core.nodes.as_slice();
    let mut least = None;
    for n in 0..nodes.len() {
        let node = &nodes[n];
        let broken = node_leaves_unhandled(core, raises, node);
        least = with_found(least, broken, Rule::C60, node.declaration());
    }
    least
}

fn least_raised_again(core: &Core, raises: &Raises) -> Option<Finding>
    requires frame { HasSoundFrame core.now }
    requires raises { IsRaisesOf core.now raises.now }
    ensures { IsLeast (OfRule C61 (OfBox core.now RaisesAgain)) result }
{
    let nodes = core.nodes.as_slice();
    let mut least = None;
    for n in 0..nodes.len() {
        let node = &nodes[n];
        let broken = node_raises_again(core, raises, node);
        least = with_found(least, broken, Rule::C61, node.declaration());
    }
    least
}

/// The earlier of the least finding and that of the rule at the declaration, if the rule is broken there.
fn with_found(least: Option<Finding>, broken: bool, rule: Rule, declaration: u32) -> Option<Finding>
    ensures { result ≡ (if broken then earlier_of least (finding_of rule (Some declaration)) else least) }
{
    if broken {
        earlier(least, Some(Finding { rule, declaration }))
    } else {
        least
    }
}

fn node_leaves_unhandled(core: &Core, raises: &Raises, node: &NodeC) -> bool
    requires frame { HasSoundFrame core.now }
    requires raises { IsRaisesOf core.now raises.now }
    ensures { IsTrue result ↔ IsBoxWith core.now LeavesUnhandled node.now }
{
    match node {
        NodeC::Rules(b) => leaves_unhandled(core, raises, b),
        _ => false,
    }
}

fn node_raises_again(core: &Core, raises: &Raises, node: &NodeC) -> bool
    requires frame { HasSoundFrame core.now }
    requires raises { IsRaisesOf core.now raises.now }
    ensures { IsTrue result ↔ IsBoxWith core.now RaisesAgain node.now }
{
    match node {
        NodeC::Rules(b) => raises_again(core, raises, b),
        _ => false,
    }
}

fn leaves_unhandled(core: &Core, raises: &Raises, b: &BoxC) -> bool
    requires frame { HasSoundFrame core.now }
    requires raises { IsRaisesOf core.now raises.now }
    ensures { IsTrue result ↔ LeavesUnhandled core.now b.now }
{
    let handled = handled_set(b.handlers.as_slice());
    let rules = b.rules.as_slice();
    for number in 0..rules.len() {
        let set = result_may_raise(core, raises, &rules[number].result);
        if is_beyond(core.exns.len(), set, handled) {
            return true;
        }
    }
    false
}

fn raises_again(core: &Core, raises: &Raises, b: &BoxC) -> bool
    requires frame { HasSoundFrame core.now }
    requires raises { IsRaisesOf core.now raises.now }
    ensures { IsTrue result ↔ RaisesAgain core.now b.now }
{
    let handlers = b.handlers.as_slice();
    for number in 0..handlers.len() {
        let set = result_may_raise(core, raises, &handlers[number].result);
        if is_beyond(core.exns.len(), set, ExnSet::empty()) {
            return true;
        }
    }
    false
}

fn handled_set(handlers: &[HandC]) -> ExnSet
    ensures { IsSetOf result (λ exn. has_handler handlers.now exn) }
{
    let mut set = ExnSet::empty();
    for handler in handlers {
        set = set.or(ExnSet::only_if(handler.exn, true));
    }
    set
}

/// Whether one of the first so many exceptions is in the set, and not allowed.
fn is_beyond(count: usize, set: ExnSet, allowed: ExnSet) -> bool
    requires { count ≤ MAX_EXCEPTIONS }
    ensures { IsTrue result ↔ IsBeyond count set allowed }
{
    for exn in 0..count {
        if set.has(exn as u32) && !allowed.has(exn as u32) {
            return true;
        }
    }
    false
}
