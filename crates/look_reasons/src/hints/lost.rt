//! Rules that lose the state of their box, so that it never fires again.
#![tactic(auto, using(look_sources::proofs::Growing::growing))]

ghost use Rattle.look_sources.specs.Pages.{Grows};

use crate::hints::outputs::ends_with;
use crate::hints::parts::Parts;
use crate::hints::waiting::needs;
use crate::slices;
use hume_model::{BoxC, Core, NodeC, Res, RuleC, WireC};
use look_sources::{Page, Sort};

/// Puts a warning on each rule and handler that puts nothing on an output of the box that alone feeds an input of it which every rule
/// needs: on the wire there is one value at most.
pub(crate) fn put_lost(parts: &Parts, core: &Core, page: &mut Page)
    ensures { Grows page.old page.new }
{
    let nodes = slices::nodes(core);
    for n in 0..nodes.len() {
        let NodeC::Rules(b) = &nodes[n] else {
            continue;
        };
        put_lost_of(parts, core, n, b, page);
    }
}

fn put_lost_of(parts: &Parts, core: &Core, node: usize, b: &BoxC, page: &mut Page)
    ensures { Grows page.old page.new }
{
    let wires = slices::wires(core);
    for w in 0..wires.len() {
        if !keeps_state(&wires[w], node) || !all_need(b, wires[w].to_port as usize) {
            continue;
        }
        put_of_rules(parts, b, &wires[w], page);
        put_of_handlers(parts, b, &wires[w], page);
    }
}

// Whether the wire leads from the node to itself, and holds a value from the begin.
fn keeps_state(wire: &WireC, node: usize) -> bool {
    wire.initial.is_some() && wire.from as usize == node && wire.to as usize == node
}

fn all_need(b: &BoxC, input: usize) -> bool {
    let rules = slices::rules(b);
    for i in 0..rules.len() {
        if !does_need(&rules[i], input) {
            return false;
        }
    }
    true
}

fn does_need(rule: &RuleC, input: usize) -> bool {
    match rule.pats.get(input) {
        None => false,
        Some(pattern) => needs(pattern),
    }
}

fn put_of_rules(parts: &Parts, b: &BoxC, wire: &WireC, page: &mut Page)
    ensures { Grows page.old page.new }
{
    let rules = slices::rules(b);
    for i in 0..rules.len() {
        if !loses(&rules[i].result, wire) {
            continue;
        }
        put_of_part(parts, b, Sort::Rule, i, wire, page);
    }
}

fn put_of_handlers(parts: &Parts, b: &BoxC, wire: &WireC, page: &mut Page)
    ensures { Grows page.old page.new }
{
    let handlers = slices::handlers(b);
    for i in 0..handlers.len() {
        if !loses(&handlers[i].result, wire) {
            continue;
        }
        put_of_part(parts, b, Sort::Handler, i, wire, page);
    }
}

// Whether each way through the result that raises nothing puts nothing on the wire.
fn loses(res: &Res, wire: &WireC) -> bool {
    let output = wire.from_port as usize;
    ends_with(res, output, false) && !ends_with(res, output, true)
}

fn put_of_part(parts: &Parts, b: &BoxC, sort: Sort, place: usize, wire: &WireC, page: &mut Page)
    ensures { Grows page.old page.new }
{
    let (Some(node), Some(output)) = (
        parts.node(b.name.bytes()),
        b.outs.get(wire.from_port as usize),
    ) else {
        return;
    };
    let number = place.saturating_add(1);
    for span in parts.spans {
        if span.sort != sort || span.declaration != node.declaration || span.number != number {
            continue;
        }
        parts.put_hint(
            span.first,
            b"after this the box never fires again: nothing is put on the output `",
            output.name.bytes(),
            b"`, which alone feeds an input that every rule needs",
            page,
        );
    }
}
