//! Boxes that can never fire, since each of their rules waits for a value that never comes.
ghost use Rattle.look_sources.specs.Pages.{Grows};

use crate::hints::parts::Parts;
use crate::slices;
use hume_base::limits::MAX_INPUTS;
use hume_model::{BoxC, Core, InPat, NodeC, RuleC, WireC};
use look_sources::Page;
use std::alloc::{AllocError, Global};

/// Puts a hint on each box that can never fire.
#[tactic(auto, using(look_sources::proofs::Growing::growing))]
pub(crate) fn put_waiting(
    alloc: Global,
    parts: &Parts,
    core: &Core,
    page: &mut Page,
) -> Result<(), AllocError>
    ensures { Grows page.old page.new }
{
    let nodes = slices::nodes(core);
    let mut fed = falses(alloc, nodes.len().saturating_mul(MAX_INPUTS))?;
    let mut alive = falses(alloc, nodes.len())?;
    feed_all(core, alive.as_mut_slice(), fed.as_mut_slice());
    put_all_dead(parts, nodes, alive.as_slice(), fed.as_slice(), page);
    Ok(())
}

// Marks the inputs to which a value may come, and the nodes that may fire.
fn feed_all(core: &Core, alive: &mut [bool], fed: &mut [bool]) {
    for _ in 0..slices::nodes(core).len() {
        feed(core, alive, fed);
        revive(core, fed, alive);
    }
    feed(core, alive, fed);
}

#[tactic(auto, using(look_sources::proofs::Growing::growing))]
fn put_all_dead(parts: &Parts, nodes: &[NodeC], alive: &[bool], fed: &[bool], page: &mut Page)
    ensures { Grows page.old page.new }
{
    for n in 0..nodes.len() {
        let NodeC::Rules(b) = &nodes[n] else {
            continue;
        };
        if is(alive, n) {
            continue;
        }
        put_dead(parts, fed, n, b, page);
    }
}

fn falses(alloc: Global, count: usize) -> Result<Vec<bool>, AllocError> {
    let mut all = Vec::new(alloc);
    for _ in 0..count {
        all.push(false)?;
    }
    Ok(all)
}

fn is(all: &[bool], at: usize) -> bool {
    match all.get(at) {
        None => false,
        Some(holds) => *holds,
    }
}

fn set(all: &mut [bool], at: usize) {
    if at < all.len() {
        all[at] = true;
    }
}

// The place of an input among all.
fn place(node: usize, input: usize) -> usize {
    node.saturating_mul(MAX_INPUTS).saturating_add(input)
}

// Marks the inputs to which a value may come.
fn feed(core: &Core, alive: &[bool], fed: &mut [bool]) {
    let wires = slices::wires(core);
    for w in 0..wires.len() {
        feed_by(&wires[w], alive, fed);
    }
}

fn feed_by(wire: &WireC, alive: &[bool], fed: &mut [bool]) {
    if wire.initial.is_some() || is(alive, wire.from as usize) {
        set(fed, place(wire.to as usize, wire.to_port as usize));
    }
}

// Marks the nodes that may fire.
fn revive(core: &Core, fed: &[bool], alive: &mut [bool]) {
    let nodes = slices::nodes(core);
    for n in 0..nodes.len() {
        if may_fire(&nodes[n], fed, n) {
            set(alive, n);
        }
    }
}

fn may_fire(node: &NodeC, fed: &[bool], n: usize) -> bool {
    match node {
        NodeC::Rules(b) => may_rule_fire(slices::rules(b), fed, n),
        _ => true,
    }
}

fn may_rule_fire(rules: &[RuleC], fed: &[bool], n: usize) -> bool {
    for i in 0..rules.len() {
        if unfed(&rules[i], fed, n).is_none() {
            return true;
        }
    }
    false
}

// The first input for which the rule waits in vain.
fn unfed(rule: &RuleC, fed: &[bool], n: usize) -> Option<usize> {
    let patterns = rule.pats.as_slice();
    for i in 0..patterns.len() {
        if needs(&patterns[i]) && !is(fed, place(n, i)) {
            return Some(i);
        }
    }
    None
}

/// Whether the rule waits for a value there.
pub(super) fn needs(pattern: &InPat) -> bool {
    match pattern {
        InPat::Star | InPat::AnyStar => false,
        InPat::Any | InPat::Built(_) => true,
    }
}

#[tactic(auto, using(look_sources::proofs::Growing::growing))]
fn put_dead(parts: &Parts, fed: &[bool], n: usize, b: &BoxC, page: &mut Page)
    ensures { Grows page.old page.new }
{
    if let (Some(node), Some(name)) = (parts.node(b.name.bytes()), first_unfed(b, fed, n)) {
        parts.put_hint(
            node.first,
            b"the box can never fire: nothing ever comes to its input `",
            name,
            b"`, whose wire has no initial value",
            page,
        );
    }
}

// The name of the first input for which a rule waits in vain.
fn first_unfed<'a>(b: &'a BoxC, fed: &[bool], n: usize) -> Option<&'a [u8]> {
    let rules = slices::rules(b);
    for i in 0..rules.len() {
        if let Some(input) = unfed(&rules[i], fed, n) {
            if let Some(port) = b.ins.get(input) {
                return Some(port.name.bytes());
            }
        }
    }
    None
}
