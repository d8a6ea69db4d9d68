//! What breaks the rules on wires, exceptions and bounds, told from the core.
#![tactic(auto, using(look_sources::proofs::Growing::growing))]

ghost use Rattle.hume_exceptions.specs.Sets.{IsRaisesOf};
ghost use Rattle.look_sources.specs.Pages.{Grows};
ghost use Rattle.std.specs.Prelude.{◌≡◌};
ghost use Rattle.hume_model.specs.HandlerRules.{has_handler};

use crate::bound::Bound;
use crate::box_bounds::node_bounds;
use crate::found::{box_at, type_at};
use crate::slices;
use crate::texts::put_type;
use hume_base::limits::{MAX_HEAP_WORDS, MAX_SPACE_WORDS, MAX_STACK_WORDS, MAX_WORK};
use hume_base::{Refusal, Rule, Ty};
use hume_exceptions::{ExnSet, Raises, raises, result_may_raise};
use hume_model::{BoxC, Core, HandC, NodeC, PortC, WireC};
use look_sources::{Page, Sort};
use std::alloc::{AllocError, Global};

/// The part of the declaration that is told: its sort, and its number among its like, or 0.
#[derive(Clone, Copy, Debug)]
pub struct Culprit {
    pub sort: Sort,
    pub number: usize,
}

fn part(sort: Sort, place: usize) -> Option<Culprit> {
    Some(Culprit {
        sort,
        number: place.saturating_add(1),
    })
}

/// Tells of the core what breaks the rule in the line, and which part of the declaration does.
pub fn tell_of_core(
    alloc: Global,
    core: &Core,
    refusal: Refusal,
    note: &mut Page,
) -> Result<Option<Culprit>, AllocError>
    ensures { Grows note.old note.new }
{
    match refusal.rule.phase() {
        8 => Ok(tell_wires(core, refusal, note)),
        9 => tell_exceptions(alloc, core, refusal, note),
        10 => {
            tell_bounds(alloc, core, refusal, note)?;
            Ok(None)
        }
        _ => Ok(None),
    }
}

fn tell_wires(core: &Core, refusal: Refusal, note: &mut Page) -> Option<Culprit>
    ensures { Grows note.old note.new }
{
    match refusal.rule {
        Rule::C50 | Rule::C52 => tell_nodes(core, refusal, note),
        _ => tell_each_wire(core, refusal, note),
    }
}

fn tell_nodes(core: &Core, refusal: Refusal, note: &mut Page) -> Option<Culprit>
    ensures { Grows note.old note.new }
{
    let nodes = slices::nodes(core);
    let mut first = None;
    for n in 0..nodes.len() {
        first = first.or(tell_node(core, &nodes[n], n, refusal, note));
    }
    first
}

// Tells of the node, if it is the one in the line.
fn tell_node(
    core: &Core,
    node: &NodeC,
    number: usize,
    refusal: Refusal,
    note: &mut Page,
) -> Option<Culprit>
    ensures { Grows note.old note.new }
{
    if node.line() == refusal.line {
        tell_unwired(core, node, number, refusal.rule, note)
    } else {
        None
    }
}

fn tell_each_wire(core: &Core, refusal: Refusal, note: &mut Page) -> Option<Culprit>
    ensures { Grows note.old note.new }
{
    let wires = slices::wires(core);
    for w in 0..wires.len() {
        tell_wire(core, &wires[w], w, refusal, note);
    }
    let sort = match refusal.rule {
        Rule::C53 => Sort::WireFrom,
        _ => Sort::WireTo,
    };
    Some(Culprit { sort, number: 0 })
}

/// Tells each input or output of the node without a wire.
pub(crate) fn tell_unwired(
    core: &Core,
    this: &NodeC,
    node: usize,
    rule: Rule,
    note: &mut Page,
) -> Option<Culprit>
    ensures { Grows note.old note.new }
{
    match (this, rule) {
        (NodeC::Rules(b), Rule::C50) => {
            let what = b"no wire leads to input `".as_slice();
            let first = tell_ports(core, b.ins.as_slice(), node, rule, what, note)?;
            part(Sort::Input, first)
        }
        (NodeC::Rules(b), _) => {
            let what = b"no wire starts from output `".as_slice();
            let first = tell_ports(core, b.outs.as_slice(), node, rule, what, note)?;
            part(Sort::Output, first)
        }
        _ => None,
    }
}

// Tells each of the ports without a wire, and which is the first.
fn tell_ports(
    core: &Core,
    ports: &[PortC],
    node: usize,
    rule: Rule,
    what: &[u8],
    note: &mut Page,
) -> Option<usize>
    ensures { Grows note.old note.new }
{
    let mut first = None;
    for i in 0..ports.len() {
        let is_told = !has_wire(core, node, i, rule);
        put_unwired(note, is_told, what, ports[i].name.bytes());
        if is_told && first.is_none() {
            first = Some(i);
        }
    }
    first
}

fn put_unwired(note: &mut Page, is_told: bool, what: &[u8], name: &[u8])
    ensures { Grows note.old note.new }
{
    if is_told {
        note.put(b"  ");
        note.put(what);
        note.put(name);
        note.put(b"`\n");
    }
}

/// Whether a wire has that end.
pub(crate) fn has_wire(core: &Core, node: usize, place: usize, rule: Rule) -> bool {
    let wires = slices::wires(core);
    for w in 0..wires.len() {
        let (end, port) = end_of(&wires[w], rule);
        if end as usize == node && port as usize == place {
            return true;
        }
    }
    false
}

/// The end of a wire of which the rule speaks.
pub(crate) fn end_of(wire: &WireC, rule: Rule) -> (u32, u32) {
    match rule {
        Rule::C50 | Rule::C51 => (wire.to, wire.to_port),
        _ => (wire.from, wire.from_port),
    }
}

// Tells of the wire, if it is the one in the line.
fn tell_wire(core: &Core, wire: &WireC, number: usize, refusal: Refusal, note: &mut Page)
    ensures { Grows note.old note.new }
{
    if wire.line == refusal.line {
        if refusal.rule == Rule::C54 {
            tell_types(core, wire, note);
        } else {
            tell_earlier(core, wire, number, refusal.rule, note);
        }
    }
}

fn tell_earlier(core: &Core, wire: &WireC, number: usize, rule: Rule, note: &mut Page)
    ensures { Grows note.old note.new }
{
    let wires = slices::wires(core);
    for earlier in 0..number.min(wires.len()) {
        if end_of(&wires[earlier], rule) == end_of(wire, rule) {
            put_earlier(note, wires[earlier].line);
            return;
        }
    }
}

fn put_earlier(note: &mut Page, line: u32)
    ensures { Grows note.old note.new }
{
    note.put(b"  the earlier wire there is in line ");
    note.number(u64::from(line));
    note.put(b"\n");
}

// Tells the types at both ends.
fn tell_types(core: &Core, wire: &WireC, note: &mut Page)
    ensures { Grows note.old note.new }
{
    match (box_at(core, wire.from), box_at(core, wire.to)) {
        (Some(first), Some(second)) => tell_types_of(core, first, second, wire, note),
        _ => note.put(b"  both ends are streams\n"),
    }
}

fn tell_types_of(core: &Core, first: &BoxC, second: &BoxC, wire: &WireC, note: &mut Page)
    ensures { Grows note.old note.new }
{
    let output = type_at(first.outs.as_slice(), wire.from_port);
    let input = type_at(second.ins.as_slice(), wire.to_port);
    if let (Some(output), Some(input)) = (output, input) {
        put_types(core, output, input, note);
    }
}

fn put_types(core: &Core, output: &Ty, input: &Ty, note: &mut Page)
    ensures { Grows note.old note.new }
{
    note.put(b"  it comes from `");
    put_type(note, &core.types, output);
    note.put(b"` and leads to `");
    put_type(note, &core.types, input);
    note.put(b"`\n");
}

fn tell_exceptions(
    alloc: Global,
    core: &Core,
    refusal: Refusal,
    note: &mut Page,
) -> Result<Option<Culprit>, AllocError>
    ensures { Grows note.old note.new }
{
    let raised = raises(alloc, core)?;
    Ok(tell_all_raising(core, &raised, refusal, note))
}

fn tell_all_raising(
    core: &Core,
    raised: &Raises,
    refusal: Refusal,
    note: &mut Page,
) -> Option<Culprit>
    requires { IsRaisesOf core.now raised.now }
    ensures { Grows note.old note.new }
{
    let nodes = slices::nodes(core);
    for n in 0..nodes.len() {
        let first = tell_raising(core, raised, &nodes[n], refusal, note);
        if first.is_some() {
            return first;
        }
    }
    None
}

// Tells of the node, if it is the box in the line.
fn tell_raising(
    core: &Core,
    raised: &Raises,
    node: &NodeC,
    refusal: Refusal,
    note: &mut Page,
) -> Option<Culprit>
    requires { IsRaisesOf core.now raised.now }
    ensures { Grows note.old note.new }
{
    match node {
        NodeC::Rules(b) if b.line == refusal.line => tell_box(core, raised, b, refusal.rule, note),
        _ => None,
    }
}

/// Tells what rules or handlers of the box raise, and which is the first that does.
pub(crate) fn tell_box(
    core: &Core,
    raised: &Raises,
    b: &BoxC,
    rule: Rule,
    note: &mut Page,
) -> Option<Culprit>
    requires { IsRaisesOf core.now raised.now }
    ensures { Grows note.old note.new }
{
    if rule == Rule::C60 {
        part(Sort::Rule, tell_rules(core, raised, b, note)?)
    } else {
        part(Sort::Handler, tell_handlers(core, raised, b, note)?)
    }
}

// Tells what rules raise that the box doesn't handle, and which is the first that does.
fn tell_rules(core: &Core, raised: &Raises, b: &BoxC, note: &mut Page) -> Option<usize>
    requires { IsRaisesOf core.now raised.now }
    ensures { Grows note.old note.new }
{
    let rules = slices::rules(b);
    let handlers = slices::handlers(b);
    let mut first = None;
    for i in 0..rules.len() {
        let set = result_may_raise(core, raised, &rules[i].result);
        if tell_set(core, set, handlers, b"rule ", i, note) && first.is_none() {
            first = Some(i);
        }
    }
    first
}

// Tells what handlers raise, and which is the first that does.
fn tell_handlers(core: &Core, raised: &Raises, b: &BoxC, note: &mut Page) -> Option<usize>
    requires { IsRaisesOf core.now raised.now }
    ensures { Grows note.old note.new }
{
    let handlers = slices::handlers(b);
    let mut first = None;
    for i in 0..handlers.len() {
        let set = result_may_raise(core, raised, &handlers[i].result);
        if tell_set(core, set, &[], b"handler ", i, note) && first.is_none() {
            first = Some(i);
        }
    }
    first
}

// Tells each exception of the set without a handler, and whether there is one.
fn tell_set(
    core: &Core,
    set: ExnSet,
    handlers: &[HandC],
    what: &[u8],
    number: usize,
    note: &mut Page,
) -> bool
    ensures { Grows note.old note.new }
{
    let mut some = false;
    for exn in 0..core.exns.len().min(64) {
        let is_told = set.has(exn as u32) && !is_handled(handlers, exn as u32);
        put_raised(note, is_told, what, number, core.exns[exn].name.bytes());
        some = some || is_told;
    }
    some
}

fn put_raised(note: &mut Page, is_told: bool, what: &[u8], number: usize, name: &[u8])
    ensures { Grows note.old note.new }
{
    if is_told {
        note.put(b"  ");
        note.put(what);
        note.number((number as u64).saturating_add(1));
        note.put(b" may raise `");
        note.put(name);
        note.put(b"`\n");
    }
}

/// Whether one of the handlers is for the exception.
pub(crate) fn is_handled(handlers: &[HandC], exn: u32) -> bool
    ensures { result ≡ has_handler handlers.now exn }
{
    for handler in handlers {
        if handler.exn == exn {
            return true;
        }
    }
    false
}

fn tell_bounds(
    alloc: Global,
    core: &Core,
    refusal: Refusal,
    note: &mut Page,
) -> Result<(), AllocError>
    ensures { Grows note.old note.new }
{
    let bounds = node_bounds(alloc, core)?;
    tell_bounds_of(core, bounds.as_slice(), refusal, note);
    Ok(())
}

fn tell_bounds_of(core: &Core, bounds: &[Bound], refusal: Refusal, note: &mut Page)
    ensures { Grows note.old note.new }
{
    let nodes = slices::nodes(core);
    let mut through: u64 = 0;
    for n in 0..nodes.len().min(bounds.len()) {
        let bound = bounds[n];
        through = through
            .saturating_add(bound.heap)
            .saturating_add(bound.stack);
        let is_told = nodes[n].line() == refusal.line;
        tell_bound(bound, through, refusal.rule, is_told, note);
    }
}

fn tell_bound(bound: Bound, through: u64, rule: Rule, is_told: bool, note: &mut Page)
    ensures { Grows note.old note.new }
{
    let (figure, limit) = match rule {
        Rule::C75 => (bound.heap, MAX_HEAP_WORDS),
        Rule::C76 => (bound.stack, MAX_STACK_WORDS),
        Rule::C78 => (through, MAX_SPACE_WORDS),
        _ => (bound.work, MAX_WORK),
    };
    if is_told && figure > u64::from(limit) {
        note.put(b"  it is ");
        note.number(figure);
        note.put(b", and the limit ");
        note.number(u64::from(limit));
        note.put(b"; `bounds` tells how it comes about\n");
    }
}
