//! The net of a core as Graphviz text.
//!
//! One statement a line, its attributes in one order: `docs/COMMANDS.md` has the form.
#![tactic(auto, using(look_sources::proofs::Growing::growing))]

ghost use Rattle.look_sources.specs.Pages.{Grows};

use crate::bound::Bound;
use crate::box_bounds::node_bounds;
use crate::slices;
use crate::texts::{put_type, put_value};
use hume_model::{BoxC, Core, NodeC, PortC, StreamC, WireC};
use look_sources::Page;
use std::alloc::{AllocError, Global};

/// Puts the net: the nodes and then the wires, in source order.
pub fn put_net(alloc: Global, core: &Core, page: &mut Page) -> Result<(), AllocError>
    ensures { Grows page.old page.new }
{
    let bounds = node_bounds(alloc, core)?;
    page.put(b"digraph \"net\" {\n  rankdir=\"LR\";\n");
    put_nodes(page, slices::nodes(core), bounds.as_slice());
    put_wires(alloc, core, page);
    page.put(b"}\n");
    Ok(())
}

fn put_nodes(page: &mut Page, nodes: &[NodeC], bounds: &[Bound])
    ensures { Grows page.old page.new }
{
    for i in 0..nodes.len().min(bounds.len()) {
        put_node(page, &nodes[i], bounds[i]);
    }
}

fn put_wires(alloc: Global, core: &Core, page: &mut Page)
    ensures { Grows page.old page.new }
{
    let wires = slices::wires(core);
    for w in 0..wires.len() {
        put_wire(alloc, core, &wires[w], page);
    }
}

fn put_node(page: &mut Page, node: &NodeC, bound: Bound)
    ensures { Grows page.old page.new }
{
    match node {
        NodeC::Rules(b) => put_box(page, b, bound),
        NodeC::From(stream) => put_stream(page, b"from", stream),
        NodeC::To(stream) => put_stream(page, b"to", stream),
    }
}

fn put_box(page: &mut Page, b: &BoxC, bound: Bound)
    ensures { Grows page.old page.new }
{
    put_start(page, b.name.bytes());
    put_attribute(page, b"kind", b"box");
    put_attribute(page, b"order", if b.fair { b"fair" } else { b"match" });
    put_number(page, b"heap", bound.heap);
    put_number(page, b"stack", bound.stack);
    put_number(page, b"work", bound.work);
    put_number(page, b"line", u64::from(b.line));
    put_attribute(page, b"shape", b"box");
    page.put(b"label=\"");
    page.put(b.name.bytes());
    page.put(b"\\nheap ");
    page.number(bound.heap);
    page.put(b" stack ");
    page.number(bound.stack);
    page.put(b"\\nwork ");
    page.number(bound.work);
    page.put(b"\"];\n");
}

fn put_stream(page: &mut Page, kind: &[u8], stream: &StreamC)
    ensures { Grows page.old page.new }
{
    put_start(page, stream.name.bytes());
    put_attribute(page, b"kind", kind);
    put_attribute(page, b"port", stream.port.bytes());
    put_number(page, b"line", u64::from(stream.line));
    put_attribute(page, b"shape", b"ellipse");
    page.put(b"label=\"");
    page.put(stream.name.bytes());
    page.put(b"\\n");
    page.put(kind);
    page.put(b" ");
    put_escaped(page, stream.port.bytes());
    page.put(b"\"];\n");
}

fn put_start(page: &mut Page, name: &[u8])
    ensures { Grows page.old page.new }
{
    page.put(b"  \"");
    page.put(name);
    page.put(b"\" [");
}

fn put_attribute(page: &mut Page, name: &[u8], value: &[u8])
    ensures { Grows page.old page.new }
{
    page.put(name);
    page.put(b"=\"");
    put_escaped(page, value);
    page.put(b"\", ");
}

fn put_number(page: &mut Page, name: &[u8], value: u64)
    ensures { Grows page.old page.new }
{
    page.put(name);
    page.put(b"=\"");
    page.number(value);
    page.put(b"\", ");
}

// Puts the bytes with a backslash before each quote and each backslash.
fn put_escaped(page: &mut Page, bytes: &[u8])
    ensures { Grows page.old page.new }
{
    for byte in bytes {
        let is_escaped = *byte == b'"' || *byte == b'\\';
        page.put(if is_escaped { b"\\".as_slice() } else { b"" });
        page.put(&[*byte]);
    }
}

fn put_wire(alloc: Global, core: &Core, wire: &WireC, page: &mut Page)
    ensures { Grows page.old page.new }
{
    let nodes = slices::nodes(core);
    put_ends(page, nodes, wire);
    let ty = type_of(alloc, core, wire);
    let initial = initial_of(alloc, core, wire);
    put_attribute(page, b"type", ty.bytes());
    put_number(page, b"depth", u64::from(wire.depth));
    put_attribute(page, b"initial", initial.bytes());
    put_number(page, b"line", u64::from(wire.line));
    page.put(b"label=\"");
    put_ports(page, output_name(nodes, wire), input_name(nodes, wire));
    put_wire_label(page, wire, &ty, &initial);
}

fn put_ends(page: &mut Page, nodes: &[NodeC], wire: &WireC)
    ensures { Grows page.old page.new }
{
    page.put(b"  \"");
    page.put(node_name(nodes, wire.from));
    page.put(b"\" -> \"");
    page.put(node_name(nodes, wire.to));
    page.put(b"\" [");
    put_attribute(page, b"from", output_name(nodes, wire));
    put_attribute(page, b"to", input_name(nodes, wire));
}

fn type_of(alloc: Global, core: &Core, wire: &WireC) -> Page {
    let mut ty = Page::make(alloc);
    put_type(&mut ty, &core.types, &wire.ty);
    ty
}

fn initial_of(alloc: Global, core: &Core, wire: &WireC) -> Page {
    let mut initial = Page::make(alloc);
    if let Some(value) = &wire.initial {
        put_value(&mut initial, &core.types, &wire.ty, value);
    }
    initial
}

// Puts the names of output and input; a stream has none.
fn put_ports(page: &mut Page, output: &[u8], input: &[u8])
    ensures { Grows page.old page.new }
{
    let is_between = !output.is_empty() && !input.is_empty();
    page.put(output);
    page.put(if is_between { b" to ".as_slice() } else { b"" });
    page.put(input);
    page.put(b"\\n");
}

fn put_wire_label(page: &mut Page, wire: &WireC, ty: &Page, initial: &Page)
    ensures { Grows page.old page.new }
{
    put_escaped(page, ty.bytes());
    put_depth(page, wire.depth);
    put_initial(page, initial);
    page.put(b"\"];\n");
    fail_with(page, ty);
    fail_with(page, initial);
}

// Where memory ran out for the other page, it did for this one.
fn fail_with(page: &mut Page, other: &Page)
    ensures { Grows page.old page.new }
{
    if other.has_failed() {
        page.fail();
    }
}

fn put_depth(page: &mut Page, depth: u32)
    ensures { Grows page.old page.new }
{
    if depth > 1 {
        page.put(b" @ ");
        page.number(u64::from(depth));
    }
}

fn put_initial(page: &mut Page, initial: &Page)
    ensures { Grows page.old page.new }
{
    if !initial.is_empty() {
        page.put(b"\\ninitial ");
        put_escaped(page, initial.bytes());
    }
}

/// The name of a node.
pub(crate) fn node_name(nodes: &[NodeC], node: u32) -> &[u8] {
    let node = node as usize;
    if node >= nodes.len() {
        return b"";
    }
    match &nodes[node] {
        NodeC::Rules(b) => b.name.bytes(),
        NodeC::From(stream) | NodeC::To(stream) => stream.name.bytes(),
    }
}

/// The name of the output from which a wire comes; nothing for a stream.
pub(crate) fn output_name<'a>(nodes: &'a [NodeC], wire: &WireC) -> &'a [u8] {
    let node = wire.from as usize;
    if node >= nodes.len() {
        return b"";
    }
    match &nodes[node] {
        NodeC::Rules(b) => port_name(b.outs.as_slice(), wire.from_port),
        _ => b"",
    }
}

/// The name of the input to which a wire leads; nothing for a stream.
pub(crate) fn input_name<'a>(nodes: &'a [NodeC], wire: &WireC) -> &'a [u8] {
    let node = wire.to as usize;
    if node >= nodes.len() {
        return b"";
    }
    match &nodes[node] {
        NodeC::Rules(b) => port_name(b.ins.as_slice(), wire.to_port),
        _ => b"",
    }
}

pub(crate) fn port_name(ports: &[PortC], place: u32) -> &[u8] {
    let place = place as usize;
    if place < ports.len() {
        ports[place].name.bytes()
    } else {
        b""
    }
}
