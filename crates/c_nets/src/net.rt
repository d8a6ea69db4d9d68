//! The wires of a net, as the objects at their inputs.
ghost use Rattle.std.specs.Prelude.{◌≡◌, IfOk, option_copied};
ghost use Rattle.c_forms.specs.Gives.{Gives};
ghost use Rattle.c_nets.specs.Nets.{box_inlet, box_object, input_at, input_of, leads_to, starts_at, stream_inlet, stream_object, target, target_of, wire_from, wire_to};

use crate::inlets::Inlet;
use c_forms::{member_named, named};
use c_names::{Names, input};
use c_tree::CExp;
use hume_base::{Box, List};
use hume_model::{BoxC, Core, NodeC, PortC, StreamC, WireC};
use std::alloc::{AllocError, Global};

fn leads_to(node: usize, port: usize, wire: &WireC) -> bool
    ensures { result ≡ leads_to node port wire.now }
{
    wire.to as usize == node && wire.to_port as usize == port
}

fn starts_at(node: usize, port: usize, wire: &WireC) -> bool
    ensures { result ≡ starts_at node port wire.now }
{
    wire.from as usize == node && wire.from_port as usize == port
}

/// The wire that leads to an input of a node.
pub fn inlet_of<'a>(core: &'a Core, node: usize, port: usize) -> Option<&'a WireC>
    ensures { option_copied result ≡ wire_to core.now node port }
{
    let wires = core.wires.as_slice();
    for wire in wires {
        if leads_to(node, port, wire) {
            return Some(wire);
        }
    }
    None
}

/// The wire that starts at an output of a node.
pub fn outlet<'a>(core: &'a Core, node: usize, port: usize) -> Option<&'a WireC>
    ensures { option_copied result ≡ wire_from core.now node port }
{
    let wires = core.wires.as_slice();
    for wire in wires {
        if starts_at(node, port, wire) {
            return Some(wire);
        }
    }
    None
}

/// The object of a box.
pub fn box_object(alloc: Global, names: &Names, b: &BoxC) -> Option<Box<CExp>>
    ensures { Gives result (box_object names.now b.now) }
{
    named(alloc, names.box_object(alloc, b.name.bytes()).ok())
}

/// The input of a box that a wire leads to.
pub fn box_inlet(
    alloc: Global,
    names: &Names,
    b: &BoxC,
    port: usize,
    wire: &WireC,
) -> Result<Inlet, AllocError>
    ensures { IfOk result (λ inlet. inlet ≡ box_inlet names.now b.now port wire.now) }
{
    let whole = box_object(alloc, names, b);
    Ok(Inlet {
        object: input_of(alloc, whole, b.ins.get(port)).ok_or(AllocError)?,
        depth: wire.depth,
    })
}

fn input_of(alloc: Global, whole: Option<Box<CExp>>, port: Option<&PortC>) -> Option<Box<CExp>>
    ensures { (w : CExp) → Gives whole w → Gives result (input_of w (option_copied port.entry)) }
{
    match port {
        Some(port) => member_named(alloc, whole, input(alloc, port.name.bytes()).ok()),
        None => whole,
    }
}

/// The input of an output stream that a wire leads to.
pub fn stream_inlet(
    alloc: Global,
    names: &Names,
    stream: &StreamC,
    wire: &WireC,
) -> Result<Inlet, AllocError>
    ensures { IfOk result (λ inlet. inlet ≡ stream_inlet names.now stream.now wire.now) }
{
    Ok(Inlet {
        object: stream_object(alloc, names, stream).ok_or(AllocError)?,
        depth: wire.depth,
    })
}

// The object of an output stream.
fn stream_object(alloc: Global, names: &Names, stream: &StreamC) -> Option<Box<CExp>>
    ensures { Gives result (stream_object names.now stream.now) }
{
    named(alloc, names.stream_object(alloc, stream.name.bytes()).ok())
}

// The input that a wire leads to.
fn target(
    alloc: Global,
    core: &Core,
    names: &Names,
    wire: &WireC,
) -> Result<Option<Inlet>, AllocError>
    ensures { IfOk result (λ inlet. inlet ≡ target core.now names.now wire.now) }
{
    match core.nodes.get(wire.to as usize) {
        Some(NodeC::Rules(b)) => {
            let inlet = box_inlet(alloc, names, b, wire.to_port as usize, wire)?;
            Ok(Some(inlet))
        }
        Some(NodeC::To(stream)) => Ok(Some(stream_inlet(alloc, names, stream, wire)?)),
        _ => Ok(None),
    }
}

/// The input to which the wire at an output of a node leads.
pub fn target_of(
    alloc: Global,
    core: &Core,
    names: &Names,
    node: usize,
    port: usize,
) -> Result<Option<Inlet>, AllocError>
    ensures { IfOk result (λ inlet. inlet ≡ target_of core.now names.now node port) }
{
    match outlet(core, node, port) {
        None => Ok(None),
        Some(wire) => target(alloc, core, names, wire),
    }
}

/// The input of a box at a place, if a wire leads to it.
pub fn input_at(
    alloc: Global,
    core: &Core,
    names: &Names,
    node: usize,
    b: &BoxC,
    place: usize,
) -> Result<Option<Inlet>, AllocError>
    ensures { IfOk result (λ inlet. inlet ≡ input_at core.now names.now node b.now place) }
{
    match inlet_of(core, node, place) {
        None => Ok(None),
        Some(wire) => Ok(Some(box_inlet(alloc, names, b, place, wire)?)),
    }
}
