//! The objects of boxes and streams, and the start of the net.
ghost use Rattle.std.specs.Prelude.{◌≡◌, option_copied};
ghost use Rattle.c_forms.specs.Gives.{Gives};
ghost use Rattle.c_types.specs.Gathered.{gathered};
ghost use Rattle.c_calls.specs.Streams.{box_items, box_objects, init_function, node_items, node_start};
ghost use Rattle.c_calls.specs.Streams.{nodes_start, object_items, stream_items, stream_objects, stream_start};

use crate::hooks::call_function;
use c_forms::{append, appended, of_one, struct_object};
use c_nets::{box_item, box_start, inlet_members, inlet_of, start, stream_inlet};
use c_tree::{CItem, CStm};
use c_types::CTypes;
use hume_base::{Box, List};
use hume_model::{Core, NodeC, StreamC, WireC};
use std::alloc::Global;

/// The objects of the boxes, and of the output streams.
pub fn object_items(alloc: Global, core: &Core, types: &CTypes) -> Option<List<CItem>>
    ensures { Gives result (object_items (gathered types.now) core.now) }
{
    let nodes = core.nodes.as_slice();
    let boxes = box_objects(alloc, core, types, nodes);
    appended(boxes, stream_objects(alloc, core, types, nodes))
}

// The objects of the boxes among nodes.
#[tactic(auto, using(crate::proofs::ListSteps::list_steps))]
fn box_objects(alloc: Global, core: &Core, types: &CTypes, nodes: &[NodeC]) -> Option<List<CItem>>
    ensures { Gives result (box_objects (gathered types.now) core.now 0 nodes.now) }
{
    let mut items = List::new(alloc);
    for (number, node) in nodes.iter().enumerate() {
        append(&mut items, box_items(alloc, core, types, number, node))?;
    }
    Some(items)
}

fn box_items(
    alloc: Global,
    core: &Core,
    types: &CTypes,
    number: usize,
    node: &NodeC,
) -> Option<List<CItem>>
    ensures { Gives result (box_items (gathered types.now) core.now number node.now) }
{
    match node {
        NodeC::Rules(b) => of_one(alloc, box_item(alloc, core, types, number, b)),
        NodeC::From(_) | NodeC::To(_) => Some(List::new(alloc)),
    }
}

// The objects of the output streams among nodes.
#[tactic(auto, using(crate::proofs::ListSteps::list_steps))]
fn stream_objects(
    alloc: Global,
    core: &Core,
    types: &CTypes,
    nodes: &[NodeC],
) -> Option<List<CItem>>
    ensures { Gives result (stream_objects (gathered types.now) core.now 0 nodes.now) }
{
    let mut items = List::new(alloc);
    for (number, node) in nodes.iter().enumerate() {
        append(&mut items, node_items(alloc, core, types, number, node))?;
    }
    Some(items)
}

fn node_items(
    alloc: Global,
    core: &Core,
    types: &CTypes,
    number: usize,
    node: &NodeC,
) -> Option<List<CItem>>
    ensures { Gives result (node_items (gathered types.now) core.now number node.now) }
{
    match node {
        NodeC::To(stream) => stream_items(alloc, types, stream, inlet_of(core, number, 0)),
        NodeC::Rules(_) | NodeC::From(_) => Some(List::new(alloc)),
    }
}

fn stream_items(
    alloc: Global,
    types: &CTypes,
    stream: &StreamC,
    wire: Option<&WireC>,
) -> Option<List<CItem>>
    ensures { Gives result (stream_items (gathered types.now) stream.now (option_copied wire.entry)) }
{
    match wire {
        None => Some(List::new(alloc)),
        Some(wire) => {
            let ty = types.c_type(alloc, &wire.ty).ok();
            let members = inlet_members(alloc, ty, wire.depth);
            let name = types.names().stream_object(alloc, stream.name.bytes()).ok();
            of_one(alloc, struct_object(alloc, members, name))
        }
    }
}

/// The call that makes the net as it is at first.
pub fn init_function(alloc: Global, core: &Core, types: &CTypes) -> Option<Box<CItem>>
    ensures { Gives result (init_function (gathered types.now) core.now) }
{
    let body = nodes_start(alloc, core, types, core.nodes.as_slice());
    call_function(alloc, types.names(), b"_init", body)
}

#[tactic(auto, using(crate::proofs::ListSteps::list_steps))]
fn nodes_start(alloc: Global, core: &Core, types: &CTypes, nodes: &[NodeC]) -> Option<List<CStm>>
    ensures { Gives result (nodes_start (gathered types.now) core.now 0 nodes.now) }
{
    let mut statements = List::new(alloc);
    for (number, node) in nodes.iter().enumerate() {
        append(
            &mut statements,
            node_start(alloc, core, types, number, node),
        )?;
    }
    Some(statements)
}

fn node_start(
    alloc: Global,
    core: &Core,
    types: &CTypes,
    number: usize,
    node: &NodeC,
) -> Option<List<CStm>>
    ensures { Gives result (node_start (gathered types.now) core.now number node.now) }
{
    match node {
        NodeC::Rules(b) => box_start(alloc, core, types, number, b),
        NodeC::From(_) => Some(List::new(alloc)),
        NodeC::To(stream) => stream_start(alloc, types, stream, inlet_of(core, number, 0)),
    }
}

fn stream_start(
    alloc: Global,
    types: &CTypes,
    stream: &StreamC,
    wire: Option<&WireC>,
) -> Option<List<CStm>>
    ensures { Gives result (stream_start (gathered types.now) stream.now (option_copied wire.entry)) }
{
    match wire {
        None => Some(List::new(alloc)),
        Some(wire) => {
            let inlet = stream_inlet(alloc, types.names(), stream, wire).ok()?;
            start(alloc, types, &inlet, &wire.ty, &wire.initial)
        }
    }
}
