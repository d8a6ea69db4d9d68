//! The object of a box, and how it starts.
ghost use Rattle.std.specs.Prelude.{◌≡◌, map, option_copied};
ghost use Rattle.c_forms.specs.Gives.{Gives};
ghost use Rattle.c_types.specs.Gathered.{gathered};
ghost use Rattle.c_nets.specs.Objects.{box_item, box_members, box_start, input_member, input_members, input_start, inputs_start};
ghost use Rattle.c_nets.specs.Objects.{is_fair, order_members, order_start, output_member, state_members};

use crate::inlets::{byte, inlet_members, start};
use crate::net::{box_inlet, inlet_of};
use crate::orders::order_started;
use crate::parts::{mask_width, pending};
use c_forms::{
    append, appended, array_member, assign, before, member_comment, number, of_one, of_two,
    plain_member, push, struct_member, struct_object, text,
};
use c_names::{input, output};
use c_tree::{CItem, CMember, CStm, CType};
use c_types::CTypes;
use hume_base::{Box, List};
use hume_model::{BoxC, Core, PortC, WireC};
use std::alloc::Global;

/// Whether the order of the box's rules changes.
pub fn is_fair(b: &BoxC) -> bool
    ensures { result ≡ is_fair b.now }
{
    b.fair && b.rules.len() > 1
}

/// The object of a box, the node of that number.
pub fn box_item(
    alloc: Global,
    core: &Core,
    types: &CTypes,
    node: usize,
    b: &BoxC,
) -> Option<Box<CItem>>
    ensures { Gives result (box_item (gathered types.now) core.now node b.now) }
{
    let members = box_members(alloc, core, types, node, b);
    let name = types.names().box_object(alloc, b.name.bytes()).ok();
    struct_object(alloc, members, name)
}

#[tactic(auto, using(crate::proofs::Below::below_steps))]
fn box_members(
    alloc: Global,
    core: &Core,
    types: &CTypes,
    node: usize,
    b: &BoxC,
) -> Option<List<CMember>>
    ensures { Gives result (box_members (gathered types.now) core.now node b.now) }
{
    let inputs = input_members(alloc, core, types, node, b.ins.as_slice());
    let outputs = output_members(alloc, types, b.outs.as_slice());
    appended(inputs, appended(outputs, state_members(alloc, b)))
}

#[tactic(auto, using(crate::proofs::Below::below_steps))]
fn input_members(
    alloc: Global,
    core: &Core,
    types: &CTypes,
    node: usize,
    ports: &[PortC],
) -> Option<List<CMember>>
    ensures { Gives result (input_members (gathered types.now) core.now node 0 ports.now) }
{
    let mut members = List::new(alloc);
    for (place, port) in ports.iter().enumerate() {
        let wire = inlet_of(core, node, place);
        append(&mut members, input_member(alloc, types, port, wire))?;
    }
    Some(members)
}

fn input_member(
    alloc: Global,
    types: &CTypes,
    port: &PortC,
    wire: Option<&WireC>,
) -> Option<List<CMember>>
    ensures { Gives result (input_member (gathered types.now) port.now (option_copied wire.entry)) }
{
    match wire {
        None => Some(List::new(alloc)),
        Some(wire) => {
            let ty = types.c_type(alloc, &wire.ty).ok();
            let parts = inlet_members(alloc, ty, wire.depth);
            let name = input(alloc, port.name.bytes()).ok();
            of_one(alloc, struct_member(alloc, parts, name))
        }
    }
}

fn output_members(alloc: Global, types: &CTypes, ports: &[PortC]) -> Option<List<CMember>>
    ensures { Gives result (map (output_member (gathered types.now)) ports.now) }
{
    let mut members = List::new(alloc);
    for port in ports {
        push(&mut members, output_member(alloc, types, port))?;
    }
    Some(members)
}

fn output_member(alloc: Global, types: &CTypes, port: &PortC) -> Option<Box<CMember>>
    ensures { Gives result (output_member (gathered types.now) port.now) }
{
    let name = output(alloc, port.name.bytes()).ok();
    plain_member(alloc, types.c_type(alloc, &port.ty).ok(), name)
}

// Which outputs are pending, and the order of the rules.
fn state_members(alloc: Global, b: &BoxC) -> Option<List<CMember>>
    ensures { Gives result (state_members b.now) }
{
    let comment = member_comment(alloc, b"which outputs are pending");
    let has = Some(CType::Unsigned(mask_width(b)));
    let has = plain_member(alloc, has, text(alloc, b"has").ok());
    before(alloc, comment, before(alloc, has, order_members(alloc, b)))
}

fn order_members(alloc: Global, b: &BoxC) -> Option<List<CMember>>
    ensures { Gives result (order_members b.now) }
{
    if !is_fair(b) {
        return Some(List::new(alloc));
    }
    let comment = member_comment(alloc, b"the order of the rules");
    let name = text(alloc, b"order").ok();
    let order = array_member(alloc, Some(byte()), name, b.rules.len() as u64);
    of_two(alloc, comment, order)
}

/// The statements that make a box as it is at first.
#[tactic(auto, using(crate::proofs::Below::below_steps))]
pub fn box_start(
    alloc: Global,
    core: &Core,
    types: &CTypes,
    node: usize,
    b: &BoxC,
) -> Option<List<CStm>>
    ensures { Gives result (box_start (gathered types.now) core.now node b.now) }
{
    let has = pending(alloc, types.names(), b);
    let first = assign(alloc, has, number(alloc, 0));
    let inputs = inputs_start(alloc, core, types, node, b);
    before(alloc, first, appended(inputs, order_start(alloc, types, b)))
}

#[tactic(auto, using(crate::proofs::Below::below_steps))]
fn inputs_start(
    alloc: Global,
    core: &Core,
    types: &CTypes,
    node: usize,
    b: &BoxC,
) -> Option<List<CStm>>
    ensures { Gives result (inputs_start (gathered types.now) core.now node b.now) }
{
    let mut statements = List::new(alloc);
    for place in 0..b.ins.len() {
        let wire = inlet_of(core, node, place);
        append(&mut statements, input_start(alloc, types, b, place, wire))?;
    }
    Some(statements)
}

fn input_start(
    alloc: Global,
    types: &CTypes,
    b: &BoxC,
    place: usize,
    wire: Option<&WireC>,
) -> Option<List<CStm>>
    ensures { Gives result (input_start (gathered types.now) b.now place (option_copied wire.entry)) }
{
    match wire {
        None => Some(List::new(alloc)),
        Some(wire) => {
            let inlet = box_inlet(alloc, types.names(), b, place, wire).ok()?;
            start(alloc, types, &inlet, &wire.ty, &wire.initial)
        }
    }
}

fn order_start(alloc: Global, types: &CTypes, b: &BoxC) -> Option<List<CStm>>
    ensures { Gives result (order_start (gathered types.now) b.now) }
{
    if is_fair(b) {
        order_started(alloc, types.names(), b)
    } else {
        Some(List::new(alloc))
    }
}
