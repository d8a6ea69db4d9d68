//! The call that makes a superstep.
ghost use Rattle.std.specs.Prelude.{◌≡◌, option_copied};
ghost use Rattle.std.specs.List.{flat_map};
ghost use Rattle.c_forms.specs.Gives.{Gives};
ghost use Rattle.c_calls.specs.Steps.{execute_of, given, hook_call, next_behind, number_behind, passed, read_of, read_on, read_onto, reads_from};
ghost use Rattle.c_calls.specs.Steps.{step_body, step_function, super_of, write_of, writes_from, written, written_from, written_on};

use crate::hooks::call_function;
use c_forms::{
    append, appended, before, called, calls, not, of_one, one_if, read_of as by_pointer,
};
use c_names::Names;
use c_nets::{
    Inlet, inlet_of, is_there, next_value, no_room, note_read, oldest, stream_inlet, take_out,
    target_of,
};
use c_tree::{CExp, CItem, CStm};
use c_types::is_scalar;
use hume_base::{Box, List, Ty, Types};
use hume_model::{Core, NodeC, StreamC, WireC};
use std::alloc::Global;

/// The call that makes a superstep.
pub fn step_function(alloc: Global, core: &Core, names: &Names) -> Option<Box<CItem>>
    ensures { Gives result (step_function core.now names.now) }
{
    let body = step_body(alloc, core, names);
    call_function(alloc, names, b"_step", body)
}

#[tactic(auto, using(crate::proofs::ListSteps::list_steps))]
fn step_body(alloc: Global, core: &Core, names: &Names) -> Option<List<CStm>>
    ensures { Gives result (step_body core.now names.now) }
{
    let nodes = core.nodes.as_slice();
    let last = appended(
        supers(alloc, names, nodes),
        reads(alloc, core, names, nodes),
    );
    let later = appended(writes(alloc, core, names, nodes), last);
    appended(executes(alloc, names, nodes), later)
}

#[tactic(auto, using(crate::proofs::ListSteps::list_steps))]
fn executes(alloc: Global, names: &Names, nodes: &[NodeC]) -> Option<List<CStm>>
    ensures { Gives result (flat_map (execute_of names.now) nodes.now) }
{
    let mut statements = List::new(alloc);
    for node in nodes {
        append(&mut statements, execute_of(alloc, names, node))?;
    }
    Some(statements)
}

fn execute_of(alloc: Global, names: &Names, node: &NodeC) -> Option<List<CStm>>
    ensures { Gives result (execute_of names.now node.now) }
{
    match node {
        NodeC::Rules(b) => {
            let name = names.execute(alloc, b.name.bytes()).ok();
            of_one(alloc, calls(alloc, name, Some(List::new(alloc))))
        }
        NodeC::From(_) | NodeC::To(_) => Some(List::new(alloc)),
    }
}

#[tactic(auto, using(crate::proofs::ListSteps::list_steps))]
fn supers(alloc: Global, names: &Names, nodes: &[NodeC]) -> Option<List<CStm>>
    ensures { Gives result (flat_map (super_of names.now) nodes.now) }
{
    let mut statements = List::new(alloc);
    for node in nodes {
        append(&mut statements, super_of(alloc, names, node))?;
    }
    Some(statements)
}

fn super_of(alloc: Global, names: &Names, node: &NodeC) -> Option<List<CStm>>
    ensures { Gives result (super_of names.now node.now) }
{
    match node {
        NodeC::Rules(b) => {
            let name = names.super_step(alloc, b.name.bytes()).ok();
            of_one(alloc, calls(alloc, name, Some(List::new(alloc))))
        }
        NodeC::From(_) | NodeC::To(_) => Some(List::new(alloc)),
    }
}

#[tactic(auto, using(crate::proofs::ListSteps::list_steps))]
fn writes(alloc: Global, core: &Core, names: &Names, nodes: &[NodeC]) -> Option<List<CStm>>
    ensures { Gives result (writes_from core.now names.now 0 nodes.now) }
{
    let mut statements = List::new(alloc);
    for (number, node) in nodes.iter().enumerate() {
        append(&mut statements, write_of(alloc, core, names, number, node))?;
    }
    Some(statements)
}

fn write_of(
    alloc: Global,
    core: &Core,
    names: &Names,
    number: usize,
    node: &NodeC,
) -> Option<List<CStm>>
    ensures { Gives result (write_of core.now names.now number node.now) }
{
    match node {
        NodeC::To(stream) => {
            let wire = inlet_of(core, number, 0);
            written_on(alloc, &core.types, names, stream, wire)
        }
        NodeC::Rules(_) | NodeC::From(_) => Some(List::new(alloc)),
    }
}

fn written_on(
    alloc: Global,
    types: &Types,
    names: &Names,
    stream: &StreamC,
    wire: Option<&WireC>,
) -> Option<List<CStm>>
    ensures { Gives result (written_on types.now names.now stream.now (option_copied wire.entry)) }
{
    match wire {
        None => Some(List::new(alloc)),
        Some(wire) => of_one(alloc, written(alloc, types, names, stream, wire)),
    }
}

// The oldest value of an output stream goes to its hook, if there is one.
fn written(
    alloc: Global,
    types: &Types,
    names: &Names,
    stream: &StreamC,
    wire: &WireC,
) -> Option<Box<CStm>>
    ensures { Gives result (written types.now names.now stream.now wire.now) }
{
    let inlet = stream_inlet(alloc, names, stream, wire).ok()?;
    written_from(alloc, types, names, stream, &wire.ty, &inlet)
}

fn written_from(
    alloc: Global,
    types: &Types,
    names: &Names,
    stream: &StreamC,
    ty: &Ty,
    inlet: &Inlet,
) -> Option<Box<CStm>>
    ensures { Gives result (written_from types.now names.now stream.now ty.now inlet.now) }
{
    let given = given(alloc, types, names, stream, ty, inlet);
    let body = before(alloc, given, take_out(alloc, inlet));
    one_if(alloc, is_there(alloc, inlet), body)
}

// The oldest value of a wire goes to the hook of an output stream.
fn given(
    alloc: Global,
    types: &Types,
    names: &Names,
    stream: &StreamC,
    ty: &Ty,
    inlet: &Inlet,
) -> Option<Box<CStm>>
    ensures { Gives result (given types.now names.now stream.now ty.now inlet.now) }
{
    let argument = passed(alloc, types, ty, oldest(alloc, inlet));
    let name = names.write_hook(alloc, stream.name.bytes()).ok();
    calls(alloc, name, of_one(alloc, argument))
}

// How an object is passed to a hook: a number by its value, another value by a pointer.
fn passed(alloc: Global, types: &Types, ty: &Ty, object: Option<Box<CExp>>) -> Option<Box<CExp>>
    ensures { (o : CExp) → Gives object o → Gives result (passed types.now ty.now o) }
{
    if is_scalar(types, ty) {
        object
    } else {
        by_pointer(alloc, object)
    }
}

#[tactic(auto, using(crate::proofs::ListSteps::list_steps))]
fn reads(alloc: Global, core: &Core, names: &Names, nodes: &[NodeC]) -> Option<List<CStm>>
    ensures { Gives result (reads_from core.now names.now 1 0 nodes.now) }
{
    let mut statements = List::new(alloc);
    let mut next = 1u32;
    for (number, node) in nodes.iter().enumerate() {
        append(
            &mut statements,
            read_of(alloc, core, names, next, number, node),
        )?;
        next = next_behind(alloc, core, names, next, number, node)?;
    }
    Some(statements)
}

// The next value of a node that is an input stream goes onto its wire; `next` is the first number that no variable has.
fn read_of(
    alloc: Global,
    core: &Core,
    names: &Names,
    next: u32,
    number: usize,
    node: &NodeC,
) -> Option<List<CStm>>
    ensures { Gives result (read_of core.now names.now next number node.now) }
{
    match node {
        NodeC::From(stream) => {
            let inlet = target_of(alloc, core, names, number, 0).ok()?;
            read_on(alloc, names, stream, next, &inlet)
        }
        NodeC::Rules(_) | NodeC::To(_) => Some(List::new(alloc)),
    }
}

fn next_behind(
    alloc: Global,
    core: &Core,
    names: &Names,
    next: u32,
    number: usize,
    node: &NodeC,
) -> Option<u32>
    ensures { Gives result (next_behind core.now names.now next number node.now) }
{
    match node {
        NodeC::From(_) => {
            let inlet = target_of(alloc, core, names, number, 0).ok()?;
            number_behind(next, &inlet)
        }
        NodeC::Rules(_) | NodeC::To(_) => Some(next),
    }
}

fn number_behind(next: u32, inlet: &Option<Inlet>) -> Option<u32>
    ensures { Gives result (number_behind next inlet.now) }
{
    match inlet {
        None => Some(next),
        Some(inlet) => {
            if inlet.depth == 1 {
                return Some(next);
            }
            next.checked_add(1)
        }
    }
}

fn read_on(
    alloc: Global,
    names: &Names,
    stream: &StreamC,
    next: u32,
    inlet: &Option<Inlet>,
) -> Option<List<CStm>>
    ensures { Gives result (read_on names.now stream.now next inlet.now) }
{
    match inlet {
        None => Some(List::new(alloc)),
        Some(inlet) => of_one(alloc, read_onto(alloc, names, stream, next, inlet)),
    }
}

// The next value of an input stream goes onto its wire, if that has room.
fn read_onto(
    alloc: Global,
    names: &Names,
    stream: &StreamC,
    next: u32,
    inlet: &Inlet,
) -> Option<Box<CStm>>
    ensures { Gives result (read_onto names.now stream.now next inlet.now) }
{
    let hook = hook_call(alloc, names, stream, inlet);
    let body = note_read(alloc, inlet, hook, next);
    one_if(alloc, not(alloc, no_room(alloc, inlet)), body)
}

// The call of the hook of an input stream, which writes its next value to a wire, if it has one, and says whether it has.
fn hook_call(alloc: Global, names: &Names, stream: &StreamC, inlet: &Inlet) -> Option<Box<CExp>>
    ensures { Gives result (hook_call names.now stream.now inlet.now) }
{
    let name = names.read_hook(alloc, stream.name.bytes()).ok();
    let place = by_pointer(alloc, next_value(alloc, inlet));
    called(alloc, name, of_one(alloc, place))
}
