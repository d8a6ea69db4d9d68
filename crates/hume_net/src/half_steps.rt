ghost use Rattle.std.specs.Prelude.{◌≡◌, IfOk, ◌++◌, map, Some, if◌then◌else◌, slice_get, false};
ghost use Rattle.std.specs.Option.{is_some, option_to_list, unwrap_or};
ghost use Rattle.hume_model.specs.Firing.{fire};
ghost use Rattle.hume_net.specs.HalfSteps.{execute, idle, fired, moved_last, oldest, without_oldest, without_taken, values_there};

use crate::state::{HalfStep, Part};
use hume_base::{List, Value, copy_value};
use hume_model::{BoxC, Core, Firing, NodeC, first_firing};
use std::alloc::{AllocError, Global};

/// The execute step of a node with this part, where the wires of its inputs hold these values.
pub fn execute_step(
    alloc: Global,
    core: &Core,
    node: &NodeC,
    part: Part,
    wires: List<List<Value>>,
) -> Result<HalfStep, AllocError>
    ensures { IfOk result (λ half. half ≡ execute core.now node.now part wires) }
{
    match node {
        NodeC::Rules(b) => execute_box(alloc, core, b, part, wires),
        NodeC::From(_) => Ok(HalfStep { part, side: wires }),
        NodeC::To(_) => take_all(alloc, part, wires),
    }
}

fn execute_box(
    alloc: Global,
    core: &Core,
    b: &BoxC,
    part: Part,
    wires: List<List<Value>>,
) -> Result<HalfStep, AllocError>
    ensures { IfOk result (λ half. half
        ≡ (if is_some part.pending then idle part wires else fired b.now part wires (fire core.now b.now part.order (map oldest wires)))) }
{
    if part.pending.is_some() {
        return Ok(HalfStep { part, side: wires });
    }
    match find_firing(alloc, core, b, part.order.as_slice(), wires.as_slice())? {
        None => Ok(HalfStep { part, side: wires }),
        Some(firing) => fire_box(alloc, b, part, wires, firing),
    }
}

// What fires on the oldest values of these wires.
fn find_firing(
    alloc: Global,
    core: &Core,
    b: &BoxC,
    order: &[u32],
    wires: &[List<Value>],
) -> Result<Option<Firing>, AllocError>
    ensures { IfOk result (λ firing. firing ≡ fire core.now b.now order.now (map oldest wires.now)) }
{
    let seen = oldest_values(alloc, wires)?;
    first_firing(alloc, core, b, order, seen.as_slice())
}

fn oldest_values(alloc: Global, wires: &[List<Value>]) -> Result<List<Option<Value>>, AllocError>
    ensures { IfOk result (λ seen. seen ≡ map oldest wires.now) }
{
    let mut seen = List::new(alloc);
    for wire in wires {
        seen.push(oldest_value(alloc, wire)?)?;
    }
    Ok(seen)
}

#[tactic(auto, using(crate::proofs::Sides::side_steps))]
fn oldest_value(alloc: Global, wire: &List<Value>) -> Result<Option<Value>, AllocError>
    ensures { IfOk result (λ value. value ≡ oldest wire.now) }
{
    match wire.get(0) {
        None => Ok(None),
        Some(value) => Ok(Some(copy_value(alloc, value)?)),
    }
}

fn fire_box(
    alloc: Global,
    b: &BoxC,
    part: Part,
    wires: List<List<Value>>,
    firing: Firing,
) -> Result<HalfStep, AllocError>
    ensures { IfOk result (λ half. half ≡ fired b.now part wires (Some firing)) }
{
    let side = take_some(alloc, firing.taken.as_slice(), wires)?;
    let order = order_after(alloc, b.fair, firing.rule, part.order)?;
    let part = Part {
        pending: Some(firing.outs),
        order,
        coming: part.coming,
        taken: part.taken,
    };
    Ok(HalfStep { part, side })
}

fn order_after(
    alloc: Global,
    fair: bool,
    rule: u32,
    order: List<u32>,
) -> Result<List<u32>, AllocError>
    ensures { IfOk result (λ after. after ≡ (if fair then moved_last rule order else order)) }
{
    if fair {
        move_last(alloc, rule, order.as_slice())
    } else {
        Ok(order)
    }
}

fn move_last(alloc: Global, rule: u32, order: &[u32]) -> Result<List<u32>, AllocError>
    ensures { IfOk result (λ moved. moved ≡ moved_last rule order.now) }
{
    let mut moved = List::new(alloc);
    for other in order {
        if *other != rule {
            moved.push(*other)?;
        }
    }
    moved.push(rule)?;
    Ok(moved)
}

#[tactic(auto, using(crate::proofs::Sides::side_steps))]
fn take_some(
    alloc: Global,
    taken: &[bool],
    wires: List<List<Value>>,
) -> Result<List<List<Value>>, AllocError>
    ensures { IfOk result (λ side. side ≡ without_taken taken.now wires) }
{
    let mut side = List::new(alloc);
    for wire in wires.into_vec() {
        let is_taken = is_taken_at(taken, side.len());
        side.push(take_if(is_taken, wire))?;
    }
    Ok(side)
}

fn is_taken_at(taken: &[bool], at: usize) -> bool
    ensures { result ≡ unwrap_or (slice_get taken.now at) false }
{
    match taken.get(at) {
        None => false,
        Some(taken) => *taken,
    }
}

#[tactic(auto, using(crate::proofs::Sides::side_steps))]
fn take_if(is_taken: bool, wire: List<Value>) -> List<Value>
    ensures { result ≡ (if is_taken then without_oldest wire else wire) }
{
    let mut wire = wire;
    if is_taken {
        drop(wire.take_first());
    }
    wire
}

fn take_all(alloc: Global, part: Part, wires: List<List<Value>>) -> Result<HalfStep, AllocError>
    ensures { IfOk result (λ half. half
        ≡ record { part = record part { taken = part.taken ++ values_there (map oldest wires) }; side = map without_oldest wires }) }
{
    let mut part = part;
    let side = take_each(alloc, wires, &mut part.taken)?;
    Ok(HalfStep { part, side })
}

// The wires without their oldest values, which go to those that were taken.
#[tactic(auto, using(crate::proofs::Sides::side_steps))]
fn take_each(
    alloc: Global,
    wires: List<List<Value>>,
    taken: &mut List<Value>,
) -> Result<List<List<Value>>, AllocError>
    ensures side { IfOk result (λ side. side ≡ map without_oldest wires) }
    ensures taken { IfOk result (λ side. taken.new ≡ taken.old ++ values_there (map oldest wires)) }
{
    let mut side = List::new(alloc);
    for wire in wires.into_vec() {
        side.push(take_oldest(wire, taken)?)?;
    }
    Ok(side)
}

// The wire without its oldest value, which goes to those that were taken.
#[tactic(auto, using(crate::proofs::Sides::side_steps))]
fn take_oldest(wire: List<Value>, taken: &mut List<Value>) -> Result<List<Value>, AllocError>
    ensures wire { IfOk result (λ left. left ≡ without_oldest wire) }
    ensures taken { IfOk result (λ left. taken.new ≡ taken.old ++ option_to_list (oldest wire)) }
{
    let mut wire = wire;
    let Some(value) = wire.take_first() else {
        return Ok(wire);
    };
    taken.push(value)?;
    Ok(wire)
}
