ghost use Rattle.std.specs.Prelude.{◌≡◌, ◌++◌, IfOk, [], ◌∷◌, Some, slice_get};
ghost use Rattle.std.specs.Option.{option_flatten, option_to_list};
ghost use Rattle.hume_net.specs.HalfSteps.{super_step, have_room, with_asserted, without_oldest, assert_pending, assert_next};

use crate::copying::copy_maybe;
use crate::state::{HalfStep, Part};
use hume_base::{List, Value, copy_value};
use hume_model::NodeC;
use std::alloc::{AllocError, Global};

/// The super step of a node with this part, where the wires of its outputs hold these values, and those have room.
pub fn assert_step(
    alloc: Global,
    node: &NodeC,
    part: Part,
    rooms: &[bool],
    wires: List<List<Value>>,
) -> Result<HalfStep, AllocError>
    ensures { IfOk result (λ half. half ≡ super_step node.now part rooms.now wires) }
{
    match node {
        NodeC::Rules(_) => assert_outputs(alloc, part, rooms, wires),
        NodeC::From(_) => assert_coming(alloc, part, rooms, wires),
        NodeC::To(_) => Ok(HalfStep { part, side: wires }),
    }
}

fn assert_outputs(
    alloc: Global,
    part: Part,
    rooms: &[bool],
    wires: List<List<Value>>,
) -> Result<HalfStep, AllocError>
    ensures { IfOk result (λ half. half ≡ assert_pending part rooms.now wires part.pending) }
{
    let Some(values) = &part.pending else {
        return Ok(HalfStep { part, side: wires });
    };
    if !are_roomy(values.as_slice(), rooms) {
        return Ok(HalfStep { part, side: wires });
    }
    let side = with_values(alloc, values.as_slice(), wires)?;
    let part = Part {
        pending: None,
        order: part.order,
        coming: part.coming,
        taken: part.taken,
    };
    Ok(HalfStep { part, side })
}

fn assert_coming(
    alloc: Global,
    part: Part,
    rooms: &[bool],
    wires: List<List<Value>>,
) -> Result<HalfStep, AllocError>
    ensures { IfOk result (λ half. half ≡ assert_next part rooms.now wires part.coming) }
{
    let Some(next) = part.coming.get(0) else {
        return Ok(HalfStep { part, side: wires });
    };
    let values = one_output(alloc, next)?;
    if !are_roomy(values.as_slice(), rooms) {
        return Ok(HalfStep { part, side: wires });
    }
    let side = with_values(alloc, values.as_slice(), wires)?;
    let part = without_next(part);
    Ok(HalfStep { part, side })
}

// What a stream asserts: the value alone.
fn one_output(alloc: Global, value: &Value) -> Result<List<Option<Value>>, AllocError>
    ensures { IfOk result (λ values. values ≡ Some value.now ∷ []) }
{
    let value = copy_value(alloc, value)?;
    List::of_one(alloc, Some(value))
}

// The part of an input stream once its next value is asserted.
fn without_next(part: Part) -> Part
    ensures { result ≡ record part { coming = without_oldest part.coming } }
{
    let mut part = part;
    drop(part.coming.take_first());
    part
}

// Whether each output that has a value has a wire with room.
#[tactic(auto, using(crate::proofs::Sides::side_steps))]
fn are_roomy(values: &[Option<Value>], rooms: &[bool]) -> bool
    ensures { result ≡ have_room values.now rooms.now }
{
    for (i, value) in values.iter().enumerate() {
        let Some(room) = rooms.get(i) else {
            return true;
        };
        if value.is_some() && !*room {
            return false;
        }
    }
    true
}

#[tactic(auto, using(crate::proofs::Sides::side_steps))]
fn with_values(
    alloc: Global,
    values: &[Option<Value>],
    wires: List<List<Value>>,
) -> Result<List<List<Value>>, AllocError>
    ensures { IfOk result (λ side. side ≡ with_asserted values.now wires) }
{
    let mut side = List::new(alloc);
    for wire in wires.into_vec() {
        let value = value_for(alloc, values, side.len())?;
        side.push(with_value(wire, value)?)?;
    }
    Ok(side)
}

fn value_for(
    alloc: Global,
    values: &[Option<Value>],
    at: usize,
) -> Result<Option<Value>, AllocError>
    ensures { IfOk result (λ value. value ≡ option_flatten (slice_get values.now at)) }
{
    match values.get(at) {
        None => Ok(None),
        Some(value) => copy_maybe(alloc, value),
    }
}

fn with_value(wire: List<Value>, value: Option<Value>) -> Result<List<Value>, AllocError>
    ensures { IfOk result (λ left. left ≡ wire ++ option_to_list value) }
{
    let mut wire = wire;
    let Some(value) = value else {
        return Ok(wire);
    };
    wire.push(value)?;
    Ok(wire)
}
