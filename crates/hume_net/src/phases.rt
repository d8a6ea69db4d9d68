ghost use Rattle.std.specs.Prelude.{◌≡◌, ◌++◌, ◌∷◌, IfOk, OnOk, [], slice_get, length, map};
ghost use Rattle.std.specs.Option.{option_flatten, unwrap_or};
ghost use Rattle.hume_net.specs.Sides.{on_wire, part_of, on_found, room_on, each_node, executed, stepped, left_on, gathered, consumed, produced};
ghost use Rattle.hume_net.specs.Lockstep.{mid, up};
ghost use Rattle.hume_net.specs.inner.Ends.{ends_of};

use crate::copying::{copy_numbers, copy_outputs};
use crate::ends::Ends;
use crate::half_steps::execute_step;
use crate::state::{HalfStep, Part, State};
use crate::super_steps::assert_step;
use hume_base::{List, Value, copy_values};
use hume_model::Core;
use std::alloc::{AllocError, Global};

/// The state after an execute phase.
pub fn state_after_execute(
    alloc: Global,
    core: &Core,
    ends: &Ends,
    state: &State,
) -> Result<State, AllocError>
    requires { ends.now ≡ ends_of core.now }
    ensures { IfOk result (λ after. after ≡ mid core.now state.now) }
{
    let halves = all_executed(alloc, core, ends, state)?;
    let wires = consumed_wires(alloc, core, halves.as_slice())?;
    gather(alloc, halves, wires)
}

/// The state after a super phase.
pub fn state_after_super(
    alloc: Global,
    core: &Core,
    ends: &Ends,
    state: &State,
) -> Result<State, AllocError>
    requires { ends.now ≡ ends_of core.now }
    ensures { IfOk result (λ after. after ≡ up core.now state.now) }
{
    let halves = all_asserted(alloc, core, ends, state)?;
    let wires = produced_wires(alloc, core, halves.as_slice())?;
    gather(alloc, halves, wires)
}

#[tactic(auto, using(crate::proofs::Ranges::range_steps))]
fn all_executed(
    alloc: Global,
    core: &Core,
    ends: &Ends,
    state: &State,
) -> Result<List<HalfStep>, AllocError>
    requires { ends.now ≡ ends_of core.now }
    ensures { IfOk result (λ halves. halves ≡ each_node core.now (executed core.now state.now)) }
{
    let mut halves = List::new(alloc);
    for number in 0..core.nodes.len() {
        halves.push(executed_node(alloc, core, ends, state, number)?)?;
    }
    Ok(halves)
}

#[tactic(auto, using(crate::proofs::Ranges::range_steps))]
fn all_asserted(
    alloc: Global,
    core: &Core,
    ends: &Ends,
    state: &State,
) -> Result<List<HalfStep>, AllocError>
    requires { ends.now ≡ ends_of core.now }
    ensures { IfOk result (λ halves. halves ≡ each_node core.now (stepped core.now state.now)) }
{
    let mut halves = List::new(alloc);
    for number in 0..core.nodes.len() {
        halves.push(asserted_node(alloc, core, ends, state, number)?)?;
    }
    Ok(halves)
}

fn executed_node(
    alloc: Global,
    core: &Core,
    ends: &Ends,
    state: &State,
    number: usize,
) -> Result<HalfStep, AllocError>
    requires { ends.now ≡ ends_of core.now }
    ensures { IfOk result (λ half. half ≡ executed core.now state.now number) }
{
    match core.nodes.get(number) {
        None => Ok(HalfStep {
            part: node_part(alloc, state, number)?,
            side: List::new(alloc),
        }),
        Some(node) => {
            let wires = values_on_all(alloc, state, &ends.inputs, number)?;
            let part = node_part(alloc, state, number)?;
            execute_step(alloc, core, node, part, wires)
        }
    }
}

fn asserted_node(
    alloc: Global,
    core: &Core,
    ends: &Ends,
    state: &State,
    number: usize,
) -> Result<HalfStep, AllocError>
    requires { ends.now ≡ ends_of core.now }
    ensures { IfOk result (λ half. half ≡ stepped core.now state.now number) }
{
    match core.nodes.get(number) {
        None => Ok(HalfStep {
            part: node_part(alloc, state, number)?,
            side: List::new(alloc),
        }),
        Some(node) => {
            let rooms = rooms_on_all(alloc, core, state, &ends.outputs, number)?;
            let wires = values_on_all(alloc, state, &ends.outputs, number)?;
            let part = node_part(alloc, state, number)?;
            assert_step(alloc, node, part, rooms.as_slice(), wires)
        }
    }
}

fn node_part(alloc: Global, state: &State, number: usize) -> Result<Part, AllocError>
    ensures { IfOk result (λ part. part ≡ part_of state.now number) }
{
    Ok(Part {
        pending: pending_outputs(alloc, state, number)?,
        order: rule_order(alloc, state, number)?,
        coming: values_of(alloc, &state.coming, number)?,
        taken: values_of(alloc, &state.taken, number)?,
    })
}

fn pending_outputs(
    alloc: Global,
    state: &State,
    number: usize,
) -> Result<Option<List<Option<Value>>>, AllocError>
    ensures { IfOk result (λ pending. pending ≡ option_flatten (slice_get state.now.pending number)) }
{
    match state.pending.get(number) {
        None => Ok(None),
        Some(None) => Ok(None),
        Some(Some(outs)) => Ok(Some(copy_outputs(alloc, outs.as_slice())?)),
    }
}

fn rule_order(alloc: Global, state: &State, number: usize) -> Result<List<u32>, AllocError>
    ensures { IfOk result (λ order. order ≡ unwrap_or (slice_get state.now.orders number) []) }
{
    match state.orders.get(number) {
        None => Ok(List::new(alloc)),
        Some(order) => copy_numbers(alloc, order.as_slice()),
    }
}

fn values_of(
    alloc: Global,
    lists: &List<List<Value>>,
    number: usize,
) -> Result<List<Value>, AllocError>
    ensures { IfOk result (λ values. values ≡ unwrap_or (slice_get lists.now number) []) }
{
    match lists.get(number) {
        None => Ok(List::new(alloc)),
        Some(values) => copy_values(alloc, values.as_slice()),
    }
}

// The values on the wires of a node in a table of these.
fn values_on_all(
    alloc: Global,
    state: &State,
    table: &List<List<Option<usize>>>,
    number: usize,
) -> Result<List<List<Value>>, AllocError>
    ensures { IfOk result (λ values. values ≡ map (on_found state.now) (unwrap_or (slice_get table.now number) [])) }
{
    match table.get(number) {
        None => Ok(List::new(alloc)),
        Some(wires) => values_on_each(alloc, state, wires.as_slice()),
    }
}

fn values_on_each(
    alloc: Global,
    state: &State,
    wires: &[Option<usize>],
) -> Result<List<List<Value>>, AllocError>
    ensures { IfOk result (λ values. values ≡ map (on_found state.now) wires.now) }
{
    let mut values = List::new(alloc);
    for wire in wires {
        values.push(values_on_found(alloc, state, *wire)?)?;
    }
    Ok(values)
}

// Which wires of a node in a table of these have room.
fn rooms_on_all(
    alloc: Global,
    core: &Core,
    state: &State,
    table: &List<List<Option<usize>>>,
    number: usize,
) -> Result<List<bool>, AllocError>
    ensures { IfOk result (λ found. found ≡ map (room_on core.now state.now) (unwrap_or (slice_get table.now number) [])) }
{
    match table.get(number) {
        None => Ok(List::new(alloc)),
        Some(wires) => rooms_on_each(alloc, core, state, wires.as_slice()),
    }
}

fn rooms_on_each(
    alloc: Global,
    core: &Core,
    state: &State,
    wires: &[Option<usize>],
) -> Result<List<bool>, AllocError>
    ensures { IfOk result (λ found. found ≡ map (room_on core.now state.now) wires.now) }
{
    let mut found = List::new(alloc);
    for wire in wires {
        found.push(is_roomy(core, state, *wire))?;
    }
    Ok(found)
}

fn values_on_found(
    alloc: Global,
    state: &State,
    wire: Option<usize>,
) -> Result<List<Value>, AllocError>
    ensures { IfOk result (λ values. values ≡ on_found state.now wire) }
{
    match wire {
        None => Ok(List::new(alloc)),
        Some(wire) => values_of(alloc, &state.wires, wire),
    }
}

fn is_roomy(core: &Core, state: &State, wire: Option<usize>) -> bool
    ensures { result ≡ room_on core.now state.now wire }
{
    let Some(wire) = wire else {
        return true;
    };
    match core.wires.get(wire) {
        None => true,
        Some(found) => count_on(state, wire) < found.depth as usize,
    }
}

fn count_on(state: &State, wire: usize) -> usize
    ensures { result ≡ length (on_wire state.now wire) }
{
    match state.wires.get(wire) {
        None => 0,
        Some(values) => values.len(),
    }
}

fn consumed_wires(
    alloc: Global,
    core: &Core,
    halves: &[HalfStep],
) -> Result<List<List<Value>>, AllocError>
    ensures { IfOk result (λ wires. wires ≡ consumed core.now halves.now) }
{
    let mut wires = List::new(alloc);
    for wire in core.wires.as_slice() {
        wires.push(values_left(alloc, halves, wire.to, wire.to_port)?)?;
    }
    Ok(wires)
}

fn produced_wires(
    alloc: Global,
    core: &Core,
    halves: &[HalfStep],
) -> Result<List<List<Value>>, AllocError>
    ensures { IfOk result (λ wires. wires ≡ produced core.now halves.now) }
{
    let mut wires = List::new(alloc);
    for wire in core.wires.as_slice() {
        wires.push(values_left(alloc, halves, wire.from, wire.from_port)?)?;
    }
    Ok(wires)
}

fn values_left(
    alloc: Global,
    halves: &[HalfStep],
    node: u32,
    place: u32,
) -> Result<List<Value>, AllocError>
    ensures { IfOk result (λ values. values ≡ left_on halves.now node place) }
{
    match halves.get(node as usize) {
        None => Ok(List::new(alloc)),
        Some(half) => values_of(alloc, &half.side, place as usize),
    }
}

fn gather(
    alloc: Global,
    halves: List<HalfStep>,
    wires: List<List<Value>>,
) -> Result<State, AllocError>
    ensures { IfOk result (λ state. state ≡ gathered halves wires) }
{
    let mut state = State {
        wires,
        pending: List::new(alloc),
        orders: List::new(alloc),
        coming: List::new(alloc),
        taken: List::new(alloc),
    };
    for half in halves.into_vec() {
        add_part(&mut state, half.part)?;
    }
    Ok(state)
}

// Adds what belongs to the next node.
fn add_part(state: &mut State, part: Part) -> Result<(), AllocError>
    ensures { OnOk result (state.new ≡ record state.old {
      pending = state.old.pending ++ part.pending ∷ [];
      orders = state.old.orders ++ part.order ∷ [];
      coming = state.old.coming ++ part.coming ∷ [];
      taken = state.old.taken ++ part.taken ∷ [];
    }) }
{
    state.pending.push(part.pending)?;
    state.orders.push(part.order)?;
    state.coming.push(part.coming)?;
    state.taken.push(part.taken)
}
