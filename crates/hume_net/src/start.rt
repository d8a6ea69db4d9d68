ghost use Rattle.std.specs.Prelude.{◌≡◌, ◌≤◌, IfOk, None, map};
ghost use Rattle.std.specs.List.{range_with_len};
ghost use Rattle.std.specs.Option.{option_to_list};
ghost use Rattle.hume_net.specs.Sides.{each_node};
ghost use Rattle.hume_net.specs.Start.{start, no_values, written_order};
ghost use Rattle.hume_model.specs.WellFormed.{HasSmallBoxes, HasFewRules};

use crate::state::State;
use hume_base::limits::MAX_RULES;
use hume_base::{List, Value, copy_value};
use hume_model::{Core, NodeC};
use std::alloc::{AllocError, Global};

/// The state before the first superstep, with no values to come.
pub fn start_state(alloc: Global, core: &Core) -> Result<State, AllocError>
    requires { HasSmallBoxes core.now }
    ensures { IfOk result (λ state. state ≡ start core.now (no_values core.now)) }
{
    Ok(State {
        wires: initial_values(alloc, core)?,
        pending: nothing_pending(alloc, core)?,
        orders: written_orders(alloc, core)?,
        coming: nothing_yet(alloc, core)?,
        taken: nothing_yet(alloc, core)?,
    })
}

fn initial_values(alloc: Global, core: &Core) -> Result<List<List<Value>>, AllocError>
    ensures { IfOk result (λ wires. wires ≡ map (λ wire. option_to_list wire.initial) core.now.wires) }
{
    let mut wires = List::new(alloc);
    for wire in core.wires.as_slice() {
        wires.push(initial_value(alloc, &wire.initial)?)?;
    }
    Ok(wires)
}

fn initial_value(alloc: Global, value: &Option<Value>) -> Result<List<Value>, AllocError>
    ensures { IfOk result (λ values. values ≡ option_to_list value.now) }
{
    match value {
        None => Ok(List::new(alloc)),
        Some(value) => List::of_one(alloc, copy_value(alloc, value)?),
    }
}

#[tactic(auto, using(crate::proofs::Ranges::range_steps))]
fn nothing_pending(
    alloc: Global,
    core: &Core,
) -> Result<List<Option<List<Option<Value>>>>, AllocError>
    ensures { IfOk result (λ pending. pending ≡ each_node core.now (λ node. None)) }
{
    let mut pending = List::new(alloc);
    for _node in 0..core.nodes.len() {
        pending.push(None)?;
    }
    Ok(pending)
}

#[tactic(auto, using(crate::proofs::Ranges::range_steps))]
fn nothing_yet(alloc: Global, core: &Core) -> Result<List<List<Value>>, AllocError>
    ensures { IfOk result (λ lists. lists ≡ no_values core.now) }
{
    let mut lists = List::new(alloc);
    for _node in 0..core.nodes.len() {
        lists.push(List::new(alloc))?;
    }
    Ok(lists)
}

fn written_orders(alloc: Global, core: &Core) -> Result<List<List<u32>>, AllocError>
    requires { HasSmallBoxes core.now }
    ensures { IfOk result (λ orders. orders ≡ map written_order core.now.nodes) }
{
    let mut orders = List::new(alloc);
    for node in core.nodes.as_slice() {
        orders.push(order_of(alloc, node)?)?;
    }
    Ok(orders)
}

fn order_of(alloc: Global, node: &NodeC) -> Result<List<u32>, AllocError>
    requires { HasFewRules node.now }
    ensures { IfOk result (λ order. order ≡ written_order node.now) }
{
    match node {
        NodeC::Rules(b) => first_numbers(alloc, b.rules.len()),
        NodeC::From(_) => Ok(List::new(alloc)),
        NodeC::To(_) => Ok(List::new(alloc)),
    }
}

#[tactic(auto, using(crate::proofs::Ranges::range_steps))]
fn first_numbers(alloc: Global, count: usize) -> Result<List<u32>, AllocError>
    requires { count ≤ MAX_RULES }
    ensures { IfOk result (λ numbers. numbers ≡ range_with_len 0 count) }
{
    let mut numbers = List::new(alloc);
    for number in 0..count {
        numbers.push(number as u32)?;
    }
    Ok(numbers)
}
