//! Which wires the inputs and outputs of the nodes have.
ghost use Rattle.std.specs.Prelude.{◌≡◌, IfOk, slice_get};
ghost use Rattle.hume_model.specs.Wiring.{inputs_of, outputs_of};
ghost use Rattle.hume_net.specs.Sides.{numbered, each_node, wire_to, wire_from};
ghost use Rattle.hume_net.specs.inner.Ends.{ends_of, input_wires, output_wires};

use hume_base::List;
use hume_model::{Core, NodeC};
use std::alloc::{AllocError, Global};

/// For each node the numbers of the wires of its inputs and of its outputs.
#[derive(Drop)]
pub struct Ends {
    pub inputs: List<List<Option<usize>>>,
    pub outputs: List<List<Option<usize>>>,
}

pub fn find_ends(alloc: Global, core: &Core) -> Result<Ends, AllocError>
    ensures { IfOk result (λ ends. ends ≡ ends_of core.now) }
{
    Ok(Ends {
        inputs: all_inputs(alloc, core)?,
        outputs: all_outputs(alloc, core)?,
    })
}

#[tactic(auto, using(crate::proofs::Ranges::range_steps))]
fn all_inputs(alloc: Global, core: &Core) -> Result<List<List<Option<usize>>>, AllocError>
    ensures { IfOk result (λ all. all ≡ each_node core.now (λ n. input_wires core.now n (slice_get core.now.nodes n))) }
{
    let mut all = List::new(alloc);
    for number in 0..core.nodes.len() {
        all.push(inputs_at(alloc, core, number)?)?;
    }
    Ok(all)
}

#[tactic(auto, using(crate::proofs::Ranges::range_steps))]
fn all_outputs(alloc: Global, core: &Core) -> Result<List<List<Option<usize>>>, AllocError>
    ensures { IfOk result (λ all. all ≡ each_node core.now (λ n. output_wires core.now n (slice_get core.now.nodes n))) }
{
    let mut all = List::new(alloc);
    for number in 0..core.nodes.len() {
        all.push(outputs_at(alloc, core, number)?)?;
    }
    Ok(all)
}

fn inputs_at(alloc: Global, core: &Core, number: usize) -> Result<List<Option<usize>>, AllocError>
    ensures { IfOk result (λ wires. wires ≡ input_wires core.now number (slice_get core.now.nodes number)) }
{
    match core.nodes.get(number) {
        None => Ok(List::new(alloc)),
        Some(node) => wires_into(alloc, core, number, input_count(node)),
    }
}

fn outputs_at(alloc: Global, core: &Core, number: usize) -> Result<List<Option<usize>>, AllocError>
    ensures { IfOk result (λ wires. wires ≡ output_wires core.now number (slice_get core.now.nodes number)) }
{
    match core.nodes.get(number) {
        None => Ok(List::new(alloc)),
        Some(node) => wires_out_of(alloc, core, number, output_count(node)),
    }
}

fn input_count(node: &NodeC) -> usize
    ensures { result ≡ inputs_of node.now }
{
    match node {
        NodeC::Rules(b) => b.ins.len(),
        NodeC::From(_) => 0,
        NodeC::To(_) => 1,
    }
}

fn output_count(node: &NodeC) -> usize
    ensures { result ≡ outputs_of node.now }
{
    match node {
        NodeC::Rules(b) => b.outs.len(),
        NodeC::From(_) => 1,
        NodeC::To(_) => 0,
    }
}

#[tactic(auto, using(crate::proofs::Ranges::range_steps))]
fn wires_into(
    alloc: Global,
    core: &Core,
    number: usize,
    count: usize,
) -> Result<List<Option<usize>>, AllocError>
    ensures { IfOk result (λ wires. wires ≡ numbered count (wire_to core.now number)) }
{
    let mut wires = List::new(alloc);
    for input in 0..count {
        wires.push(wire_into(core, number, input))?;
    }
    Ok(wires)
}

#[tactic(auto, using(crate::proofs::Ranges::range_steps))]
fn wires_out_of(
    alloc: Global,
    core: &Core,
    number: usize,
    count: usize,
) -> Result<List<Option<usize>>, AllocError>
    ensures { IfOk result (λ wires. wires ≡ numbered count (wire_from core.now number)) }
{
    let mut wires = List::new(alloc);
    for output in 0..count {
        wires.push(wire_out_of(core, number, output))?;
    }
    Ok(wires)
}

fn wire_into(core: &Core, number: usize, input: usize) -> Option<usize>
    ensures { result ≡ wire_to core.now number input }
{
    core.wires.as_slice().iter().position(|wire| wire.to as usize == number
        && wire.to_port as usize == input)
}

fn wire_out_of(core: &Core, number: usize, output: usize) -> Option<usize>
    ensures { result ≡ wire_from core.now number output }
{
    core.wires.as_slice().iter().position(|wire| wire.from as usize == number
        && wire.from_port as usize == output)
}
