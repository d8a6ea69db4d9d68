//! The ends of wires.
ghost use Rattle.std.specs.Prelude.{◌≡◌, Some, option_map, IfOk};
ghost use Rattle.check_typing.specs.Partial.{given};
ghost use Rattle.check_rules.specs.CoreOf.{output_place as place_of_output, input_place as place_of_input, port_place as place_of_port};
ghost use Rattle.check_wires.specs.cores.inner.FoundEnds.{end_of, seen};

use crate::cores::nodes::NodeTable;
use hume_base::Text;
use hume_model::{NodeC, PortC};
use std::alloc::AllocError;

/// An end of a wire: a node with its number, and the place of an output or an input of it.
#[derive(Clone, Copy)]
pub(crate) struct End<'a> {
    pub(crate) node: &'a NodeC,
    pub(crate) number: u32,
    pub(crate) place: u32,
}

/// Where a wire comes from.
pub(crate) fn output<'a>(
    nodes: &NodeTable<'a>,
    end: &(Text, Option<Text>),
) -> Result<Option<End<'a>>, AllocError>
    ensures { IfOk result (λ found. option_map seen found ≡ end_of place_of_output nodes.now end.now) }
{
    match nodes.find(&end.0) {
        None => Ok(None),
        Some((number, node)) => Ok(end_at(number, node, output_place(&end.1, node)?)),
    }
}

/// Where a wire leads to.
pub(crate) fn input<'a>(
    nodes: &NodeTable<'a>,
    end: &(Text, Option<Text>),
) -> Result<Option<End<'a>>, AllocError>
    ensures { IfOk result (λ found. option_map seen found ≡ end_of place_of_input nodes.now end.now) }
{
    match nodes.find(&end.0) {
        None => Ok(None),
        Some((number, node)) => Ok(end_at(number, node, input_place(&end.1, node)?)),
    }
}

fn end_at(number: u32, node: &NodeC, place: Option<u32>) -> Option<End>
    ensures { option_map seen result
        ≡ given place (λ at. Some (record { node = node.now; number = number; place = at })) }
{
    match place {
        None => None,
        Some(place) => Some(End {
            node,
            number,
            place,
        }),
    }
}

fn output_place(port: &Option<Text>, node: &NodeC) -> Result<Option<u32>, AllocError>
    ensures { IfOk result (λ place. place ≡ place_of_output port.now node.now) }
{
    match (port, node) {
        (Some(name), NodeC::Rules(rules)) => port_place(name, rules.outs.as_slice()),
        (None, NodeC::From(_)) => Ok(Some(0)),
        _ => Ok(None),
    }
}

fn input_place(port: &Option<Text>, node: &NodeC) -> Result<Option<u32>, AllocError>
    ensures { IfOk result (λ place. place ≡ place_of_input port.now node.now) }
{
    match (port, node) {
        (Some(name), NodeC::Rules(rules)) => port_place(name, rules.ins.as_slice()),
        (None, NodeC::To(_)) => Ok(Some(0)),
        _ => Ok(None),
    }
}

// The place of the first of the name. Memory is wanted where it has more than 32 bits.
#[tactic(auto, using(crate::proofs::cores_lemmas::Steps::port_steps))]
fn port_place(name: &Text, ports: &[PortC]) -> Result<Option<u32>, AllocError>
    ensures { IfOk result (λ place. place ≡ place_of_port name.now ports.now) }
{
    for (place, port) in ports.iter().enumerate() {
        if port.name.bytes() == name.bytes() {
            return Ok(Some(small(place)?));
        }
    }
    Ok(None)
}

fn small(number: usize) -> Result<u32, AllocError>
    ensures { IfOk result (λ same. same ≡ number) }
{
    match u32::try_from(number) {
        Ok(same) => Ok(same),
        Err(_) => Err(AllocError),
    }
}
