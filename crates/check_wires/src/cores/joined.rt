//! Wires between ends that were found.
ghost use Rattle.std.specs.Prelude.{◌≡◌, option_map, slice_get, IfOk};
ghost use Rattle.hume_model.specs.declared.core_tree.PortC.{PortC as Port};
ghost use Rattle.hume_model.specs.WireEnds.{is_stream as is_stream_in, output_type as type_of_output, input_type as type_of_input};
ghost use Rattle.check_rules.specs.CoreOf.{depth_or_one as depth_or_one_of};
ghost use Rattle.check_wires.specs.cores.inner.FoundEnds.{seen};
ghost use Rattle.check_wires.specs.cores.inner.FoundWires.{declared, type_between as type_from, first_value as value_written, wire_between};

use crate::constants::constant;
use crate::cores::ends::End;
use check_scopes::signatures::SignatureTable;
use hume_ast::Exp;
use hume_base::{Text, Ty, Value, copy_ty};
use hume_model::{NodeC, PortC, WireC};
use std::alloc::{AllocError, Global};

/// A wire as it is declared: the number of its declaration, the place of its first token, its two ends, how many values
/// it holds, and its first value.
#[derive(Clone, Copy)]
pub(crate) struct Declared<'a> {
    pub(crate) number: u32,
    pub(crate) place: u32,
    pub(crate) from: &'a (Text, Option<Text>),
    pub(crate) to: &'a (Text, Option<Text>),
    pub(crate) depth: Option<u64>,
    pub(crate) initial: &'a Option<Exp>,
}

/// The wire of a line between two ends, if its first value is one of its type.
pub(crate) fn joined(
    alloc: Global,
    table: &SignatureTable,
    line: u32,
    wire: Declared,
    from: End,
    to: End,
) -> Result<Option<WireC>, AllocError>
    ensures { IfOk result (λ found. found
        ≡ wire_between table.now line (declared wire.entry) (seen from.entry) (seen to.entry)) }
{
    let depth = depth_or_one(wire.depth)?;
    let ty = type_between(alloc, from, to)?;
    let are_streams = is_stream(from.node) && is_stream(to.node);
    match first_value(alloc, table, are_streams, &ty, wire.initial)? {
        None => Ok(None),
        Some(initial) => Ok(Some(WireC {
            line,
            declaration: wire.number,
            from: from.number,
            from_port: from.place,
            to: to.number,
            to_port: to.place,
            ty,
            depth,
            initial,
        })),
    }
}

// How many values a wire holds. Memory is wanted where that has more than 32 bits.
fn depth_or_one(depth: Option<u64>) -> Result<u32, AllocError>
    ensures { IfOk result (λ number. number ≡ depth_or_one_of depth) }
{
    match depth {
        None => Ok(1),
        Some(depth) => match u32::try_from(depth) {
            Ok(same) => Ok(same),
            Err(_) => Err(AllocError),
        },
    }
}

fn type_between(alloc: Global, from: End, to: End) -> Result<Ty, AllocError>
    ensures { IfOk result (λ ty. ty ≡ type_from (seen from.entry) (seen to.entry)) }
{
    match output_type(from.node, from.place) {
        Some(ty) => copy_ty(alloc, ty),
        None => match input_type(to.node, to.place) {
            Some(ty) => copy_ty(alloc, ty),
            None => Ok(Ty::Bool),
        },
    }
}

fn output_type(node: &NodeC, place: u32) -> Option<&Ty>
    ensures { option_map (λ ty. ty.now) result ≡ type_of_output node.now place }
{
    match node {
        NodeC::Rules(rules) => port_type(rules.outs.as_slice(), place),
        _ => None,
    }
}

fn input_type(node: &NodeC, place: u32) -> Option<&Ty>
    ensures { option_map (λ ty. ty.now) result ≡ type_of_input node.now place }
{
    match node {
        NodeC::Rules(rules) => port_type(rules.ins.as_slice(), place),
        _ => None,
    }
}

fn port_type(ports: &[PortC], place: u32) -> Option<&Ty>
    ensures { option_map (λ ty. ty.now) result ≡ option_map (λ (port : Port). port.ty) (slice_get ports.now place) }
{
    match ports.get(place as usize) {
        None => None,
        Some(port) => Some(&port.ty),
    }
}

fn is_stream(node: &NodeC) -> bool
    ensures { result ≡ is_stream_in node.now }
{
    match node {
        NodeC::Rules(_) => false,
        _ => true,
    }
}

// The first value that is written, if it is one of the type; between two streams there is none, whatever is written.
fn first_value(
    alloc: Global,
    table: &SignatureTable,
    are_streams: bool,
    ty: &Ty,
    written: &Option<Exp>,
) -> Result<Option<Option<Value>>, AllocError>
    ensures { IfOk result (λ found. found ≡ value_written are_streams table.now ty.now written.now) }
{
    match written {
        Some(value) if !are_streams => match constant(alloc, table, value, ty)? {
            None => Ok(None),
            Some(value) => Ok(Some(Some(value))),
        },
        _ => Ok(Some(None)),
    }
}
