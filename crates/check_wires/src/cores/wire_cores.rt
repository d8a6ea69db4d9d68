ghost use Rattle.std.specs.Prelude.{◌≡◌, ◌<◌, ◌^◌, length, option_map, None, IfOk, IfSome};
ghost use Rattle.check_typing.specs.Declarations.{InPlaces};
ghost use Rattle.check_rules.specs.Declared.{wire_of, wires_in};
ghost use Rattle.check_rules.specs.CoreOf.{IsWireOf};
ghost use Rattle.check_wires.specs.cores.Missing.{HasWireWithoutCore};
ghost use Rattle.check_wires.specs.cores.inner.FoundWires.{declared, numbered, core_of, cores_of};

use crate::cores::ends::{input, output};
use crate::cores::joined::{Declared, joined};
use crate::cores::nodes::NodeTable;
use check_scopes::signatures::SignatureTable;
use hume_ast::Decl;
use hume_base::List;
use hume_base::lines::LineTable;
use hume_model::{NodeC, WireC};
use std::alloc::{AllocError, Global};

/// The wires of the program, in the order of their declarations; none where an end of one is nowhere, or its first value
/// is none of its type. Memory is wanted where the number of a node, of an output or of an input has more than 32 bits, or
/// that of the values that a wire holds.
pub fn wires(
    alloc: Global,
    lines: &LineTable,
    decls: &[(u32, Decl)],
    table: &SignatureTable,
    nodes: &[NodeC],
) -> Result<Option<List<WireC>>, AllocError>
    requires few { length decls.now < 2 ^ 32 }
    ensures wires { IfOk result (λ found.
        IfSome found (InPlaces (IsWireOf lines.now table.now nodes.now) (wires_in decls.now))) }
    ensures none { IfOk result (λ found. found ≡ None → HasWireWithoutCore lines.now table.now nodes.now decls.now) }
{
    let nodes = NodeTable::make(alloc, nodes)?;
    declared_wires(alloc, lines, decls, table, &nodes)
}

#[tactic(auto, using(crate::proofs::cores_lemmas::Gathered::gathered_steps))]
fn declared_wires(
    alloc: Global,
    lines: &LineTable,
    decls: &[(u32, Decl)],
    table: &SignatureTable,
    nodes: &NodeTable,
) -> Result<Option<List<WireC>>, AllocError>
    requires { length decls.now < 2 ^ 32 }
    ensures { IfOk result (λ found. found ≡ cores_of lines.now table.now nodes.now decls.now) }
{
    let mut wires = List::new(alloc);
    for (i, d) in decls.iter().enumerate() {
        match wire_in(alloc, lines, table, nodes, i as u32, d)? {
            None => {}
            Some(None) => return Ok(None),
            Some(Some(wire)) => wires.push(wire)?,
        }
    }
    Ok(Some(wires))
}

// The wire of a declaration, if it is of one; that may have no core.
fn wire_in(
    alloc: Global,
    lines: &LineTable,
    table: &SignatureTable,
    nodes: &NodeTable,
    number: u32,
    d: &(u32, Decl),
) -> Result<Option<Option<WireC>>, AllocError>
    ensures { IfOk result (λ found. found
        ≡ option_map (core_of lines.now table.now nodes.now) (wire_of (numbered number d.now) d.now.1)) }
{
    match &d.1 {
        Decl::Wire(from, to, depth, initial) => {
            let declared = Declared {
                number,
                place: d.0,
                from,
                to,
                depth: *depth,
                initial,
            };
            let wire = wire(alloc, lines, table, nodes, declared)?;
            Ok(Some(wire))
        }
        _ => Ok(None),
    }
}

fn wire(
    alloc: Global,
    lines: &LineTable,
    table: &SignatureTable,
    nodes: &NodeTable,
    wire: Declared,
) -> Result<Option<WireC>, AllocError>
    ensures { IfOk result (λ found. found ≡ core_of lines.now table.now nodes.now (declared wire.entry)) }
{
    let Some(from) = output(nodes, wire.from)? else {
        return Ok(None);
    };
    let Some(to) = input(nodes, wire.to)? else {
        return Ok(None);
    };
    joined(alloc, table, lines.line(wire.place), wire, from, to)
}
