//! The inputs and outputs of a box.
ghost use Rattle.std.specs.Prelude.{IfOk};
ghost use Rattle.check_typing.specs.Declarations.{InPlaces};
ghost use Rattle.check_rules.specs.CoreOf.{IsPort};
ghost use Rattle.hume_check.specs.nodes.inner.Parts.{HaveTypes, HasType};

use check_scopes::signatures::SignatureTable;
use check_wires::types::written;
use hume_ast::TyExp;
use hume_base::{List, Text};
use hume_model::PortC;
use std::alloc::{AllocError, Global};

/// Inputs or outputs in their order, with the types that are written.
pub(crate) fn port_cores(
    alloc: Global,
    table: &SignatureTable,
    places: &[(Text, TyExp)],
) -> Result<List<PortC>, AllocError>
    requires { HaveTypes table.now.types places.now }
    ensures { IfOk result (InPlaces (IsPort table.now.types) places.now) }
{
    let mut ports = List::new(alloc);
    for place in places {
        ports.push(port_core(alloc, table, place)?)?;
    }
    Ok(ports)
}

fn port_core(
    alloc: Global,
    table: &SignatureTable,
    place: &(Text, TyExp),
) -> Result<PortC, AllocError>
    requires { HasType table.now.types place.now }
    ensures { IfOk result (IsPort table.now.types place.now) }
{
    let name = place.0.copy()?;
    match written(alloc, table, &place.1)? {
        Some(ty) => Ok(PortC { name, ty }),
        None => unreachable!(),
    }
}
