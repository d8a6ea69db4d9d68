//! The inputs or the outputs of a box, with the types that are written for them.
ghost use Rattle.std.specs.Prelude.{◌≡◌, map, option_map, slice_get, IfOk};
ghost use Rattle.check_typing.specs.Partial.{given};
ghost use Rattle.check_scopes.specs.signatures.inner.Tables.{table_of};
ghost use Rattle.check_wires.specs.types.NodeTypes.{ports_in, no_ports, type_at, place_name, place_type};

use crate::types::types::written;
use check_scopes::signatures::SignatureTable;
use check_tables::names::NameTable;
use hume_ast::TyExp;
use hume_base::{List, Text, Ty};
use std::alloc::{AllocError, Global};

/// The names of inputs or outputs with their places, and the type in each place if it is one.
#[derive(Drop)]
pub struct Ports<'a> {
    pub names: NameTable<'a>,
    pub types: List<Option<Ty>>,
}

impl<'a> Ports<'a> {
    pub(crate) fn none(alloc: Global) -> Ports<'a>
        ensures { result ≡ no_ports }
    {
        Ports {
            names: NameTable::new(alloc),
            types: List::new(alloc),
        }
    }

    pub(crate) fn of(
        alloc: Global,
        table: &SignatureTable,
        places: &'a [(Text, TyExp)],
    ) -> Result<Ports<'a>, AllocError>
        ensures { IfOk result (λ ports. ports ≡ ports_in table.now.types places.now) }
    {
        Ok(Ports {
            names: port_names(alloc, places)?,
            types: port_types(alloc, table, places)?,
        })
    }

    /// The type of the input or output of the name; one without a name has none.
    pub(crate) fn find(&self, port: &Option<Text>) -> Option<&Ty>
        ensures { option_map (λ ty. ty.now) result ≡ type_at self.now port.now }
    {
        match port {
            None => None,
            Some(name) => type_of_number(self.types.as_slice(), self.names.find(name.bytes())),
        }
    }
}

fn type_of_number(types: &[Option<Ty>], number: Option<usize>) -> Option<&Ty>
    ensures { option_map (λ ty. ty.now) result ≡ given number (λ n. given (slice_get types.now n) (λ ty. ty)) }
{
    match number {
        None => None,
        Some(number) => match types.get(number) {
            Some(Some(ty)) => Some(ty),
            _ => None,
        },
    }
}

#[tactic(auto, using(crate::proofs::types_lemmas::Steps::table_steps))]
fn port_names<'a>(alloc: Global, places: &'a [(Text, TyExp)]) -> Result<NameTable<'a>, AllocError>
    ensures { IfOk result (λ names. names ≡ table_of place_name places.now) }
{
    let mut names = NameTable::new(alloc);
    for (number, place) in places.iter().enumerate() {
        let _is_new = names.add(place.0.bytes(), number)?;
    }
    Ok(names)
}

fn port_types(
    alloc: Global,
    table: &SignatureTable,
    places: &[(Text, TyExp)],
) -> Result<List<Option<Ty>>, AllocError>
    ensures { IfOk result (λ types. types ≡ map (place_type table.now.types) places.now) }
{
    let mut types = List::new(alloc);
    for place in places {
        types.push(written(alloc, table, &place.1)?)?;
    }
    Ok(types)
}
