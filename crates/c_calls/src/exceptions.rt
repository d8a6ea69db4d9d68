//! The numbers of exceptions, and the objects of what they carry.
ghost use Rattle.std.specs.Prelude.{◌≡◌};
ghost use Rattle.std.specs.List.{flat_map};
ghost use Rattle.c_forms.specs.Gives.{Gives};
ghost use Rattle.c_types.specs.Gathered.{gathered};
ghost use Rattle.c_calls.specs.Exceptions.{carried_object, carried_of, exception, exception_items, exceptions_from};

use c_forms::{append, before, enumeration, object, of_one, push};
use c_names::Names;
use c_tree::{CConstant, CItem};
use c_types::CTypes;
use hume_base::{Box, List, Ty};
use hume_model::ExnDef;
use std::alloc::Global;

/// The constants of exceptions, from 1 on, and an object for each that carries something.
pub fn exception_items(alloc: Global, types: &CTypes, exns: &[ExnDef]) -> Option<List<CItem>>
    ensures { Gives result (exception_items (gathered types.now) exns.now) }
{
    let constants = exception_constants(alloc, types.names(), exns);
    let carried = carried_objects(alloc, types, exns);
    before(alloc, enumeration(alloc, constants), carried)
}

#[tactic(auto, using(crate::proofs::ListSteps::list_steps))]
fn exception_constants(alloc: Global, names: &Names, exns: &[ExnDef]) -> Option<List<CConstant>>
    ensures { Gives result (exceptions_from names.now 1 exns.now) }
{
    let mut constants = List::new(alloc);
    for (place, exn) in exns.iter().enumerate() {
        push(
            &mut constants,
            constant(alloc, names, exn, place as u64 + 1),
        )?;
    }
    Some(constants)
}

fn constant(alloc: Global, names: &Names, exn: &ExnDef, value: u64) -> Option<Box<CConstant>>
    ensures { Gives result (exception names.now value exn.now) }
{
    match names.exception(alloc, exn.name.bytes()) {
        Ok(name) => Box::new(alloc, CConstant { name, value }).ok(),
        Err(_) => None,
    }
}

#[tactic(auto, using(crate::proofs::ListSteps::list_steps))]
fn carried_objects(alloc: Global, types: &CTypes, exns: &[ExnDef]) -> Option<List<CItem>>
    ensures { Gives result (flat_map (carried_of (gathered types.now)) exns.now) }
{
    let mut items = List::new(alloc);
    for exn in exns {
        append(
            &mut items,
            carried_object(alloc, types, exn.name.bytes(), &exn.carries),
        )?;
    }
    Some(items)
}

fn carried_object(
    alloc: Global,
    types: &CTypes,
    name: &[u8],
    carries: &Option<Ty>,
) -> Option<List<CItem>>
    ensures { Gives result (carried_object (gathered types.now) name.now carries.now) }
{
    match carries {
        None => Some(List::new(alloc)),
        Some(ty) => {
            let name = types.names().carried(alloc, name).ok();
            of_one(alloc, object(alloc, types.c_type(alloc, ty).ok(), name))
        }
    }
}
