//! The functions of types.
ghost use Rattle.std.specs.Prelude.{◌≡◌, List, Option, ℕ, codes, IfOk, OnOk};
ghost use Rattle.std.specs.List.{flat_map};
ghost use Rattle.c_tree.specs.declared.tree.Passing.TheVariants as passing;
ghost use Rattle.c_forms.specs.Gives.{Gives};
ghost use Rattle.c_forms.specs.Items.{parameter as parameter_told};
ghost use Rattle.c_types.specs.Gathered.{c_type, gathered};
ghost use Rattle.c_valid.specs.inner.Known.{known};
ghost use Rattle.c_valid.specs.Functions.{head as head_told, items_named, items_of, items_with, known_behind, known_behind_all};
ghost use Rattle.c_valid.specs.Functions.{known_by, known_of, type_functions};

use crate::bodies::body_of;
use crate::tested::Tested;
use c_forms::{append, function, of_one, parameter, text};
use c_tree::{CHead, CItem, CParameter, CStm, CType, Linkage, Passing};
use c_types::CTypes;
use hume_base::{Box, List, Text, Ty};
use std::alloc::{AllocError, Global};

/// The types of a file, and those of them that have a function.
pub(crate) fn tested_of<'a>(alloc: Global, types: &'a CTypes<'a>) -> Result<Tested<'a>, AllocError>
    ensures { IfOk result (λ tested. known tested ≡ known_of (gathered types.now)) }
{
    let mut tested = Tested::none(alloc, types);
    add_each(alloc, &mut tested, types.declared())?;
    Ok(tested)
}

#[tactic(auto, using(crate::proofs::ListSteps::list_steps))]
fn add_each(alloc: Global, tested: &mut Tested, tys: &[Ty]) -> Result<(), AllocError>
    ensures { OnOk result (known tested.new ≡ known_behind_all (known tested.old) tys.now) }
{
    for ty in tys {
        add_tested(alloc, tested, ty)?;
    }
    Ok(())
}

fn add_tested(alloc: Global, tested: &mut Tested, ty: &Ty) -> Result<(), AllocError>
    ensures { OnOk result (known tested.new ≡ known_behind (known tested.old) ty.now) }
{
    let body = body_of(alloc, tested, ty)?;
    add_one(alloc, tested, ty, body)
}

fn add_one(
    alloc: Global,
    tested: &mut Tested,
    ty: &Ty,
    body: Option<List<CStm>>,
) -> Result<(), AllocError>
    ensures { OnOk result (known tested.new ≡ known_by (known tested.old) ty.now body) }
{
    match body {
        None => Ok(()),
        Some(_) => tested.add(alloc, ty),
    }
}

/// The functions of the types of a file.
pub(crate) fn type_functions(alloc: Global, tested: &Tested) -> Option<List<CItem>>
    ensures { Gives result (type_functions (known tested.now)) }
{
    functions_of(alloc, tested, tested.types.declared())
}

#[tactic(auto, using(crate::proofs::ListSteps::list_steps))]
fn functions_of(alloc: Global, tested: &Tested, tys: &[Ty]) -> Option<List<CItem>>
    ensures { Gives result (flat_map (items_of (known tested.now)) tys.now) }
{
    let mut items = List::new(alloc);
    for ty in tys {
        append(&mut items, function_of(alloc, tested, ty))?;
    }
    Some(items)
}

// The function of a type, if it has one.
fn function_of(alloc: Global, tested: &Tested, ty: &Ty) -> Option<List<CItem>>
    ensures { Gives result (items_of (known tested.now) ty.now) }
{
    match tested.function_of(alloc, ty) {
        Err(_) => None,
        Ok(name) => function_named(alloc, tested, ty, name),
    }
}

fn function_named(
    alloc: Global,
    tested: &Tested,
    ty: &Ty,
    name: Option<Text>,
) -> Option<List<CItem>>
    ensures { Gives result (items_named (known tested.now) ty.now name) }
{
    match name {
        None => Some(List::new(alloc)),
        Some(name) => function_with(alloc, tested.types, ty, name, body_of(alloc, tested, ty)),
    }
}

fn function_with(
    alloc: Global,
    types: &CTypes,
    ty: &Ty,
    name: Text,
    body: Result<Option<List<CStm>>, AllocError>,
) -> Option<List<CItem>>
    ensures { (b : Option (List CStm)) → IfOk body (λ it. it ≡ b) → Gives result (items_with (gathered types.now) name ty.now b) }
{
    match body {
        Err(_) => None,
        Ok(None) => Some(List::new(alloc)),
        Ok(Some(body)) => {
            let head = head(alloc, types, Linkage::Static, Some(name), ty);
            of_one(alloc, function(alloc, head, Some(body)))
        }
    }
}

/// The head of a function that tells whether an object of the type holds a value.
pub(crate) fn head(
    alloc: Global,
    types: &CTypes,
    linkage: Linkage,
    name: Option<Text>,
    ty: &Ty,
) -> Option<Box<CHead>>
    ensures { (n : List ℕ) → Gives name n → Gives result (head_told (gathered types.now) linkage n ty.now) }
{
    match (name, of_one(alloc, value_of(alloc, types, ty))) {
        (Some(name), Some(parameters)) => {
            let head = CHead {
                linkage,
                result: Some(CType::Bool),
                name,
                parameters,
            };
            Box::new(alloc, head).ok()
        }
        _ => None,
    }
}

// The parameter: a pointer to the object, through which nothing is written.
fn value_of(alloc: Global, types: &CTypes, ty: &Ty) -> Option<Box<CParameter>>
    ensures { Gives result (parameter_told (c_type (gathered types.now) ty.now) passing.Read (codes "value")) }
{
    match types.c_type(alloc, ty) {
        Ok(ty) => parameter(alloc, ty, Passing::Read, text(alloc, b"value").ok()),
        Err(_) => None,
    }
}
