ghost use Rattle.std.specs.Prelude.{◌≡◌, Some, option_map, IfOk};
ghost use Rattle.check_typing.specs.Partial.{given};
ghost use Rattle.check_typing.specs.Declarations.{parted};
ghost use Rattle.check_rules.specs.Declared.{function_of};
ghost use Rattle.check_signatures.specs.inner.Named.{signature_of, signature_by, function_by, functions_in};

use crate::names::declaration;
use crate::types::written_all;
use check_tables::names::NameTable;
use check_typing::Signature;
use hume_ast::{Decl, TyExp};
use hume_base::{List, Shared, Text, Ty, copy_ty};
use std::alloc::{AllocError, Global};

/// The functions in the order of their numbers, if their types are types.
#[tactic(auto, using(crate::proofs::Gathered::gathered_steps))]
pub(crate) fn ordered_functions(
    alloc: Global,
    names: &NameTable,
    decls: &[(u32, Decl)],
    order: &[u32],
) -> Result<Option<List<Signature>>, AllocError>
    ensures { IfOk result (λ found. found ≡ functions_in names.now decls.now order.now) }
{
    let mut funs = List::new(alloc);
    for number in order {
        match function_in(alloc, names, declaration(decls, *number))? {
            None => {}
            Some(None) => return Ok(None),
            Some(Some(function)) => funs.push(function)?,
        }
    }
    Ok(Some(funs))
}

// The function of a declaration, if it is of one; that may have no signature.
fn function_in(
    alloc: Global,
    names: &NameTable,
    d: Option<&(u32, Decl)>,
) -> Result<Option<Option<Signature>>, AllocError>
    ensures { IfOk result (λ found. found
        ≡ option_map (function_by names.now) (given (option_map (λ one. one.now) d.entry) function_of)) }
{
    let Some(d) = d else {
        return Ok(None);
    };
    match &d.1 {
        Decl::Fun(name, tys, _) => {
            let signature = signature(alloc, names, name, tys.as_slice())?;
            Ok(Some(signature))
        }
        _ => Ok(None),
    }
}

fn signature(
    alloc: Global,
    names: &NameTable,
    name: &Text,
    tys: &[TyExp],
) -> Result<Option<Signature>, AllocError>
    ensures { IfOk result (λ found. found ≡ signature_by names.now name.now tys.now) }
{
    match written_all(alloc, names, tys)? {
        None => Ok(None),
        Some(tys) => parted_signature(alloc, name, tys),
    }
}

// The last type is that of what the function gives.
#[tactic(auto, using(crate::proofs::Steps::parted_steps))]
fn parted_signature(
    alloc: Global,
    name: &Text,
    tys: List<Shared<Ty>>,
) -> Result<Option<Signature>, AllocError>
    ensures { IfOk result (λ found. found ≡ given (parted tys) (λ p. Some (signature_of name.now p.0 p.1))) }
{
    let mut params = tys.into_vec();
    match params.pop() {
        None => Ok(None),
        Some(gives) => {
            let name = name.copy()?;
            let gives = copy_ty(alloc, &gives)?;
            Ok(Some(Signature {
                name,
                params: List::from_vec(params),
                gives,
            }))
        }
    }
}
