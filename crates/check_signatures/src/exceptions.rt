ghost use Rattle.std.specs.Prelude.{◌≡◌, ◌++◌, Some, option_map, codes, IfOk};
ghost use Rattle.hume_model.specs.OwnExceptions.{own_exceptions as own, plain_exception};
ghost use Rattle.check_rules.specs.Declared.{exception_of};
ghost use Rattle.check_signatures.specs.inner.Named.{exception_by, exceptions_in};

use crate::types::written;
use check_tables::names::NameTable;
use hume_ast::{Decl, TyExp};
use hume_base::{List, Text};
use hume_model::ExnDef;
use std::alloc::{AllocError, Global};

/// The exceptions that every program has, and after them these.
pub(crate) fn all_exceptions(
    alloc: Global,
    declared: List<ExnDef>,
) -> Result<List<ExnDef>, AllocError>
    ensures { IfOk result (λ exns. exns ≡ own ++ declared) }
{
    let mut exns = own_exceptions(alloc)?;
    exns.append(declared)?;
    Ok(exns)
}

fn own_exceptions(alloc: Global) -> Result<List<ExnDef>, AllocError>
    ensures { IfOk result (λ exns. exns ≡ own) }
{
    let mut exns = List::new(alloc);
    exns.push(plain(alloc, b"DivZero")?)?;
    exns.push(plain(alloc, b"Range")?)?;
    exns.push(plain(alloc, b"NoCase")?)?;
    Ok(exns)
}

fn plain(alloc: Global, name: &[u8]) -> Result<ExnDef, AllocError>
    ensures { IfOk result (λ exn. exn ≡ plain_exception name.now) }
{
    let name = Text::from_bytes(alloc, name)?;
    Ok(ExnDef {
        name,
        carries: None,
    })
}

/// The exceptions that are declared, if what each carries is a type.
#[tactic(auto, using(crate::proofs::Gathered::gathered_steps))]
pub(crate) fn declared_exceptions(
    alloc: Global,
    names: &NameTable,
    decls: &[(u32, Decl)],
) -> Result<Option<List<ExnDef>>, AllocError>
    ensures { IfOk result (λ found. found ≡ exceptions_in names.now decls.now) }
{
    let mut exns = List::new(alloc);
    for d in decls {
        match exception_in(alloc, names, d)? {
            None => {}
            Some(None) => return Ok(None),
            Some(Some(exn)) => exns.push(exn)?,
        }
    }
    Ok(Some(exns))
}

// The exception of a declaration, if it is of one; that may carry no type.
fn exception_in(
    alloc: Global,
    names: &NameTable,
    d: &(u32, Decl),
) -> Result<Option<Option<ExnDef>>, AllocError>
    ensures { IfOk result (λ found. found ≡ option_map (exception_by names.now) (exception_of d.now)) }
{
    match &d.1 {
        Decl::Exn(name, carried) => {
            let exn = exception(alloc, names, name, carried)?;
            Ok(Some(exn))
        }
        _ => Ok(None),
    }
}

fn exception(
    alloc: Global,
    names: &NameTable,
    name: &Text,
    carried: &Option<TyExp>,
) -> Result<Option<ExnDef>, AllocError>
    ensures { IfOk result (λ found. found ≡ exception_by names.now (name.now, carried.now)) }
{
    match carried {
        None => Ok(Some(plain(alloc, name.bytes())?)),
        Some(ty) => carrying(alloc, names, name, ty),
    }
}

fn carrying(
    alloc: Global,
    names: &NameTable,
    name: &Text,
    ty: &TyExp,
) -> Result<Option<ExnDef>, AllocError>
    ensures { IfOk result (λ found. found ≡ exception_by names.now (name.now, Some ty.now)) }
{
    match written(alloc, names, ty)? {
        None => Ok(None),
        Some(ty) => {
            let name = name.copy()?;
            Ok(Some(ExnDef {
                name,
                carries: Some(ty),
            }))
        }
    }
}
