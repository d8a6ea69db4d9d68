//! Copies of data types and exceptions.
ghost use Rattle.std.specs.Prelude.{◌≡◌, IfOk};

use hume_base::{ConDef, List, SumDef, Ty, Types, copy_ty, share_tys};
use hume_model::ExnDef;
use std::alloc::{AllocError, Global};

pub fn copy_types(alloc: Global, types: &Types) -> Result<Types, AllocError>
    ensures { IfOk result (λ copy. copy ≡ types.now) }
{
    Ok(Types {
        sums: copy_sums(alloc, types.sums.as_slice())?,
    })
}

fn copy_sums(alloc: Global, sums: &[SumDef]) -> Result<List<SumDef>, AllocError>
    ensures { IfOk result (λ copies. copies ≡ sums.now) }
{
    let mut copies = List::new(alloc);
    for sum in sums {
        copies.push(copy_sum(alloc, sum)?)?;
    }
    Ok(copies)
}

fn copy_sum(alloc: Global, sum: &SumDef) -> Result<SumDef, AllocError>
    ensures { IfOk result (λ copy. copy ≡ sum.now) }
{
    Ok(SumDef {
        name: sum.name.copy()?,
        cons: copy_cons(alloc, sum.cons.as_slice())?,
        words: sum.words,
    })
}

fn copy_cons(alloc: Global, cons: &[ConDef]) -> Result<List<ConDef>, AllocError>
    ensures { IfOk result (λ copies. copies ≡ cons.now) }
{
    let mut copies = List::new(alloc);
    for con in cons {
        copies.push(copy_con(alloc, con)?)?;
    }
    Ok(copies)
}

fn copy_con(alloc: Global, con: &ConDef) -> Result<ConDef, AllocError>
    ensures { IfOk result (λ copy. copy ≡ con.now) }
{
    Ok(ConDef {
        name: con.name.copy()?,
        fields: share_tys(alloc, con.fields.as_slice())?,
    })
}

pub fn copy_exceptions(alloc: Global, exns: &[ExnDef]) -> Result<List<ExnDef>, AllocError>
    ensures { IfOk result (λ copies. copies ≡ exns.now) }
{
    let mut copies = List::new(alloc);
    for exn in exns {
        copies.push(copy_exception(alloc, exn)?)?;
    }
    Ok(copies)
}

fn copy_exception(alloc: Global, exn: &ExnDef) -> Result<ExnDef, AllocError>
    ensures { IfOk result (λ copy. copy ≡ exn.now) }
{
    Ok(ExnDef {
        name: exn.name.copy()?,
        carries: copy_maybe(alloc, &exn.carries)?,
    })
}

fn copy_maybe(alloc: Global, ty: &Option<Ty>) -> Result<Option<Ty>, AllocError>
    ensures { IfOk result (λ copy. copy ≡ ty.now) }
{
    match ty {
        None => Ok(None),
        Some(ty) => Ok(Some(copy_ty(alloc, ty)?)),
    }
}
