//! The types that are written.
ghost use Rattle.std.specs.Prelude.{◌≡◌, Some, IfOk};
ghost use Rattle.hume_base.specs.declared.types.Ty.{Int as IntTy, Nat as NatTy, Named as NamedTy, Vector as VectorTy, Tuple as TupleTy};
ghost use Rattle.check_typing.specs.Partial.{given, when};
ghost use Rattle.check_typing.specs.WrittenTypes.{is_width as is_width_of, is_length as is_length_of};
ghost use Rattle.check_signatures.specs.inner.Named.{written_by, all_by};

use check_tables::names::NameTable;
use hume_ast::TyExp;
use hume_base::limits::{MAX_LENGTH, MAX_WIDTH};
use hume_base::{List, Shared, Ty};
use std::alloc::{AllocError, Global};

/// The type that is written, by the numbers of data types.
#[cycle(written)]
#[tactic(auto, using(crate::proofs::Steps::type_steps))]
pub(crate) fn written(
    alloc: Global,
    names: &NameTable,
    ty: &TyExp,
) -> Result<Option<Ty>, AllocError>
    ensures { IfOk result (λ found. found ≡ written_by names.now ty.now) }
{
    match ty {
        TyExp::Bool => Ok(Some(Ty::Bool)),
        TyExp::Char => Ok(Some(Ty::Char)),
        TyExp::Int(bits) => Ok(int(*bits)),
        TyExp::Nat(bits) => Ok(nat(*bits)),
        TyExp::Vector(count, item) => vector(alloc, names, *count, item),
        TyExp::Named(name) => named(names.find(name.bytes())),
        TyExp::Tuple(parts) => tuple(alloc, names, parts.as_slice()),
    }
}

#[cycle(written)]
#[tactic(auto, using(crate::proofs::Steps::type_steps))]
fn vector(
    alloc: Global,
    names: &NameTable,
    count: u64,
    item: &TyExp,
) -> Result<Option<Ty>, AllocError>
    ensures { IfOk result (λ found. found
        ≡ when (is_length_of count) (given (written_by names.now item.now) (λ ty. Some (VectorTy count ty)))) }
{
    if !is_length(count) {
        return Ok(None);
    }
    match written(alloc, names, item)? {
        None => Ok(None),
        Some(item) => Ok(Some(Ty::Vector(count as u32, Shared::new(alloc, item)?))),
    }
}

#[cycle(written)]
#[tactic(auto, using(crate::proofs::Steps::type_steps))]
fn tuple(alloc: Global, names: &NameTable, parts: &[TyExp]) -> Result<Option<Ty>, AllocError>
    ensures { IfOk result (λ found. found ≡ given (all_by names.now parts.now) (λ tys. Some (TupleTy tys))) }
{
    match written_all(alloc, names, parts)? {
        None => Ok(None),
        Some(parts) => Ok(Some(Ty::Tuple(parts))),
    }
}

/// Several types, if each of them is one.
#[cycle(written)]
#[tactic(auto, using(crate::proofs::Steps::type_steps))]
pub(crate) fn written_all(
    alloc: Global,
    names: &NameTable,
    tys: &[TyExp],
) -> Result<Option<List<Shared<Ty>>>, AllocError>
    ensures { IfOk result (λ found. found ≡ all_by names.now tys.now) }
{
    let mut found = List::new(alloc);
    for ty in tys {
        match written(alloc, names, ty)? {
            None => return Ok(None),
            Some(ty) => found.push(Shared::new(alloc, ty)?)?,
        }
    }
    Ok(Some(found))
}

fn int(bits: u64) -> Option<Ty>
    ensures { result ≡ when (is_width_of bits) (Some (IntTy bits)) }
{
    if !is_width(bits) {
        return None;
    }
    Some(Ty::Int(bits as u8))
}

fn nat(bits: u64) -> Option<Ty>
    ensures { result ≡ when (is_width_of bits) (Some (NatTy bits)) }
{
    if !is_width(bits) {
        return None;
    }
    Some(Ty::Nat(bits as u8))
}

// Memory is wanted where a number has more than 32 bits.
fn named(number: Option<usize>) -> Result<Option<Ty>, AllocError>
    ensures { IfOk result (λ found. found ≡ given number (λ n. Some (NamedTy n))) }
{
    match number {
        None => Ok(None),
        Some(number) => match u32::try_from(number) {
            Ok(number) => Ok(Some(Ty::Named(number))),
            Err(_) => Err(AllocError),
        },
    }
}

fn is_width(bits: u64) -> bool
    ensures { result ≡ is_width_of bits }
{
    1 <= bits && bits <= u64::from(MAX_WIDTH)
}

fn is_length(count: u64) -> bool
    ensures { result ≡ is_length_of count }
{
    1 <= count && count <= u64::from(MAX_LENGTH)
}
