//! The types that are written.
ghost use Rattle.std.specs.Prelude.{◌≡◌, Some, IfOk};
ghost use Rattle.hume_base.specs.declared.types.Ty.{Int as IntTy, Nat as NatTy, Named as NamedTy, Vector as VectorTy, Tuple as TupleTy};
ghost use Rattle.check_typing.specs.Partial.{given, when};
ghost use Rattle.check_typing.specs.WrittenTypes.{written as written_type, all_written, is_width as is_width_of, is_length as is_length_of};

use check_scopes::signatures::SignatureTable;
use hume_ast::TyExp;
use hume_base::limits::{MAX_LENGTH, MAX_WIDTH};
use hume_base::{List, Shared, Ty};
use std::alloc::{AllocError, Global};

/// The type that is written, if it is one.
#[cycle(written)]
#[tactic(auto, using(crate::proofs::types_lemmas::Steps::type_steps))]
pub fn written(alloc: Global, table: &SignatureTable, ty: &TyExp) -> Result<Option<Ty>, AllocError>
    ensures { IfOk result (λ found. found ≡ written_type table.now.types ty.now) }
{
    match ty {
        TyExp::Bool => Ok(Some(Ty::Bool)),
        TyExp::Char => Ok(Some(Ty::Char)),
        TyExp::Int(bits) => Ok(int(*bits)),
        TyExp::Nat(bits) => Ok(nat(*bits)),
        TyExp::Vector(count, item) => vector(alloc, table, *count, item),
        TyExp::Named(name) => Ok(named(table.data_type(name.bytes()))),
        TyExp::Tuple(parts) => tuple(alloc, table, parts.as_slice()),
    }
}

#[cycle(written)]
#[tactic(auto, using(crate::proofs::types_lemmas::Steps::type_steps))]
fn vector(
    alloc: Global,
    table: &SignatureTable,
    count: u64,
    item: &TyExp,
) -> Result<Option<Ty>, AllocError>
    ensures { IfOk result (λ found. found
        ≡ when (is_length_of count) (given (written_type table.now.types item.now) (λ ty. Some (VectorTy count ty)))) }
{
    if !is_length(count) {
        return Ok(None);
    }
    match written(alloc, table, item)? {
        None => Ok(None),
        Some(item) => Ok(Some(Ty::Vector(count as u32, Shared::new(alloc, item)?))),
    }
}

#[cycle(written)]
#[tactic(auto, using(crate::proofs::types_lemmas::Steps::type_steps))]
fn tuple(alloc: Global, table: &SignatureTable, parts: &[TyExp]) -> Result<Option<Ty>, AllocError>
    ensures { IfOk result (λ found. found ≡ given (all_written table.now.types parts.now) (λ tys. Some (TupleTy tys))) }
{
    match written_all(alloc, table, parts)? {
        None => Ok(None),
        Some(parts) => Ok(Some(Ty::Tuple(parts))),
    }
}

// Several types, if each of them is one.
#[cycle(written)]
#[tactic(auto, using(crate::proofs::types_lemmas::Steps::type_steps))]
fn written_all(
    alloc: Global,
    table: &SignatureTable,
    tys: &[TyExp],
) -> Result<Option<List<Shared<Ty>>>, AllocError>
    ensures { IfOk result (λ found. found ≡ all_written table.now.types tys.now) }
{
    let mut found = List::new(alloc);
    for ty in tys {
        match written(alloc, table, ty)? {
            None => return Ok(None),
            Some(ty) => found.push(Shared::new(alloc, ty)?)?,
        }
    }
    Ok(Some(found))
}

fn int(bits: u64) -> Option<Ty>
    ensures { result ≡ when (is_width_of bits) (Some (IntTy bits)) }
{
    if !is_width(bits) {
        return None;
    }
    Some(Ty::Int(bits as u8))
}

fn nat(bits: u64) -> Option<Ty>
    ensures { result ≡ when (is_width_of bits) (Some (NatTy bits)) }
{
    if !is_width(bits) {
        return None;
    }
    Some(Ty::Nat(bits as u8))
}

fn named(number: Option<u32>) -> Option<Ty>
    ensures { result ≡ given number (λ n. Some (NamedTy n)) }
{
    match number {
        None => None,
        Some(number) => Some(Ty::Named(number)),
    }
}

fn is_width(bits: u64) -> bool
    ensures { result ≡ is_width_of bits }
{
    1 <= bits && bits <= u64::from(MAX_WIDTH)
}

fn is_length(count: u64) -> bool
    ensures { result ≡ is_length_of count }
{
    1 <= count && count <= u64::from(MAX_LENGTH)
}
