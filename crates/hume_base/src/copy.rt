//! Copies of values and types, and whether two types are the same.
ghost use Rattle.std.specs.Prelude.{◌≡◌, ◌↔◌, IsTrue, IfOk};

use crate::list::List;
use crate::shared::Shared;
use crate::types::{Ty, Value};
use std::alloc::{AllocError, Global};

#[cycle(copy_value)]
pub fn copy_value(alloc: Global, value: &Value) -> Result<Value, AllocError>
    ensures { IfOk result (λ copy. copy ≡ value.now) }
{
    match value {
        Value::Word(word) => Ok(Value::Word(*word)),
        Value::Tuple(parts) => Ok(Value::Tuple(copy_values(alloc, parts.as_slice())?)),
        Value::Vector(parts) => Ok(Value::Vector(copy_values(alloc, parts.as_slice())?)),
        Value::Con(place, parts) => Ok(Value::Con(*place, copy_values(alloc, parts.as_slice())?)),
    }
}

#[cycle(copy_value)]
pub fn copy_values(alloc: Global, values: &[Value]) -> Result<List<Value>, AllocError>
    ensures { IfOk result (λ copies. copies ≡ values.now) }
{
    let mut copies = List::new(alloc);
    for value in values {
        copies.push(copy_value(alloc, value)?)?;
    }
    Ok(copies)
}

/// A type whose parts are shared with `ty`, so that only one level is copied.
pub fn copy_ty(alloc: Global, ty: &Ty) -> Result<Ty, AllocError>
    ensures { IfOk result (λ copy. copy ≡ ty.now) }
{
    match ty {
        Ty::Bool => Ok(Ty::Bool),
        Ty::Char => Ok(Ty::Char),
        Ty::Int(bits) => Ok(Ty::Int(*bits)),
        Ty::Nat(bits) => Ok(Ty::Nat(*bits)),
        Ty::Tuple(parts) => Ok(Ty::Tuple(share_tys(alloc, parts.as_slice())?)),
        Ty::Vector(count, item) => Ok(Ty::Vector(*count, item.share()?)),
        Ty::Named(number) => Ok(Ty::Named(*number)),
    }
}

/// Copies of types, each of one level.
pub fn copy_tys(alloc: Global, tys: &[Ty]) -> Result<List<Ty>, AllocError>
    ensures { IfOk result (λ copies. copies ≡ tys.now) }
{
    let mut copies = List::new(alloc);
    for ty in tys {
        copies.push(copy_ty(alloc, ty)?)?;
    }
    Ok(copies)
}

/// The same types, each shared.
pub fn share_tys(alloc: Global, tys: &[Shared<Ty>]) -> Result<List<Shared<Ty>>, AllocError>
    ensures { IfOk result (λ shared. shared ≡ tys.now) }
{
    let mut shared = List::new(alloc);
    for ty in tys {
        shared.push(ty.share()?)?;
    }
    Ok(shared)
}

/// Whether two types are the same. A derived `==` would say nothing to a caller's proof.
#[cycle(same_ty)]
pub fn same_ty(left: &Ty, right: &Ty) -> bool
    ensures { IsTrue result ↔ (left.now ≡ right.now) }
{
    match (left, right) {
        (Ty::Bool, Ty::Bool) => true,
        (Ty::Char, Ty::Char) => true,
        (Ty::Int(m), Ty::Int(n)) => *m == *n,
        (Ty::Nat(m), Ty::Nat(n)) => *m == *n,
        (Ty::Tuple(xs), Ty::Tuple(ys)) => same_tys(xs.as_slice(), ys.as_slice()),
        (Ty::Vector(m, x), Ty::Vector(n, y)) => *m == *n && same_ty(x, y),
        (Ty::Named(m), Ty::Named(n)) => *m == *n,
        _ => false,
    }
}

#[cycle(same_ty)]
fn same_tys(lefts: &[Shared<Ty>], rights: &[Shared<Ty>]) -> bool
    ensures { IsTrue result ↔ (lefts.now ≡ rights.now) }
{
    if lefts.len() != rights.len() {
        return false;
    }
    for i in 0..lefts.len() {
        if !same_ty(&lefts[i], &rights[i]) {
            return false;
        }
    }
    true
}
