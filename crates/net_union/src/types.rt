//! Types, data types and exceptions with their numbers moved up.
ghost use Rattle.std.specs.Prelude.{◌≡◌, map, IfOk};
ghost use Rattle.std.specs.Option.{option_map};
ghost use Rattle.union_laws.specs.Moving.{moved_con, moved_data, moved_exception, moved_forms, moved_type};

use crate::gathering::pushed;
use crate::numbers::raised;
use hume_base::{ConDef, List, Shared, SumDef, Ty};
use hume_model::{ExnDef, Forms};
use std::alloc::{AllocError, Global};
use union_laws::Moves;

#[cycle(move_type)]
#[tactic(auto, using(crate::proofs::Moves::move_steps))]
pub(crate) fn move_type(alloc: Global, moves: Moves, ty: &Ty) -> Result<Ty, AllocError>
    ensures { IfOk result (λ higher. higher ≡ moved_type moves ty.now) }
{
    match ty {
        Ty::Bool => Ok(Ty::Bool),
        Ty::Char => Ok(Ty::Char),
        Ty::Int(bits) => Ok(Ty::Int(*bits)),
        Ty::Nat(bits) => Ok(Ty::Nat(*bits)),
        Ty::Tuple(parts) => Ok(Ty::Tuple(move_parts(alloc, moves, parts.as_slice())?)),
        Ty::Vector(count, item) => Ok(Ty::Vector(*count, move_shared(alloc, moves, item)?)),
        Ty::Named(number) => Ok(Ty::Named(raised(*number, moves.types)?)),
    }
}

#[cycle(move_type)]
#[tactic(auto, using(crate::proofs::Moves::move_steps))]
fn move_parts(
    alloc: Global,
    moves: Moves,
    tys: &[Shared<Ty>],
) -> Result<List<Shared<Ty>>, AllocError>
    ensures { IfOk result (λ higher. higher ≡ map (moved_type moves) tys.now) }
{
    let mut higher = Ok(List::new(alloc));
    for ty in tys {
        higher = pushed(higher, move_shared(alloc, moves, ty));
    }
    higher
}

#[cycle(move_type)]
fn move_shared(alloc: Global, moves: Moves, ty: &Shared<Ty>) -> Result<Shared<Ty>, AllocError>
    ensures { IfOk result (λ higher. higher ≡ moved_type moves ty.now) }
{
    Shared::new(alloc, move_type(alloc, moves, ty)?)
}

#[tactic(auto, using(crate::proofs::Moves::move_steps))]
pub(crate) fn move_types(alloc: Global, moves: Moves, tys: &[Ty]) -> Result<List<Ty>, AllocError>
    ensures { IfOk result (λ higher. higher ≡ map (moved_type moves) tys.now) }
{
    let mut higher = Ok(List::new(alloc));
    for ty in tys {
        higher = pushed(higher, move_type(alloc, moves, ty));
    }
    higher
}

/// The forms of values with the number of their data type moved up.
pub(crate) fn move_forms(moves: Moves, forms: Forms) -> Result<Forms, AllocError>
    ensures { IfOk result (λ higher. higher ≡ moved_forms moves forms) }
{
    match forms {
        Forms::Truths => Ok(Forms::Truths),
        Forms::Constructors(number) => Ok(Forms::Constructors(raised(number, moves.types)?)),
        Forms::Others => Ok(Forms::Others),
    }
}

pub(crate) fn move_sums(
    alloc: Global,
    moves: Moves,
    sums: &[SumDef],
) -> Result<List<SumDef>, AllocError>
    ensures { IfOk result (λ higher. higher ≡ map (moved_data moves) sums.now) }
{
    let mut higher = Ok(List::new(alloc));
    for sum in sums {
        higher = pushed(higher, move_sum(alloc, moves, sum));
    }
    higher
}

fn move_sum(alloc: Global, moves: Moves, sum: &SumDef) -> Result<SumDef, AllocError>
    ensures { IfOk result (λ higher. higher ≡ moved_data moves sum.now) }
{
    Ok(SumDef {
        name: sum.name.copy()?,
        cons: move_cons(alloc, moves, sum.cons.as_slice())?,
        words: sum.words,
    })
}

fn move_cons(alloc: Global, moves: Moves, cons: &[ConDef]) -> Result<List<ConDef>, AllocError>
    ensures { IfOk result (λ higher. higher ≡ map (moved_con moves) cons.now) }
{
    let mut higher = Ok(List::new(alloc));
    for con in cons {
        higher = pushed(higher, move_con(alloc, moves, con));
    }
    higher
}

fn move_con(alloc: Global, moves: Moves, con: &ConDef) -> Result<ConDef, AllocError>
    ensures { IfOk result (λ higher. higher ≡ moved_con moves con.now) }
{
    Ok(ConDef {
        name: con.name.copy()?,
        fields: move_parts(alloc, moves, con.fields.as_slice())?,
    })
}

pub(crate) fn move_exceptions(
    alloc: Global,
    moves: Moves,
    exns: &[ExnDef],
) -> Result<List<ExnDef>, AllocError>
    ensures { IfOk result (λ higher. higher ≡ map (moved_exception moves) exns.now) }
{
    let mut higher = Ok(List::new(alloc));
    for exn in exns {
        higher = pushed(higher, move_exception(alloc, moves, exn));
    }
    higher
}

fn move_exception(alloc: Global, moves: Moves, exn: &ExnDef) -> Result<ExnDef, AllocError>
    ensures { IfOk result (λ higher. higher ≡ moved_exception moves exn.now) }
{
    Ok(ExnDef {
        name: exn.name.copy()?,
        carries: move_maybe(alloc, moves, &exn.carries)?,
    })
}

fn move_maybe(alloc: Global, moves: Moves, ty: &Option<Ty>) -> Result<Option<Ty>, AllocError>
    ensures { IfOk result (λ higher. higher ≡ option_map (moved_type moves) ty.now) }
{
    match ty {
        None => Ok(None),
        Some(ty) => Ok(Some(move_type(alloc, moves, ty)?)),
    }
}
