//! Expressions with their numbers moved up.
ghost use Rattle.std.specs.Prelude.{◌≡◌, map, IfOk};
ghost use Rattle.std.specs.Option.{option_map};
ghost use Rattle.hume_model.specs.declared.core_tree.PatC.{PatC as Pattern};
ghost use Rattle.hume_model.specs.declared.core_tree.Expr.{Expr as Tree};
ghost use Rattle.hume_model.specs.declared.core_tree.Expr.TheVariants as expr;
ghost use Rattle.union_laws.specs.Moving.{moved, moved_forms, moved_type};

use crate::gathering::{both, pushed};
use crate::numbers::{raised, raised_exn};
use crate::patterns::copy_pattern;
use crate::types::{move_forms, move_type};
use hume_base::{Box, List, Ty};
use hume_model::{Expr, Forms, Op, PatC};
use std::alloc::{AllocError, Global};
use union_laws::Moves;

#[cycle(move_expression)]
#[tactic(auto, using(crate::proofs::Moves::move_steps))]
pub(crate) fn move_expression(alloc: Global, moves: Moves, e: &Expr) -> Result<Expr, AllocError>
    ensures { IfOk result (λ higher. higher ≡ moved moves e.now) }
{
    match e {
        Expr::Word(word) => Ok(Expr::Word(*word)),
        Expr::Var(number) => Ok(Expr::Var(*number)),
        Expr::Con(place, parts) => Ok(Expr::Con(*place, move_parts(alloc, moves, parts)?)),
        Expr::Tuple(parts) => Ok(Expr::Tuple(move_parts(alloc, moves, parts)?)),
        Expr::Vect(parts) => Ok(Expr::Vect(move_parts(alloc, moves, parts)?)),
        Expr::Prim(op, ty, parts) => move_prim(alloc, moves, *op, ty, parts),
        Expr::Index(count, vector, place) => move_index(alloc, moves, *count, vector, place),
        Expr::Update(count, vector, place, item) => {
            move_update(alloc, moves, *count, vector, place, item)
        }
        Expr::If(test, when_true, when_false) => {
            move_if(alloc, moves, test, when_true, when_false)
        }
        Expr::Case(part, forms, arms) => move_case(alloc, moves, part, *forms, arms),
        Expr::Let(part, body) => move_let(alloc, moves, part, body),
        Expr::Call(function, parts) => Ok(Expr::Call(
            raised(*function, moves.funs)?,
            move_parts(alloc, moves, parts)?,
        )),
        Expr::Raise(exn, None) => Ok(Expr::Raise(raised_exn(moves, *exn)?, None)),
        Expr::Raise(exn, Some(part)) => Ok(Expr::Raise(
            raised_exn(moves, *exn)?,
            Some(move_part(alloc, moves, part)?),
        )),
    }
}

#[cycle(move_expression)]
fn move_prim(
    alloc: Global,
    moves: Moves,
    op: Op,
    ty: &Ty,
    parts: &List<Expr>,
) -> Result<Expr, AllocError>
    ensures { IfOk result (λ higher. higher ≡ expr.Prim op (moved_type moves ty.now) (map (moved moves) parts.now)) }
{
    let parts = move_parts(alloc, moves, parts)?;
    Ok(Expr::Prim(op, move_type(alloc, moves, ty)?, parts))
}

#[cycle(move_expression)]
fn move_index(
    alloc: Global,
    moves: Moves,
    count: u32,
    vector: &Box<Expr>,
    place: &Box<Expr>,
) -> Result<Expr, AllocError>
    ensures { IfOk result (λ higher. higher ≡ expr.Index count (moved moves vector.now) (moved moves place.now)) }
{
    let vector = move_part(alloc, moves, vector)?;
    Ok(Expr::Index(count, vector, move_part(alloc, moves, place)?))
}

#[cycle(move_expression)]
fn move_update(
    alloc: Global,
    moves: Moves,
    count: u32,
    vector: &Box<Expr>,
    place: &Box<Expr>,
    item: &Box<Expr>,
) -> Result<Expr, AllocError>
    ensures { IfOk result (λ higher. higher ≡ expr.Update count (moved moves vector.now) (moved moves place.now) (moved moves item.now)) }
{
    let vector = move_part(alloc, moves, vector)?;
    let place = move_part(alloc, moves, place)?;
    let item = move_part(alloc, moves, item)?;
    Ok(Expr::Update(count, vector, place, item))
}

#[cycle(move_expression)]
fn move_if(
    alloc: Global,
    moves: Moves,
    test: &Box<Expr>,
    when_true: &Box<Expr>,
    when_false: &Box<Expr>,
) -> Result<Expr, AllocError>
    ensures { IfOk result (λ higher. higher ≡ expr.If (moved moves test.now) (moved moves when_true.now) (moved moves when_false.now)) }
{
    let test = move_part(alloc, moves, test)?;
    let when_true = move_part(alloc, moves, when_true)?;
    let when_false = move_part(alloc, moves, when_false)?;
    Ok(Expr::If(test, when_true, when_false))
}

#[cycle(move_expression)]
fn move_case(
    alloc: Global,
    moves: Moves,
    part: &Box<Expr>,
    forms: Forms,
    arms: &List<(PatC, Expr)>,
) -> Result<Expr, AllocError>
    ensures { IfOk result (λ higher. higher ≡ expr.Case (moved moves part.now) (moved_forms moves forms)
        (map (λ (arm : Pattern × Tree). (arm.0, moved moves arm.1)) arms.now)) }
{
    let part = move_part(alloc, moves, part)?;
    let forms = move_forms(moves, forms)?;
    let arms = move_arms(alloc, moves, arms.as_slice())?;
    Ok(Expr::Case(part, forms, arms))
}

#[cycle(move_expression)]
fn move_let(
    alloc: Global,
    moves: Moves,
    part: &Box<Expr>,
    body: &Box<Expr>,
) -> Result<Expr, AllocError>
    ensures { IfOk result (λ higher. higher ≡ expr.Let (moved moves part.now) (moved moves body.now)) }
{
    let part = move_part(alloc, moves, part)?;
    Ok(Expr::Let(part, move_part(alloc, moves, body)?))
}

#[cycle(move_expression)]
fn move_part(alloc: Global, moves: Moves, part: &Box<Expr>) -> Result<Box<Expr>, AllocError>
    ensures { IfOk result (λ higher. higher ≡ moved moves part.now) }
{
    Box::new(alloc, move_expression(alloc, moves, part.get())?)
}

#[cycle(move_expression)]
#[tactic(auto, using(crate::proofs::Moves::move_steps))]
fn move_parts(alloc: Global, moves: Moves, parts: &List<Expr>) -> Result<List<Expr>, AllocError>
    ensures { IfOk result (λ higher. higher ≡ map (moved moves) parts.now) }
{
    let mut higher = Ok(List::new(alloc));
    for part in parts.as_slice() {
        higher = pushed(higher, move_expression(alloc, moves, part));
    }
    higher
}

#[cycle(move_expression)]
#[tactic(auto, using(crate::proofs::Moves::move_steps))]
fn move_arms(
    alloc: Global,
    moves: Moves,
    arms: &[(PatC, Expr)],
) -> Result<List<(PatC, Expr)>, AllocError>
    ensures { IfOk result (λ higher. higher ≡ map (λ (arm : Pattern × Tree). (arm.0, moved moves arm.1)) arms.now) }
{
    let mut higher = Ok(List::new(alloc));
    for arm in arms {
        let pattern = copy_pattern(alloc, &arm.0);
        let body = move_expression(alloc, moves, &arm.1);
        higher = pushed(higher, both(pattern, body));
    }
    higher
}

/// An expression, if there is one.
pub(crate) fn move_maybe(
    alloc: Global,
    moves: Moves,
    e: &Option<Expr>,
) -> Result<Option<Expr>, AllocError>
    ensures { IfOk result (λ higher. higher ≡ option_map (moved moves) e.now) }
{
    match e {
        None => Ok(None),
        Some(e) => Ok(Some(move_expression(alloc, moves, e)?)),
    }
}
