//! Results of rules and handlers with their numbers moved up.
ghost use Rattle.std.specs.Prelude.{◌≡◌, map, IfOk};
ghost use Rattle.std.specs.Option.{option_map};
ghost use Rattle.hume_model.specs.declared.core_tree.PatC.{PatC as Pattern};
ghost use Rattle.hume_model.specs.declared.core_tree.Res.{Res as Tree};
ghost use Rattle.hume_model.specs.declared.core_tree.Res.TheVariants as res;
ghost use Rattle.union_laws.specs.Moving.{moved, moved_forms, moved_result};

use crate::expressions::{move_expression, move_maybe};
use crate::gathering::{both, pushed};
use crate::numbers::raised_exn;
use crate::patterns::copy_pattern;
use crate::types::move_forms;
use hume_base::{Box, List};
use hume_model::{Expr, Forms, PatC, Res};
use std::alloc::{AllocError, Global};
use union_laws::Moves;

#[cycle(move_result)]
#[tactic(auto, using(crate::proofs::Moves::move_steps))]
pub(crate) fn move_result(alloc: Global, moves: Moves, given: &Res) -> Result<Res, AllocError>
    ensures { IfOk result (λ higher. higher ≡ moved_result moves given.now) }
{
    match given {
        Res::Outs(outs) => Ok(Res::Outs(move_outs(alloc, moves, outs.as_slice())?)),
        Res::If(test, when_true, when_false) => {
            move_if(alloc, moves, test, when_true, when_false)
        }
        Res::Case(part, forms, arms) => move_case(alloc, moves, part, *forms, arms),
        Res::Let(part, body) => move_let(alloc, moves, part, body),
        Res::Raise(exn, part) => Ok(Res::Raise(
            raised_exn(moves, *exn)?,
            move_maybe(alloc, moves, part)?,
        )),
    }
}

#[cycle(move_result)]
fn move_if(
    alloc: Global,
    moves: Moves,
    test: &Expr,
    when_true: &Box<Res>,
    when_false: &Box<Res>,
) -> Result<Res, AllocError>
    ensures { IfOk result (λ higher. higher ≡ res.If (moved moves test.now) (moved_result moves when_true.now) (moved_result moves when_false.now)) }
{
    let when_true = move_part(alloc, moves, when_true)?;
    let when_false = move_part(alloc, moves, when_false)?;
    let test = move_expression(alloc, moves, test)?;
    Ok(Res::If(test, when_true, when_false))
}

#[cycle(move_result)]
fn move_case(
    alloc: Global,
    moves: Moves,
    part: &Expr,
    forms: Forms,
    arms: &List<(PatC, Res)>,
) -> Result<Res, AllocError>
    ensures { IfOk result (λ higher. higher ≡ res.Case (moved moves part.now) (moved_forms moves forms)
        (map (λ (arm : Pattern × Tree). (arm.0, moved_result moves arm.1)) arms.now)) }
{
    let forms = move_forms(moves, forms)?;
    let arms = move_arms(alloc, moves, arms.as_slice())?;
    let part = move_expression(alloc, moves, part)?;
    Ok(Res::Case(part, forms, arms))
}

#[cycle(move_result)]
fn move_let(alloc: Global, moves: Moves, part: &Expr, body: &Box<Res>) -> Result<Res, AllocError>
    ensures { IfOk result (λ higher. higher ≡ res.Let (moved moves part.now) (moved_result moves body.now)) }
{
    let body = move_part(alloc, moves, body)?;
    Ok(Res::Let(move_expression(alloc, moves, part)?, body))
}

#[cycle(move_result)]
fn move_part(alloc: Global, moves: Moves, part: &Box<Res>) -> Result<Box<Res>, AllocError>
    ensures { IfOk result (λ higher. higher ≡ moved_result moves part.now) }
{
    Box::new(alloc, move_result(alloc, moves, part.get())?)
}

#[cycle(move_result)]
#[tactic(auto, using(crate::proofs::Moves::move_steps))]
fn move_arms(
    alloc: Global,
    moves: Moves,
    arms: &[(PatC, Res)],
) -> Result<List<(PatC, Res)>, AllocError>
    ensures { IfOk result (λ higher. higher ≡ map (λ (arm : Pattern × Tree). (arm.0, moved_result moves arm.1)) arms.now) }
{
    let mut higher = Ok(List::new(alloc));
    for arm in arms {
        let pattern = copy_pattern(alloc, &arm.0);
        let body = move_result(alloc, moves, &arm.1);
        higher = pushed(higher, both(pattern, body));
    }
    higher
}

fn move_outs(
    alloc: Global,
    moves: Moves,
    outs: &[Option<Expr>],
) -> Result<List<Option<Expr>>, AllocError>
    ensures { IfOk result (λ higher. higher ≡ map (option_map (moved moves)) outs.now) }
{
    let mut higher = Ok(List::new(alloc));
    for out in outs {
        higher = pushed(higher, move_maybe(alloc, moves, out));
    }
    higher
}
