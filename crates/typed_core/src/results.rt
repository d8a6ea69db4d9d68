//! Erasing the result of a rule or a handler.
ghost use Rattle.std.specs.Prelude.{◌≡◌, [], ◌∷◌, ◌++◌, map, IfOk, OnOk};
ghost use Rattle.std.specs.Option.{option_map};
ghost use Rattle.hume_model.specs.declared.core_tree.PatC.{PatC as Pattern};
ghost use Rattle.hume_model.specs.declared.core_tree.Res.TheVariants as res;
ghost use Rattle.hume_model.specs.Forms.{forms_of as forms_told};
ghost use Rattle.typed_core.specs.declared.typed_tree.TypedResult.{TypedResult as Tree};
ghost use Rattle.typed_core.specs.Erasing.{erased, erased_result};

use crate::expressions::erase_boxed;
use crate::patterns::copy_pattern;
use crate::typed_tree::{TypedExpr, TypedResult};
use hume_base::{Box, List, Ty};
use hume_model::{Expr, PatC, Res, forms_of};
use std::alloc::{AllocError, Global};

/// The core's result.
pub fn erase_result(alloc: Global, given: &TypedResult) -> Result<Res, AllocError>
    ensures { IfOk result (λ core. core ≡ erased_result given.now) }
{
    Ok(erase_boxed_result(alloc, given)?.into_inner())
}

/// The core's result behind a box.
#[cycle(erase_boxed_result)]
#[tactic(auto, using(crate::proofs::Erased::erase_steps))]
pub(crate) fn erase_boxed_result(alloc: Global, given: &TypedResult) -> Result<Box<Res>, AllocError>
    ensures { IfOk result (λ core. core ≡ erased_result given.now) }
{
    match given {
        TypedResult::Outs(outs) => {
            Box::new(alloc, Res::Outs(erase_outs(alloc, outs.as_slice())?))
        }
        TypedResult::If(test, when_true, when_false) => {
            erase_if(alloc, test, when_true, when_false)
        }
        TypedResult::Case(of, part, arms) => erase_case(alloc, of, part, arms),
        TypedResult::Let(_, part, body) => erase_let(alloc, part, body),
        TypedResult::Raise(exn, None) => Box::new(alloc, Res::Raise(*exn, None)),
        TypedResult::Raise(exn, Some(part)) => {
            let part = erase_boxed(alloc, part)?;
            Box::new(alloc, Res::Raise(*exn, Some(part.into_inner())))
        }
    }
}

#[cycle(erase_boxed_result)]
fn erase_if(
    alloc: Global,
    test: &TypedExpr,
    when_true: &Box<TypedResult>,
    when_false: &Box<TypedResult>,
) -> Result<Box<Res>, AllocError>
    ensures { IfOk result (λ core. core
        ≡ res.If (erased test.now) (erased_result when_true.now) (erased_result when_false.now)) }
{
    let test = erase_boxed(alloc, test)?;
    let when_true = erase_boxed_result(alloc, when_true.get())?;
    let when_false = erase_boxed_result(alloc, when_false.get())?;
    Box::new(alloc, Res::If(test.into_inner(), when_true, when_false))
}

#[cycle(erase_boxed_result)]
fn erase_case(
    alloc: Global,
    of: &Ty,
    part: &TypedExpr,
    arms: &List<(PatC, TypedResult)>,
) -> Result<Box<Res>, AllocError>
    ensures { IfOk result (λ core. core ≡ res.Case (erased part.now) (forms_told of.now)
        (map (λ (arm : Pattern × Tree). (arm.0, erased_result arm.1)) arms.now)) }
{
    let part = erase_boxed(alloc, part)?;
    let arms = erase_arms(alloc, arms.as_slice())?;
    Box::new(alloc, Res::Case(part.into_inner(), forms_of(of), arms))
}

#[cycle(erase_boxed_result)]
fn erase_let(
    alloc: Global,
    part: &TypedExpr,
    body: &Box<TypedResult>,
) -> Result<Box<Res>, AllocError>
    ensures { IfOk result (λ core. core ≡ res.Let (erased part.now) (erased_result body.now)) }
{
    let part = erase_boxed(alloc, part)?;
    let body = erase_boxed_result(alloc, body.get())?;
    Box::new(alloc, Res::Let(part.into_inner(), body))
}

#[cycle(erase_boxed_result)]
#[tactic(auto, using(crate::proofs::Erased::erase_steps))]
fn erase_arms(alloc: Global, arms: &[(PatC, TypedResult)]) -> Result<List<(PatC, Res)>, AllocError>
    ensures { IfOk result (λ core. core ≡ map (λ (arm : Pattern × Tree). (arm.0, erased_result arm.1)) arms.now) }
{
    let mut core = List::new(alloc);
    for arm in arms {
        let body = erase_boxed_result(alloc, &arm.1)?;
        put_arm(alloc, &mut core, &arm.0, body)?;
    }
    Ok(core)
}

fn put_arm(
    alloc: Global,
    arms: &mut List<(PatC, Res)>,
    pattern: &PatC,
    body: Box<Res>,
) -> Result<(), AllocError>
    ensures { OnOk result (arms.new ≡ arms.old ++ (pattern.now, body) ∷ []) }
{
    arms.push((copy_pattern(alloc, pattern)?, body.into_inner()))
}

fn erase_outs(alloc: Global, outs: &[Option<TypedExpr>]) -> Result<List<Option<Expr>>, AllocError>
    ensures { IfOk result (λ core. core ≡ map (option_map erased) outs.now) }
{
    let mut core = List::new(alloc);
    for out in outs {
        put_out(alloc, &mut core, out)?;
    }
    Ok(core)
}

fn put_out(
    alloc: Global,
    outs: &mut List<Option<Expr>>,
    out: &Option<TypedExpr>,
) -> Result<(), AllocError>
    ensures { OnOk result (outs.new ≡ outs.old ++ option_map erased out.now ∷ []) }
{
    match out {
        None => outs.push(None),
        Some(e) => {
            let e = erase_boxed(alloc, e)?;
            outs.push(Some(e.into_inner()))
        }
    }
}
