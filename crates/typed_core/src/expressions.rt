//! Erasing an expression.
ghost use Rattle.std.specs.Prelude.{◌≡◌, [], ◌∷◌, ◌++◌, map, IfOk, OnOk};
ghost use Rattle.hume_model.specs.declared.core_tree.Expr.TheVariants as expr;
ghost use Rattle.hume_model.specs.declared.core_tree.Op.TheVariants.{Convert};
ghost use Rattle.hume_model.specs.declared.core_tree.PatC.{PatC as Pattern};
ghost use Rattle.hume_model.specs.Forms.{forms_of as forms_told};
ghost use Rattle.typed_core.specs.declared.typed_tree.TypedExpr.{TypedExpr as Tree};
ghost use Rattle.typed_core.specs.Erasing.{count_of as count_told, erased};

use crate::patterns::copy_pattern;
use crate::typed_tree::TypedExpr;
use crate::vectors::count_of;
use hume_base::{Box, List, Ty, copy_ty};
use hume_model::{Expr, Op, PatC, forms_of};
use std::alloc::{AllocError, Global};

/// The core's expression.
pub fn erase_expression(alloc: Global, e: &TypedExpr) -> Result<Expr, AllocError>
    ensures { IfOk result (λ core. core ≡ erased e.now) }
{
    Ok(erase_boxed(alloc, e)?.into_inner())
}

/// The core's expression behind a box.
#[cycle(erase_boxed)]
#[tactic(auto, using(crate::proofs::Erased::erase_steps))]
pub(crate) fn erase_boxed(alloc: Global, e: &TypedExpr) -> Result<Box<Expr>, AllocError>
    ensures { IfOk result (λ core. core ≡ erased e.now) }
{
    match e {
        TypedExpr::Word(word) => Box::new(alloc, Expr::Word(*word)),
        TypedExpr::Var(number) => Box::new(alloc, Expr::Var(*number)),
        TypedExpr::Con(place, parts) => {
            Box::new(alloc, Expr::Con(*place, erase_parts(alloc, parts)?))
        }
        TypedExpr::Tuple(parts) => Box::new(alloc, Expr::Tuple(erase_parts(alloc, parts)?)),
        TypedExpr::Vect(parts) => Box::new(alloc, Expr::Vect(erase_parts(alloc, parts)?)),
        TypedExpr::Prim(op, of, parts) => operation(alloc, *op, of, erase_parts(alloc, parts)?),
        TypedExpr::Convert(_, to, part) => conversion(alloc, to, erase_boxed(alloc, part.get())?),
        TypedExpr::Index(of, _, vector, place) => erase_index(alloc, of, vector, place),
        TypedExpr::Update(of, _, vector, place, item) => {
            erase_update(alloc, of, vector, place, item)
        }
        TypedExpr::If(test, when_true, when_false) => {
            erase_if(alloc, test, when_true, when_false)
        }
        TypedExpr::Case(of, part, arms) => erase_case(alloc, of, part, arms),
        TypedExpr::Let(_, part, body) => erase_let(alloc, part, body),
        TypedExpr::Call(function, parts) => {
            Box::new(alloc, Expr::Call(*function, erase_parts(alloc, parts)?))
        }
        TypedExpr::Raise(exn, None) => Box::new(alloc, Expr::Raise(*exn, None)),
        TypedExpr::Raise(exn, Some(part)) => {
            let part = erase_boxed(alloc, part.get())?;
            Box::new(alloc, Expr::Raise(*exn, Some(part)))
        }
    }
}

fn operation(alloc: Global, op: Op, of: &Ty, parts: List<Expr>) -> Result<Box<Expr>, AllocError>
    ensures { IfOk result (λ core. core ≡ expr.Prim op of.now parts) }
{
    Box::new(alloc, Expr::Prim(op, copy_ty(alloc, of)?, parts))
}

fn conversion(alloc: Global, to: &Ty, part: Box<Expr>) -> Result<Box<Expr>, AllocError>
    ensures { IfOk result (λ core. core ≡ expr.Prim Convert to.now (part ∷ [])) }
{
    let parts = List::of_one(alloc, part.into_inner())?;
    operation(alloc, Op::Convert, to, parts)
}

#[cycle(erase_boxed)]
fn erase_index(
    alloc: Global,
    of: &Ty,
    vector: &Box<TypedExpr>,
    place: &Box<TypedExpr>,
) -> Result<Box<Expr>, AllocError>
    ensures { IfOk result (λ core. core ≡ expr.Index (count_told of.now) (erased vector.now) (erased place.now)) }
{
    let vector = erase_boxed(alloc, vector.get())?;
    let place = erase_boxed(alloc, place.get())?;
    Box::new(alloc, Expr::Index(count_of(of), vector, place))
}

#[cycle(erase_boxed)]
fn erase_update(
    alloc: Global,
    of: &Ty,
    vector: &Box<TypedExpr>,
    place: &Box<TypedExpr>,
    item: &Box<TypedExpr>,
) -> Result<Box<Expr>, AllocError>
    ensures { IfOk result (λ core. core
        ≡ expr.Update (count_told of.now) (erased vector.now) (erased place.now) (erased item.now)) }
{
    let vector = erase_boxed(alloc, vector.get())?;
    let place = erase_boxed(alloc, place.get())?;
    let item = erase_boxed(alloc, item.get())?;
    Box::new(alloc, Expr::Update(count_of(of), vector, place, item))
}

#[cycle(erase_boxed)]
fn erase_if(
    alloc: Global,
    test: &Box<TypedExpr>,
    when_true: &Box<TypedExpr>,
    when_false: &Box<TypedExpr>,
) -> Result<Box<Expr>, AllocError>
    ensures { IfOk result (λ core. core ≡ expr.If (erased test.now) (erased when_true.now) (erased when_false.now)) }
{
    let test = erase_boxed(alloc, test.get())?;
    let when_true = erase_boxed(alloc, when_true.get())?;
    let when_false = erase_boxed(alloc, when_false.get())?;
    Box::new(alloc, Expr::If(test, when_true, when_false))
}

#[cycle(erase_boxed)]
fn erase_case(
    alloc: Global,
    of: &Ty,
    part: &Box<TypedExpr>,
    arms: &List<(PatC, TypedExpr)>,
) -> Result<Box<Expr>, AllocError>
    ensures { IfOk result (λ core. core ≡ expr.Case (erased part.now) (forms_told of.now)
        (map (λ (arm : Pattern × Tree). (arm.0, erased arm.1)) arms.now)) }
{
    let part = erase_boxed(alloc, part.get())?;
    let arms = erase_arms(alloc, arms.as_slice())?;
    Box::new(alloc, Expr::Case(part, forms_of(of), arms))
}

#[cycle(erase_boxed)]
fn erase_let(
    alloc: Global,
    part: &Box<TypedExpr>,
    body: &Box<TypedExpr>,
) -> Result<Box<Expr>, AllocError>
    ensures { IfOk result (λ core. core ≡ expr.Let (erased part.now) (erased body.now)) }
{
    let part = erase_boxed(alloc, part.get())?;
    let body = erase_boxed(alloc, body.get())?;
    Box::new(alloc, Expr::Let(part, body))
}

#[cycle(erase_boxed)]
#[tactic(auto, using(crate::proofs::Erased::erase_steps))]
fn erase_parts(alloc: Global, parts: &List<TypedExpr>) -> Result<List<Expr>, AllocError>
    ensures { IfOk result (λ core. core ≡ map erased parts.now) }
{
    let mut core = List::new(alloc);
    for part in parts.as_slice() {
        let part = erase_boxed(alloc, part)?;
        core.push(part.into_inner())?;
    }
    Ok(core)
}

#[cycle(erase_boxed)]
#[tactic(auto, using(crate::proofs::Erased::erase_steps))]
fn erase_arms(alloc: Global, arms: &[(PatC, TypedExpr)]) -> Result<List<(PatC, Expr)>, AllocError>
    ensures { IfOk result (λ core. core ≡ map (λ (arm : Pattern × Tree). (arm.0, erased arm.1)) arms.now) }
{
    let mut core = List::new(alloc);
    for arm in arms {
        let body = erase_boxed(alloc, &arm.1)?;
        put_arm(alloc, &mut core, &arm.0, body)?;
    }
    Ok(core)
}

fn put_arm(
    alloc: Global,
    arms: &mut List<(PatC, Expr)>,
    pattern: &PatC,
    body: Box<Expr>,
) -> Result<(), AllocError>
    ensures { OnOk result (arms.new ≡ arms.old ++ (pattern.now, body) ∷ []) }
{
    arms.push((copy_pattern(alloc, pattern)?, body.into_inner()))
}
