//! Copies of expressions, in which variables may get other numbers. Each form has a function of its own, which is never inlined: so a level
//! of depth takes little of the stack.
ghost use Rattle.std.specs.Prelude.{◌≡◌, IfOk, map};
ghost use Rattle.std.specs.Option.{option_map};
ghost use Rattle.hume_model.specs.declared.core_tree.Expr.{Expr as Expression};
ghost use Rattle.hume_model.specs.declared.core_tree.Expr.TheVariants.{Call as CallExpr, Case as CaseExpr, Con as ConExpr, If as IfExpr};
ghost use Rattle.hume_model.specs.declared.core_tree.Expr.TheVariants.{Index as IndexExpr, Let as LetExpr, Prim as PrimExpr, Raise as RaiseExpr};
ghost use Rattle.hume_model.specs.declared.core_tree.Expr.TheVariants.{Tuple as TupleExpr, Update as UpdateExpr, Vect as VectExpr};
ghost use Rattle.hume_model.specs.declared.core_tree.PatC.{PatC as Pattern};
ghost use Rattle.calculus_laws.specs.Unfolding.{renumbered};
ghost use Rattle.calculus_unfolding.specs.inner.Numbers.{new_number};

use crate::counts::plus;
use crate::gathering::{both, pushed};
use crate::patterns::copy_pattern;
use hume_base::{Box, List, Ty, copy_ty};
use hume_model::{Expr, Forms, Op, PatC};
use std::alloc::{AllocError, Global};

/// Which numbers the variables of an expression get.
#[derive(Drop)]
pub enum Numbers {
    /// Those from `scope` on move on by `count`.
    Moved { scope: u32, count: u32 },
    /// The first ones are listed, and those after them follow from `later` on.
    Listed { first: List<u32>, later: u32 },
}

impl Numbers {
    fn of(&self, number: u32) -> Result<u32, AllocError>
        ensures { IfOk result (λ new. new ≡ new_number self.now number) }
    {
        match self {
            Numbers::Moved { scope, count } => {
                if number < *scope {
                    Ok(number)
                } else {
                    plus(number, *count)
                }
            }
            Numbers::Listed { first, later } => {
                let place = number as usize;
                if place < first.len() {
                    Ok(first.as_slice()[place])
                } else {
                    plus(*later, (place - first.len()) as u32)
                }
            }
        }
    }
}

/// The expression with these numbers for its variables.
#[cycle(renumber)]
#[tactic(auto, using(crate::proofs::NumberForms::number_steps))]
pub fn renumber(alloc: Global, numbers: &Numbers, e: &Expr) -> Result<Expr, AllocError>
    ensures { IfOk result (λ new. new ≡ renumbered (new_number numbers.now) e.now) }
{
    match e {
        Expr::Word(word) => Ok(Expr::Word(*word)),
        Expr::Var(number) => Ok(Expr::Var(numbers.of(*number)?)),
        Expr::Con(place, parts) => renumber_object(alloc, numbers, *place, parts.as_slice()),
        Expr::Tuple(parts) => renumber_tuple(alloc, numbers, parts.as_slice()),
        Expr::Vect(parts) => renumber_vector(alloc, numbers, parts.as_slice()),
        Expr::Prim(op, ty, parts) => renumber_operation(alloc, numbers, *op, ty, parts.as_slice()),
        Expr::Index(count, vector, place) => renumber_index(alloc, numbers, *count, vector, place),
        Expr::Update(count, vector, place, item) => {
            renumber_update(alloc, numbers, *count, vector, place, item)
        }
        Expr::If(test, when_true, when_false) => {
            renumber_choice(alloc, numbers, test, when_true, when_false)
        }
        Expr::Case(part, forms, arms) => renumber_case(
            alloc,
            numbers,
            part,
            *forms,
            arms.as_slice(),
        ),
        Expr::Let(part, body) => renumber_binding(alloc, numbers, part, body),
        Expr::Call(function, parts) => renumber_call(alloc, numbers, *function, parts.as_slice()),
        Expr::Raise(exn, part) => renumber_raise(alloc, numbers, *exn, part),
    }
}

#[cycle(renumber)]
#[inline(never)]
#[tactic(auto, using(crate::proofs::NumberForms::number_steps))]
fn renumber_object(
    alloc: Global,
    numbers: &Numbers,
    place: u32,
    parts: &[Expr],
) -> Result<Expr, AllocError>
    ensures { IfOk result (λ new. new ≡ renumbered (new_number numbers.now) (ConExpr place parts.now)) }
{
    Ok(Expr::Con(place, renumber_parts(alloc, numbers, parts)?))
}

#[cycle(renumber)]
#[inline(never)]
#[tactic(auto, using(crate::proofs::NumberForms::number_steps))]
fn renumber_tuple(alloc: Global, numbers: &Numbers, parts: &[Expr]) -> Result<Expr, AllocError>
    ensures { IfOk result (λ new. new ≡ renumbered (new_number numbers.now) (TupleExpr parts.now)) }
{
    Ok(Expr::Tuple(renumber_parts(alloc, numbers, parts)?))
}

#[cycle(renumber)]
#[inline(never)]
#[tactic(auto, using(crate::proofs::NumberForms::number_steps))]
fn renumber_vector(alloc: Global, numbers: &Numbers, parts: &[Expr]) -> Result<Expr, AllocError>
    ensures { IfOk result (λ new. new ≡ renumbered (new_number numbers.now) (VectExpr parts.now)) }
{
    Ok(Expr::Vect(renumber_parts(alloc, numbers, parts)?))
}

#[cycle(renumber)]
#[inline(never)]
#[tactic(auto, using(crate::proofs::NumberForms::number_steps))]
fn renumber_operation(
    alloc: Global,
    numbers: &Numbers,
    op: Op,
    ty: &Ty,
    parts: &[Expr],
) -> Result<Expr, AllocError>
    ensures { IfOk result (λ new. new ≡ renumbered (new_number numbers.now) (PrimExpr op ty.now parts.now)) }
{
    let parts = renumber_parts(alloc, numbers, parts)?;
    Ok(Expr::Prim(op, copy_ty(alloc, ty)?, parts))
}

#[cycle(renumber)]
#[inline(never)]
#[tactic(auto, using(crate::proofs::NumberForms::number_steps))]
fn renumber_index(
    alloc: Global,
    numbers: &Numbers,
    count: u32,
    vector: &Expr,
    place: &Expr,
) -> Result<Expr, AllocError>
    ensures { IfOk result (λ new. new ≡ renumbered (new_number numbers.now) (IndexExpr count vector.now place.now)) }
{
    let vector = renumber_part(alloc, numbers, vector)?;
    Ok(Expr::Index(count, vector, renumber_part(alloc, numbers, place)?))
}

#[cycle(renumber)]
#[inline(never)]
#[tactic(auto, using(crate::proofs::NumberForms::number_steps))]
fn renumber_update(
    alloc: Global,
    numbers: &Numbers,
    count: u32,
    vector: &Expr,
    place: &Expr,
    item: &Expr,
) -> Result<Expr, AllocError>
    ensures { IfOk result (λ new. new ≡ renumbered (new_number numbers.now) (UpdateExpr count vector.now place.now item.now)) }
{
    let vector = renumber_part(alloc, numbers, vector)?;
    let place = renumber_part(alloc, numbers, place)?;
    Ok(Expr::Update(count, vector, place, renumber_part(alloc, numbers, item)?))
}

#[cycle(renumber)]
#[inline(never)]
#[tactic(auto, using(crate::proofs::NumberForms::number_steps))]
fn renumber_choice(
    alloc: Global,
    numbers: &Numbers,
    test: &Expr,
    when_true: &Expr,
    when_false: &Expr,
) -> Result<Expr, AllocError>
    ensures { IfOk result (λ new. new ≡ renumbered (new_number numbers.now) (IfExpr test.now when_true.now when_false.now)) }
{
    let test = renumber_part(alloc, numbers, test)?;
    let when_true = renumber_part(alloc, numbers, when_true)?;
    Ok(Expr::If(test, when_true, renumber_part(alloc, numbers, when_false)?))
}

#[cycle(renumber)]
#[inline(never)]
#[tactic(auto, using(crate::proofs::NumberForms::number_steps))]
fn renumber_case(
    alloc: Global,
    numbers: &Numbers,
    part: &Expr,
    forms: Forms,
    arms: &[(PatC, Expr)],
) -> Result<Expr, AllocError>
    ensures { IfOk result (λ new. new ≡ renumbered (new_number numbers.now) (CaseExpr part.now forms arms.now)) }
{
    let part = renumber_part(alloc, numbers, part)?;
    let arms = renumber_arms(alloc, numbers, arms)?;
    Ok(Expr::Case(part, forms, arms))
}

#[cycle(renumber)]
#[inline(never)]
#[tactic(auto, using(crate::proofs::NumberForms::number_steps))]
fn renumber_binding(
    alloc: Global,
    numbers: &Numbers,
    part: &Expr,
    body: &Expr,
) -> Result<Expr, AllocError>
    ensures { IfOk result (λ new. new ≡ renumbered (new_number numbers.now) (LetExpr part.now body.now)) }
{
    let part = renumber_part(alloc, numbers, part)?;
    Ok(Expr::Let(part, renumber_part(alloc, numbers, body)?))
}

#[cycle(renumber)]
#[inline(never)]
#[tactic(auto, using(crate::proofs::NumberForms::number_steps))]
fn renumber_call(
    alloc: Global,
    numbers: &Numbers,
    function: u32,
    parts: &[Expr],
) -> Result<Expr, AllocError>
    ensures { IfOk result (λ new. new ≡ renumbered (new_number numbers.now) (CallExpr function parts.now)) }
{
    Ok(Expr::Call(function, renumber_parts(alloc, numbers, parts)?))
}

#[cycle(renumber)]
#[inline(never)]
#[tactic(auto, using(crate::proofs::NumberForms::number_steps))]
fn renumber_raise(
    alloc: Global,
    numbers: &Numbers,
    exn: u32,
    part: &Option<Box<Expr>>,
) -> Result<Expr, AllocError>
    ensures { IfOk result (λ new. new ≡ renumbered (new_number numbers.now) (RaiseExpr exn part.now)) }
{
    Ok(Expr::Raise(exn, renumber_if_there(alloc, numbers, part)?))
}

#[cycle(renumber)]
pub fn renumber_part(alloc: Global, numbers: &Numbers, e: &Expr) -> Result<Box<Expr>, AllocError>
    ensures { IfOk result (λ new. new ≡ renumbered (new_number numbers.now) e.now) }
{
    Box::new(alloc, renumber(alloc, numbers, e)?)
}

#[cycle(renumber)]
fn renumber_if_there(
    alloc: Global,
    numbers: &Numbers,
    part: &Option<Box<Expr>>,
) -> Result<Option<Box<Expr>>, AllocError>
    ensures { IfOk result (λ new. new ≡ option_map (renumbered (new_number numbers.now)) part.now) }
{
    match part {
        None => Ok(None),
        Some(part) => Ok(Some(renumber_part(alloc, numbers, part)?)),
    }
}

#[cycle(renumber)]
fn renumber_parts(
    alloc: Global,
    numbers: &Numbers,
    parts: &[Expr],
) -> Result<List<Expr>, AllocError>
    ensures { IfOk result (λ news. news ≡ map (renumbered (new_number numbers.now)) parts.now) }
{
    let mut news = Ok(List::new(alloc));
    for part in parts {
        news = pushed(news, renumber(alloc, numbers, part));
    }
    news
}

#[cycle(renumber)]
fn renumber_arms(
    alloc: Global,
    numbers: &Numbers,
    arms: &[(PatC, Expr)],
) -> Result<List<(PatC, Expr)>, AllocError>
    ensures { IfOk result (λ news.
        news ≡ map (λ (arm : Pattern × Expression). (arm.0, renumbered (new_number numbers.now) arm.1)) arms.now) }
{
    let mut news = Ok(List::new(alloc));
    for arm in arms {
        let pattern = copy_pattern(alloc, &arm.0);
        let branch = renumber(alloc, numbers, &arm.1);
        news = pushed(news, both(pattern, branch));
    }
    news
}
