//! How many parts expressions and results have.
ghost use Rattle.std.specs.Prelude.{◌≡◌, ◌+◌, IfOk, map, sum};
ghost use Rattle.std.specs.Option.{option_map};
ghost use Rattle.hume_model.specs.declared.core_tree.Expr.{Expr as Expression};
ghost use Rattle.hume_model.specs.declared.core_tree.PatC.{PatC as Pattern};
ghost use Rattle.hume_model.specs.declared.core_tree.Res.{Res as Outcome};
ghost use Rattle.calculus_laws.specs.Parts.{expression_parts, out_parts, parts_if_there, parts_in_arms, result_parts};

use calculus_unfolding::plus;
use hume_base::Box;
use hume_model::{Expr, PatC, Res};
use std::alloc::AllocError;

/// How many parts the expression has.
#[cycle(count_parts)]
#[tactic(auto, using(crate::proofs::PartForms::expression_forms))]
pub(crate) fn count_parts(e: &Expr) -> Result<u32, AllocError>
    ensures { IfOk result (λ count. count ≡ expression_parts e.now) }
{
    match e {
        Expr::Word(_) | Expr::Var(_) => Ok(1),
        Expr::Con(_, parts) => plus(1, count_all(parts.as_slice())?),
        Expr::Tuple(parts) => plus(1, count_all(parts.as_slice())?),
        Expr::Vect(parts) => plus(1, count_all(parts.as_slice())?),
        Expr::Prim(_, _, parts) => plus(1, count_all(parts.as_slice())?),
        Expr::Index(_, vector, place) => plus(1, count_two(vector, place)?),
        Expr::Update(_, vector, place, item) => plus(1, count_three(vector, place, item)?),
        Expr::If(test, when_true, when_false) => {
            plus(1, count_three(test, when_true, when_false)?)
        }
        Expr::Case(part, _, arms) => plus(1, count_case(part, arms.as_slice())?),
        Expr::Let(part, body) => plus(1, count_two(part, body)?),
        Expr::Call(_, parts) => plus(1, count_all(parts.as_slice())?),
        Expr::Raise(_, part) => plus(1, count_if_there(part)?),
    }
}

#[cycle(count_parts)]
fn count_two(first: &Expr, second: &Expr) -> Result<u32, AllocError>
    ensures { IfOk result (λ count. count ≡ expression_parts first.now + expression_parts second.now) }
{
    plus(count_parts(first)?, count_parts(second)?)
}

#[cycle(count_parts)]
fn count_three(first: &Expr, second: &Expr, third: &Expr) -> Result<u32, AllocError>
    ensures { IfOk result (λ count. count ≡ expression_parts first.now + (expression_parts second.now + expression_parts third.now)) }
{
    plus(count_parts(first)?, count_two(second, third)?)
}

#[cycle(count_parts)]
fn count_case(part: &Expr, arms: &[(PatC, Expr)]) -> Result<u32, AllocError>
    ensures { IfOk result (λ count. count
        ≡ expression_parts part.now + parts_in_arms (map (λ (arm : Pattern × Expression). (arm.0, expression_parts arm.1)) arms.now)) }
{
    plus(count_parts(part)?, count_arms(arms)?)
}

#[cycle(count_parts)]
fn count_if_there(part: &Option<Box<Expr>>) -> Result<u32, AllocError>
    ensures { IfOk result (λ count. count ≡ parts_if_there (option_map expression_parts part.now)) }
{
    match part {
        None => Ok(0),
        Some(part) => count_parts(part),
    }
}

#[cycle(count_parts)]
#[tactic(auto, using(crate::proofs::PartForms::sum_steps))]
fn count_all(parts: &[Expr]) -> Result<u32, AllocError>
    ensures { IfOk result (λ count. count ≡ sum (map expression_parts parts.now)) }
{
    let mut count = 0;
    for part in parts {
        count = plus(count, count_parts(part)?)?;
    }
    Ok(count)
}

#[cycle(count_parts)]
#[tactic(auto, using(crate::proofs::PartForms::sum_steps))]
fn count_arms(arms: &[(PatC, Expr)]) -> Result<u32, AllocError>
    ensures { IfOk result (λ count. count ≡ parts_in_arms (map (λ (arm : Pattern × Expression). (arm.0, expression_parts arm.1)) arms.now)) }
{
    let mut count = 0;
    for arm in arms {
        count = plus(count, count_parts(&arm.1)?)?;
    }
    Ok(count)
}

/// How many parts the result has.
#[cycle(count_result_parts)]
#[tactic(auto, using(crate::proofs::PartForms::result_forms))]
pub(crate) fn count_result_parts(given: &Res) -> Result<u32, AllocError>
    ensures { IfOk result (λ count. count ≡ result_parts given.now) }
{
    match given {
        Res::Outs(outs) => plus(1, count_outs(outs.as_slice())?),
        Res::If(test, when_true, when_false) => {
            plus(1, count_choice(test, when_true, when_false)?)
        }
        Res::Case(part, _, arms) => plus(1, count_result_case(part, arms.as_slice())?),
        Res::Let(part, body) => plus(1, count_binding(part, body)?),
        Res::Raise(_, part) => plus(1, count_out(part)?),
    }
}

#[cycle(count_result_parts)]
fn count_choice(test: &Expr, when_true: &Res, when_false: &Res) -> Result<u32, AllocError>
    ensures { IfOk result (λ count. count ≡ expression_parts test.now + (result_parts when_true.now + result_parts when_false.now)) }
{
    let branches = plus(
        count_result_parts(when_true)?,
        count_result_parts(when_false)?,
    )?;
    plus(count_parts(test)?, branches)
}

#[cycle(count_result_parts)]
fn count_result_case(part: &Expr, arms: &[(PatC, Res)]) -> Result<u32, AllocError>
    ensures { IfOk result (λ count. count
        ≡ expression_parts part.now + parts_in_arms (map (λ (arm : Pattern × Outcome). (arm.0, result_parts arm.1)) arms.now)) }
{
    plus(count_parts(part)?, count_ways(arms)?)
}

#[cycle(count_result_parts)]
fn count_binding(part: &Expr, body: &Res) -> Result<u32, AllocError>
    ensures { IfOk result (λ count. count ≡ expression_parts part.now + result_parts body.now) }
{
    plus(count_parts(part)?, count_result_parts(body)?)
}

#[cycle(count_result_parts)]
#[tactic(auto, using(crate::proofs::PartForms::sum_steps))]
fn count_ways(arms: &[(PatC, Res)]) -> Result<u32, AllocError>
    ensures { IfOk result (λ count. count ≡ parts_in_arms (map (λ (arm : Pattern × Outcome). (arm.0, result_parts arm.1)) arms.now)) }
{
    let mut count = 0;
    for arm in arms {
        count = plus(count, count_result_parts(&arm.1)?)?;
    }
    Ok(count)
}

#[tactic(auto, using(crate::proofs::PartForms::sum_steps))]
fn count_outs(outs: &[Option<Expr>]) -> Result<u32, AllocError>
    ensures { IfOk result (λ count. count ≡ sum (map out_parts outs.now)) }
{
    let mut count = 0;
    for out in outs {
        count = plus(count, count_out(out)?)?;
    }
    Ok(count)
}

fn count_out(out: &Option<Expr>) -> Result<u32, AllocError>
    ensures { IfOk result (λ count. count ≡ out_parts out.now) }
{
    match out {
        None => Ok(0),
        Some(e) => count_parts(e),
    }
}
