//! Results of rules in which the first call that can be unfolded is, in its place: nothing else of a result is moved or copied. What has
//! several parts has a function that is never inlined, so a level of depth takes little of the stack.
ghost use Rattle.std.specs.Prelude.{◌≡◌, ◌+◌, IfOk, IsFalse};
ghost use Rattle.calculus_unfolding.specs.inner.Changes.{alone, arm_changed, expression_changed, first_changed, if_found, part_changed, result_changed, two_changed};

use crate::counts::{count_variables, plus};
use crate::unfolding::unfold;
use hume_base::{Box, List};
use hume_model::{Expr, FunC, PatC, Res};
use std::alloc::{AllocError, Global};
use std::mem;

/// Unfolds the first call of a result that can be unfolded, where `scope` variables are in scope. Answers whether there is one.
#[cycle(unfold_result)]
#[tactic(auto, using(crate::proofs::ResultForms::form_steps))]
pub fn unfold_result(
    alloc: Global,
    funs: &[FunC],
    given: &mut Res,
    scope: u32,
) -> Result<bool, AllocError>
    ensures found { IfOk result (λ found. result_changed (alone funs.now) scope given.old ≡ if_found found given.new) }
    ensures kept { IfOk result (λ found. IsFalse found → given.new ≡ given.old) }
{
    match given {
        Res::Outs(outs) => unfold_outs(alloc, funs, outs, scope),
        Res::If(test, when_true, when_false) => {
            unfold_choice(alloc, funs, test, when_true, when_false, scope)
        }
        Res::Case(part, _, arms) => unfold_case(alloc, funs, part, arms, scope),
        Res::Let(part, body) => unfold_binding(alloc, funs, part, body, scope),
        Res::Raise(_, part) => unfold_out(alloc, funs, part, scope),
    }
}

#[cycle(unfold_result)]
#[inline(never)]
#[tactic(auto, using(crate::proofs::Changes::two_steps))]
fn unfold_choice(
    alloc: Global,
    funs: &[FunC],
    test: &mut Expr,
    when_true: &mut Box<Res>,
    when_false: &mut Box<Res>,
    scope: u32,
) -> Result<bool, AllocError>
    ensures found { IfOk result (λ found. two_changed (expression_changed (alone funs.now) scope)
        (two_changed (result_changed (alone funs.now) scope) (result_changed (alone funs.now) scope))
        (test.old, (when_true.old, when_false.old)) ≡ if_found found (test.new, (when_true.new, when_false.new))) }
    ensures kept { IfOk result (λ found. IsFalse found → (test.new ≡ test.old) × (when_true.new ≡ when_true.old) × (when_false.new ≡ when_false.old)) }
{
    if unfold(alloc, funs, test, scope)? {
        return Ok(true);
    }
    unfold_branches(alloc, funs, when_true, when_false, scope)
}

#[cycle(unfold_result)]
#[inline(never)]
#[tactic(auto, using(crate::proofs::Changes::two_steps))]
fn unfold_branches(
    alloc: Global,
    funs: &[FunC],
    when_true: &mut Box<Res>,
    when_false: &mut Box<Res>,
    scope: u32,
) -> Result<bool, AllocError>
    ensures found { IfOk result (λ found. two_changed (result_changed (alone funs.now) scope) (result_changed (alone funs.now) scope)
        (when_true.old, when_false.old) ≡ if_found found (when_true.new, when_false.new)) }
    ensures kept { IfOk result (λ found. IsFalse found → (when_true.new ≡ when_true.old) × (when_false.new ≡ when_false.old)) }
{
    if unfold_result(alloc, funs, when_true.as_mut(), scope)? {
        return Ok(true);
    }
    unfold_result(alloc, funs, when_false.as_mut(), scope)
}

#[cycle(unfold_result)]
#[inline(never)]
#[tactic(auto, using(crate::proofs::Changes::two_steps))]
fn unfold_case(
    alloc: Global,
    funs: &[FunC],
    part: &mut Expr,
    arms: &mut List<(PatC, Res)>,
    scope: u32,
) -> Result<bool, AllocError>
    ensures found { IfOk result (λ found. two_changed (expression_changed (alone funs.now) scope)
        (first_changed (arm_changed (result_changed (alone funs.now)) scope)) (part.old, arms.old) ≡ if_found found (part.new, arms.new)) }
    ensures kept { IfOk result (λ found. IsFalse found → (part.new ≡ part.old) × (arms.new ≡ arms.old)) }
{
    if unfold(alloc, funs, part, scope)? {
        return Ok(true);
    }
    unfold_ways(alloc, funs, arms, scope)
}

#[cycle(unfold_result)]
#[inline(never)]
#[tactic(auto, using(crate::proofs::Changes::two_steps))]
fn unfold_binding(
    alloc: Global,
    funs: &[FunC],
    part: &mut Expr,
    body: &mut Box<Res>,
    scope: u32,
) -> Result<bool, AllocError>
    ensures found { IfOk result (λ found. two_changed (expression_changed (alone funs.now) scope) (result_changed (alone funs.now) (scope + 1))
        (part.old, body.old) ≡ if_found found (part.new, body.new)) }
    ensures kept { IfOk result (λ found. IsFalse found → (part.new ≡ part.old) × (body.new ≡ body.old)) }
{
    if unfold(alloc, funs, part, scope)? {
        return Ok(true);
    }
    unfold_result(alloc, funs, body.as_mut(), plus(scope, 1)?)
}

#[cycle(unfold_result)]
fn unfold_ways(
    alloc: Global,
    funs: &[FunC],
    arms: &mut List<(PatC, Res)>,
    scope: u32,
) -> Result<bool, AllocError>
    ensures found { IfOk result (λ found. first_changed (arm_changed (result_changed (alone funs.now)) scope) arms.old ≡ if_found found arms.new) }
    ensures kept { IfOk result (λ found. IsFalse found → arms.new ≡ arms.old) }
{
    let mut items = mem::replace(arms, List::new(alloc)).into_vec();
    let found = unfold_first_way(alloc, funs, items.as_mut_slice(), scope)?;
    *arms = List::from_vec(items);
    Ok(found)
}

#[cycle(unfold_result)]
#[tactic(auto, using(crate::proofs::Changes::loop_steps))]
fn unfold_first_way(
    alloc: Global,
    funs: &[FunC],
    arms: &mut [(PatC, Res)],
    scope: u32,
) -> Result<bool, AllocError>
    ensures found { IfOk result (λ found. first_changed (arm_changed (result_changed (alone funs.now)) scope) arms.old ≡ if_found found arms.new) }
    ensures kept { IfOk result (λ found. IsFalse found → arms.new ≡ arms.old) }
{
    for i in 0..arms.len() {
        if unfold_way(alloc, funs, &mut arms[i], scope)? {
            return Ok(true);
        }
    }
    Ok(false)
}

// The pattern's variables are in scope in its branch.
#[cycle(unfold_result)]
pub fn unfold_way(
    alloc: Global,
    funs: &[FunC],
    arm: &mut (PatC, Res),
    scope: u32,
) -> Result<bool, AllocError>
    ensures found { IfOk result (λ found. arm_changed (result_changed (alone funs.now)) scope arm.old ≡ if_found found arm.new) }
    ensures kept { IfOk result (λ found. IsFalse found → arm.new ≡ arm.old) }
{
    let inside = plus(scope, count_variables(&arm.0)?)?;
    unfold_result(alloc, funs, &mut arm.1, inside)
}

fn unfold_outs(
    alloc: Global,
    funs: &[FunC],
    outs: &mut List<Option<Expr>>,
    scope: u32,
) -> Result<bool, AllocError>
    ensures found { IfOk result (λ found. first_changed (part_changed (alone funs.now) scope) outs.old ≡ if_found found outs.new) }
    ensures kept { IfOk result (λ found. IsFalse found → outs.new ≡ outs.old) }
{
    let mut items = mem::replace(outs, List::new(alloc)).into_vec();
    let found = unfold_first_out(alloc, funs, items.as_mut_slice(), scope)?;
    *outs = List::from_vec(items);
    Ok(found)
}

#[tactic(auto, using(crate::proofs::Changes::loop_steps))]
fn unfold_first_out(
    alloc: Global,
    funs: &[FunC],
    outs: &mut [Option<Expr>],
    scope: u32,
) -> Result<bool, AllocError>
    ensures found { IfOk result (λ found. first_changed (part_changed (alone funs.now) scope) outs.old ≡ if_found found outs.new) }
    ensures kept { IfOk result (λ found. IsFalse found → outs.new ≡ outs.old) }
{
    for i in 0..outs.len() {
        if unfold_out(alloc, funs, &mut outs[i], scope)? {
            return Ok(true);
        }
    }
    Ok(false)
}

fn unfold_out(
    alloc: Global,
    funs: &[FunC],
    out: &mut Option<Expr>,
    scope: u32,
) -> Result<bool, AllocError>
    ensures found { IfOk result (λ found. part_changed (alone funs.now) scope out.old ≡ if_found found out.new) }
    ensures kept { IfOk result (λ found. IsFalse found → out.new ≡ out.old) }
{
    match out {
        None => Ok(false),
        Some(e) => unfold(alloc, funs, e, scope),
    }
}
