//! Expressions in which the first call that can be unfolded is, in its place: nothing else of an expression is moved or copied. What has
//! several parts has a function that is never inlined, so a level of depth takes little of the stack.
ghost use Rattle.std.specs.Prelude.{◌≡◌, IfOk, IsFalse, ℕ, List};
ghost use Rattle.hume_model.specs.declared.core_tree.Expr.{Expr as Expression};
ghost use Rattle.hume_model.specs.declared.core_tree.Expr.TheVariants.{Call as CallExpr};
ghost use Rattle.calculus_unfolding.specs.inner.Changes.{alone, arm_changed, expression_changed, first_changed, if_found, part_changed, two_changed};

use crate::calls::unfold_call;
use crate::counts::{count_variables, plus};
use hume_base::{Box, List};
use hume_model::{Expr, FunC, PatC};
use std::alloc::{AllocError, Global};
use std::mem;

/// Unfolds the first call of an expression that can be unfolded, where `scope` variables are in scope. Answers whether there is one.
#[cycle(unfold)]
#[tactic(auto, using(crate::proofs::UnfoldForms::form_steps))]
pub fn unfold(alloc: Global, funs: &[FunC], e: &mut Expr, scope: u32) -> Result<bool, AllocError>
    ensures found { IfOk result (λ found. expression_changed (alone funs.now) scope e.old ≡ if_found found e.new) }
    ensures kept { IfOk result (λ found. IsFalse found → e.new ≡ e.old) }
{
    match e {
        Expr::Word(_) | Expr::Var(_) => Ok(false),
        Expr::Con(_, parts) => unfold_parts(alloc, funs, parts, scope),
        Expr::Tuple(parts) => unfold_parts(alloc, funs, parts, scope),
        Expr::Vect(parts) => unfold_parts(alloc, funs, parts, scope),
        Expr::Prim(_, _, parts) => unfold_parts(alloc, funs, parts, scope),
        Expr::Index(_, vector, place) => { unfold_two(alloc, funs, vector, place, scope, scope) }
        Expr::Update(_, vector, place, item) => {
            unfold_three(alloc, funs, vector, place, item, scope)
        }
        Expr::If(test, when_true, when_false) => {
            unfold_three(alloc, funs, test, when_true, when_false, scope)
        }
        Expr::Case(part, _, arms) => unfold_case(alloc, funs, part, arms, scope),
        Expr::Let(part, body) => { unfold_two(alloc, funs, part, body, scope, plus(scope, 1)?) }
        Expr::Call(_, _) => unfold_in_call(alloc, funs, e, scope),
        Expr::Raise(_, part) => unfold_boxed(alloc, funs, part, scope),
    }
}

// Two parts, each with so many variables in scope.
#[cycle(unfold)]
#[inline(never)]
#[tactic(auto, using(crate::proofs::Changes::two_steps))]
fn unfold_two(
    alloc: Global,
    funs: &[FunC],
    first: &mut Box<Expr>,
    second: &mut Box<Expr>,
    scope: u32,
    inside: u32,
) -> Result<bool, AllocError>
    ensures found { IfOk result (λ found. two_changed (expression_changed (alone funs.now) scope) (expression_changed (alone funs.now) inside)
        (first.old, second.old) ≡ if_found found (first.new, second.new)) }
    ensures kept { IfOk result (λ found. IsFalse found → (first.new ≡ first.old) × (second.new ≡ second.old)) }
{
    if unfold(alloc, funs, first.as_mut(), scope)? {
        return Ok(true);
    }
    unfold(alloc, funs, second.as_mut(), inside)
}

#[cycle(unfold)]
#[inline(never)]
#[tactic(auto, using(crate::proofs::Changes::two_steps))]
fn unfold_three(
    alloc: Global,
    funs: &[FunC],
    first: &mut Box<Expr>,
    second: &mut Box<Expr>,
    third: &mut Box<Expr>,
    scope: u32,
) -> Result<bool, AllocError>
    ensures found { IfOk result (λ found. two_changed (expression_changed (alone funs.now) scope)
        (two_changed (expression_changed (alone funs.now) scope) (expression_changed (alone funs.now) scope))
        (first.old, (second.old, third.old)) ≡ if_found found (first.new, (second.new, third.new))) }
    ensures kept { IfOk result (λ found. IsFalse found → (first.new ≡ first.old) × (second.new ≡ second.old) × (third.new ≡ third.old)) }
{
    if unfold(alloc, funs, first.as_mut(), scope)? {
        return Ok(true);
    }
    unfold_two(alloc, funs, second, third, scope, scope)
}

#[cycle(unfold)]
#[inline(never)]
#[tactic(auto, using(crate::proofs::Changes::two_steps))]
fn unfold_case(
    alloc: Global,
    funs: &[FunC],
    part: &mut Box<Expr>,
    arms: &mut List<(PatC, Expr)>,
    scope: u32,
) -> Result<bool, AllocError>
    ensures found { IfOk result (λ found. two_changed (expression_changed (alone funs.now) scope)
        (first_changed (arm_changed (expression_changed (alone funs.now)) scope)) (part.old, arms.old) ≡ if_found found (part.new, arms.new)) }
    ensures kept { IfOk result (λ found. IsFalse found → (part.new ≡ part.old) × (arms.new ≡ arms.old)) }
{
    if unfold(alloc, funs, part.as_mut(), scope)? {
        return Ok(true);
    }
    unfold_arms(alloc, funs, arms, scope)
}

// The call itself, or else the first one in what it is called with.
#[cycle(unfold)]
#[inline(never)]
#[tactic(auto, using(crate::proofs::UnfoldForms::form_steps))]
fn unfold_in_call(
    alloc: Global,
    funs: &[FunC],
    e: &mut Expr,
    scope: u32,
) -> Result<bool, AllocError>
    requires { (function : ℕ) × (parts : List Expression) × (e.old ≡ CallExpr function parts) }
    ensures found { IfOk result (λ found. expression_changed (alone funs.now) scope e.old ≡ if_found found e.new) }
    ensures kept { IfOk result (λ found. IsFalse found → e.new ≡ e.old) }
{
    let Expr::Call(function, parts) = e else {
        unreachable!()
    };
    match unfold_call(alloc, funs, *function, parts.as_slice(), scope)? {
        None => unfold_parts(alloc, funs, parts, scope),
        Some(new) => {
            *e = new.into_inner();
            Ok(true)
        }
    }
}

#[cycle(unfold)]
fn unfold_boxed(
    alloc: Global,
    funs: &[FunC],
    part: &mut Option<Box<Expr>>,
    scope: u32,
) -> Result<bool, AllocError>
    ensures found { IfOk result (λ found. part_changed (alone funs.now) scope part.old ≡ if_found found part.new) }
    ensures kept { IfOk result (λ found. IsFalse found → part.new ≡ part.old) }
{
    match part {
        None => Ok(false),
        Some(part) => unfold(alloc, funs, part.as_mut(), scope),
    }
}

#[cycle(unfold)]
fn unfold_parts(
    alloc: Global,
    funs: &[FunC],
    parts: &mut List<Expr>,
    scope: u32,
) -> Result<bool, AllocError>
    ensures found { IfOk result (λ found. first_changed (expression_changed (alone funs.now) scope) parts.old ≡ if_found found parts.new) }
    ensures kept { IfOk result (λ found. IsFalse found → parts.new ≡ parts.old) }
{
    let mut items = mem::replace(parts, List::new(alloc)).into_vec();
    let found = unfold_first(alloc, funs, items.as_mut_slice(), scope)?;
    *parts = List::from_vec(items);
    Ok(found)
}

#[cycle(unfold)]
#[tactic(auto, using(crate::proofs::Changes::loop_steps))]
fn unfold_first(
    alloc: Global,
    funs: &[FunC],
    parts: &mut [Expr],
    scope: u32,
) -> Result<bool, AllocError>
    ensures found { IfOk result (λ found. first_changed (expression_changed (alone funs.now) scope) parts.old ≡ if_found found parts.new) }
    ensures kept { IfOk result (λ found. IsFalse found → parts.new ≡ parts.old) }
{
    for i in 0..parts.len() {
        if unfold(alloc, funs, &mut parts[i], scope)? {
            return Ok(true);
        }
    }
    Ok(false)
}

#[cycle(unfold)]
fn unfold_arms(
    alloc: Global,
    funs: &[FunC],
    arms: &mut List<(PatC, Expr)>,
    scope: u32,
) -> Result<bool, AllocError>
    ensures found { IfOk result (λ found. first_changed (arm_changed (expression_changed (alone funs.now)) scope) arms.old ≡ if_found found arms.new) }
    ensures kept { IfOk result (λ found. IsFalse found → arms.new ≡ arms.old) }
{
    let mut items = mem::replace(arms, List::new(alloc)).into_vec();
    let found = unfold_first_arm(alloc, funs, items.as_mut_slice(), scope)?;
    *arms = List::from_vec(items);
    Ok(found)
}

#[cycle(unfold)]
#[tactic(auto, using(crate::proofs::Changes::loop_steps))]
fn unfold_first_arm(
    alloc: Global,
    funs: &[FunC],
    arms: &mut [(PatC, Expr)],
    scope: u32,
) -> Result<bool, AllocError>
    ensures found { IfOk result (λ found. first_changed (arm_changed (expression_changed (alone funs.now)) scope) arms.old ≡ if_found found arms.new) }
    ensures kept { IfOk result (λ found. IsFalse found → arms.new ≡ arms.old) }
{
    for i in 0..arms.len() {
        if unfold_arm(alloc, funs, &mut arms[i], scope)? {
            return Ok(true);
        }
    }
    Ok(false)
}

// The pattern's variables are in scope in its branch.
#[cycle(unfold)]
fn unfold_arm(
    alloc: Global,
    funs: &[FunC],
    arm: &mut (PatC, Expr),
    scope: u32,
) -> Result<bool, AllocError>
    ensures found { IfOk result (λ found. arm_changed (expression_changed (alone funs.now)) scope arm.old ≡ if_found found arm.new) }
    ensures kept { IfOk result (λ found. IsFalse found → arm.new ≡ arm.old) }
{
    let inside = plus(scope, count_variables(&arm.0)?)?;
    unfold(alloc, funs, &mut arm.1, inside)
}
