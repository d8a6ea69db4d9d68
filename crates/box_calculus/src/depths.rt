//! Whether expressions and results are within a depth.
ghost use Rattle.std.specs.Prelude.{◌≡◌, nat_le, map};
ghost use Rattle.std.specs.Option.{option_map};
ghost use Rattle.hume_base.specs.Sizes.{greatest};
ghost use Rattle.hume_model.specs.declared.core_tree.Expr.{Expr as Expression};
ghost use Rattle.hume_model.specs.declared.core_tree.PatC.{PatC as Pattern};
ghost use Rattle.hume_model.specs.declared.core_tree.Res.{Res as Outcome};
ghost use Rattle.calculus_laws.specs.Depth.{deepest_arm, depth_if_there, expression_depth, out_depth, result_depth};

use hume_base::Box;
use hume_model::{Expr, PatC, Res};

/// Whether the expression is no deeper than `depth`. It looks no deeper.
#[cycle(is_within)]
#[tactic(auto, using(crate::proofs::DepthSteps::expression_steps))]
pub(crate) fn is_within(e: &Expr, depth: u32) -> bool
    ensures { result ≡ nat_le (expression_depth e.now) depth }
{
    if depth == 0 {
        return false;
    }
    let left = depth - 1;
    match e {
        Expr::Word(_) | Expr::Var(_) => true,
        Expr::Con(_, parts) => are_within(parts.as_slice(), left),
        Expr::Tuple(parts) => are_within(parts.as_slice(), left),
        Expr::Vect(parts) => are_within(parts.as_slice(), left),
        Expr::Prim(_, _, parts) => are_within(parts.as_slice(), left),
        Expr::Index(_, vector, place) => is_within(vector, left) && is_within(place, left),
        Expr::Update(_, vector, place, item) => {
            is_within(vector, left) && is_within(place, left) && is_within(item, left)
        }
        Expr::If(test, when_true, when_false) => {
            is_within(test, left) && is_within(when_true, left) && is_within(when_false, left)
        }
        Expr::Case(part, _, arms) => is_within(part, left)
            && arms_are_within(arms.as_slice(), left),
        Expr::Let(part, body) => is_within(part, left) && is_within(body, left),
        Expr::Call(_, parts) => are_within(parts.as_slice(), left),
        Expr::Raise(_, part) => is_within_if_there(part, left),
    }
}

#[cycle(is_within)]
fn is_within_if_there(part: &Option<Box<Expr>>, depth: u32) -> bool
    ensures { result ≡ nat_le (depth_if_there (option_map expression_depth part.now)) depth }
{
    match part {
        None => true,
        Some(part) => is_within(part, depth),
    }
}

#[cycle(is_within)]
#[tactic(auto, using(crate::proofs::DepthSteps::depth_steps))]
fn are_within(parts: &[Expr], depth: u32) -> bool
    ensures { result ≡ nat_le (greatest (map expression_depth parts.now)) depth }
{
    for part in parts {
        if !is_within(part, depth) {
            return false;
        }
    }
    true
}

#[cycle(is_within)]
#[tactic(auto, using(crate::proofs::DepthSteps::depth_steps))]
fn arms_are_within(arms: &[(PatC, Expr)], depth: u32) -> bool
    ensures { result ≡ nat_le (deepest_arm (map (λ (arm : Pattern × Expression). (arm.0, expression_depth arm.1)) arms.now)) depth }
{
    for arm in arms {
        if !is_within(&arm.1, depth) {
            return false;
        }
    }
    true
}

fn out_is_within(out: &Option<Expr>, depth: u32) -> bool
    ensures { result ≡ nat_le (out_depth out.now) depth }
{
    match out {
        None => true,
        Some(e) => is_within(e, depth),
    }
}

#[tactic(auto, using(crate::proofs::DepthSteps::depth_steps))]
fn outs_are_within(outs: &[Option<Expr>], depth: u32) -> bool
    ensures { result ≡ nat_le (greatest (map out_depth outs.now)) depth }
{
    for out in outs {
        if !out_is_within(out, depth) {
            return false;
        }
    }
    true
}

/// Whether the result is no deeper than `depth`. It looks no deeper.
#[cycle(result_is_within)]
#[tactic(auto, using(crate::proofs::DepthSteps::result_steps))]
pub(crate) fn result_is_within(given: &Res, depth: u32) -> bool
    ensures { result ≡ nat_le (result_depth given.now) depth }
{
    if depth == 0 {
        return false;
    }
    let left = depth - 1;
    match given {
        Res::Outs(outs) => outs_are_within(outs.as_slice(), left),
        Res::If(test, when_true, when_false) => {
            is_within(test, left)
                && result_is_within(when_true, left)
                && result_is_within(when_false, left)
        }
        Res::Case(part, _, arms) => is_within(part, left) && ways_are_within(arms.as_slice(), left),
        Res::Let(part, body) => is_within(part, left) && result_is_within(body, left),
        Res::Raise(_, part) => out_is_within(part, left),
    }
}

#[cycle(result_is_within)]
#[tactic(auto, using(crate::proofs::DepthSteps::depth_steps))]
fn ways_are_within(arms: &[(PatC, Res)], depth: u32) -> bool
    ensures { result ≡ nat_le (deepest_arm (map (λ (arm : Pattern × Outcome). (arm.0, result_depth arm.1)) arms.now)) depth }
{
    for arm in arms {
        if !result_is_within(&arm.1, depth) {
            return false;
        }
    }
    true
}
