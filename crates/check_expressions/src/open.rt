//! Whether an expression has no type of its own.
ghost use Rattle.std.specs.Prelude.{◌≡◌, ◌<◌, true, length, IfSome, MatchOption};
ghost use Rattle.check_typing.specs.inner.Walk.{walk, arm_walks_open};
ghost use Rattle.check_tasks.specs.States.{signatures_in};
ghost use Rattle.check_tasks.specs.Tasks.{walks, arm_walks, walks_open};
ghost use Rattle.check_expressions.specs.inner.Open.{is_arithmetic_sign, IsFirstClosed, IsFirstClosedArm};

use crate::elaboration::Elaboration;
use hume_ast::{BinOp, Exp, Pat};

/// Whether the expression has no type of its own.
#[cycle(is_open)]
#[tactic(auto, using(crate::proofs::Opening::open_steps))]
pub(crate) fn is_open(at: &Elaboration, e: &Exp) -> bool
    ensures { result ≡ (walk (signatures_in at.now) e.now).is_open }
{
    match e {
        Exp::Let(_, _, b) => is_open(at, b),
        Exp::If(_, a, b) => is_open(at, a) && is_open(at, b),
        Exp::Case(_, arms) => are_arms_open(at, arms.as_slice()),
        Exp::Raise(_, None) => true,
        Exp::Raise(_, Some(_)) => true,
        Exp::Binary(sign, a, b) => is_arithmetic(*sign) && (is_open(at, a) && is_open(at, b)),
        Exp::Neg(a) => is_open(at, a),
        Exp::Num(_, _) => true,
        Exp::Paren(a) => is_open(at, a),
        _ => false,
    }
}

/// Whether no alternative has a type of its own.
#[cycle(is_open)]
#[tactic(auto, using(crate::proofs::Opening::open_steps))]
fn are_arms_open(at: &Elaboration, arms: &[(Pat, Exp)]) -> bool
    ensures { result ≡ arm_walks_open (arm_walks (signatures_in at.now) arms.now) }
{
    for arm in arms {
        if !is_open(at, &arm.1) {
            return false;
        }
    }
    true
}

// Whether the sign is one between numbers that gives a number.
fn is_arithmetic(sign: BinOp) -> bool
    ensures { result ≡ is_arithmetic_sign sign }
{
    match sign {
        BinOp::Add | BinOp::Sub | BinOp::Mul | BinOp::Div | BinOp::Mod => true,
        BinOp::Or | BinOp::And | BinOp::At => false,
        BinOp::Eq | BinOp::Ne | BinOp::Lt | BinOp::Le | BinOp::Gt | BinOp::Ge => false,
    }
}

/// The place of the first of the expressions that has a type of its own.
#[tactic(auto, using(crate::proofs::Opening::first_steps))]
pub(crate) fn first_closed(at: &Elaboration, parts: &[Exp]) -> Option<usize>
    ensures is { MatchOption result (walks_open (walks (signatures_in at.now) parts.now) ≡ true) (IsFirstClosed (signatures_in at.now) parts.now) }
    ensures within { IfSome result (λ place. place < length parts.now) }
{
    for place in 0..parts.len() {
        if !is_open(at, &parts[place]) {
            return Some(place);
        }
    }
    None
}

/// The place of the first of the alternatives whose body has a type of its own.
#[tactic(auto, using(crate::proofs::Opening::first_steps))]
pub(crate) fn first_closed_arm(at: &Elaboration, arms: &[(Pat, Exp)]) -> Option<usize>
    ensures is { MatchOption result (arm_walks_open (arm_walks (signatures_in at.now) arms.now) ≡ true) (IsFirstClosedArm (signatures_in at.now) arms.now) }
    ensures within { IfSome result (λ place. place < length arms.now) }
{
    for place in 0..arms.len() {
        if !is_open(at, &arms[place].1) {
            return Some(place);
        }
    }
    None
}
