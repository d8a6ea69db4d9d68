ghost use Rattle.std.specs.Prelude.{◌≡◌, map};
ghost use Rattle.check_counts.specs.Stars.{Stray, strays, any_inner, any_output, any_arm, has_star as star_in, has_stray_star as stray_star_in};
ghost use Rattle.check_counts.specs.inner.Arms.{arm_with};

use hume_ast::{Exp, Pat};

/// Whether a `*` in the result of a box with so many outputs is none of them.
pub(crate) fn has_stray_star(outputs: usize, tree: &Exp) -> bool
    ensures { result ≡ stray_star_in outputs tree.now }
{
    if outputs >= 2 {
        strays_from_several(tree)
    } else {
        strays_from_single(tree)
    }
}

/// Whether a `*` stands in the expression.
#[cycle(has_star)]
#[tactic(auto, using(crate::proofs::CountSteps::count_steps))]
pub(crate) fn has_star(e: &Exp) -> bool
    ensures { result ≡ star_in e.now }
{
    match e {
        Exp::Let(_, part, body) => has_star(part) || has_star(body),
        Exp::If(test, when_true, when_false) => has_star(test)
            || (has_star(when_true) || has_star(when_false)),
        Exp::Case(part, arms) => {
            let inside = an_arm_has_star(arms.as_slice());
            has_star(part) || inside
        }
        Exp::Raise(_, None) => false,
        Exp::Raise(_, Some(part)) => has_star(part),
        Exp::Binary(_, left, right) => has_star(left) || has_star(right),
        Exp::Neg(part) => has_star(part),
        Exp::Not(part) => has_star(part),
        Exp::App(_, parts) => a_part_has_star(parts.as_slice()),
        Exp::Con(_, parts) => a_part_has_star(parts.as_slice()),
        Exp::Update(vector, place, item) => has_star(vector) || (has_star(place) || has_star(item)),
        Exp::Num(_, _) => false,
        Exp::Letter(_) => false,
        Exp::Truth(_) => false,
        Exp::Paren(part) => has_star(part),
        Exp::Tuple(parts) => a_part_has_star(parts.as_slice()),
        Exp::Cast(part, _) => has_star(part),
        Exp::Vect(parts) => a_part_has_star(parts.as_slice()),
        Exp::Star => true,
    }
}

#[cycle(has_star)]
#[tactic(auto, using(crate::proofs::CountSteps::count_steps))]
fn a_part_has_star(parts: &[Exp]) -> bool
    ensures { result ≡ any_inner (map strays parts.now) }
{
    for part in parts {
        if has_star(part) {
            return true;
        }
    }
    false
}

#[cycle(has_star)]
#[tactic(auto, using(crate::proofs::CountSteps::count_steps))]
fn an_arm_has_star(arms: &[(Pat, Exp)]) -> bool
    ensures { result ≡ any_arm (λ (part : Stray). part.inner) (map (arm_with strays) arms.now) }
{
    for arm in arms {
        if has_star(&arm.1) {
            return true;
        }
    }
    false
}

// Whether a `*` in an output is not the output itself.
#[tactic(auto, using(crate::proofs::CountSteps::count_steps))]
fn strays_from_output(e: &Exp) -> bool
    ensures { result ≡ (strays e.now).output }
{
    match e {
        Exp::Paren(part) => strays_from_output(part),
        Exp::Star => false,
        _ => has_star(e),
    }
}

#[tactic(auto, using(crate::proofs::CountSteps::count_steps))]
fn strays_from_outputs(parts: &[Exp]) -> bool
    ensures { result ≡ any_output (map strays parts.now) }
{
    for part in parts {
        if strays_from_output(part) {
            return true;
        }
    }
    false
}

// Whether a `*` in a result of one output is not this output.
#[cycle(strays_from_single)]
#[tactic(auto, using(crate::proofs::CountSteps::count_steps))]
fn strays_from_single(e: &Exp) -> bool
    ensures { result ≡ (strays e.now).single }
{
    match e {
        Exp::Let(_, part, body) => has_star(part) || strays_from_single(body),
        Exp::If(test, when_true, when_false) => {
            has_star(test) || (strays_from_single(when_true) || strays_from_single(when_false))
        }
        Exp::Case(part, arms) => {
            let inside = an_arm_strays_from_single(arms.as_slice());
            has_star(part) || inside
        }
        Exp::Paren(part) => strays_from_single(part),
        Exp::Star => false,
        _ => has_star(e),
    }
}

#[cycle(strays_from_single)]
#[tactic(auto, using(crate::proofs::CountSteps::count_steps))]
fn an_arm_strays_from_single(arms: &[(Pat, Exp)]) -> bool
    ensures { result ≡ any_arm (λ (part : Stray). part.single) (map (arm_with strays) arms.now) }
{
    for arm in arms {
        if strays_from_single(&arm.1) {
            return true;
        }
    }
    false
}

// Whether a `*` in a result of several outputs is none of them.
#[cycle(strays_from_several)]
#[tactic(auto, using(crate::proofs::CountSteps::count_steps))]
fn strays_from_several(e: &Exp) -> bool
    ensures { result ≡ (strays e.now).several }
{
    match e {
        Exp::Let(_, part, body) => has_star(part) || strays_from_several(body),
        Exp::If(test, when_true, when_false) => {
            has_star(test) || (strays_from_several(when_true) || strays_from_several(when_false))
        }
        Exp::Case(part, arms) => {
            let inside = an_arm_strays_from_several(arms.as_slice());
            has_star(part) || inside
        }
        Exp::Paren(part) => strays_from_several(part),
        Exp::Tuple(parts) => strays_from_outputs(parts.as_slice()),
        _ => has_star(e),
    }
}

#[cycle(strays_from_several)]
#[tactic(auto, using(crate::proofs::CountSteps::count_steps))]
fn an_arm_strays_from_several(arms: &[(Pat, Exp)]) -> bool
    ensures { result ≡ any_arm (λ (part : Stray). part.several) (map (arm_with strays) arms.now) }
{
    for arm in arms {
        if strays_from_several(&arm.1) {
            return true;
        }
    }
    false
}
