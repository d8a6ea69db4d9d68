//! Which expressions may raise an exception, as far as their forms tell.
ghost use Rattle.std.specs.Prelude.{◌≡◌};
ghost use Rattle.c_analysis.specs.Raises.{is_zero_free, word_of, is_nonzero, is_inside};
ghost use Rattle.std.specs.Prelude.{◌||◌, map, not, slice_get};
ghost use Rattle.hume_model.specs.declared.core_tree.PatC.{PatC as Pattern};
ghost use Rattle.typed_core.specs.declared.typed_tree.TypedExpr.{TypedExpr as Tree};
ghost use Rattle.c_analysis.specs.Seen.{seen};
ghost use Rattle.c_analysis.specs.Targets.{target};
ghost use Rattle.c_analysis.specs.Raises.{arms_complete, may_raise, raise_step, some_raise, some_arms_raise, raises_as};

use crate::complete::arms_are_complete;
use crate::setting::Setting;
use hume_base::Ty;
use hume_model::{Op, PatC};
use typed_core::TypedExpr;

#[cycle(may_raise)]
#[tactic(auto, using(crate::proofs::RaiseForms::raise_forms))]
pub fn may_raise(s: Setting, e: &TypedExpr) -> bool
    ensures { result ≡ may_raise (target s.entry) e.now }
{
    match e {
        TypedExpr::Word(_) | TypedExpr::Var(_) => false,
        TypedExpr::Con(_, parts) => some_may_raise(s, parts.as_slice()),
        TypedExpr::Tuple(parts) => some_may_raise(s, parts.as_slice()),
        TypedExpr::Vect(parts) => some_may_raise(s, parts.as_slice()),
        TypedExpr::Prim(op, _, parts) => operation_raises(s, *op, parts.as_slice()),
        TypedExpr::Convert(_, _, part) => may_raise(s, part),
        TypedExpr::Index(of, _, vector, place) => {
            !is_inside(of, place) || one_may_raise(s, vector, place)
        }
        TypedExpr::Update(of, _, vector, place, item) => {
            !is_inside(of, place) || one_of_three_may_raise(s, vector, place, item)
        }
        TypedExpr::If(test, yes, no) => one_of_three_may_raise(s, test, yes, no),
        TypedExpr::Case(of, part, arms) => case_raises(s, of, part, arms.as_slice()),
        TypedExpr::Let(_, part, body) => one_may_raise(s, part, body),
        TypedExpr::Call(function, parts) => call_raises(s, *function, parts.as_slice()),
        TypedExpr::Raise(_, _) => true,
    }
}

#[cycle(may_raise)]
fn one_may_raise(s: Setting, first: &TypedExpr, second: &TypedExpr) -> bool
    ensures { result ≡ (may_raise (target s.entry) first.now || may_raise (target s.entry) second.now) }
{
    may_raise(s, first) || may_raise(s, second)
}

#[cycle(may_raise)]
fn one_of_three_may_raise(
    s: Setting,
    first: &TypedExpr,
    second: &TypedExpr,
    third: &TypedExpr,
) -> bool
    ensures { result ≡ (may_raise (target s.entry) first.now || may_raise (target s.entry) second.now || may_raise (target s.entry) third.now) }
{
    one_may_raise(s, first, second) || may_raise(s, third)
}

#[cycle(may_raise)]
fn operation_raises(s: Setting, op: Op, parts: &[TypedExpr]) -> bool
    ensures { result ≡ (not (is_zero_free op parts.now) || some_raise (map (seen (raise_step (target s.entry))) parts.now)) }
{
    !is_zero_free(op, parts) || some_may_raise(s, parts)
}

#[cycle(may_raise)]
fn case_raises(s: Setting, of: &Ty, part: &TypedExpr, arms: &[(PatC, TypedExpr)]) -> bool
    ensures { result ≡ (not (arms_complete (target s.entry) of.now arms.now) || may_raise (target s.entry) part.now
        || some_arms_raise (map (λ (arm : Pattern × Tree). (arm.0, seen (raise_step (target s.entry)) arm.1)) arms.now)) }
{
    !arms_are_complete(s, of, arms) || may_raise(s, part) || arms_may_raise(s, arms)
}

#[cycle(may_raise)]
fn call_raises(s: Setting, function: u32, parts: &[TypedExpr]) -> bool
    ensures { result ≡ (raises_as (slice_get (target s.entry).called function) || some_raise (map (seen (raise_step (target s.entry))) parts.now)) }
{
    function_raises(s, function) || some_may_raise(s, parts)
}

#[cycle(may_raise)]
fn some_may_raise(s: Setting, parts: &[TypedExpr]) -> bool
    ensures { result ≡ some_raise (map (seen (raise_step (target s.entry))) parts.now) }
{
    for part in parts {
        if may_raise(s, part) {
            return true;
        }
    }
    false
}

#[cycle(may_raise)]
fn arms_may_raise(s: Setting, arms: &[(PatC, TypedExpr)]) -> bool
    ensures { result ≡ some_arms_raise (map (λ (arm : Pattern × Tree). (arm.0, seen (raise_step (target s.entry)) arm.1)) arms.now) }
{
    for arm in arms {
        if may_raise(s, &arm.1) {
            return true;
        }
    }
    false
}

fn function_raises(s: Setting, function: u32) -> bool
    ensures { result ≡ raises_as (slice_get (target s.entry).called function) }
{
    match s.called.get(function as usize) {
        Some(called) => called.raises,
        None => true,
    }
}

/// Whether the operation isn't a division, or divides by a literal other than 0.
pub fn is_zero_free(op: Op, parts: &[TypedExpr]) -> bool
    ensures { result ≡ is_zero_free op parts.now }
{
    match op {
        Op::Div | Op::Mod => match parts.get(1) {
            Some(divisor) => is_nonzero(divisor),
            None => false,
        },
        _ => true,
    }
}

/// The word of a literal.
#[tactic(auto, using(crate::proofs::Forms::out_forms))]
pub fn word_of(e: &TypedExpr) -> Option<u64>
    ensures { result ≡ word_of e.now }
{
    match e {
        TypedExpr::Word(word) => Some(*word),
        _ => None,
    }
}

/// Whether the expression is a literal other than 0.
pub fn is_nonzero(e: &TypedExpr) -> bool
    ensures { result ≡ is_nonzero e.now }
{
    match word_of(e) {
        Some(word) => word != 0,
        None => false,
    }
}

/// Whether the place is a literal within the length of the vectors of the type.
#[tactic(auto, using(crate::proofs::Forms::out_forms))]
pub fn is_inside(of: &Ty, place: &TypedExpr) -> bool
    ensures { result ≡ is_inside of.now place.now }
{
    match (of, word_of(place)) {
        (Ty::Vector(count, _), Some(word)) => word >= 1 && word <= u64::from(*count),
        _ => false,
    }
}
