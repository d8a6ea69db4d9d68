//! Which exceptions expressions may raise.
ghost use Rattle.std.specs.Prelude.{◌≡◌, ◌==◌, ◌||◌, ◌<◌, Some};
ghost use Rattle.std.specs.List.{list_any};
ghost use Rattle.hume_model.specs.declared.core_tree.Expr.{Expr as Expression};
ghost use Rattle.hume_model.specs.declared.core_tree.PatC.{PatC as Pattern};
ghost use Rattle.hume_model.specs.declared.exceptions.TheConstants.{DIV_ZERO, RANGE, NO_CASE};
ghost use Rattle.hume_model.specs.Raising.{raises_with, may_be_outside};
ghost use Rattle.hume_exceptions.specs.Sets.{IsSetOf, called_by};
ghost use Rattle.hume_exceptions.specs.inner.Seen.{literal_of, divisor_may_be_zero as divides_by_zero};

use crate::completeness::are_complete;
use crate::exn_set::ExnSet;
use hume_base::Types;
use hume_model::{DIV_ZERO, Expr, NO_CASE, Op, PatC, RANGE};

/// What the expression may raise, by what functions may.
#[cycle(expression)]
#[tactic(auto, using(crate::proofs::Forms::raise_forms))]
pub fn expression_set(types: &Types, called: &[ExnSet], e: &Expr) -> ExnSet
    ensures { IsSetOf result (λ exn. raises_with types.now (called_by called.now exn) exn e.now) }
{
    match e {
        Expr::Word(_) => ExnSet::empty(),
        Expr::Var(_) => ExnSet::empty(),
        Expr::Con(_, parts) => parts_set(types, called, parts.as_slice()),
        Expr::Tuple(parts) => parts_set(types, called, parts.as_slice()),
        Expr::Vect(parts) => parts_set(types, called, parts.as_slice()),
        Expr::Prim(op, _, parts) => {
            let parts = parts.as_slice();
            let divides = divisor_may_be_zero(*op, parts);
            parts_set(types, called, parts).or(ExnSet::only_if(DIV_ZERO, divides))
        }
        Expr::Index(count, vector, place) => {
            let outside = is_maybe_outside(*count, place);
            let vector = expression_set(types, called, vector);
            let place = expression_set(types, called, place);
            vector.or(place.or(ExnSet::only_if(RANGE, outside)))
        }
        Expr::Update(count, vector, place, item) => {
            let outside = is_maybe_outside(*count, place);
            let vector = expression_set(types, called, vector);
            let place = expression_set(types, called, place);
            let item = expression_set(types, called, item);
            vector.or(place.or(item.or(ExnSet::only_if(RANGE, outside))))
        }
        Expr::If(test, when_true, when_false) => {
            let test = expression_set(types, called, test);
            let when_true = expression_set(types, called, when_true);
            let when_false = expression_set(types, called, when_false);
            test.or(when_true.or(when_false))
        }
        Expr::Case(part, forms, arms) => {
            let arms = arms.as_slice();
            let complete = are_complete(types, *forms, arms);
            let part = expression_set(types, called, part);
            part.or(arms_set(types, called, arms).or(ExnSet::only_if(NO_CASE, !complete)))
        }
        Expr::Let(part, body) => {
            let part = expression_set(types, called, part);
            part.or(expression_set(types, called, body))
        }
        Expr::Call(function, parts) => {
            parts_set(types, called, parts.as_slice()).or(called_set(called, *function))
        }
        Expr::Raise(exn, None) => ExnSet::only_if(*exn, true),
        Expr::Raise(exn, Some(part)) => {
            expression_set(types, called, part).or(ExnSet::only_if(*exn, true))
        }
    }
}

#[cycle(expression)]
fn parts_set(types: &Types, called: &[ExnSet], parts: &[Expr]) -> ExnSet
    ensures { IsSetOf result (λ exn. list_any (raises_with types.now (called_by called.now exn) exn) parts.now) }
{
    let mut set = ExnSet::empty();
    for part in parts {
        set = set.or(expression_set(types, called, part));
    }
    set
}

#[cycle(expression)]
fn arms_set(types: &Types, called: &[ExnSet], arms: &[(PatC, Expr)]) -> ExnSet
    ensures { IsSetOf result (λ exn. list_any (λ (arm : Pattern × Expression). raises_with types.now (called_by called.now exn) exn arm.1) arms.now) }
{
    let mut set = ExnSet::empty();
    for arm in arms {
        set = set.or(expression_set(types, called, &arm.1));
    }
    set
}

fn called_set(called: &[ExnSet], function: u32) -> ExnSet
    ensures { IsSetOf result (λ exn. called_by called.now exn function) }
{
    match called.get(function as usize) {
        None => ExnSet::only_if(NO_CASE, true),
        Some(set) => *set,
    }
}

/// Whether the operation divides by anything but a literal other than 0.
fn divisor_may_be_zero(op: Op, parts: &[Expr]) -> bool
    ensures { result ≡ divides_by_zero op parts.now }
{
    match op {
        Op::Div => has_zero_divisor(parts),
        Op::Mod => has_zero_divisor(parts),
        _ => false,
    }
}

fn has_zero_divisor(parts: &[Expr]) -> bool
    ensures { result ≡ divides_by_zero Op.Div parts.now }
{
    match parts.get(1) {
        None => false,
        Some(divisor) => match literal(divisor) {
            None => true,
            Some(word) => word == 0,
        },
    }
}

/// Whether the place is anything but a literal from 1 to the count.
fn is_maybe_outside(count: u32, place: &Expr) -> bool
    ensures { result ≡ may_be_outside count (literal_of place.now) }
{
    match literal(place) {
        None => true,
        Some(word) => word < 1 || word > count as u64,
    }
}

#[tactic(auto, using(crate::proofs::Forms::literal_forms))]
fn literal(e: &Expr) -> Option<u64>
    ensures { result ≡ literal_of e.now }
{
    match e {
        Expr::Word(word) => Some(*word),
        _ => None,
    }
}
