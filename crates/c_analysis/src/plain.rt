//! Which expressions are expressions of C, with no statement before them.
ghost use Rattle.std.specs.Prelude.{◌≡◌};
ghost use Rattle.c_analysis.specs.Plain.{is_connective, is_word, is_division};
ghost use Rattle.std.specs.Prelude.{◌&&◌, map};
ghost use Rattle.c_analysis.specs.Raises.{is_zero_free};
ghost use Rattle.c_analysis.specs.Seen.{seen};
ghost use Rattle.c_analysis.specs.Targets.{target, known, callee_of};
ghost use Rattle.c_analysis.specs.Plain.{is_plain, plain_step, all_plain, call_plain, arguments_plain, argument_plain};

use crate::raises::{is_inside, is_zero_free, may_raise, word_of};
use crate::setting::{Callee, Setting};
use crate::uses::uses_argument;
use hume_base::Ty;
use hume_model::Op;
use typed_core::TypedExpr;

/// Whether an `if` is an `and` or an `or`.
#[tactic(auto, using(crate::proofs::Forms::type_forms))]
pub fn is_connective(ty: &Ty, yes: &TypedExpr, no: &TypedExpr) -> bool
    ensures { result ≡ is_connective ty.now yes.now no.now }
{
    match ty {
        Ty::Bool => is_word(yes, 1) || is_word(no, 0),
        _ => false,
    }
}

/// Whether the expression is the literal of the word.
pub fn is_word(e: &TypedExpr, word: u64) -> bool
    ensures { result ≡ is_word e.now word }
{
    match word_of(e) {
        Some(other) => other == word,
        None => false,
    }
}

/// Whether an expression of the type is one of C, with no statement before it.
#[cycle(is_plain)]
#[tactic(auto, using(crate::proofs::PlainForms::plain_forms))]
pub fn is_plain(s: Setting, ty: &Ty, e: &TypedExpr) -> bool
    ensures { result ≡ is_plain (target s.entry) ty.now e.now }
{
    match e {
        TypedExpr::Word(_) | TypedExpr::Var(_) => true,
        TypedExpr::Con(_, _) => s.is_scalar(ty),
        TypedExpr::Prim(op, of, parts) => operation_is_plain(s, *op, of, parts.as_slice()),
        TypedExpr::Convert(from, _, part) => is_plain(s, from, part),
        TypedExpr::Index(of, _, vector, place) => is_inside(of, place) && is_plain(s, of, vector),
        TypedExpr::If(test, yes, no) => {
            s.is_scalar(ty)
                && is_plain(s, &Ty::Bool, test)
                && is_plain(s, ty, yes)
                && is_plain(s, ty, no)
        }
        TypedExpr::Call(function, parts) => call_is_plain(s, *function, parts.as_slice()),
        TypedExpr::Tuple(_) | TypedExpr::Vect(_) | TypedExpr::Update(_, _, _, _, _) => false,
        TypedExpr::Case(_, _, _) | TypedExpr::Let(_, _, _) | TypedExpr::Raise(_, _) => false,
    }
}

#[cycle(is_plain)]
fn operation_is_plain(s: Setting, op: Op, of: &Ty, parts: &[TypedExpr]) -> bool
    ensures { result ≡ (is_zero_free op parts.now && all_plain of.now (map (seen (plain_step (target s.entry))) parts.now)) }
{
    is_zero_free(op, parts) && are_plain(s, of, parts)
}

#[cycle(is_plain)]
fn are_plain(s: Setting, of: &Ty, parts: &[TypedExpr]) -> bool
    ensures { result ≡ all_plain of.now (map (seen (plain_step (target s.entry))) parts.now) }
{
    for part in parts {
        if !is_plain(s, of, part) {
            return false;
        }
    }
    true
}

#[cycle(is_plain)]
fn call_is_plain(s: Setting, function: u32, parts: &[TypedExpr]) -> bool
    ensures { result ≡ call_plain (target s.entry) (callee_of (target s.entry) function) (map (seen (plain_step (target s.entry))) parts.now) }
{
    match s.callee(function) {
        None => false,
        Some(callee) => s.gives_value(callee) && arguments_are_plain(s, callee, parts),
    }
}

#[cycle(is_plain)]
fn arguments_are_plain(s: Setting, callee: Callee, parts: &[TypedExpr]) -> bool
    ensures { result ≡ arguments_plain (target s.entry) (known callee.entry) 0 (map (seen (plain_step (target s.entry))) parts.now) }
{
    for (place, part) in parts.iter().enumerate() {
        if !argument_is_plain(s, callee, place, part) {
            return false;
        }
    }
    true
}

#[cycle(is_plain)]
fn argument_is_plain(s: Setting, callee: Callee, place: usize, part: &TypedExpr) -> bool
    ensures { result ≡ argument_plain (target s.entry) (known callee.entry) place (seen (plain_step (target s.entry)) part.now) }
{
    if !uses_argument(callee.called, place) {
        return !may_raise(s, part);
    }
    match callee.function.params.get(place) {
        Some(ty) => is_plain(s, ty, part),
        None => false,
    }
}

/// Whether the operation is `div` or `mod`.
pub fn is_division(op: Op) -> bool
    ensures { result ≡ is_division op }
{
    match op {
        Op::Div | Op::Mod => true,
        _ => false,
    }
}
