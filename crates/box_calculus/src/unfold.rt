//! Rules in which a call is unfolded.
ghost use Rattle.std.specs.Prelude.{◌≡◌, ◌⊎◌, ◌<◌, IfOk, IfErr, IfSome, OnOk, Some, None, length, slice_get, slice_set};
ghost use Rattle.calculus_laws.specs.declared.step.CalcError.TheVariants.{NoMemory as OutOfMemory};
ghost use Rattle.calculus_laws.specs.Naming.{variables};
ghost use Rattle.calculus_laws.specs.Unfolding.{unfold_refusal};
ghost use Rattle.calculus_unfolding.specs.inner.Changes.{alone, result_changed};
ghost use Rattle.calculus_unfolding.specs.inner.Clear.{IsClear};
ghost use Rattle.box_calculus.specs.inner.Sizes.{IsWithin};
ghost use Rattle.box_calculus.specs.inner.Unfolded.{result_refusal, rule_changed};

use crate::known::Seen;
use crate::sizes::{Size, allowed_size};
use crate::variables::rule_variables;
use calculus_laws::CalcError;
use calculus_unfolding::{count, unfold_further};
use hume_base::{List, Types};
use hume_model::{BoxC, FunC, Res};
use std::alloc::{AllocError, Global};
use std::mem;

/// Unfolds the first call that can be unfolded in the result of a rule with `scope` variables, where the new result is within what is
/// expected, if anything is, and the first `clear` alternatives of a `case` have no such call. It gives a size that the new result is
/// within, and how many first alternatives have none now. A refusal may leave the rule changed.
#[tactic(auto, using(crate::proofs::Unfolded::refusal_steps))]
pub(crate) fn unfold_rule(
    alloc: Global,
    funs: &[FunC],
    b: &mut BoxC,
    rule: u32,
    scope: u32,
    expected: Option<Size>,
    clear: usize,
) -> Result<Seen, CalcError>
    requires rule { rule < length b.old.rules }
    requires expected { IfSome expected (λ size. IfSome (slice_get b.old.rules rule) (λ old. IfSome (rule_changed (alone funs.now) scope old) (λ new.
        IsWithin size new.result))) }
    requires clear { IfSome (slice_get b.old.rules rule) (λ old. IsClear (alone funs.now) scope clear old.result) }
    ensures new { OnOk result (IfSome (slice_get b.old.rules rule) (λ old. IfSome (rule_changed (alone funs.now) scope old) (λ new.
        b.new ≡ record b.old { rules = slice_set b.old.rules rule new }))) }
    ensures allowed { OnOk result (IfSome (slice_get b.old.rules rule) (λ old. unfold_refusal (rule_changed (alone funs.now) scope old) ≡ None)) }
    ensures within { IfOk result (λ seen. IfSome (slice_get b.old.rules rule) (λ old. IfSome (rule_changed (alone funs.now) scope old) (λ new.
        IsWithin seen.size new.result))) }
    ensures clear { IfOk result (λ seen. IfSome (slice_get b.old.rules rule) (λ old. IfSome (rule_changed (alone funs.now) scope old) (λ new.
        IsClear (alone funs.now) scope seen.clear new.result))) }
    ensures refused { IfErr result (λ error. (error ≡ OutOfMemory)
        ⊎ IfSome (slice_get b.old.rules rule) (λ old. unfold_refusal (rule_changed (alone funs.now) scope old) ≡ Some error)) }
{
    let mut rules = mem::replace(&mut b.rules, List::new(alloc)).into_vec();
    let seen = unfold_allowed(
        alloc,
        funs,
        &mut rules[rule as usize].result,
        scope,
        expected,
        clear,
    )?;
    b.rules = List::from_vec(rules);
    Ok(seen)
}

// Unfolds the first call of the result that can be unfolded.
fn unfold_allowed(
    alloc: Global,
    funs: &[FunC],
    given: &mut Res,
    scope: u32,
    expected: Option<Size>,
    clear: usize,
) -> Result<Seen, CalcError>
    requires expected { IfSome expected (λ size. IfSome (result_changed (alone funs.now) scope given.old) (IsWithin size)) }
    requires clear { IsClear (alone funs.now) scope clear given.old }
    ensures new { OnOk result (result_changed (alone funs.now) scope given.old ≡ Some given.new) }
    ensures allowed { OnOk result (result_refusal (result_changed (alone funs.now) scope given.old) ≡ None) }
    ensures within { IfOk result (λ seen. IsWithin seen.size given.new) }
    ensures clear { IfOk result (λ seen. IsClear (alone funs.now) scope seen.clear given.new) }
    ensures refused { IfErr result (λ error.
        (error ≡ OutOfMemory) ⊎ (result_refusal (result_changed (alone funs.now) scope given.old) ≡ Some error)) }
{
    let Some(clear) = unfold_further(alloc, funs, given, scope, clear)? else {
        return Err(CalcError::CannotUnfold);
    };
    match allowed_size(given, expected)? {
        None => Err(CalcError::CannotUnfold),
        Some(size) => Ok(Seen { size, clear }),
    }
}

/// How many variables a rule has.
pub(crate) fn variable_count(
    alloc: Global,
    types: &Types,
    b: &BoxC,
    rule: u32,
) -> Result<u32, AllocError>
    requires { rule < length b.now.rules }
    ensures { IfOk result (λ count. IfSome (slice_get b.now.rules rule) (λ old. count ≡ length (variables types.now b.now old))) }
{
    let pats = &b.rules.as_slice()[rule as usize].pats;
    let variables = rule_variables(alloc, types, pats.as_slice(), b.ins.as_slice())?;
    count(variables.len())
}
