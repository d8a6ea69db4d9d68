//! Swaps of two rules of a box.
ghost use Rattle.std.specs.Prelude.{◌≡◌, ◌<◌, ◌+◌, IfErr, OnOk, None, Some, length};
ghost use Rattle.calculus_laws.specs.Swapping.{swap_refusal, swapped_box};

use crate::apart::are_apart;
use calculus_laws::CalcError;
use hume_base::List;
use hume_model::BoxC;
use std::alloc::Global;
use std::mem;

/// Exchanges the rule and the next one.
#[tactic(auto, using(calculus_laws::proofs::Exchanged::swap_next))]
pub(crate) fn swap_rules(alloc: Global, b: &mut BoxC, rule: u32) -> Result<(), CalcError>
    requires { rule < length b.old.rules }
    ensures allowed { OnOk result (swap_refusal b.old rule ≡ None) }
    ensures swapped { OnOk result (b.new ≡ swapped_box rule b.old) }
    ensures refused { IfErr result (λ error. swap_refusal b.old rule ≡ Some error) }
{
    check_swap(b, rule)?;
    let place = rule as usize;
    let rules = mem::replace(&mut b.rules, List::new(alloc));
    let mut rules = rules.into_vec();
    rules.swap(place, place + 1);
    b.rules = List::from_vec(rules);
    Ok(())
}

// Refuses a swap that could change which rule fires.
#[tactic(auto, using(std::proofs::lemmas::Option::slice_get_within))]
fn check_swap(b: &BoxC, rule: u32) -> Result<(), CalcError>
    requires { rule < length b.now.rules }
    ensures allowed { OnOk result (swap_refusal b.now rule ≡ None) }
    ensures next { OnOk result (rule + 1 < length b.now.rules) }
    ensures refused { IfErr result (λ error. swap_refusal b.now rule ≡ Some error) }
{
    let place = rule as usize;
    if b.fair {
        return Err(CalcError::CannotSwap);
    }
    let Some(first) = b.rules.get(place) else {
        return Err(CalcError::CannotSwap);
    };
    let Some(next) = b.rules.get(place + 1) else {
        return Err(CalcError::CannotSwap);
    };
    if !are_apart(first.pats.as_slice(), next.pats.as_slice()) {
        return Err(CalcError::NotApart);
    }
    Ok(())
}
