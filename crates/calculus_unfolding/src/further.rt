//! Results in which the first call that can be unfolded is, where it is known that their first alternatives have none. So a step in a
//! long `case` needn't look again at what the steps before it left behind.
ghost use Rattle.std.specs.Prelude.{◌≡◌, IfOk, IfSome, IsNone, None, is_some, take};
ghost use Rattle.calculus_unfolding.specs.inner.Changes.{alone, arm_changed, expression_changed, first_changed, if_found, result_changed, two_changed};
ghost use Rattle.calculus_unfolding.specs.inner.Clear.{IsClear};

use crate::unfolding::unfold;
use crate::unfolding_results::{unfold_result, unfold_way};
use hume_base::List;
use hume_model::{Expr, FunC, PatC, Res};
use std::alloc::{AllocError, Global};
use std::mem;

/// Unfolds the first call of a result that can be unfolded, where `scope` variables are in scope and the first `clear` alternatives of a
/// `case` have no such call. Answers how many of them have none afterwards, if there is such a call.
#[tactic(auto, using(crate::proofs::ClearArms::clear_steps))]
pub fn unfold_further(
    alloc: Global,
    funs: &[FunC],
    given: &mut Res,
    scope: u32,
    clear: usize,
) -> Result<Option<usize>, AllocError>
    requires { IsClear (alone funs.now) scope clear given.old }
    ensures found { IfOk result (λ clear. result_changed (alone funs.now) scope given.old ≡ if_found (is_some clear) given.new) }
    ensures kept { IfOk result (λ clear. IsNone clear → given.new ≡ given.old) }
    ensures clear { IfOk result (λ clear. IfSome clear (λ count. IsClear (alone funs.now) scope count given.new)) }
{
    match given {
        Res::Case(part, _, arms) => unfold_in_case(alloc, funs, part, arms, scope, clear),
        _ => unfold_whole(alloc, funs, given, scope),
    }
}

#[tactic(auto, using(crate::proofs::ClearArms::clear_steps))]
fn unfold_whole(
    alloc: Global,
    funs: &[FunC],
    given: &mut Res,
    scope: u32,
) -> Result<Option<usize>, AllocError>
    ensures found { IfOk result (λ clear. result_changed (alone funs.now) scope given.old ≡ if_found (is_some clear) given.new) }
    ensures kept { IfOk result (λ clear. IsNone clear → given.new ≡ given.old) }
    ensures clear { IfOk result (λ clear. IfSome clear (λ count. IsClear (alone funs.now) scope count given.new)) }
{
    if unfold_result(alloc, funs, given, scope)? {
        return Ok(Some(0));
    }
    Ok(None)
}

#[tactic(auto, using(crate::proofs::Changes::two_steps))]
fn unfold_in_case(
    alloc: Global,
    funs: &[FunC],
    part: &mut Expr,
    arms: &mut List<(PatC, Res)>,
    scope: u32,
    clear: usize,
) -> Result<Option<usize>, AllocError>
    requires { first_changed (arm_changed (result_changed (alone funs.now)) scope) (take clear arms.old) ≡ None }
    ensures found { IfOk result (λ clear. two_changed (expression_changed (alone funs.now) scope)
        (first_changed (arm_changed (result_changed (alone funs.now)) scope)) (part.old, arms.old) ≡ if_found (is_some clear) (part.new, arms.new)) }
    ensures kept { IfOk result (λ clear. IsNone clear → (part.new ≡ part.old) × (arms.new ≡ arms.old)) }
    ensures clear { IfOk result (λ clear. IfSome clear (λ count.
        first_changed (arm_changed (result_changed (alone funs.now)) scope) (take count arms.new) ≡ None)) }
{
    if unfold(alloc, funs, part, scope)? {
        return Ok(Some(clear));
    }
    unfold_ways_from(alloc, funs, arms, scope, clear)
}

// The alternatives from a place on.
fn unfold_ways_from(
    alloc: Global,
    funs: &[FunC],
    arms: &mut List<(PatC, Res)>,
    scope: u32,
    from: usize,
) -> Result<Option<usize>, AllocError>
    requires { first_changed (arm_changed (result_changed (alone funs.now)) scope) (take from arms.old) ≡ None }
    ensures found { IfOk result (λ clear. first_changed (arm_changed (result_changed (alone funs.now)) scope) arms.old
        ≡ if_found (is_some clear) arms.new) }
    ensures kept { IfOk result (λ clear. IsNone clear → arms.new ≡ arms.old) }
    ensures clear { IfOk result (λ clear. IfSome clear (λ count.
        first_changed (arm_changed (result_changed (alone funs.now)) scope) (take count arms.new) ≡ None)) }
{
    let mut items = mem::replace(arms, List::new(alloc)).into_vec();
    let clear = unfold_next_way(alloc, funs, items.as_mut_slice(), scope, from)?;
    *arms = List::from_vec(items);
    Ok(clear)
}

#[tactic(auto, using(crate::proofs::ClearArms::way_steps))]
fn unfold_next_way(
    alloc: Global,
    funs: &[FunC],
    arms: &mut [(PatC, Res)],
    scope: u32,
    from: usize,
) -> Result<Option<usize>, AllocError>
    requires { first_changed (arm_changed (result_changed (alone funs.now)) scope) (take from arms.old) ≡ None }
    ensures found { IfOk result (λ clear. first_changed (arm_changed (result_changed (alone funs.now)) scope) arms.old
        ≡ if_found (is_some clear) arms.new) }
    ensures kept { IfOk result (λ clear. IsNone clear → arms.new ≡ arms.old) }
    ensures clear { IfOk result (λ clear. IfSome clear (λ count.
        first_changed (arm_changed (result_changed (alone funs.now)) scope) (take count arms.new) ≡ None)) }
{
    for i in from..arms.len() {
        if unfold_way(alloc, funs, &mut arms[i], scope)? {
            return Ok(Some(i));
        }
    }
    Ok(None)
}
