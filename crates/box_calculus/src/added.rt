//! How many parts and levels an unfolded call adds at most, whichever function it calls.
ghost use Rattle.std.specs.Prelude.{◌≡◌, ◌≤◌, IfOk, IfSome, map, nat_le};
ghost use Rattle.hume_base.specs.Sizes.{greatest};
ghost use Rattle.box_calculus.specs.inner.Sizes.{AddWithin, added_depth, added_parts, most_depth, most_parts};

use crate::depths::is_within;
use crate::parts::count_parts;
use crate::sizes::Size;
use calculus_laws::MAX_RESULT_DEPTH;
use calculus_unfolding::{count, plus};
use hume_model::{EqC, FunC};
use std::alloc::AllocError;

/// A size that no function adds more than, unless some body is deeper than a result may be.
pub(crate) fn most_added(funs: &[FunC]) -> Result<Option<Size>, AllocError>
    ensures { IfOk result (λ most. IfSome most (λ size. AddWithin size funs.now)) }
{
    let Some(depth) = deepest_added(funs) else {
        return Ok(None);
    };
    let parts = most_parts_added(funs)?;
    Ok(Some(Size { parts, depth }))
}

fn deepest_added(funs: &[FunC]) -> Option<u32>
    ensures { IfSome result (λ depth. greatest (map most_depth funs.now) ≤ depth) }
{
    if functions_add_within(funs, 16) {
        Some(16)
    } else if functions_add_within(funs, 64) {
        Some(64)
    } else if functions_add_within(funs, 256) {
        Some(256)
    } else if functions_add_within(funs, MAX_RESULT_DEPTH) {
        Some(MAX_RESULT_DEPTH)
    } else {
        None
    }
}

#[tactic(auto, using(crate::proofs::DepthSteps::depth_steps))]
fn functions_add_within(funs: &[FunC], depth: u32) -> bool
    ensures { result ≡ nat_le (greatest (map most_depth funs.now)) depth }
{
    for function in funs {
        if !equations_add_within(function.equations.as_slice(), depth) {
            return false;
        }
    }
    true
}

#[tactic(auto, using(crate::proofs::DepthSteps::depth_steps))]
fn equations_add_within(equations: &[EqC], depth: u32) -> bool
    ensures { result ≡ nat_le (greatest (map added_depth equations.now)) depth }
{
    for equation in equations {
        if !adds_within(equation, depth) {
            return false;
        }
    }
    true
}

#[tactic(auto, using(crate::proofs::DepthSteps::added_steps))]
fn adds_within(equation: &EqC, depth: u32) -> bool
    ensures { result ≡ nat_le (added_depth equation.now) depth }
{
    let lets = equation.pats.len();
    if lets > depth as usize {
        return false;
    }
    is_within(&equation.body, depth - lets as u32)
}

fn most_parts_added(funs: &[FunC]) -> Result<u32, AllocError>
    ensures { IfOk result (λ most. most ≡ greatest (map most_parts funs.now)) }
{
    let mut most: u32 = 0;
    for i in (0..funs.len()).rev() {
        most = most_of_equations(funs[i].equations.as_slice())?.max(most);
    }
    Ok(most)
}

fn most_of_equations(equations: &[EqC]) -> Result<u32, AllocError>
    ensures { IfOk result (λ most. most ≡ greatest (map added_parts equations.now)) }
{
    let mut most: u32 = 0;
    for i in (0..equations.len()).rev() {
        most = added_by(&equations[i])?.max(most);
    }
    Ok(most)
}

fn added_by(equation: &EqC) -> Result<u32, AllocError>
    ensures { IfOk result (λ parts. parts ≡ added_parts equation.now) }
{
    plus(count(equation.pats.len())?, count_parts(&equation.body)?)
}
