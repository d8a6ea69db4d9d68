//! Numbers of variables, as far as they fit.
ghost use Rattle.std.specs.Prelude.{◌≡◌, ◌+◌, IfOk, map, sum};
ghost use Rattle.calculus_laws.specs.Unfolding.{variables_in};

use hume_model::PatC;
use std::alloc::AllocError;

/// The sum, if it fits.
pub fn plus(first: u32, second: u32) -> Result<u32, AllocError>
    ensures { IfOk result (λ sum. sum ≡ first + second) }
{
    match first.checked_add(second) {
        None => Err(AllocError),
        Some(sum) => Ok(sum),
    }
}

/// How many variables a pattern has.
#[cycle(count_variables)]
pub fn count_variables(pattern: &PatC) -> Result<u32, AllocError>
    ensures { IfOk result (λ count. count ≡ variables_in pattern.now) }
{
    match pattern {
        PatC::Var => Ok(1),
        PatC::Any | PatC::Word(_) => Ok(0),
        PatC::Con(_, parts) => count_in_parts(parts.as_slice()),
        PatC::Tuple(parts) => count_in_parts(parts.as_slice()),
    }
}

#[cycle(count_variables)]
#[tactic(auto, using(crate::proofs::Sums::sum_steps))]
fn count_in_parts(parts: &[PatC]) -> Result<u32, AllocError>
    ensures { IfOk result (λ count. count ≡ sum (map variables_in parts.now)) }
{
    let mut count = 0;
    for part in parts {
        count = plus(count, count_variables(part)?)?;
    }
    Ok(count)
}

/// So many, if they fit.
pub fn count(many: usize) -> Result<u32, AllocError>
    ensures { IfOk result (λ count. count ≡ many) }
{
    if many > 0xffff_ffff {
        return Err(AllocError);
    }
    Ok(many as u32)
}
