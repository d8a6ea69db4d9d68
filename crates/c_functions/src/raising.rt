//! Which functions may raise an exception.
ghost use Rattle.std.specs.Prelude.{◌≡◌, IfOk};
ghost use Rattle.hume_base.specs.declared.limits.TheConstants.{MAX_EXCEPTIONS};
ghost use Rattle.hume_exceptions.specs.Sets.{IsRaisesOf, has};
ghost use Rattle.c_functions.specs.Raising.{functions_raise, some_below};

use hume_base::List;
use hume_base::limits::MAX_EXCEPTIONS;
use hume_exceptions::{ExnSet, Raises};
use hume_model::Core;
use std::alloc::{AllocError, Global};

/// Which functions of the core may raise an exception.
#[tactic(auto, using(crate::proofs::RaisingSteps::function_steps))]
pub fn functions_raise(
    alloc: Global,
    core: &Core,
    raises: &Raises,
) -> Result<List<bool>, AllocError>
    requires { IsRaisesOf core.now raises.now }
    ensures { IfOk result (λ all. all ≡ functions_raise core.now) }
{
    let mut all = List::new(alloc);
    for set in raises.sets() {
        all.push(has_some(*set))?;
    }
    Ok(all)
}

/// Whether an exception is in the set.
#[tactic(auto, using(crate::proofs::RaisingSteps::raising_steps))]
pub fn has_some(set: ExnSet) -> bool
    ensures { result ≡ some_below MAX_EXCEPTIONS (has set) }
{
    let mut some = false;
    for exn in 0..MAX_EXCEPTIONS as u32 {
        some = some || set.has(exn);
    }
    some
}
