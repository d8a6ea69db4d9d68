//! Sources that are accepted.
ghost use Rattle.std.specs.Prelude.{IfOk};
ghost use Rattle.trials.specs.inner.Sources.{IsOfSource};

use crate::error::TrialError;
use crate::files::read_file;
use hume_front::{Accepted, FrontError, accept};
use std::alloc::Global;

/// What the source in the file of that name stands for.
pub(crate) fn accepted_source(
    rt: &HostRuntime,
    alloc: Global,
    name: &str,
) -> Result<Accepted, TrialError>
    ensures { IfOk result IsOfSource }
{
    let Some(text) = read_file(rt, alloc, name)? else {
        return Err(TrialError::NoSource);
    };
    match accept(alloc, &text) {
        Ok(accepted) => Ok(accepted),
        Err(FrontError::Refused(_)) => Err(TrialError::Refused),
        Err(FrontError::NoMemory) => Err(TrialError::NoMemory),
    }
}
