//! Numbers of words and places, as far as they fit.
ghost use Rattle.std.specs.Prelude.{◌≡◌, ◌+◌, IfOk};

use std::alloc::AllocError;

/// So many, if they fit.
pub(crate) fn count(many: usize) -> Result<u32, AllocError>
    ensures { IfOk result (λ count. count ≡ many) }
{
    if many > 0xffff_ffff {
        return Err(AllocError);
    }
    Ok(many as u32)
}

/// The sum, if it fits.
pub(crate) fn plus(first: u32, second: u32) -> Result<u32, AllocError>
    ensures { IfOk result (λ sum. sum ≡ first + second) }
{
    match first.checked_add(second) {
        None => Err(AllocError),
        Some(sum) => Ok(sum),
    }
}
