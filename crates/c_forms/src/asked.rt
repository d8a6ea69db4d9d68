//! Where it is asked whether memory was enough.
ghost use Rattle.std.specs.Prelude.{◌≡◌, IfOk};
ghost use Rattle.c_forms.specs.Gives.{Gives};

use std::alloc::AllocError;

/// The value that was made, or that memory ran out.
pub fn whole<T: Drop>(made: Option<T>) -> Result<T, AllocError>
    ensures { (v : T) → Gives made v → IfOk result (λ it. it ≡ v) }
{
    made.ok_or(AllocError)
}
