//! Numbers that move up.
ghost use Rattle.std.specs.Prelude.{◌≡◌, ◌+◌, IfOk};
ghost use Rattle.union_laws.specs.Moving.{moved_exn};

use hume_model::NO_CASE;
use std::alloc::AllocError;
use union_laws::Moves;

/// The higher number. One that needs more than 32 bits, which no checked program has, answers `AllocError`.
pub(crate) fn raised(number: u32, by: u32) -> Result<u32, AllocError>
    ensures { IfOk result (λ higher. higher ≡ by + number) }
{
    match by.checked_add(number) {
        Some(higher) => Ok(higher),
        None => Err(AllocError),
    }
}

/// The higher number of an exception that the program declares; the others keep theirs.
pub(crate) fn raised_exn(moves: Moves, exn: u32) -> Result<u32, AllocError>
    ensures { IfOk result (λ higher. higher ≡ moved_exn moves exn) }
{
    if exn <= NO_CASE {
        return Ok(exn);
    }
    raised(exn, moves.exns)
}
