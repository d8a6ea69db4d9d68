//! Why reading stops.
ghost use Rattle.std.specs.Prelude.{◌≡◌};
ghost use Rattle.parse_errors.specs.declared.stop.Stop.TheVariants.{Memory};

use std::alloc::{AllocError, AllocFailed};

/// Why nothing was read. A wrong token is reported by how many tokens are left, from it on.
#[derive(Drop)]
pub enum Stop {
    Memory,
    Syntax(usize),
    /// Only deeper than is allowed does a tree go on with the token.
    Deep(usize),
}

impl From<AllocError> for Stop {
    ghost from_gives = { λ _ stop. stop ≡ Memory };

    fn from(_error: AllocError) -> Stop {
        Stop::Memory
    }
}

impl<T: Drop> From<AllocFailed<T>> for Stop {
    ghost from_gives = { λ _ stop. stop ≡ Memory };

    fn from(_error: AllocFailed<T>) -> Stop {
        Stop::Memory
    }
}
