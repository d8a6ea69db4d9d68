//! The call that unites two programs, and why it may not.
ghost use Rattle.std.specs.Prelude.{◌≡◌, ◌⊎◌, IfErr, IfOk, OnOk};
ghost use Rattle.hume_model.specs.WellFormed.{IsWellFormed};
ghost use Rattle.net_union.specs.declared.uniting.UniteError.TheVariants.{NoMemory, OverLimit};
ghost use Rattle.union_laws.specs.Room.{HasRoom};
ghost use Rattle.union_laws.specs.Union.{united};

use crate::joining::join;
use crate::room::has_room;
use hume_model::Core;
use std::alloc::{AllocError, Global};

/// Why two programs aren't united.
#[derive(Clone, Copy)]
pub enum UniteError {
    /// 56: together they have more of something than a program may have.
    OverLimit,
    /// Memory has run out.
    NoMemory,
}

impl From<AllocError> for UniteError {
    ghost from_gives = { λ _ error. error ≡ NoMemory };

    fn from(_: AllocError) -> Self {
        UniteError::NoMemory
    }
}

/// The union of two programs, where it is within the limits of a program.
pub fn unite(alloc: Global, a: &Core, b: &Core) -> Result<Core, UniteError>
    requires first { IsWellFormed a.now }
    requires second { IsWellFormed b.now }
    ensures united { IfOk result (λ core. core ≡ united a.now b.now) }
    ensures room { OnOk result (HasRoom (united a.now b.now)) }
    ensures refused { IfErr result (λ error. ((error ≡ OverLimit) × (HasRoom (united a.now b.now) → ⊥))
        ⊎ ((error ≡ NoMemory) × HasRoom (united a.now b.now))) }
{
    if !has_room(a, b) {
        return Err(UniteError::OverLimit);
    }
    Ok(join(alloc, a, b)?)
}
