//! The exceptions that every program has.
ghost use Rattle.std.specs.Prelude.{◌≡◌, IfOk};
ghost use Rattle.hume_model.specs.OwnExceptions.{own_exceptions as the_exceptions, plain_exception as exception_named};

use crate::core_tree::ExnDef;
use hume_base::{List, Text};
use std::alloc::{AllocError, Global};

/// The number of the exception of a division by 0.
pub const DIV_ZERO: u32 = 0;

/// The number of the exception of an index outside a vector.
pub const RANGE: u32 = 1;

/// The number of the exception of a `case` or a call that nothing matches.
pub const NO_CASE: u32 = 2;

/// The exceptions that stand first in every core, in the order of their numbers.
pub fn own_exceptions(alloc: Global) -> Result<List<ExnDef>, AllocError>
    ensures { IfOk result (λ exns. exns ≡ the_exceptions) }
{
    let mut exns = List::of_one(alloc, plain_exception(alloc, b"DivZero")?)?;
    exns.push(plain_exception(alloc, b"Range")?)?;
    exns.push(plain_exception(alloc, b"NoCase")?)?;
    Ok(exns)
}

// An exception that carries nothing.
fn plain_exception(alloc: Global, name: &[u8]) -> Result<ExnDef, AllocError>
    ensures { IfOk result (λ exn. exn ≡ exception_named name.now) }
{
    Ok(ExnDef {
        name: Text::from_bytes(alloc, name)?,
        carries: None,
    })
}
