//! The places of variables on the stack.
ghost use Rattle.std.specs.Prelude.{◌≡◌, ◌++◌, IfOk};
ghost use Rattle.box_code.specs.Represents.{counted};

use crate::counts::plus;
use hume_base::List;
use std::alloc::{AllocError, Global};

/// The places, and so many more from a place on.
pub(crate) fn with_places(
    alloc: Global,
    places: &List<u32>,
    start: u32,
    count: u32,
) -> Result<List<u32>, AllocError>
    ensures { IfOk result (λ inner. inner ≡ places.now ++ counted start count) }
{
    let mut inner = List::from_vec(places.as_slice().to_vec(alloc)?);
    for i in 0..count {
        inner.push(plus(start, i)?)?;
    }
    Ok(inner)
}

/// So many places from one on.
pub(crate) fn counted_places(alloc: Global, start: u32, count: u32) -> Result<List<u32>, AllocError>
    ensures { IfOk result (λ places. places ≡ counted start count) }
{
    let none = List::new(alloc);
    with_places(alloc, &none, start, count)
}
