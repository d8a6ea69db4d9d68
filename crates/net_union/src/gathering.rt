//! Parts that are made one by one, each of which may have run out of memory.
//!
//! They stand here once for all types, so that what is dropped where memory ran out is the type's own business.
ghost use Rattle.std.specs.Prelude.{◌≡◌, ◌∷◌, ◌++◌, [], IfOk, IsOkAnd};

use hume_base::List;
use std::alloc::AllocError;

/// The list with one item more, if there was memory for both.
pub(crate) fn pushed<T: Drop>(
    list: Result<List<T>, AllocError>,
    item: Result<T, AllocError>,
) -> Result<List<T>, AllocError>
    ensures { IfOk result (λ longer. IsOkAnd list (λ before. IsOkAnd item (λ last. longer ≡ before ++ last ∷ []))) }
{
    let mut list = list?;
    list.push(item?)?;
    Ok(list)
}

/// The list with the items of another one behind its own, if there was memory for both.
pub(crate) fn joined<T: Drop>(
    list: Result<List<T>, AllocError>,
    more: Result<List<T>, AllocError>,
) -> Result<List<T>, AllocError>
    ensures { IfOk result (λ longer. IsOkAnd list (λ before. IsOkAnd more (λ later. longer ≡ before ++ later))) }
{
    let mut list = list?;
    list.append(more?)?;
    Ok(list)
}

/// The pair of both, if there was memory for both.
pub(crate) fn both<A: Drop, B: Drop>(
    first: Result<A, AllocError>,
    second: Result<B, AllocError>,
) -> Result<(A, B), AllocError>
    ensures { IfOk result (λ pair. IsOkAnd first (λ a. IsOkAnd second (λ b. pair ≡ (a, b)))) }
{
    let first = first?;
    Ok((first, second?))
}
