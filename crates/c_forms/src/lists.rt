//! Lists from their parts. Where a part is lacking, as memory ran out, so is the whole.
ghost use Rattle.std.specs.Prelude.{◌≡◌, [], ◌∷◌, ◌++◌, List, OnSome};
ghost use Rattle.c_forms.specs.Gives.{Gives};

use hume_base::{Box, List};
use std::alloc::Global;

pub fn of_one<T: Drop>(alloc: Global, item: Option<Box<T>>) -> Option<List<T>>
    ensures { (i : T) → Gives item i → Gives result (i ∷ []) }
{
    match item {
        Some(item) => List::of_one(alloc, item.into_inner()).ok(),
        None => None,
    }
}

pub fn of_two<T: Drop>(
    alloc: Global,
    first: Option<Box<T>>,
    second: Option<Box<T>>,
) -> Option<List<T>>
    ensures { (f s : T) → Gives first f → Gives second s → Gives result (f ∷ s ∷ []) }
{
    let mut list = of_one(alloc, first)?;
    push(&mut list, second)?;
    Some(list)
}

/// The item, and more behind it.
pub fn before<T: Drop>(
    alloc: Global,
    first: Option<Box<T>>,
    more: Option<List<T>>,
) -> Option<List<T>>
    ensures { (f : T) (m : List T) → Gives first f → Gives more m → Gives result (f ∷ m) }
{
    let mut list = of_one(alloc, first)?;
    append(&mut list, more)?;
    Some(list)
}

/// The list with the item at its end.
pub fn with<T: Drop>(list: Option<List<T>>, item: Option<Box<T>>) -> Option<List<T>>
    ensures { (l : List T) (i : T) → Gives list l → Gives item i → Gives result (l ++ i ∷ []) }
{
    let mut list = list?;
    push(&mut list, item)?;
    Some(list)
}

/// The list with more at its end.
pub fn appended<T: Drop>(list: Option<List<T>>, more: Option<List<T>>) -> Option<List<T>>
    ensures { (l m : List T) → Gives list l → Gives more m → Gives result (l ++ m) }
{
    let mut list = list?;
    append(&mut list, more)?;
    Some(list)
}

/// Puts the item at the end of the list.
pub fn push<T: Drop>(list: &mut List<T>, item: Option<Box<T>>) -> Option<()>
    ensures { (i : T) → Gives item i → OnSome result (list.new ≡ list.old ++ i ∷ []) }
{
    list.push(item?.into_inner()).ok()
}

/// Puts more at the end of the list.
pub fn append<T: Drop>(list: &mut List<T>, more: Option<List<T>>) -> Option<()>
    ensures { (m : List T) → Gives more m → OnSome result (list.new ≡ list.old ++ m) }
{
    list.append(more?).ok()
}
