ghost use Rattle.std.specs.Prelude.{◌≡◌, IfOk};

use hume_base::{List, Value, copy_value};
use std::alloc::{AllocError, Global};

pub fn copy_maybe(alloc: Global, value: &Option<Value>) -> Result<Option<Value>, AllocError>
    ensures { IfOk result (λ copy. copy ≡ value.now) }
{
    match value {
        None => Ok(None),
        Some(value) => Ok(Some(copy_value(alloc, value)?)),
    }
}

pub fn copy_outputs(
    alloc: Global,
    outs: &[Option<Value>],
) -> Result<List<Option<Value>>, AllocError>
    ensures { IfOk result (λ copies. copies ≡ outs.now) }
{
    let mut copies = List::new(alloc);
    for out in outs {
        copies.push(copy_maybe(alloc, out)?)?;
    }
    Ok(copies)
}

pub fn copy_numbers(alloc: Global, numbers: &[u32]) -> Result<List<u32>, AllocError>
    ensures { IfOk result (λ copies. copies ≡ numbers.now) }
{
    Ok(List::from_vec(Vec::from_slice(alloc, numbers)?))
}
