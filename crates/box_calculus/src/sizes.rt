//! How many parts and levels results have at most.
ghost use Rattle.std.specs.Prelude.{◌≡◌, ◌≤◌, ◌&&◌, IfOk, IfSome, is_some, nat_le};
ghost use Rattle.calculus_laws.specs.Depth.{result_depth};
ghost use Rattle.calculus_laws.specs.Parts.{result_parts};
ghost use Rattle.calculus_laws.specs.Unfolding.{has_room};
ghost use Rattle.box_calculus.specs.inner.Sizes.{IsWithin};

use crate::depths::result_is_within;
use crate::parts::count_result_parts;
use calculus_laws::{MAX_RESULT_DEPTH, MAX_RESULT_PARTS};
use hume_model::Res;
use std::alloc::AllocError;

/// At most so many parts and levels.
#[derive(Clone, Copy)]
pub(crate) struct Size {
    pub parts: u32,
    pub depth: u32,
}

/// A size that the result is within, if it is no deeper than is allowed and has no more parts. It looks at the result only where what is
/// expected of it is more than is allowed. Depth first: a count goes through all of its levels.
pub(crate) fn allowed_size(given: &Res, expected: Option<Size>) -> Result<Option<Size>, AllocError>
    requires { IfSome expected (λ size. IsWithin size given.now) }
    ensures room { IfOk result (λ size. has_room given.now ≡ is_some size) }
    ensures within { IfOk result (λ size. IfSome size (λ most. IsWithin most given.now)) }
{
    let Some(depth) = allowed_depth(given, expected) else {
        return Ok(None);
    };
    match allowed_parts(given, expected)? {
        None => Ok(None),
        Some(parts) => Ok(Some(Size { parts, depth })),
    }
}

fn allowed_depth(given: &Res, expected: Option<Size>) -> Option<u32>
    requires { IfSome expected (λ size. IsWithin size given.now) }
    ensures room { nat_le (result_depth given.now) MAX_RESULT_DEPTH ≡ is_some result }
    ensures within { IfSome result (λ depth. result_depth given.now ≤ depth) }
{
    match expected {
        Some(size) if size.depth <= MAX_RESULT_DEPTH => Some(size.depth),
        _ => depth_bound(given),
    }
}

// A depth that the result is within: a small one, so that the next steps needn't look again.
fn depth_bound(given: &Res) -> Option<u32>
    ensures room { nat_le (result_depth given.now) MAX_RESULT_DEPTH ≡ is_some result }
    ensures within { IfSome result (λ depth. result_depth given.now ≤ depth) }
{
    if result_is_within(given, 64) {
        Some(64)
    } else if result_is_within(given, 256) {
        Some(256)
    } else if result_is_within(given, MAX_RESULT_DEPTH) {
        Some(MAX_RESULT_DEPTH)
    } else {
        None
    }
}

fn allowed_parts(given: &Res, expected: Option<Size>) -> Result<Option<u32>, AllocError>
    requires { IfSome expected (λ size. IsWithin size given.now) }
    ensures room { IfOk result (λ parts. nat_le (result_parts given.now) MAX_RESULT_PARTS ≡ is_some parts) }
    ensures within { IfOk result (λ parts. IfSome parts (λ most. result_parts given.now ≤ most)) }
{
    match expected {
        Some(size) if size.parts <= MAX_RESULT_PARTS => Ok(Some(size.parts)),
        _ => parts_bound(given),
    }
}

fn parts_bound(given: &Res) -> Result<Option<u32>, AllocError>
    ensures room { IfOk result (λ parts. nat_le (result_parts given.now) MAX_RESULT_PARTS ≡ is_some parts) }
    ensures within { IfOk result (λ parts. IfSome parts (λ most. result_parts given.now ≤ most)) }
{
    let parts = count_result_parts(given)?;
    if parts <= MAX_RESULT_PARTS {
        Ok(Some(parts))
    } else {
        Ok(None)
    }
}
