//! What is known of the result of a rule that a step has just changed.
ghost use Rattle.std.specs.Prelude.{◌≡◌, ◌+◌, IfOk, IfSome, Some};
ghost use Rattle.std.specs.Option.{option_and_then};
ghost use Rattle.box_calculus.specs.inner.Known.{clear_of, grown};
ghost use Rattle.box_calculus.specs.inner.Sizes.{AddWithin};

use crate::added::most_added;
use crate::sizes::Size;
use hume_model::FunC;
use std::alloc::AllocError;

/// The result of the rule is within `size`, an unfolded call adds no more than `most`, and if the result is a `case`, its first `clear`
/// alternatives have no call that can be unfolded.
#[derive(Clone, Copy)]
pub(crate) struct Known {
    pub node: u32,
    pub rule: u32,
    pub size: Size,
    pub clear: usize,
    pub most: Size,
}

/// The result is within `size`, and the first `clear` alternatives of a `case` have no call that can be unfolded.
#[derive(Clone, Copy)]
pub(crate) struct Seen {
    pub size: Size,
    pub clear: usize,
}

/// The size that the rule's result has at most after a call in it is unfolded, if something is known of it.
pub(crate) fn expected_size(known: Option<Known>, node: u32, rule: u32) -> Option<Size>
    ensures { IfSome result (λ size. option_and_then (grown node rule) known ≡ Some size) }
{
    match known {
        Some(known) if known.node == node && known.rule == rule => sum(known.size, known.most),
        _ => None,
    }
}

/// How many first alternatives of the rule's result have no call that can be unfolded, as far as it is known.
pub(crate) fn clear_alternatives(known: Option<Known>, node: u32, rule: u32) -> usize
    ensures { result ≡ clear_of node rule known }
{
    match known {
        Some(known) if known.node == node && known.rule == rule => known.clear,
        _ => 0,
    }
}

fn sum(first: Size, second: Size) -> Option<Size>
    ensures { IfSome result (λ size. (size.parts ≡ first.parts + second.parts) × (size.depth ≡ first.depth + second.depth)) }
{
    let parts = first.parts.checked_add(second.parts)?;
    let depth = first.depth.checked_add(second.depth)?;
    Some(Size { parts, depth })
}

/// A size that no function adds more than, as it is known or as the functions say.
pub(crate) fn known_most(funs: &[FunC], known: Option<Known>) -> Result<Option<Size>, AllocError>
    requires { IfSome known (λ it. AddWithin it.most funs.now) }
    ensures { IfOk result (λ most. IfSome most (λ size. AddWithin size funs.now)) }
{
    match known {
        Some(known) => Ok(Some(known.most)),
        None => most_added(funs),
    }
}
