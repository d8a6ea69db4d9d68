//! Rules, equations and alternatives that are never reached.
ghost use Rattle.look_sources.specs.Pages.{Grows};

use crate::hints::parts::Parts;
use look_sources::{Page, Sort};

/// Puts a hint on each that stands behind one that takes all that it takes.
#[tactic(auto, using(look_sources::proofs::Growing::growing))]
pub(crate) fn put_behind(parts: &Parts, page: &mut Page)
    ensures { Grows page.old page.new }
{
    for span in parts.spans {
        if span.sort != Sort::Shadowed {
            continue;
        }
        parts.put_hint(
            span.first,
            b"this is never reached: ",
            ordinal(span.number),
            b" before it takes all that it takes",
            page,
        );
    }
}

// Which one of a list is meant.
fn ordinal(number: usize) -> &'static [u8] {
    match number {
        1 => b"the first one",
        2 => b"the second one",
        3 => b"the third one",
        _ => b"one",
    }
}
