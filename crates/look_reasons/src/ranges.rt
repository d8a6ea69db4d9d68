//! What is told of a type that is expected, or that an expression has.
ghost use Rattle.std.specs.Prelude.{◌≡◌, ◌≤◌};
ghost use Rattle.look_sources.specs.Pages.{Grows};
ghost use Rattle.look_reasons.specs.Reasons.{OnlyRemedyDiffers};

use crate::reason::Reason;
use crate::site::Site;
use look_sources::{Sort, Span};

/// Puts the numbers that a type has, if it is written as an `int` or a `nat`.
#[tactic(auto, using(look_sources::proofs::Growing::growing))]
pub fn put_numbers(ty: &[u8], reason: &mut Reason)
    ensures head { reason.new.head ≡ reason.old.head }
    ensures note { Grows reason.old.note reason.new.note }
{
    let width = width_of(ty);
    if width < 1 || width > 64 {
        return;
    }
    put_least_and_most(ty, width, reason);
    reason.note.put(b"\n");
}

#[tactic(auto, using(look_sources::proofs::Growing::growing))]
fn put_least_and_most(ty: &[u8], width: u32, reason: &mut Reason)
    ensures head { reason.new.head ≡ reason.old.head }
    ensures note { Grows reason.old.note reason.new.note }
{
    let spare = spare_bits(width);
    if ty.starts_with(b"nat ") {
        reason.note.put(b"  its numbers are 0 to ");
        reason.note.number(u64::MAX >> spare);
    } else {
        let most = (u64::MAX >> 1u32) >> spare;
        reason.note.put(b"  its numbers are -");
        reason.note.number(most.saturating_add(1));
        reason.note.put(b" to ");
        reason.note.number(most);
    }
}

/// How many bits of a word a number of that width doesn't take.
pub(crate) fn spare_bits(width: u32) -> u32
    ensures { result ≤ 63 }
{
    if width >= 64 {
        0
    } else if width == 0 {
        63
    } else {
        64 - width
    }
}

// The number behind `int` or `nat`; of another type 0.
fn width_of(ty: &[u8]) -> u32 {
    if !ty.starts_with(b"nat ") && !ty.starts_with(b"int ") {
        return 0;
    }
    let mut width: u32 = 0;
    for byte in ty.get(4..).unwrap_or(b"") {
        width = width
            .saturating_mul(10)
            .saturating_add(u32::from(byte.saturating_sub(b'0')));
    }
    width
}

/// Tells how values of that type are compared, if the part is an operand of a comparison and no number, letter or truth value.
pub fn tell_comparison(site: &Site, span: &Span, ty: &[u8], reason: &mut Reason)
    ensures { OnlyRemedyDiffers reason.old reason.new }
{
    let is_data = match ty.first() {
        None => false,
        Some(first) => first.is_ascii_uppercase(),
    };
    let is_large = ty.starts_with(b"(") || ty.starts_with(b"vector ");
    if (is_data || is_large) && is_operand(site, span) {
        reason.remedy = Some(b"no sign compares data: take it apart by `case`, or by a function");
    }
}

fn is_operand(site: &Site, part: &Span) -> bool {
    for span in site.spans {
        if span.sort == Sort::Comparison
            && span.holds(part)
            && (span.first == part.first || span.after == part.after)
        {
            return true;
        }
    }
    false
}
