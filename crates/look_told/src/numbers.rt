//! Which numbers words and values may be.
ghost use Rattle.std.specs.Prelude.{◌≤◌};
ghost use Rattle.look_sources.specs.Pages.{Grows};

use crate::forms::Kind;
use hume_base::Ty;
use hume_base::limits::{MAX_SUPERSTEPS, MAX_WORKERS};
use look_sources::Page;

// The most programs of a union, and the greatest number for which a demo has a net, as `hume_calls` and `demo_net` have them.
const MAX_PROGRAMS: u32 = 8;

const MAX_NUMBER: u32 = 1_000_000;

/// The least and the greatest number of the kind, and what the forms call it.
pub(crate) fn range_of(kind: Kind) -> Option<(u32, u32, &'static [u8])> {
    match kind {
        Kind::Steps => Some((0, MAX_SUPERSTEPS, b"STEPS")),
        Kind::Workers => Some((1, MAX_WORKERS, b"WORKERS")),
        Kind::Count => Some((2, MAX_PROGRAMS, b"COUNT")),
        Kind::Number => Some((0, MAX_NUMBER, b"NUMBER")),
        _ => None,
    }
}

/// Puts the numbers that a type of numbers has.
#[tactic(auto, using(look_sources::proofs::Growing::growing))]
pub(crate) fn put_numbers(ty: &Ty, page: &mut Page)
    ensures { Grows page.old page.new }
{
    match ty {
        Ty::Nat(bits) => {
            page.put(b", 0");
            put_most(u64::MAX >> spare_bits(*bits), page);
        }
        Ty::Int(bits) => {
            let most = (u64::MAX >> 1u32) >> spare_bits(*bits);
            page.put(b", -");
            page.number(most.saturating_add(1));
            put_most(most, page);
        }
        _ => {}
    }
}

/// Puts the greatest number behind the least one.
#[tactic(auto, using(look_sources::proofs::Growing::growing))]
pub(crate) fn put_most(most: u64, page: &mut Page)
    ensures { Grows page.old page.new }
{
    page.put(b" to ");
    page.number(most);
}

// How many bits of a word a number of `bits` bits doesn't take.
fn spare_bits(bits: u8) -> u32
    ensures { result ≤ 63 }
{
    if bits >= 64 {
        0
    } else if bits == 0 {
        63
    } else {
        64 - u32::from(bits)
    }
}
