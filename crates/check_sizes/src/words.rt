//! The words of a type, by those of the data types in it.
ghost use Rattle.std.specs.Prelude.{◌≡◌, ◌≤◌, ◌+◌, ◌*◌};
ghost use Rattle.hume_base.specs.declared.limits.TheConstants.{MAX_WIRE_WORDS as MOST_WORDS};
ghost use Rattle.check_sizes.specs.inner.Capped.{capped, named_in, words_by};

use hume_base::Ty;
use hume_base::limits::MAX_WIRE_WORDS;

/// The words of a type, one more than all wires may have for any greater size.
#[tactic(auto, using(crate::proofs::Steps::size_steps))]
pub(crate) fn words(sizes: &[u32], ty: &Ty) -> u32
    ensures { result ≡ words_by sizes.now ty.now }
{
    match ty {
        Ty::Bool => 1,
        Ty::Char => 1,
        Ty::Int(_) => 1,
        Ty::Nat(_) => 1,
        Ty::Tuple(parts) => {
            let mut total: u32 = 0;
            for part in parts.as_slice() {
                total = sum(total, words(sizes, part));
            }
            total
        }
        Ty::Vector(count, item) => product(u64::from(*count), words(sizes, item)),
        Ty::Named(number) => named(sizes, *number),
    }
}

/// The words of the data type of a number.
pub(crate) fn named(sizes: &[u32], number: u32) -> u32
    ensures { result ≡ capped (named_in sizes.now number) }
{
    match sizes.get(number as usize) {
        None => 0,
        Some(words) => (*words).min(MAX_WIRE_WORDS + 1),
    }
}

pub(crate) fn sum(left: u32, right: u32) -> u32
    requires left { left ≤ MOST_WORDS + 1 }
    requires right { right ≤ MOST_WORDS + 1 }
    ensures { result ≡ capped (left + right) }
{
    (left + right).min(MAX_WIRE_WORDS + 1)
}

pub(crate) fn product(count: u64, words: u32) -> u32
    requires { words ≤ MOST_WORDS + 1 }
    ensures { result ≡ capped (count * words) }
{
    if words == 0 {
        0
    } else if count > u64::from(MAX_WIRE_WORDS) {
        MAX_WIRE_WORDS + 1
    } else {
        (count * u64::from(words)).min(u64::from(MAX_WIRE_WORDS) + 1) as u32
    }
}
