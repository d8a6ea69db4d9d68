ghost use Rattle.std.specs.Prelude.{◌≡◌, ◌+◌, ◌*◌, ◌≤◌};
ghost use Rattle.hume_base.specs.Sizes.{size_of, written_size, HaveTheirSizes};

use crate::limits::MAX_TYPE_WORDS;
use crate::types::{Ty, Types};

/// The words of a type; one more than a written type may have for any greater size.
#[tactic(auto, using(crate::proofs::Sizes::size_steps))]
pub fn size(types: &Types, ty: &Ty) -> u32
    requires { HaveTheirSizes types.now }
    ensures { result ≡ written_size (size_of types.now ty.now) }
{
    match ty {
        Ty::Bool => 1,
        Ty::Char => 1,
        Ty::Int(_) => 1,
        Ty::Nat(_) => 1,
        Ty::Tuple(parts) => {
            let mut total = 0;
            for part in parts.as_slice() {
                total = sum_up_to_limit(total, size(types, part));
            }
            total
        }
        Ty::Vector(count, item) => product_up_to_limit(*count, size(types, item)),
        Ty::Named(number) => match types.sums.get(*number as usize) {
            Some(sum) => sum.words,
            None => 0,
        },
    }
}

fn sum_up_to_limit(left: u32, right: u32) -> u32
    requires left { left ≤ MAX_TYPE_WORDS + 1 }
    requires right { right ≤ MAX_TYPE_WORDS + 1 }
    ensures { result ≡ written_size (left + right) }
{
    (left + right).min(MAX_TYPE_WORDS + 1)
}

fn product_up_to_limit(count: u32, words: u32) -> u32
    requires { words ≤ MAX_TYPE_WORDS + 1 }
    ensures { result ≡ written_size (count * words) }
{
    if count > MAX_TYPE_WORDS && words > 0 {
        MAX_TYPE_WORDS + 1
    } else {
        (count * words).min(MAX_TYPE_WORDS + 1)
    }
}
