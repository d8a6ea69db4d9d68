ghost use Rattle.std.specs.Prelude.{◌≡◌, ◌*◌, ◌≤◌};
ghost use Rattle.hume_base.specs.Sizes.{size_of, HaveTheirSizes};

use hume_base::limits::MAX_TYPE_WORDS;
use hume_base::{Ty, Types, size};

// The bytes of a printed text for each word of a type.
const WORD_BYTES: u32 = 512;

/// How many bytes a printed text of the type has at most.
pub fn text_bound(types: &Types, ty: &Ty) -> u32
    requires sizes { HaveTheirSizes types.now }
    requires small { size_of types.now ty.now ≤ MAX_TYPE_WORDS }
    ensures { result ≡ 512 * size_of types.now ty.now }
{
    WORD_BYTES * size(types, ty)
}
