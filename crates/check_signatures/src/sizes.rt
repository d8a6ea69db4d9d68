//! The sizes of data types.
ghost use Rattle.std.specs.Prelude.{◌≡◌, ◌+◌, map, length};
ghost use Rattle.hume_base.specs.declared.types.ConDef.{ConDef as Constructor};
ghost use Rattle.hume_base.specs.Sizes.{named_size, sizes_with, greatest, written_size, HaveTheirSizes};

use hume_base::limits::MAX_TYPE_WORDS;
use hume_base::{ConDef, Shared, Ty, Types, size};

/// The words of a data type of these constructors, which hold only data types that are there already.
#[tactic(auto, using(crate::proofs::Words::size_steps))]
pub(crate) fn words_of(types: &Types, cons: &[ConDef]) -> u32
    requires { HaveTheirSizes types.now }
    ensures { result ≡ written_size (1 + greatest (map (λ (con : Constructor).
        sizes_with (named_size types.now (length types.now.sums)) con.fields) cons.now)) }
{
    let mut most: u32 = 0;
    for con in cons {
        most = most.max(fields_words(types, con.fields.as_slice()));
    }
    (1 + most).min(MAX_TYPE_WORDS + 1)
}

#[tactic(auto, using(crate::proofs::Words::size_steps))]
fn fields_words(types: &Types, fields: &[Shared<Ty>]) -> u32
    requires { HaveTheirSizes types.now }
    ensures { result ≡ written_size (sizes_with (named_size types.now (length types.now.sums)) fields.now) }
{
    let mut total: u32 = 0;
    for field in fields {
        total = (total + size(types, field)).min(MAX_TYPE_WORDS + 1);
    }
    total
}
