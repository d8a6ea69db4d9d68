//! The sizes of all data types, each of which holds only those before it.
ghost use Rattle.std.specs.Prelude.{◌≡◌, IfOk};
ghost use Rattle.hume_base.specs.Sizes.{sizes_with};
ghost use Rattle.check_sizes.specs.inner.Capped.{capped, named_in, data_words, sizes_of};

use crate::words::{sum, words};
use hume_base::{ConDef, List, Shared, SumDef, Ty};
use std::alloc::{AllocError, Global};

/// The sizes of the data types by their numbers.
pub(crate) fn data_sizes(alloc: Global, sums: &[SumDef]) -> Result<List<u32>, AllocError>
    ensures { IfOk result (λ sizes. sizes ≡ sizes_of sums.now) }
{
    let mut sizes = List::new(alloc);
    for data_type in sums {
        let size = size_of_constructors(sizes.as_slice(), data_type.cons.as_slice());
        sizes.push(size)?;
    }
    Ok(sizes)
}

// The place of the constructor, and room for the longest fields.
#[tactic(auto, using(crate::proofs::Steps::size_steps))]
fn size_of_constructors(sizes: &[u32], cons: &[ConDef]) -> u32
    ensures { result ≡ data_words sizes.now cons.now }
{
    let mut most: u32 = 0;
    for con in cons {
        most = most.max(fields_words(sizes, con.fields.as_slice()));
    }
    sum(1, most)
}

#[tactic(auto, using(crate::proofs::Steps::size_steps))]
fn fields_words(sizes: &[u32], fields: &[Shared<Ty>]) -> u32
    ensures { result ≡ capped (sizes_with (named_in sizes.now) fields.now) }
{
    let mut total: u32 = 0;
    for field in fields {
        total = sum(total, words(sizes, field));
    }
    total
}
