//! The words of the types that are written.
ghost use Rattle.std.specs.Prelude.{◌≡◌, ◌≤◌, ◌+◌, ◌*◌, Some, option_map, IfSome};
ghost use Rattle.hume_base.specs.declared.limits.TheConstants.{MAX_WIRE_WORDS as MOST_WORDS};
ghost use Rattle.hume_base.specs.declared.types.Ty.{Tuple};
ghost use Rattle.check_typing.specs.Partial.{given, when};
ghost use Rattle.check_typing.specs.WrittenTypes.{all_written, is_width as is_width_of, is_length as is_length_of};
ghost use Rattle.check_sizes.specs.inner.Capped.{capped, named_in, words_by};
ghost use Rattle.check_sizes.specs.inner.Large.{words_written, is_large as is_large_type, is_large_size as is_large_size_of};

use crate::words::{named, product, sum};
use check_scopes::signatures::SignatureTable;
use hume_ast::TyExp;
use hume_base::limits::{MAX_LENGTH, MAX_TYPE_WORDS, MAX_WIDTH};

/// Whether a type is written that has more words than a type may have.
pub(crate) fn is_large(table: &SignatureTable, sizes: &[u32], ty: &TyExp) -> bool
    ensures { result ≡ is_large_type table.now.types sizes.now ty.now }
{
    is_large_size(written_words(table, sizes, ty))
}

pub(crate) fn is_large_size(words: Option<u32>) -> bool
    ensures { result ≡ is_large_size_of words }
{
    match words {
        None => false,
        Some(words) => words > MAX_TYPE_WORDS,
    }
}

// The words of the type that is written, if it is one.
#[cycle(written_words)]
#[tactic(auto, using(crate::proofs::Steps::written_steps))]
fn written_words(table: &SignatureTable, sizes: &[u32], ty: &TyExp) -> Option<u32>
    ensures { result ≡ words_written table.now.types sizes.now ty.now }
{
    match ty {
        TyExp::Bool => Some(1),
        TyExp::Char => Some(1),
        TyExp::Int(bits) => number_words(*bits),
        TyExp::Nat(bits) => number_words(*bits),
        TyExp::Vector(count, item) => vector_words(*count, written_words(table, sizes, item)),
        TyExp::Named(name) => named_words(sizes, table.data_type(name.bytes())),
        TyExp::Tuple(parts) => tuple_words(table, sizes, parts.as_slice()),
    }
}

#[cycle(written_words)]
#[tactic(auto, using(crate::proofs::Steps::written_steps))]
fn tuple_words(table: &SignatureTable, sizes: &[u32], parts: &[TyExp]) -> Option<u32>
    ensures { result ≡ option_map (words_by sizes.now) (given (all_written table.now.types parts.now) (λ tys. Some (Tuple tys))) }
{
    let mut total: u32 = 0;
    for part in parts {
        match written_words(table, sizes, part) {
            None => return None,
            Some(words) => total = sum(total, words),
        }
    }
    Some(total)
}

fn number_words(bits: u64) -> Option<u32>
    ensures { result ≡ when (is_width_of bits) (Some 1) }
{
    if 1 <= bits && bits <= u64::from(MAX_WIDTH) {
        Some(1)
    } else {
        None
    }
}

fn vector_words(count: u64, item: Option<u32>) -> Option<u32>
    requires { IfSome item (λ words. words ≤ MOST_WORDS + 1) }
    ensures { result ≡ when (is_length_of count) (given item (λ words. Some (capped (count * words)))) }
{
    if !(1 <= count && count <= u64::from(MAX_LENGTH)) {
        return None;
    }
    match item {
        None => None,
        Some(words) => Some(product(count, words)),
    }
}

pub(crate) fn named_words(sizes: &[u32], number: Option<u32>) -> Option<u32>
    ensures { result ≡ given number (λ n. Some (capped (named_in sizes.now n))) }
{
    match number {
        None => None,
        Some(number) => Some(named(sizes, number)),
    }
}
