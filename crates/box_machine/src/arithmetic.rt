//! Arithmetic on words: modulo 2 to the 64 first, and then wrapped to the bits of the type.
ghost use Rattle.std.specs.Prelude.{◌≡◌, ◌≢◌, ◌≤◌, ◌%◌, ◌^◌, ℤ, pos};
ghost use Rattle.std.specs.Int.RustNames.{int_div, int_lt, int_le, int_rem, unsigned_abs};
ghost use Rattle.hume_base.specs.declared.limits.TheConstants.{MAX_WIDTH};
ghost use Rattle.hume_base.specs.declared.types.Value.{Word};
ghost use Rattle.hume_base.specs.Words.{word_of};
ghost use Rattle.hume_model.specs.declared.core_tree.Op.TheVariants as op;
ghost use Rattle.hume_model.specs.declared.outcome.Outcome.TheVariants.{Gives};
ghost use Rattle.hume_model.specs.Operations.{binary, unary, low_bits, from_low, word_at, number_at, gives_truth};
ghost use Rattle.box_code.specs.Machine.{op_of};
ghost use Rattle.box_machine.specs.inner.Layers.{layer_of};

use box_code::{Comparison, Scalar};
use hume_base::limits::MAX_WIDTH;
use hume_base::{int_of_word, word_of_int};

#[inline(always)]
pub(crate) fn sum(ty: Scalar, left: u64, right: u64) -> u64
    ensures { binary op.Add (layer_of ty) left right ≡ Gives (Word result) }
{
    wrapped(ty, left.wrapping_add(right))
}

#[inline(always)]
pub(crate) fn difference(ty: Scalar, left: u64, right: u64) -> u64
    ensures { binary op.Sub (layer_of ty) left right ≡ Gives (Word result) }
{
    wrapped(ty, left.wrapping_sub(right))
}

#[inline(always)]
pub(crate) fn product(ty: Scalar, left: u64, right: u64) -> u64
    ensures { binary op.Mul (layer_of ty) left right ≡ Gives (Word result) }
{
    wrapped(ty, left.wrapping_mul(right))
}

#[inline(always)]
pub(crate) fn quotient(ty: Scalar, left: u64, right: u64) -> u64
    requires { right ≢ 0 }
    ensures { binary op.Div (layer_of ty) left right ≡ Gives (Word result) }
{
    wrapped(ty, divided(ty, left, right))
}

#[inline(always)]
pub(crate) fn remainder(ty: Scalar, left: u64, right: u64) -> u64
    requires { right ≢ 0 }
    ensures { binary op.Mod (layer_of ty) left right ≡ Gives (Word result) }
{
    wrapped(ty, left_over(ty, left, right))
}

#[inline(always)]
pub(crate) fn negated(ty: Scalar, word: u64) -> u64
    ensures { unary op.Neg (layer_of ty) word ≡ Gives (Word result) }
{
    wrapped(ty, 0u64.wrapping_sub(word))
}

#[inline(always)]
pub(crate) fn converted(ty: Scalar, word: u64) -> u64
    ensures { unary op.Convert (layer_of ty) word ≡ Gives (Word result) }
{
    wrapped(ty, word)
}

#[inline(always)]
pub(crate) fn compared(comparison: Comparison, ty: Scalar, left: u64, right: u64) -> bool
    ensures { binary (op_of comparison) (layer_of ty) left right ≡ gives_truth result }
{
    match comparison {
        Comparison::Eq => left == right,
        Comparison::Ne => left != right,
        Comparison::Lt => is_less(ty, left, right),
        Comparison::Le => is_at_most(ty, left, right),
        Comparison::Gt => is_less(ty, right, left),
        Comparison::Ge => is_at_most(ty, right, left),
    }
}

#[inline(always)]
fn is_less(ty: Scalar, left: u64, right: u64) -> bool
    ensures { result ≡ int_lt (number_at (layer_of ty) left) (number_at (layer_of ty) right) }
{
    match ty {
        Scalar::Int(_) => int_of_word(left) < int_of_word(right),
        Scalar::Nat(_) => left < right,
        Scalar::Bool => left < right,
        Scalar::Char => left < right,
    }
}

#[inline(always)]
fn is_at_most(ty: Scalar, left: u64, right: u64) -> bool
    ensures { result ≡ int_le (number_at (layer_of ty) left) (number_at (layer_of ty) right) }
{
    match ty {
        Scalar::Int(_) => int_of_word(left) <= int_of_word(right),
        Scalar::Nat(_) => left <= right,
        Scalar::Bool => left <= right,
        Scalar::Char => left <= right,
    }
}

#[inline(always)]
fn divided(ty: Scalar, left: u64, right: u64) -> u64
    requires { right ≢ 0 }
    ensures { result ≡ unsigned_abs (low_bits MAX_WIDTH (int_div (number_at (layer_of ty) left) (number_at (layer_of ty) right))) }
{
    match ty {
        Scalar::Int(_) => word_of_int(int_of_word(left).wrapping_div(int_of_word(right))),
        Scalar::Nat(_) => left / right,
        Scalar::Bool => left / right,
        Scalar::Char => left / right,
    }
}

#[inline(always)]
fn left_over(ty: Scalar, left: u64, right: u64) -> u64
    requires { right ≢ 0 }
    ensures { result ≡ unsigned_abs (low_bits MAX_WIDTH (int_rem (number_at (layer_of ty) left) (number_at (layer_of ty) right))) }
{
    match ty {
        Scalar::Int(_) => word_of_int(int_of_word(left).wrapping_rem(int_of_word(right))),
        Scalar::Nat(_) => left % right,
        Scalar::Bool => left % right,
        Scalar::Char => left % right,
    }
}

// The word at the type of a number, by what is left of it modulo 2 to the 64.
#[inline(always)]
fn wrapped(ty: Scalar, word: u64) -> u64
    ensures { (number : ℤ) → word ≡ unsigned_abs (low_bits MAX_WIDTH number) → result ≡ word_at (layer_of ty) number }
{
    match ty {
        Scalar::Int(bits) => extended(bits.min(MAX_WIDTH), word),
        Scalar::Nat(bits) => low(bits.min(MAX_WIDTH), word),
        Scalar::Bool => word,
        Scalar::Char => word,
    }
}

// The low bits of a word.
#[inline(always)]
fn low(bits: u8, word: u64) -> u64
    requires { bits ≤ MAX_WIDTH }
    ensures { result ≡ word % 2 ^ bits }
{
    if bits < MAX_WIDTH {
        word % (1u64 << bits)
    } else {
        word
    }
}

// The low bits of a word, as a number of either sign.
#[inline(always)]
fn extended(bits: u8, word: u64) -> u64
    requires { bits ≤ MAX_WIDTH }
    ensures { result ≡ word_of (from_low bits (pos (word % 2 ^ bits))) }
{
    // Most numbers have all bits.
    if bits == MAX_WIDTH {
        return word;
    }
    let low = low(bits, word);
    let half = 1u64 << bits.saturating_sub(1);
    if low < half {
        low
    } else {
        (low - half).wrapping_sub(half)
    }
}
