//! Arithmetic on words, exact before it is wrapped to the bits of the type.
ghost use Rattle.std.specs.Prelude.{◌≡◌, ◌≤◌, ◌<◌, ◌^◌, ◌≢◌, pos, neg_ℤ, ◌≤ℤ◌, ◌<ℤ◌, ◌+ℤ◌, ◌-ℤ◌, ◌*ℤ◌};
ghost use Rattle.std.specs.Int.RustNames.{unsigned_abs, int_div, int_rem};
ghost use Rattle.hume_base.specs.declared.limits.TheConstants.{MAX_WIDTH};
ghost use Rattle.hume_base.specs.declared.types.Ty.{out-Ty};
ghost use Rattle.hume_base.specs.Words.{int_of, word_of};
ghost use Rattle.hume_model.specs.Operations.{wrapped, low_bits, from_low, number_at, word_at};

use hume_base::limits::MAX_WIDTH;
use hume_base::{Ty, int_of_word, word_of_int};

/// The number that a word stands for at a type.
pub fn number_of_word(ty: &Ty, word: u64) -> i128
    ensures value { result ≡ number_at (out-Ty ty.now) word }
    ensures above { neg_ℤ (pos (2 ^ 63)) ≤ℤ result }
    ensures below { result <ℤ pos (2 ^ 64) }
{
    match ty {
        Ty::Int(_) => i128::from(int_of_word(word)),
        Ty::Nat(_) => i128::from(word),
        Ty::Bool => i128::from(word),
        Ty::Char => i128::from(word),
        Ty::Tuple(_) => i128::from(word),
        Ty::Vector(_, _) => i128::from(word),
        Ty::Named(_) => i128::from(word),
    }
}

/// The word of a number, wrapped to the bits of the type.
pub fn wrapped_word(ty: &Ty, number: i128) -> u64
    ensures { result ≡ word_at (out-Ty ty.now) number }
{
    match ty {
        Ty::Int(bits) => word_of_int(wrap((*bits).min(MAX_WIDTH), number)),
        Ty::Nat(bits) => low_word((*bits).min(MAX_WIDTH), number),
        Ty::Bool => low_word(MAX_WIDTH, number),
        Ty::Char => low_word(MAX_WIDTH, number),
        Ty::Tuple(_) => low_word(MAX_WIDTH, number),
        Ty::Vector(_, _) => low_word(MAX_WIDTH, number),
        Ty::Named(_) => low_word(MAX_WIDTH, number),
    }
}

fn wrap(bits: u8, number: i128) -> i64
    requires { bits ≤ MAX_WIDTH }
    ensures { result ≡ wrapped bits number }
{
    from_low_bits(bits, number.rem_euclid(power(bits)))
}

#[tactic(auto, using(crate::proofs::Powers::power_steps))]
fn low_word(bits: u8, number: i128) -> u64
    requires { bits ≤ MAX_WIDTH }
    ensures { result ≡ unsigned_abs (low_bits bits number) }
{
    number.rem_euclid(power(bits)) as u64
}

#[tactic(auto, using(crate::proofs::Powers::power_steps))]
fn from_low_bits(bits: u8, low: i128) -> i64
    requires few { bits ≤ MAX_WIDTH }
    requires positive { pos 0 ≤ℤ low }
    requires below { low <ℤ pos (2 ^ bits) }
    ensures { result ≡ from_low bits low }
{
    if low < power(bits.saturating_sub(1)) {
        return low as i64;
    }
    (low - power(bits)) as i64
}

// 2 to the bits.
#[tactic(auto, using(crate::proofs::Powers::power_steps))]
fn power(bits: u8) -> i128
    requires { bits ≤ MAX_WIDTH }
    ensures { result ≡ pos (2 ^ bits) }
{
    (1u128 << bits) as i128
}

pub fn sum(ty: &Ty, left: u64, right: u64) -> u64
    ensures { result ≡ word_at (out-Ty ty.now) (number_at (out-Ty ty.now) left +ℤ number_at (out-Ty ty.now) right) }
{
    wrapped_word(ty, number_of_word(ty, left) + number_of_word(ty, right))
}

pub fn difference(ty: &Ty, left: u64, right: u64) -> u64
    ensures { result ≡ word_at (out-Ty ty.now) (number_at (out-Ty ty.now) left -ℤ number_at (out-Ty ty.now) right) }
{
    wrapped_word(ty, number_of_word(ty, left) - number_of_word(ty, right))
}

pub fn quotient(ty: &Ty, left: u64, right: u64) -> u64
    requires { right ≢ 0 }
    ensures { result ≡ word_at (out-Ty ty.now) (int_div (number_at (out-Ty ty.now) left) (number_at (out-Ty ty.now) right)) }
{
    wrapped_word(
        ty,
        divide(number_of_word(ty, left), number_of_word(ty, right)),
    )
}

pub fn remainder(ty: &Ty, left: u64, right: u64) -> u64
    requires { right ≢ 0 }
    ensures { result ≡ word_at (out-Ty ty.now) (int_rem (number_at (out-Ty ty.now) left) (number_at (out-Ty ty.now) right)) }
{
    wrapped_word(
        ty,
        leave(number_of_word(ty, left), number_of_word(ty, right)),
    )
}

fn divide(left: i128, right: i128) -> i128
    requires above { neg_ℤ (pos (2 ^ 63)) ≤ℤ left }
    requires below { left <ℤ pos (2 ^ 64) }
    requires divisor { right ≢ pos 0 }
    ensures { result ≡ int_div left right }
{
    left / right
}

// What a division leaves.
fn leave(left: i128, right: i128) -> i128
    requires above { neg_ℤ (pos (2 ^ 63)) ≤ℤ left }
    requires below { left <ℤ pos (2 ^ 64) }
    requires divisor { right ≢ pos 0 }
    ensures { result ≡ int_rem left right }
{
    left % right
}

/// The product of two words. That of two `nat 64` is too long for an `i128`.
pub fn product(ty: &Ty, left: u64, right: u64) -> u64
    ensures { result ≡ word_at (out-Ty ty.now) (number_at (out-Ty ty.now) left *ℤ number_at (out-Ty ty.now) right) }
{
    match ty {
        Ty::Int(bits) => int_product((*bits).min(MAX_WIDTH), left, right),
        Ty::Nat(bits) => low_product((*bits).min(MAX_WIDTH), left, right),
        Ty::Bool => low_product(MAX_WIDTH, left, right),
        Ty::Char => low_product(MAX_WIDTH, left, right),
        Ty::Tuple(_) => low_product(MAX_WIDTH, left, right),
        Ty::Vector(_, _) => low_product(MAX_WIDTH, left, right),
        Ty::Named(_) => low_product(MAX_WIDTH, left, right),
    }
}

fn int_product(bits: u8, left: u64, right: u64) -> u64
    requires { bits ≤ MAX_WIDTH }
    ensures { result ≡ word_of (wrapped bits (int_of left *ℤ int_of right)) }
{
    word_of_int(wrap(bits, multiply(int_of_word(left), int_of_word(right))))
}

fn multiply(left: i64, right: i64) -> i128
    ensures { result ≡ left *ℤ right }
{
    i128::from(left) * i128::from(right)
}

#[tactic(auto, using(crate::proofs::Powers::power_steps))]
fn low_product(bits: u8, left: u64, right: u64) -> u64
    requires { bits ≤ MAX_WIDTH }
    ensures { result ≡ unsigned_abs (low_bits bits (pos left *ℤ pos right)) }
{
    let product = u128::from(left) * u128::from(right);
    (product % (1u128 << bits)) as u64
}
