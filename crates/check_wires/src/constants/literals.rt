//! The words that literals write down.
ghost use Rattle.std.specs.Prelude.{◌≡◌, ◌^◌, ◌&&◌, min, pos};
ghost use Rattle.hume_base.specs.declared.types.Ty.{out-Ty};
ghost use Rattle.hume_base.specs.Values.{is_int_of, is_char_word as is_word_of_char};
ghost use Rattle.std.specs.Int.RustNames.{int_le, int_lt};
ghost use Rattle.check_typing.specs.Patterns.{literal_number, literal_word as word_of_literal, is_number_of, is_bool as is_bool_type, is_char as is_char_type, is_named as is_named_type};

use hume_base::Ty;

/// Whether the number of the literal is one of the type.
pub(crate) fn is_literal_of(ty: &Ty, negative: bool, amount: u64) -> bool
    ensures { result ≡ is_number_of (literal_number negative amount) (out-Ty ty.now) }
{
    match ty {
        Ty::Int(bits) => is_of_int(*bits, negative, amount),
        Ty::Nat(bits) => is_of_nat(*bits, negative, amount),
        _ => false,
    }
}

#[tactic(auto, using(crate::proofs::constants_lemmas::Ranges::range_steps))]
fn is_of_int(bits: u8, negative: bool, amount: u64) -> bool
    ensures { result ≡ is_int_of bits (literal_number negative amount) }
{
    let half = power(bits.saturating_sub(1));
    if negative {
        u128::from(amount) <= half
    } else {
        u128::from(amount) < half
    }
}

#[tactic(auto, using(crate::proofs::constants_lemmas::Ranges::range_steps))]
fn is_of_nat(bits: u8, negative: bool, amount: u64) -> bool
    ensures { result ≡ (int_le (pos 0) (literal_number negative amount) && int_lt (literal_number negative amount) (pos (2 ^ bits))) }
{
    if negative {
        return amount == 0;
    }
    u128::from(amount) < power(bits)
}

// 2 to the bits, or to 64 where there are more: no amount is as large.
fn power(bits: u8) -> u128
    ensures { result ≡ 2 ^ min bits 64 }
{
    1u128 << u32::from(bits.min(64))
}

pub(crate) fn literal_word(negative: bool, amount: u64) -> u64
    ensures { result ≡ word_of_literal negative amount }
{
    if !negative || amount == 0 {
        return amount;
    }
    u64::MAX - amount + 1
}

pub(crate) fn is_char_word(byte: u8) -> bool
    ensures { result ≡ is_word_of_char byte }
{
    32 <= byte && byte <= 126 || byte == 9 || byte == 10
}

pub(crate) fn is_bool(ty: &Ty) -> bool
    ensures { result ≡ is_bool_type (out-Ty ty.now) }
{
    match ty {
        Ty::Bool => true,
        _ => false,
    }
}

pub(crate) fn is_char(ty: &Ty) -> bool
    ensures { result ≡ is_char_type (out-Ty ty.now) }
{
    match ty {
        Ty::Char => true,
        _ => false,
    }
}

pub(crate) fn is_named(number: u32, ty: &Ty) -> bool
    ensures { result ≡ is_named_type number (out-Ty ty.now) }
{
    match ty {
        Ty::Named(other) => number == *other,
        _ => false,
    }
}
