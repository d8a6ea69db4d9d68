ghost use Rattle.std.specs.Prelude.{◌≡◌, ◌≤◌, ◌<◌, ◌^◌, ◌&&◌, pos, neg_ℤ, ◌≤ℤ◌, ◌<ℤ◌, nat_le, not, Some};
ghost use Rattle.std.specs.Int.RustNames.{int_le, int_lt};
ghost use Rattle.hume_base.specs.declared.limits.TheConstants.{MAX_WIDTH};
ghost use Rattle.hume_base.specs.Values.{is_int_of, is_char_word};
ghost use Rattle.check_typing.specs.Partial.{when};
ghost use Rattle.check_typing.specs.Patterns.{literal_number, literal_word as word_of_literal, is_no_char as is_no_char_byte, word_of_truth};
ghost use Rattle.check_expressions.specs.inner.Shapes.{is_width as is_width_of, is_number, is_ordered, is_scalar, has_comparison, has_number};

use check_scopes::types::Shape;
use hume_base::limits::MAX_WIDTH;
use hume_model::Op;

fn is_width(bits: u8) -> bool
    ensures { result ≡ is_width_of bits }
{
    1 <= bits && bits <= MAX_WIDTH
}

/// Whether it is a type of numbers.
pub(crate) fn is_number_shape(shape: Shape) -> bool
    ensures { result ≡ is_number shape }
{
    match shape {
        Shape::Int(bits) => is_width(bits),
        Shape::Nat(bits) => is_width(bits),
        Shape::Bool | Shape::Char | Shape::Tuple(_) | Shape::Vector(_) | Shape::Named(_) => false,
    }
}

fn is_ordered_shape(shape: Shape) -> bool
    ensures { result ≡ is_ordered shape }
{
    match shape {
        Shape::Char => true,
        _ => is_number_shape(shape),
    }
}

fn is_scalar_shape(shape: Shape) -> bool
    ensures { result ≡ is_scalar shape }
{
    match shape {
        Shape::Bool => true,
        _ => is_ordered_shape(shape),
    }
}

/// Whether the operation says how two operands of the type compare.
pub(crate) fn compares(operation: Op, shape: Shape) -> bool
    ensures { result ≡ has_comparison operation shape }
{
    match operation {
        Op::Eq | Op::Ne => is_scalar_shape(shape),
        Op::Lt | Op::Le | Op::Gt | Op::Ge => is_ordered_shape(shape),
        _ => false,
    }
}

// 2 to the bits.
#[tactic(auto, using(crate::proofs::Powers::power_steps))]
fn power(bits: u8) -> i128
    requires { bits ≤ MAX_WIDTH }
    ensures { result ≡ pos (2 ^ bits) }
{
    (1u128 << bits) as i128
}

fn number_of_literal(negative: bool, amount: u64) -> i128
    ensures value { result ≡ literal_number negative amount }
    ensures above { neg_ℤ (pos (2 ^ 64)) ≤ℤ result }
    ensures below { result <ℤ pos (2 ^ 64) }
{
    if negative {
        -i128::from(amount)
    } else {
        i128::from(amount)
    }
}

pub(crate) fn literal_word(negative: bool, amount: u64) -> u64
    ensures { result ≡ word_of_literal negative amount }
{
    if !negative || amount == 0 {
        return amount;
    }
    u64::MAX - amount + 1
}

fn is_of_int(bits: u8, number: i128) -> bool
    requires few { bits ≤ MAX_WIDTH }
    requires some { 1 ≤ bits }
    ensures { result ≡ is_int_of bits number }
{
    -power(bits - 1) <= number && number < power(bits - 1)
}

fn is_of_nat(bits: u8, number: i128) -> bool
    requires few { bits ≤ MAX_WIDTH }
    ensures { result ≡ (int_le (pos 0) number && int_lt number (pos (2 ^ bits))) }
{
    0 <= number && number < power(bits)
}

/// The word of a literal of the type, and whether it is out of the type's range; none where it is no type of numbers.
pub(crate) fn literal_of(shape: Shape, negative: bool, amount: u64) -> Option<(u64, bool)>
    ensures { result ≡ when (is_number shape) (Some (word_of_literal negative amount, not (has_number (literal_number negative amount) shape))) }
{
    match shape {
        Shape::Int(bits) => int_literal(bits, negative, amount),
        Shape::Nat(bits) => nat_literal(bits, negative, amount),
        Shape::Bool | Shape::Char | Shape::Tuple(_) | Shape::Vector(_) | Shape::Named(_) => None,
    }
}

fn int_literal(bits: u8, negative: bool, amount: u64) -> Option<(u64, bool)>
    ensures { result ≡ when (is_width_of bits) (Some (word_of_literal negative amount, not (is_int_of bits (literal_number negative amount)))) }
{
    if !is_width(bits) {
        return None;
    }
    let fits = is_of_int(bits, number_of_literal(negative, amount));
    Some((literal_word(negative, amount), !fits))
}

fn nat_literal(bits: u8, negative: bool, amount: u64) -> Option<(u64, bool)>
    ensures { result ≡ when (is_width_of bits) (Some (
      word_of_literal negative amount,
      not
          (int_le (pos 0) (literal_number negative amount) && int_lt (literal_number negative amount) (pos (2 ^ bits))),
    )) }
{
    if !is_width(bits) {
        return None;
    }
    let fits = is_of_nat(bits, number_of_literal(negative, amount));
    Some((literal_word(negative, amount), !fits))
}

/// Whether the letter is no character.
pub(crate) fn is_no_char(byte: u8) -> bool
    ensures { result ≡ is_no_char_byte byte }
{
    !(32 <= byte && byte <= 126 || byte == 9 || byte == 10)
}

pub(crate) fn truth_word(truth: bool) -> u64
    ensures { result ≡ word_of_truth truth }
{
    if truth { 1 } else { 0 }
}
