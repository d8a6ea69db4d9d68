//! What stands next on a line: a sign, or the token of a scalar or a constructor with its word.
ghost use Rattle.std.specs.Prelude.{◌≡◌, ◌≤◌, ◌^◌, MatchOption, Some, None};
ghost use Rattle.hume_base.specs.Words.{word_of};
ghost use Rattle.hume_text.specs.Read.{next};
ghost use Rattle.hume_text.specs.Spelling.{Name, Number};
ghost use Rattle.hume_text.specs.inner.Tokens.{signed, most_of};
ghost use Rattle.hume_text.specs.inner.Readers.{behind_sign, is_open, is_close, is_open_vector, is_close_vector, is_comma};
ghost use Rattle.hume_text.specs.inner.Readers.{found_in, bool_in, char_in, int_in, nat_in, place_in, first_named};

use crate::tokens::{take_double, take_letter, take_name, take_number, take_sign};
use hume_base::SumDef;

#[tactic(auto, using(crate::proofs::Signs::open_next))]
pub(crate) fn take_open(line: &[u8]) -> Option<&[u8]>
    ensures { MatchOption result (behind_sign is_open (next line.now) ≡ None) (λ rest. behind_sign is_open (next line.now) ≡ Some rest.now) }
{
    take_sign(line, b'(')
}

#[tactic(auto, using(crate::proofs::Signs::close_next))]
pub(crate) fn take_close(line: &[u8]) -> Option<&[u8]>
    ensures { MatchOption result (behind_sign is_close (next line.now) ≡ None) (λ rest. behind_sign is_close (next line.now) ≡ Some rest.now) }
{
    take_sign(line, b')')
}

#[tactic(auto, using(crate::proofs::Signs::comma_next))]
pub(crate) fn take_comma(line: &[u8]) -> Option<&[u8]>
    ensures { MatchOption result (behind_sign is_comma (next line.now) ≡ None) (λ rest. behind_sign is_comma (next line.now) ≡ Some rest.now) }
{
    take_sign(line, b',')
}

#[tactic(auto, using(crate::proofs::Signs::open_vector_next))]
pub(crate) fn take_open_vector(line: &[u8]) -> Option<&[u8]>
    ensures { MatchOption result (behind_sign is_open_vector (next line.now) ≡ None)
        (λ rest. behind_sign is_open_vector (next line.now) ≡ Some rest.now) }
{
    take_double(line, b'<')
}

#[tactic(auto, using(crate::proofs::Signs::close_vector_next))]
pub(crate) fn take_close_vector(line: &[u8]) -> Option<&[u8]>
    ensures { MatchOption result (behind_sign is_close_vector (next line.now) ≡ None)
        (λ rest. behind_sign is_close_vector (next line.now) ≡ Some rest.now) }
{
    take_double(line, b'>')
}

#[tactic(auto, using(crate::proofs::FoundWords::bool_next))]
pub(crate) fn take_bool(line: &[u8]) -> Option<(u64, &[u8])>
    ensures { MatchOption result (found_in bool_in (next line.now) ≡ None)
        (λ found. found_in bool_in (next line.now) ≡ Some (found.0, found.1.now)) }
{
    let Some((name, rest)) = take_name(line) else {
        return None;
    };
    match bool_word(name) {
        None => None,
        Some(word) => Some((word, rest)),
    }
}

fn bool_word(name: &[u8]) -> Option<u64>
    ensures { result ≡ bool_in (Name name.now) }
{
    if name == b"false".as_slice() {
        return Some(0);
    }
    if name == b"true".as_slice() {
        return Some(1);
    }
    None
}

#[tactic(auto, using(crate::proofs::FoundWords::char_next))]
pub(crate) fn take_char(line: &[u8]) -> Option<(u64, &[u8])>
    ensures { MatchOption result (found_in char_in (next line.now) ≡ None)
        (λ found. found_in char_in (next line.now) ≡ Some (found.0, found.1.now)) }
{
    let Some(bytes) = take_sign(line, b'\'') else {
        return None;
    };
    match take_letter(bytes) {
        None => None,
        Some((letter, rest)) => Some((u64::from(letter), rest)),
    }
}

#[tactic(auto, using(crate::proofs::FoundWords::int_next))]
pub(crate) fn take_int(bits: u8, line: &[u8]) -> Option<(u64, &[u8])>
    ensures { MatchOption result (found_in (int_in bits) (next line.now) ≡ None)
        (λ found. found_in (int_in bits) (next line.now) ≡ Some (found.0, found.1.now)) }
{
    let Some(((negative, value), rest)) = take_number(line) else {
        return None;
    };
    match int_word(bits, negative, value) {
        None => None,
        Some(word) => Some((word, rest)),
    }
}

#[tactic(auto, using(crate::proofs::FoundWords::nat_next))]
pub(crate) fn take_nat(bits: u8, line: &[u8]) -> Option<(u64, &[u8])>
    ensures { MatchOption result (found_in (nat_in bits) (next line.now) ≡ None)
        (λ found. found_in (nat_in bits) (next line.now) ≡ Some (found.0, found.1.now)) }
{
    let Some(((negative, value), rest)) = take_number(line) else {
        return None;
    };
    match nat_word(bits, negative, value) {
        None => None,
        Some(word) => Some((word, rest)),
    }
}

/// The constructor of a name: its place.
#[tactic(auto, using(crate::proofs::FoundWords::place_next))]
pub(crate) fn take_place<'a>(sum: &SumDef, line: &'a [u8]) -> Option<(u64, &'a [u8])>
    ensures { MatchOption result (found_in (place_in sum.now) (next line.now) ≡ None)
        (λ found. found_in (place_in sum.now) (next line.now) ≡ Some (found.0, found.1.now)) }
{
    let Some((name, rest)) = take_name(line) else {
        return None;
    };
    match place_of(sum, name) {
        None => None,
        Some(place) => Some((place, rest)),
    }
}

fn place_of(sum: &SumDef, name: &[u8]) -> Option<u64>
    ensures { result ≡ first_named 0 sum.now.cons name.now }
{
    let mut place: u64 = 0;
    for con in sum.cons.as_slice() {
        if con.name.bytes() == name {
            return Some(place);
        }
        place += 1;
    }
    None
}

#[tactic(auto, using(crate::proofs::FoundWords::int_within, crate::proofs::FoundWords::int_beyond, crate::proofs::FoundWords::most_small))]
fn int_word(bits: u8, negative: bool, value: u128) -> Option<u64>
    ensures { result ≡ int_in bits (Number (signed negative value)) }
{
    if value > most_int(bits, negative) {
        return None;
    }
    Some(signed_word(negative, value as u64))
}

#[tactic(auto, using(crate::proofs::FoundWords::half_small))]
fn most_int(bits: u8, negative: bool) -> u128
    ensures { result ≡ most_of bits negative }
{
    let half = 1u128 << u32::from(bits.min(64).saturating_sub(1));
    if negative { half } else { half - 1 }
}

#[tactic(auto, using(crate::proofs::FoundWords::word_negated))]
fn signed_word(negative: bool, value: u64) -> u64
    requires { value ≤ 2 ^ 63 }
    ensures { result ≡ word_of (signed negative value) }
{
    if negative {
        value.wrapping_neg()
    } else {
        value
    }
}

fn nat_word(bits: u8, negative: bool, value: u128) -> Option<u64>
    ensures { result ≡ nat_in bits (Number (signed negative value)) }
{
    if negative && value > 0 {
        return None;
    }
    if value >= 1u128 << u32::from(bits.min(64)) {
        return None;
    }
    Some(value as u64)
}
