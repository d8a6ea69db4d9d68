//! The tokens at the front of a line.
ghost use Rattle.std.specs.Prelude.{◌≡◌, MatchOption, Some, None};
ghost use Rattle.std.specs.Str.Parse.{digits_value};
ghost use Rattle.hume_text.specs.Read.{is_blank, is_digit, is_letter, is_name_byte, behind, front, escaped};
ghost use Rattle.hume_text.specs.inner.Tokens.{byte_at, sign_at, double_at, name_on, capped, digits_on, number_on, closed, escape_on, letter_on};

pub(crate) fn is_blank(byte: u8) -> bool
    ensures { result ≡ is_blank byte }
{
    byte == b' ' || byte == b'\t'
}

pub(crate) fn is_digit(byte: u8) -> bool
    ensures { result ≡ is_digit byte }
{
    byte >= b'0' && byte <= b'9'
}

pub(crate) fn is_letter(byte: u8) -> bool
    ensures { result ≡ is_letter byte }
{
    (byte >= b'a' && byte <= b'z') || (byte >= b'A' && byte <= b'Z')
}

pub(crate) fn is_name_byte(byte: u8) -> bool
    ensures { result ≡ is_name_byte byte }
{
    is_letter(byte) || is_digit(byte) || byte == b'_'
}

pub(crate) fn skip_blanks(line: &[u8]) -> &[u8]
    ensures { result.now ≡ behind is_blank line.now }
{
    let mut rest = line;
    while let Some((byte, others)) = rest.split_first() {
        if !is_blank(*byte) {
            return rest;
        }
        rest = others;
    }
    rest
}

pub(crate) fn take_byte(bytes: &[u8], wanted: u8) -> Option<&[u8]>
    ensures { MatchOption result (byte_at wanted bytes.now ≡ None) (λ rest. byte_at wanted bytes.now ≡ Some rest.now) }
{
    let Some((byte, rest)) = bytes.split_first() else {
        return None;
    };
    if *byte != wanted {
        return None;
    }
    Some(rest)
}

pub(crate) fn take_sign(line: &[u8], wanted: u8) -> Option<&[u8]>
    ensures { MatchOption result (sign_at wanted line.now ≡ None) (λ rest. sign_at wanted line.now ≡ Some rest.now) }
{
    take_byte(skip_blanks(line), wanted)
}

pub(crate) fn take_double(line: &[u8], wanted: u8) -> Option<&[u8]>
    ensures { MatchOption result (double_at wanted line.now ≡ None) (λ rest. double_at wanted line.now ≡ Some rest.now) }
{
    match take_sign(line, wanted) {
        None => None,
        Some(rest) => take_byte(rest, wanted),
    }
}

fn skip_name(bytes: &[u8]) -> &[u8]
    ensures { result.now ≡ behind is_name_byte bytes.now }
{
    let mut rest = bytes;
    while let Some((byte, others)) = rest.split_first() {
        if !is_name_byte(*byte) {
            return rest;
        }
        rest = others;
    }
    rest
}

/// A name and the bytes behind it.
#[tactic(auto, using(crate::proofs::Fronts::front_taken, crate::proofs::Fronts::behind_short))]
pub(crate) fn take_name(line: &[u8]) -> Option<(&[u8], &[u8])>
    ensures { MatchOption result (name_on line.now ≡ None) (λ read. name_on line.now ≡ Some (read.0.now, read.1.now)) }
{
    let bytes = skip_blanks(line);
    let Some((first, others)) = bytes.split_first() else {
        return None;
    };
    if !is_letter(*first) {
        return None;
    }
    let rest = skip_name(others);
    Some((&bytes[..bytes.len() - rest.len()], rest))
}

/// The value of the digits at the front, or 2^64 for any that is larger, and the bytes behind them.
fn take_digits(bytes: &[u8]) -> (u128, &[u8])
    ensures value { result.0 ≡ capped (digits_value 10 (front is_digit bytes.now)) }
    ensures rest { result.1.now ≡ behind is_digit bytes.now }
{
    let mut value: u128 = 0;
    let mut rest = bytes;
    while let Some((byte, others)) = rest.split_first() {
        if !is_digit(*byte) {
            return (value, rest);
        }
        value = (value * 10 + u128::from(*byte - b'0')).min(18_446_744_073_709_551_616);
        rest = others;
    }
    (value, rest)
}

/// Whether a number has a minus, its digits' value, or 2^64 for any that is larger, and the bytes behind it.
pub(crate) fn take_number(line: &[u8]) -> Option<((bool, u128), &[u8])>
    ensures { MatchOption result (number_on line.now ≡ None) (λ read. number_on line.now ≡ Some (read.0, read.1.now)) }
{
    let bytes = skip_blanks(line);
    match take_byte(bytes, b'-') {
        Some(digits) => take_signed(digits, true),
        None => take_signed(bytes, false),
    }
}

fn take_signed(bytes: &[u8], negative: bool) -> Option<((bool, u128), &[u8])>
    ensures { MatchOption result (digits_on negative bytes.now ≡ None) (λ read. digits_on negative bytes.now ≡ Some (read.0, read.1.now)) }
{
    let Some((first, _)) = bytes.split_first() else {
        return None;
    };
    if !is_digit(*first) {
        return None;
    }
    let (value, rest) = take_digits(bytes);
    Some(((negative, value), rest))
}

/// The character behind an opening quote, up to its closing one, and the bytes behind that.
pub(crate) fn take_letter(bytes: &[u8]) -> Option<(u8, &[u8])>
    ensures { MatchOption result (letter_on bytes.now ≡ None) (λ read. letter_on bytes.now ≡ Some (read.0, read.1.now)) }
{
    let Some((byte, rest)) = bytes.split_first() else {
        return None;
    };
    if *byte == b'\\' {
        return take_escape(rest);
    }
    if *byte < 32 || *byte > 126 || *byte == b'\'' {
        return None;
    }
    close_letter(*byte, rest)
}

fn take_escape(bytes: &[u8]) -> Option<(u8, &[u8])>
    ensures { MatchOption result (escape_on bytes.now ≡ None) (λ read. escape_on bytes.now ≡ Some (read.0, read.1.now)) }
{
    let Some((byte, rest)) = bytes.split_first() else {
        return None;
    };
    match unescaped(*byte) {
        None => None,
        Some(letter) => close_letter(letter, rest),
    }
}

fn unescaped(byte: u8) -> Option<u8>
    ensures { result ≡ escaped byte }
{
    if byte == b'n' {
        return Some(b'\n');
    }
    if byte == b't' {
        return Some(b'\t');
    }
    if byte == b'\\' || byte == b'\'' {
        return Some(byte);
    }
    None
}

fn close_letter(letter: u8, bytes: &[u8]) -> Option<(u8, &[u8])>
    ensures { MatchOption result (closed letter (byte_at 39 bytes.now) ≡ None) (λ read. closed letter (byte_at 39 bytes.now) ≡ Some (read.0, read.1.now)) }
{
    match take_byte(bytes, b'\'') {
        None => None,
        Some(rest) => Some((letter, rest)),
    }
}
