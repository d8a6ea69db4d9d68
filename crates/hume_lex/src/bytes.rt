// Classes of bytes, and how far they run.

ghost use Rattle.std.specs.Prelude.{◌≡◌, ◌<◌, ◌≤◌, ◌^◌, true, All, MatchOption, IfSome};
ghost use Rattle.std.specs.List.{prefix_len};
ghost use Rattle.hume_lex.specs.inner.Scan.{run};
ghost use Rattle.hume_lex.specs.Spelling.{is_space as space, is_small as small, is_capital as capital, is_digit as digit, is_name_byte as name_byte, is_quotable as quotable, is_no_newline as no_newline, value_of};
ghost use Rattle.hume_lex.specs.inner.Scan.{is_plain as plain};

pub fn is_space(byte: u8) -> bool
    ensures { result ≡ space byte }
{
    byte == b'\t' || byte == b'\n' || byte == b'\r' || byte == b' '
}

pub fn is_small(byte: u8) -> bool
    ensures { result ≡ small byte }
{
    byte >= b'a' && byte <= b'z'
}

pub fn is_capital(byte: u8) -> bool
    ensures { result ≡ capital byte }
{
    byte >= b'A' && byte <= b'Z'
}

pub fn is_digit(byte: u8) -> bool
    ensures { result ≡ digit byte }
{
    byte >= b'0' && byte <= b'9'
}

fn is_name_byte(byte: u8) -> bool
    ensures { result ≡ name_byte byte }
{
    is_small(byte) || is_capital(byte) || is_digit(byte) || byte == b'_'
}

/// Whether the byte stands between single quotes as it is.
pub fn is_plain(byte: u8) -> bool
    ensures { result ≡ plain byte }
{
    byte >= b' ' && byte <= b'~' && byte != b'\'' && byte != b'\\'
}

fn is_quotable(byte: u8) -> bool
    ensures { result ≡ quotable byte }
{
    byte >= b' ' && byte <= b'~' && byte != b'"'
}

/// How many bytes at the front are letters, digits and underscores.
pub fn name_len(bytes: &[u8]) -> usize
    ensures { result ≡ prefix_len name_byte bytes.now }
{
    bytes.iter().take_while(|byte| is_name_byte(**byte)).count()
}

/// How many bytes at the front are digits.
pub fn digits_len(bytes: &[u8]) -> usize
    ensures { result ≡ prefix_len digit bytes.now }
{
    bytes.iter().take_while(|byte| is_digit(**byte)).count()
}

/// How many bytes at the front may stand between double quotes.
pub fn quotable_len(bytes: &[u8]) -> usize
    ensures { result ≡ prefix_len quotable bytes.now }
{
    bytes.iter().take_while(|byte| is_quotable(**byte)).count()
}

/// How many bytes at the front are no newline.
pub fn line_len(bytes: &[u8]) -> usize
    ensures { result ≡ prefix_len no_newline bytes.now }
{
    bytes.iter().take_while(|byte| **byte != b'\n').count()
}

/// The number that the digits write, if it has 64 bits.
#[tactic(auto, using(crate::proofs::Values::value_steps))]
pub fn number(digits: &[u8]) -> Option<u64>
    requires { All (λ b. digit b ≡ true) digits.now }
    ensures value { MatchOption result (2 ^ 64 ≤ value_of digits.now) (λ n. n ≡ value_of digits.now) }
    ensures fits { IfSome result (λ n. n < 2 ^ 64) }
{
    let mut n: u64 = 0;
    for digit in digits {
        n = n.checked_mul(10)?.checked_add((*digit - b'0') as u64)?;
    }
    Some(n)
}
