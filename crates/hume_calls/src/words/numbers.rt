// Numbers of one to nine decimal digits.
ghost use Rattle.std.specs.Prelude.{◌≡◌, IsTrue};
ghost use Rattle.std.specs.Str.{all_ascii_digits};
ghost use Rattle.std.specs.Str.Parse.{digits_value};
ghost use Rattle.hume_calls.specs.Words.{is_number as number};

/// Digits of a number.
pub const MAX_DIGITS: usize = 9;

/// Whether the bytes are digits and nothing else, and few enough.
#[tactic(auto, using(crate::proofs::Digits::digit_steps))]
pub fn is_number(bytes: &[u8]) -> bool
    ensures { result ≡ number bytes.now }
{
    1 <= bytes.len() && bytes.len() <= MAX_DIGITS && are_digits(bytes)
}

/// Whether the bytes are digits and nothing else.
pub fn are_digits(text: &[u8]) -> bool
    ensures { result ≡ all_ascii_digits text.now }
{
    text.iter().all(|byte| byte.is_ascii_digit())
}

/// The number that the digits write.
#[tactic(auto, using(crate::proofs::Digits::digit_steps))]
pub fn value(digits: &[u8]) -> u32
    requires { IsTrue (number digits.now) }
    ensures { result ≡ digits_value 10 digits.now }
{
    let mut value = 0;
    for digit in digits {
        value = value * 10 + u32::from(*digit - b'0');
    }
    value
}
