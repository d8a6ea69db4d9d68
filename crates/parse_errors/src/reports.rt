//! From a count of tokens to the place that is reported.
ghost use Rattle.std.specs.Prelude.{◌≡◌, ◌⊎◌};
ghost use Rattle.hume_base.specs.declared.limits.TheConstants.{MAX_DEPTH};
ghost use Rattle.hume_ast.specs.Places.{kinds};
ghost use Rattle.parse_readers.specs.inner.Programs.{program};
ghost use Rattle.parse_errors.specs.WrongTokens.{IsWrongPlace};
ghost use Rattle.parse_errors.specs.inner.Gives.{Fails};
ghost use Rattle.parse_errors.specs.inner.Reported.{place_left as left_place, reported_syntax, reported_deep};
ghost use Rattle.parse_errors.specs.declared.stop.Stop.TheVariants.{Memory};
ghost use Rattle.parse_errors.specs.declared.parse_error.ParseError.TheVariants.{NoMemory};

use crate::parse_error::ParseError;
use crate::stop::Stop;
use hume_base::Token;

/// What is reported where the reading of a program stopped. `end` is the place of an early end: the length of the source.
pub fn reported(stop: Stop, tokens: &[Token], end: u32) -> ParseError
    ensures memory { stop ≡ Memory → result ≡ NoMemory }
    ensures place { Fails stop (program MAX_DEPTH (kinds tokens.now)) → (stop ≡ Memory) ⊎ IsWrongPlace tokens.now end result }
{
    match stop {
        Stop::Memory => ParseError::NoMemory,
        Stop::Syntax(left) => syntax_at(place_left(tokens, left), end),
        Stop::Deep(left) => deep_at(place_left(tokens, left), end),
    }
}

fn syntax_at(place: Option<u32>, end: u32) -> ParseError
    ensures { result ≡ reported_syntax end place }
{
    match place {
        Some(place) => ParseError::Syntax(place),
        None => ParseError::Syntax(end),
    }
}

// Where no token is left, depth isn't to blame.
fn deep_at(place: Option<u32>, end: u32) -> ParseError
    ensures { result ≡ reported_deep end place }
{
    match place {
        Some(place) => ParseError::Deep(place),
        None => ParseError::Syntax(end),
    }
}

// Where the token stands from which on so many are left, if there is one.
fn place_left(tokens: &[Token], left: usize) -> Option<u32>
    ensures { result ≡ left_place tokens.now left }
{
    let before = tokens.len().saturating_sub(left);
    match &tokens[before..] {
        [token, ..] => Some(token.place),
        [] => None,
    }
}
