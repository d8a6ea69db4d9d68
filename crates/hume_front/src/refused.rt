//! For what a source is refused that stands for no program.
ghost use Rattle.std.specs.Prelude.{◌≡◌, ◌≤◌, ◌⊎◌, length};
ghost use Rattle.hume_base.specs.declared.limits.TheConstants.{MAX_SOURCE_BYTES as MOST_BYTES};
ghost use Rattle.hume_lex.specs.BadPlaces.{IsRead, IsBadPlace};
ghost use Rattle.parse_errors.specs.WrongTokens.{IsWrongPlace};
ghost use Rattle.hume_front.specs.Accepted.{IsUnsound};

use crate::error::FrontError;
use hume_base::{Refusal, Rule, Token, line_of};
use hume_lex::LexError;
use parse_errors::ParseError;

pub(crate) fn refused(rule: Rule, line: u32) -> FrontError
    ensures { result ≡ FrontError.Refused (record { rule = rule; line = line }) }
{
    FrontError::Refused(Refusal { rule, line })
}

/// The first bad place of the text.
pub(crate) fn bad_token(text: &[u8], error: LexError) -> FrontError
    requires short { length text.now ≤ MOST_BYTES }
    requires error { (error ≡ LexError.NoMemory) ⊎ IsBadPlace text.now error }
    ensures { IsUnsound text.now result }
{
    match error {
        LexError::BadChar(place) => refused(Rule::C10, line_of(text, place)),
        LexError::BadNumber(place) => refused(Rule::C11, line_of(text, place)),
        LexError::LongName(place) => refused(Rule::C12, line_of(text, place)),
        LexError::TooManyTokens(place) => refused(Rule::C71, line_of(text, place)),
        LexError::NoMemory => FrontError::NoMemory,
    }
}

/// The place at which no program goes on.
pub(crate) fn no_program(text: &[u8], tokens: &[Token], error: ParseError) -> FrontError
    requires short { length text.now ≤ MOST_BYTES }
    requires read { IsRead text.now tokens.now }
    requires error { (error ≡ ParseError.NoMemory) ⊎ IsWrongPlace tokens.now (length text.now) error }
    ensures { IsUnsound text.now result }
{
    match error {
        ParseError::Syntax(place) => refused(Rule::C20, line_of(text, place)),
        ParseError::Deep(place) => refused(Rule::C77, line_of(text, place)),
        ParseError::NoMemory => FrontError::NoMemory,
    }
}
