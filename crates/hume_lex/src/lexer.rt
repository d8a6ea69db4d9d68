ghost use Rattle.std.specs.Prelude.{◌≡◌, ◌≤◌, ◌⊎◌, List, length, IfOk, IfErr, OnOk, MatchResult};
ghost use Rattle.hume_base.specs.declared.token.Token.{Token as TokenValue};
ghost use Rattle.hume_lex.specs.BadPlaces.{IsRead, IsBadPlace};
ghost use Rattle.hume_lex.specs.inner.View.{Takes, IsRefused};

use crate::scan::{Front, next_front};
use hume_base::Token;
use hume_base::limits::{MAX_SOURCE_BYTES, MAX_TOKENS};
use std::alloc::{AllocError, AllocFailed, Global};
use thiserror::Error;

/// Why a source has no reading. A place is an offset in bytes.
#[derive(Debug, Drop, Error)]
pub enum LexError {
    #[error("at byte {0} no token, space or comment starts")]
    BadChar(u32),
    #[error("the number at byte {0} is over 18446744073709551615")]
    BadNumber(u32),
    #[error("the name at byte {0} has more than 32 bytes")]
    LongName(u32),
    #[error("at byte {0} the 65,537th token starts")]
    TooManyTokens(u32),
    #[error("out of memory")]
    NoMemory,
}

impl From<AllocError> for LexError {
    ghost use Rattle.hume_lex.specs.declared.lexer.LexError.TheVariants.{NoMemory};

    ghost from_gives = { λ _ error. error ≡ NoMemory };

    fn from(_: AllocError) -> LexError {
        LexError::NoMemory
    }
}

impl<T: Drop> From<AllocFailed<T>> for LexError {
    ghost use Rattle.hume_lex.specs.declared.lexer.LexError.TheVariants.{NoMemory};

    ghost from_gives = { λ _ error. error ≡ NoMemory };

    fn from(_: AllocFailed<T>) -> LexError {
        LexError::NoMemory
    }
}

/// The tokens of a source, or its first bad place.
pub fn lex(alloc: Global, source: &[u8]) -> Result<Vec<Token>, LexError>
    requires { length source.now ≤ MAX_SOURCE_BYTES }
    ensures tokens { IfOk result (λ tokens. IsRead source.now tokens.items) }
    ensures error { IfErr result (λ error. (error ≡ LexError.NoMemory) ⊎ IsBadPlace source.now error) }
    // An answer that is right for the source is the one that is given, unless memory is wanting.
    ensures only_tokens { (tokens : List TokenValue) → IsRead source.now tokens
        → MatchResult result (λ found. found.items ≡ tokens) (λ error. error ≡ LexError.NoMemory) }
    ensures only_error { (bad : LexError) → IsBadPlace source.now bad
        → (result ≡ Err bad) ⊎ (result ≡ Err LexError.NoMemory) }
{
    let mut tokens = Vec::new(alloc);
    let mut rest = source;
    'pieces: while !rest.is_empty() {
        let place = (source.len() - rest.len()) as u32;
        let Some((front, after)) = next_front(alloc, rest)? else {
            return Err(LexError::BadChar(place));
        };
        take(&mut tokens, front, place)?;
        rest = after;
    }
    Ok(tokens)
}

// Too many tokens are told before a number or a name that is wrong itself.
fn take(tokens: &mut Vec<Token>, front: Front, place: u32) -> Result<(), LexError>
    ensures ok { OnOk result (Takes front place tokens.old.items tokens.new.items) }
    ensures err { IfErr result (λ error. IsRefused front tokens.old.items place error) }
{
    match front {
        Front::Gap => Ok(()),
        _ if tokens.len() >= MAX_TOKENS => Err(LexError::TooManyTokens(place)),
        Front::Token(kind) => {
            tokens.push(Token { kind, place })?;
            Ok(())
        }
        Front::WideNumber => Err(LexError::BadNumber(place)),
        Front::LongName => Err(LexError::LongName(place)),
    }
}
