ghost use Rattle.std.specs.Prelude.{◌≡◌, ◌<◌, length, IfOk, IsTrue};
ghost use Rattle.hume_base.specs.declared.token.Kind.TheVariants.{Word, Sign};
ghost use Rattle.hume_ast.specs.Places.{kinds};
ghost use Rattle.parse_errors.specs.inner.Gives.{Gives};
ghost use Rattle.parse_expressions.specs.inner.Parts.{is_name};
ghost use Rattle.parse_readers.specs.inner.Readers.{next, is_sign, is_word, behind as passed, after, pick, lower_name, upper_name, number_of, port_name};
ghost use Rattle.parse_readers.specs.inner.Patterns.{is_upper};
ghost use Rattle.parse_readers.specs.inner.Expressions.{is_lower, is_number};

use hume_base::{Keyword, Kind, Symbol, Text, Token};
use parse_errors::Stop;

#[tactic(auto, using(crate::proofs::Sameness::same_symbols))]
pub fn next_is_sign(rest: &[Token], symbol: Symbol) -> bool
    ensures is { result ≡ next (is_sign symbol) (kinds rest.now) }
    ensures some { IsTrue result → 0 < length rest.now }
{
    match rest {
        [] => false,
        [token, ..] => match token.kind {
            Kind::Sign(other) => other.is(symbol),
            _ => false,
        },
    }
}

#[tactic(auto, using(crate::proofs::Sameness::same_keywords))]
pub fn next_is_word(rest: &[Token], keyword: Keyword) -> bool
    ensures is { result ≡ next (is_word keyword) (kinds rest.now) }
    ensures some { IsTrue result → 0 < length rest.now }
{
    match rest {
        [] => false,
        [token, ..] => match token.kind {
            Kind::Word(other) => other.is(keyword),
            _ => false,
        },
    }
}

/// Whether the next token is a number.
pub fn next_is_number(rest: &[Token]) -> bool
    ensures is { result ≡ next is_number (kinds rest.now) }
    ensures some { IsTrue result → 0 < length rest.now }
{
    match rest {
        [] => false,
        [token, ..] => match token.kind {
            Kind::Number(_) => true,
            _ => false,
        },
    }
}

/// Whether the next token is a name that begins with a small letter.
pub fn next_is_lower(rest: &[Token]) -> bool
    ensures is { result ≡ next is_lower (kinds rest.now) }
    ensures some { IsTrue result → 0 < length rest.now }
{
    match rest {
        [] => false,
        [token, ..] => match token.kind {
            Kind::Lower(_) => true,
            _ => false,
        },
    }
}

/// Whether the next token is a name that begins with a capital letter.
pub fn next_is_upper(rest: &[Token]) -> bool
    ensures is { result ≡ next is_upper (kinds rest.now) }
    ensures some { IsTrue result → 0 < length rest.now }
{
    match rest {
        [] => false,
        [token, ..] => match token.kind {
            Kind::Upper(_) => true,
            _ => false,
        },
    }
}

/// Whether the next token is a name.
pub fn next_is_name(rest: &[Token]) -> bool
    ensures is { result ≡ next is_name (kinds rest.now) }
    ensures some { IsTrue result → 0 < length rest.now }
{
    match rest {
        [] => false,
        [token, ..] => match token.kind {
            Kind::Lower(_) | Kind::Upper(_) => true,
            _ => false,
        },
    }
}

pub fn behind(rest: &[Token]) -> &[Token]
    ensures kinds { kinds result.now ≡ passed (kinds rest.now) }
    ensures shorter { 0 < length rest.now → length result.now < length rest.now }
{
    match rest {
        [] => rest,
        [_, after @ ..] => after,
    }
}

pub fn after_sign(rest: &[Token], symbol: Symbol) -> Result<&[Token], Stop>
    ensures reads { Gives (λ after. kinds after.now) result (after (Sign symbol) (kinds rest.now)) }
    ensures shorter { IfOk result (λ after. length after.now < length rest.now) }
{
    if next_is_sign(rest, symbol) {
        Ok(behind(rest))
    } else {
        Err(Stop::Syntax(rest.len()))
    }
}

pub fn after_word(rest: &[Token], keyword: Keyword) -> Result<&[Token], Stop>
    ensures reads { Gives (λ after. kinds after.now) result (after (Word keyword) (kinds rest.now)) }
    ensures shorter { IfOk result (λ after. length after.now < length rest.now) }
{
    if next_is_word(rest, keyword) {
        Ok(behind(rest))
    } else {
        Err(Stop::Syntax(rest.len()))
    }
}

pub fn lower(rest: &[Token]) -> Result<(Text, &[Token]), Stop>
    ensures reads { Gives (λ x. (x.0, kinds x.1.now)) result (pick lower_name (kinds rest.now)) }
    ensures shorter { IfOk result (λ x. length x.1.now < length rest.now) }
{
    match rest {
        [token, after @ ..] => match &token.kind {
            Kind::Lower(name) => Ok((name.copy()?, after)),
            _ => Err(Stop::Syntax(rest.len())),
        },
        [] => Err(Stop::Syntax(rest.len())),
    }
}

pub fn upper(rest: &[Token]) -> Result<(Text, &[Token]), Stop>
    ensures reads { Gives (λ x. (x.0, kinds x.1.now)) result (pick upper_name (kinds rest.now)) }
    ensures shorter { IfOk result (λ x. length x.1.now < length rest.now) }
{
    match rest {
        [token, after @ ..] => match &token.kind {
            Kind::Upper(name) => Ok((name.copy()?, after)),
            _ => Err(Stop::Syntax(rest.len())),
        },
        [] => Err(Stop::Syntax(rest.len())),
    }
}

pub fn port(rest: &[Token]) -> Result<(Text, &[Token]), Stop>
    ensures reads { Gives (λ x. (x.0, kinds x.1.now)) result (pick port_name (kinds rest.now)) }
    ensures shorter { IfOk result (λ x. length x.1.now < length rest.now) }
{
    match rest {
        [token, after @ ..] => match &token.kind {
            Kind::Quoted(name) => Ok((name.copy()?, after)),
            _ => Err(Stop::Syntax(rest.len())),
        },
        [] => Err(Stop::Syntax(rest.len())),
    }
}

pub fn number(rest: &[Token]) -> Result<(u64, &[Token]), Stop>
    ensures reads { Gives (λ x. (x.0, kinds x.1.now)) result (pick number_of (kinds rest.now)) }
    ensures shorter { IfOk result (λ x. length x.1.now < length rest.now) }
{
    match rest {
        [token, after @ ..] => match token.kind {
            Kind::Number(amount) => Ok((amount, after)),
            _ => Err(Stop::Syntax(rest.len())),
        },
        [] => Err(Stop::Syntax(rest.len())),
    }
}
