ghost use Rattle.std.specs.Prelude.{◌≡◌, ◌-◌, ◌<◌, length, IfOk, IsTrue};
ghost use Rattle.hume_base.specs.declared.symbol.Symbol.TheVariants.{CloseParen, Comma};
ghost use Rattle.hume_base.specs.declared.token.Kind.TheVariants.{Sign};
ghost use Rattle.hume_ast.specs.declared.tree.Pat.{roll-Pat};
ghost use Rattle.hume_ast.specs.Places.{kinds};
ghost use Rattle.parse_errors.specs.inner.Gives.{Gives, Fails};
ghost use Rattle.parse_expressions.specs.inner.Parts.{no_pattern};
ghost use Rattle.parse_readers.specs.inner.Readers.{next, is_sign, led, made, both, closed, many, pick};
ghost use Rattle.parse_readers.specs.inner.Patterns.{patterns, pat_leaf as leaf_said, starts_pat as pat_starts, con_pat, pat_in_parens, input_pattern as input};

use crate::tokens::{after_sign, behind, next_is_sign, next_is_upper, next_is_word, number, upper};
use hume_ast::Pat;
use hume_base::{Box, Keyword, Kind, List, Symbol, Token};
use parse_errors::Stop;
use std::alloc::{AllocError, Global};

/// What stands at an input of a box, at most so deep.
#[tactic(auto, using(crate::proofs::PatternSteps::input_steps))]
pub fn input_pattern(alloc: Global, rest: &[Token], room: u32) -> Result<(Pat, &[Token]), Stop>
    requires { 0 < room }
    ensures reads { Gives (λ x. (x.0, kinds x.1.now)) result (input room (kinds rest.now)) }
    ensures shorter { IfOk result (λ x. length x.1.now < length rest.now) }
{
    if next_is_sign(rest, Symbol::Star) {
        return Ok((Pat::Star, behind(rest)));
    }
    if next_is_sign(rest, Symbol::UnderscoreStar) {
        return Ok((Pat::AnyStar, behind(rest)));
    }
    pattern(alloc, rest, room)
}

/// A pattern from the front of the tokens, at most so deep.
#[cycle(patterns)]
#[tactic(auto, using(crate::proofs::PatternSteps::pattern_steps))]
pub fn pattern(alloc: Global, rest: &[Token], room: u32) -> Result<(Pat, &[Token]), Stop>
    requires { 0 < room }
    ensures reads { Gives (λ x. (x.0, kinds x.1.now)) result ((patterns room).whole (kinds rest.now)) }
    ensures shorter { IfOk result (λ x. length x.1.now < length rest.now) }
{
    if next_is_upper(rest) {
        con(alloc, rest, room)
    } else {
        pat_atom(alloc, rest, room)
    }
}

#[cycle(patterns)]
#[tactic(auto, using(crate::proofs::PatternSteps::pattern_steps))]
fn con(alloc: Global, tokens: &[Token], room: u32) -> Result<(Pat, &[Token]), Stop>
    requires { 0 < room }
    ensures reads { Gives (λ x. (x.0, kinds x.1.now)) result (made roll-Pat (con_pat (patterns (room - 1)).atom) (kinds tokens.now)) }
    ensures shorter { IfOk result (λ x. length x.1.now < length tokens.now) }
{
    let (name, after) = upper(tokens)?;
    let mut parts = List::new(alloc);
    let mut rest = after;
    'parts: while starts_pat(rest) {
        let (part, after) = pat_atom(alloc, rest, room - 1)?;
        parts.push(part)?;
        rest = after;
    }
    Ok((Pat::Con(name, parts), rest))
}

/// A pattern that stands beside others, at most so deep.
#[cycle(patterns)]
#[tactic(auto, using(crate::proofs::PatternSteps::pattern_steps))]
pub fn pat_atom(alloc: Global, rest: &[Token], room: u32) -> Result<(Pat, &[Token]), Stop>
    ensures reads { Gives (λ x. (x.0, kinds x.1.now)) result ((patterns room).atom (kinds rest.now)) }
    ensures shorter { IfOk result (λ x. length x.1.now < length rest.now) }
{
    if room == 0 {
        return Err(pat_stop(rest));
    }
    if next_is_sign(rest, Symbol::Underscore) {
        return Ok((Pat::Any, behind(rest)));
    }
    if next_is_sign(rest, Symbol::Minus) {
        let (amount, rest) = number(behind(rest))?;
        return Ok((Pat::Num(true, amount), rest));
    }
    if next_is_word(rest, Keyword::True) {
        return Ok((Pat::Truth(true), behind(rest)));
    }
    if next_is_word(rest, Keyword::False) {
        return Ok((Pat::Truth(false), behind(rest)));
    }
    if next_is_sign(rest, Symbol::OpenParen) {
        if room == 1 {
            return Err(Stop::Deep(rest.len()));
        }
        return parens(alloc, behind(rest), room);
    }
    pat_leaf(alloc, rest)
}

#[cycle(patterns)]
#[tactic(auto, using(crate::proofs::PatternSteps::pattern_steps))]
fn parens(alloc: Global, tokens: &[Token], room: u32) -> Result<(Pat, &[Token]), Stop>
    requires { 1 < room }
    ensures reads { Gives (λ x. (x.0, kinds x.1.now)) result (made roll-Pat (made pat_in_parens
        (both (patterns (room - 1)).whole (closed (many (is_sign Comma) (led (Sign Comma) (patterns (room - 1)).whole)) (Sign CloseParen))))
        (kinds tokens.now)) }
    ensures shorter { IfOk result (λ x. length x.1.now < length tokens.now) }
{
    let (first, after) = pattern(alloc, tokens, room - 1)?;
    let mut others = List::new(alloc);
    let mut rest = after;
    'others: while next_is_sign(rest, Symbol::Comma) {
        let (other, after) = pattern(alloc, behind(rest), room - 1)?;
        others.push(other)?;
        rest = after;
    }
    let rest = after_sign(rest, Symbol::CloseParen)?;
    Ok((in_parens(alloc, first, others)?, rest))
}

#[tactic(auto, using(crate::proofs::PatternSteps::parens_steps))]
fn in_parens(alloc: Global, first: Pat, others: List<Pat>) -> Result<Pat, AllocError>
    ensures { IfOk result (λ made. made ≡ roll-Pat (pat_in_parens (first, others))) }
{
    if others.is_empty() {
        return Ok(Pat::Paren(Box::new(alloc, first)?));
    }
    let mut parts = List::new(alloc);
    parts.push(first)?;
    parts.append(others)?;
    Ok(Pat::Tuple(parts))
}

#[tactic(auto, using(crate::proofs::PatternSteps::leaf_steps))]
fn pat_leaf(alloc: Global, rest: &[Token]) -> Result<(Pat, &[Token]), Stop>
    ensures reads { Gives (λ x. (x.0, kinds x.1.now)) result (made roll-Pat (pick leaf_said) (kinds rest.now)) }
    ensures shorter { IfOk result (λ x. length x.1.now < length rest.now) }
{
    match rest {
        [token, after @ ..] => match &token.kind {
            Kind::Lower(name) => Ok((Pat::Name(name.copy()?), after)),
            Kind::Upper(name) => Ok((Pat::Con(name.copy()?, List::new(alloc)), after)),
            Kind::Number(amount) => Ok((Pat::Num(false, *amount), after)),
            Kind::Letter(byte) => Ok((Pat::Letter(*byte), after)),
            _ => Err(Stop::Syntax(rest.len())),
        },
        [] => Err(Stop::Syntax(rest.len())),
    }
}

// Why no pattern is read where none may be deeper.
fn pat_stop(rest: &[Token]) -> Stop
    ensures { Fails result (no_pattern (kinds rest.now)) }
{
    if starts_pat(rest) {
        Stop::Deep(rest.len())
    } else {
        Stop::Syntax(rest.len())
    }
}

pub fn starts_pat(rest: &[Token]) -> bool
    ensures is { result ≡ next pat_starts (kinds rest.now) }
    ensures some { IsTrue result → 0 < length rest.now }
{
    match rest {
        [] => false,
        [token, ..] => match token.kind {
            Kind::Lower(_) | Kind::Upper(_) | Kind::Number(_) | Kind::Letter(_) => true,
            Kind::Word(Keyword::True | Keyword::False) => true,
            Kind::Sign(Symbol::Underscore | Symbol::Minus | Symbol::OpenParen) => true,
            _ => false,
        },
    }
}
