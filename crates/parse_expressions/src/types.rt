ghost use Rattle.std.specs.Prelude.{◌≡◌, ◌-◌, ◌<◌, length, IfOk};
ghost use Rattle.hume_base.specs.declared.keyword.Keyword.TheVariants.{Of};
ghost use Rattle.hume_base.specs.declared.symbol.Symbol.TheVariants.{CloseParen, Comma};
ghost use Rattle.hume_base.specs.declared.token.Kind.TheVariants.{Word, Sign};
ghost use Rattle.hume_ast.specs.declared.tree.TyExp.TheOpen.{TyExp-F};
ghost use Rattle.hume_ast.specs.declared.tree.TyExp.{roll-TyExp};
ghost use Rattle.hume_ast.specs.Places.{kinds};
ghost use Rattle.parse_errors.specs.inner.Gives.{Gives};
ghost use Rattle.parse_readers.specs.inner.Readers.{made, both, closed, pick, number_of, several, listed};
ghost use Rattle.parse_readers.specs.inner.Types.{types, vector_of};

use crate::tokens::{after_sign, after_word, behind, next_is_sign, next_is_word, number, upper};
use hume_ast::TyExp;
use hume_base::{Box, Keyword, List, Symbol, Token};
use parse_errors::Stop;
use std::alloc::Global;

/// A type from the front of the tokens, at most so deep.
#[cycle(types)]
#[tactic(auto, using(crate::proofs::TypeSteps::type_steps))]
pub fn ty(alloc: Global, rest: &[Token], room: u32) -> Result<(TyExp, &[Token]), Stop>
    requires { 0 < room }
    ensures reads { Gives (λ x. (x.0, kinds x.1.now)) result (types room (kinds rest.now)) }
    ensures shorter { IfOk result (λ x. length x.1.now < length rest.now) }
{
    if next_is_word(rest, Keyword::Bool) {
        return Ok((TyExp::Bool, behind(rest)));
    }
    if next_is_word(rest, Keyword::Char) {
        return Ok((TyExp::Char, behind(rest)));
    }
    if next_is_word(rest, Keyword::Int) {
        let (bits, rest) = number(behind(rest))?;
        return Ok((TyExp::Int(bits), rest));
    }
    if next_is_word(rest, Keyword::Nat) {
        let (bits, rest) = number(behind(rest))?;
        return Ok((TyExp::Nat(bits), rest));
    }
    if next_is_word(rest, Keyword::Vector) {
        if room == 1 {
            return Err(Stop::Deep(rest.len()));
        }
        return vector(alloc, behind(rest), room);
    }
    if next_is_sign(rest, Symbol::OpenParen) {
        if room == 1 {
            return Err(Stop::Deep(rest.len()));
        }
        return tuple(alloc, behind(rest), room);
    }
    let (name, rest) = upper(rest)?;
    Ok((TyExp::Named(name), rest))
}

#[cycle(types)]
#[tactic(auto, using(crate::proofs::TypeSteps::type_steps))]
fn vector(alloc: Global, rest: &[Token], room: u32) -> Result<(TyExp, &[Token]), Stop>
    requires { 1 < room }
    ensures reads { Gives (λ x. (x.0, kinds x.1.now)) result
        (made roll-TyExp (made vector_of (both (closed (pick number_of) (Word Of)) (types (room - 1)))) (kinds rest.now)) }
    ensures shorter { IfOk result (λ x. length x.1.now < length rest.now) }
{
    let (count, rest) = number(rest)?;
    let rest = after_word(rest, Keyword::Of)?;
    let (item, rest) = ty(alloc, rest, room - 1)?;
    Ok((TyExp::Vector(count, Box::new(alloc, item)?), rest))
}

#[cycle(types)]
#[tactic(auto, using(crate::proofs::TypeSteps::type_steps))]
fn tuple(alloc: Global, rest: &[Token], room: u32) -> Result<(TyExp, &[Token]), Stop>
    requires { 1 < room }
    ensures reads { Gives (λ x. (x.0, kinds x.1.now)) result
        (made roll-TyExp (made TyExp-F.Tuple (closed (several Comma (types (room - 1))) (Sign CloseParen))) (kinds rest.now)) }
    ensures shorter { IfOk result (λ x. length x.1.now < length rest.now) }
{
    let mut parts = List::new(alloc);
    let (first, rest) = ty(alloc, rest, room - 1)?;
    parts.push(first)?;
    let rest = after_sign(rest, Symbol::Comma)?;
    let (others, rest) = type_list(alloc, rest, Symbol::Comma, room - 1)?;
    parts.append(others)?;
    let rest = after_sign(rest, Symbol::CloseParen)?;
    Ok((TyExp::Tuple(parts), rest))
}

/// One or more types, with the sign between each two.
#[cycle(types)]
#[tactic(auto, using(crate::proofs::TypeSteps::type_steps))]
pub fn type_list(
    alloc: Global,
    tokens: &[Token],
    symbol: Symbol,
    room: u32,
) -> Result<(List<TyExp>, &[Token]), Stop>
    requires { 0 < room }
    ensures reads { Gives (λ x. (x.0, kinds x.1.now)) result (listed symbol (types room) (kinds tokens.now)) }
    ensures shorter { IfOk result (λ x. length x.1.now < length tokens.now) }
{
    let mut items = List::new(alloc);
    let (first, after) = ty(alloc, tokens, room)?;
    items.push(first)?;
    let mut rest = after;
    'items: while next_is_sign(rest, symbol) {
        let (item, after) = ty(alloc, behind(rest), room)?;
        items.push(item)?;
        rest = after;
    }
    Ok((items, rest))
}
