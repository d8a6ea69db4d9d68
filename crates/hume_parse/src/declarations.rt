ghost use Rattle.std.specs.Prelude.{◌≡◌, ◌<◌, ◌≤◌, length, IfOk, IsTrue};
ghost use Rattle.hume_base.specs.declared.symbol.Symbol.TheVariants.{Equals, Bar, Semicolon};
ghost use Rattle.hume_base.specs.declared.keyword.Keyword.TheVariants.{To};
ghost use Rattle.hume_base.specs.declared.token.Kind.TheVariants.{Word, Sign};
ghost use Rattle.hume_ast.specs.Places.{kinds};
ghost use Rattle.parse_errors.specs.inner.Gives.{Gives};
ghost use Rattle.parse_readers.specs.inner.Readers.{made, both, closed, listed, many, maybe, next};
ghost use Rattle.parse_readers.specs.inner.Readers.{pick, lower_name, upper_name, port_name};
ghost use Rattle.parse_readers.specs.inner.Types.{types};
ghost use Rattle.parse_readers.specs.inner.Declarations.{whole_decl as decl_read, sum_of, exn_of, stream_of, wire_of};
ghost use Rattle.parse_readers.specs.inner.Declarations.{constructor as constructor_read, starts_type as type_starts};
ghost use Rattle.parse_readers.specs.inner.Declarations.{way as way_read, wire_end as end_read, wire_depth as depth_read};
ghost use Rattle.parse_readers.specs.inner.Declarations.{first_value as first_read};

use crate::boxes::box_decl;
use hume_ast::{Decl, Exp, TyExp};
use hume_base::limits::MAX_DEPTH;
use hume_base::{Keyword, Kind, List, Symbol, Text, Token};
use parse_errors::Stop;
use parse_expressions::tokens::{
    after_sign, after_word, behind, lower, next_is_sign, next_is_word, number, port, upper,
};
use parse_expressions::{expression, ty};
use std::alloc::Global;

/// A declaration of anything but a function from the front of the tokens.
#[tactic(auto, using(crate::proofs::DeclSteps::whole_steps))]
pub fn whole_decl(alloc: Global, rest: &[Token]) -> Result<(Decl, &[Token]), Stop>
    ensures reads { Gives (λ x. (x.0, kinds x.1.now)) result (decl_read MAX_DEPTH (kinds rest.now)) }
    ensures shorter { IfOk result (λ x. length x.1.now < length rest.now) }
{
    if next_is_word(rest, Keyword::Data) {
        return data_decl(alloc, behind(rest));
    }
    if next_is_word(rest, Keyword::Exception) {
        return exception_decl(alloc, behind(rest));
    }
    if next_is_word(rest, Keyword::Box) {
        return box_decl(alloc, behind(rest));
    }
    if next_is_word(rest, Keyword::Stream) {
        return stream_decl(behind(rest));
    }
    if next_is_word(rest, Keyword::Wire) {
        return wire_decl(alloc, behind(rest));
    }
    Err(Stop::Syntax(rest.len()))
}

fn data_decl(alloc: Global, rest: &[Token]) -> Result<(Decl, &[Token]), Stop>
    ensures reads { Gives (λ x. (x.0, kinds x.1.now)) result
        (made sum_of (both (closed (pick upper_name) (Sign Equals)) (closed (listed Bar (constructor_read MAX_DEPTH)) (Sign Semicolon))) (kinds rest.now)) }
    ensures shorter { IfOk result (λ x. length x.1.now < length rest.now) }
{
    let (name, rest) = upper(rest)?;
    let rest = after_sign(rest, Symbol::Equals)?;
    let (items, rest) = constructors(alloc, rest)?;
    let rest = after_sign(rest, Symbol::Semicolon)?;
    Ok((Decl::Sum(name, items), rest))
}

/// One or more constructors, with `|` between each two.
fn constructors(
    alloc: Global,
    tokens: &[Token],
) -> Result<(List<(Text, List<TyExp>)>, &[Token]), Stop>
    ensures reads { Gives (λ x. (x.0, kinds x.1.now)) result (listed Bar (constructor_read MAX_DEPTH) (kinds tokens.now)) }
    ensures shorter { IfOk result (λ x. length x.1.now < length tokens.now) }
{
    let mut items = List::new(alloc);
    let (first, after) = constructor(alloc, tokens)?;
    items.push(first)?;
    let mut rest = after;
    'items: while next_is_sign(rest, Symbol::Bar) {
        let (item, after) = constructor(alloc, behind(rest))?;
        items.push(item)?;
        rest = after;
    }
    Ok((items, rest))
}

fn constructor(alloc: Global, rest: &[Token]) -> Result<((Text, List<TyExp>), &[Token]), Stop>
    ensures reads { Gives (λ x. (x.0, kinds x.1.now)) result (constructor_read MAX_DEPTH (kinds rest.now)) }
    ensures shorter { IfOk result (λ x. length x.1.now < length rest.now) }
{
    let (name, rest) = upper(rest)?;
    let (parts, rest) = types_beside(alloc, rest)?;
    Ok(((name, parts), rest))
}

/// Types side by side, or none.
fn types_beside(alloc: Global, tokens: &[Token]) -> Result<(List<TyExp>, &[Token]), Stop>
    ensures reads { Gives (λ x. (x.0, kinds x.1.now)) result (many type_starts (types MAX_DEPTH) (kinds tokens.now)) }
    ensures shorter { IfOk result (λ x. length x.1.now ≤ length tokens.now) }
{
    let mut items = List::new(alloc);
    let mut rest = tokens;
    'items: while starts_type(rest) {
        let (item, after) = ty(alloc, rest, MAX_DEPTH)?;
        items.push(item)?;
        rest = after;
    }
    Ok((items, rest))
}

fn exception_decl(alloc: Global, rest: &[Token]) -> Result<(Decl, &[Token]), Stop>
    ensures reads { Gives (λ x. (x.0, kinds x.1.now)) result
        (made exn_of (both (pick upper_name) (closed (maybe type_starts (types MAX_DEPTH)) (Sign Semicolon))) (kinds rest.now)) }
    ensures shorter { IfOk result (λ x. length x.1.now < length rest.now) }
{
    let (name, rest) = upper(rest)?;
    let (carries, rest) = carried(alloc, rest)?;
    let rest = after_sign(rest, Symbol::Semicolon)?;
    Ok((Decl::Exn(name, carries), rest))
}

/// The type that an exception carries, if it carries one.
#[tactic(auto, using(crate::proofs::DeclSteps::carried_steps))]
fn carried(alloc: Global, rest: &[Token]) -> Result<(Option<TyExp>, &[Token]), Stop>
    ensures reads { Gives (λ x. (x.0, kinds x.1.now)) result (maybe type_starts (types MAX_DEPTH) (kinds rest.now)) }
    ensures shorter { IfOk result (λ x. length x.1.now ≤ length rest.now) }
{
    if starts_type(rest) {
        let (carries, rest) = ty(alloc, rest, MAX_DEPTH)?;
        return Ok((Some(carries), rest));
    }
    Ok((None, rest))
}

fn stream_decl(rest: &[Token]) -> Result<(Decl, &[Token]), Stop>
    ensures reads { Gives (λ x. (x.0, kinds x.1.now)) result
        (made stream_of (both (pick lower_name) (both way_read (closed (pick port_name) (Sign Semicolon)))) (kinds rest.now)) }
    ensures shorter { IfOk result (λ x. length x.1.now < length rest.now) }
{
    let (name, rest) = lower(rest)?;
    let (from, rest) = way(rest)?;
    let (outside, rest) = port(rest)?;
    let rest = after_sign(rest, Symbol::Semicolon)?;
    Ok((Decl::Stream(name, from, outside), rest))
}

/// Whether a stream comes in.
#[tactic(auto, using(crate::proofs::DeclSteps::way_steps))]
fn way(rest: &[Token]) -> Result<(bool, &[Token]), Stop>
    ensures reads { Gives (λ x. (x.0, kinds x.1.now)) result (way_read (kinds rest.now)) }
    ensures shorter { IfOk result (λ x. length x.1.now < length rest.now) }
{
    if next_is_word(rest, Keyword::From) {
        return Ok((true, behind(rest)));
    }
    let rest = after_word(rest, Keyword::To)?;
    Ok((false, rest))
}

fn wire_decl(alloc: Global, rest: &[Token]) -> Result<(Decl, &[Token]), Stop>
    ensures reads { Gives (λ x. (x.0, kinds x.1.now)) result
        (made wire_of (both (closed end_read (Word To)) (both end_read (both depth_read (closed (first_read MAX_DEPTH) (Sign Semicolon))))) (kinds rest.now)) }
    ensures shorter { IfOk result (λ x. length x.1.now < length rest.now) }
{
    let (source, rest) = wire_end(rest)?;
    let rest = after_word(rest, Keyword::To)?;
    let (target, rest) = wire_end(rest)?;
    let (depth, rest) = wire_depth(rest)?;
    let (initial, rest) = last_part(alloc, rest)?;
    Ok((Decl::Wire(source, target, depth, initial), rest))
}

/// An end of a wire: a box with its port, or a stream alone.
#[tactic(auto, using(crate::proofs::DeclSteps::end_steps))]
fn wire_end(rest: &[Token]) -> Result<((Text, Option<Text>), &[Token]), Stop>
    ensures reads { Gives (λ x. (x.0, kinds x.1.now)) result (end_read (kinds rest.now)) }
    ensures shorter { IfOk result (λ x. length x.1.now < length rest.now) }
{
    let (name, rest) = lower(rest)?;
    if next_is_sign(rest, Symbol::Dot) {
        let (input, rest) = lower(behind(rest))?;
        return Ok(((name, Some(input)), rest));
    }
    Ok(((name, None), rest))
}

/// How many values a wire holds, if that is said.
#[tactic(auto, using(crate::proofs::DeclSteps::depth_steps))]
fn wire_depth(rest: &[Token]) -> Result<(Option<u64>, &[Token]), Stop>
    ensures reads { Gives (λ x. (x.0, kinds x.1.now)) result (depth_read (kinds rest.now)) }
    ensures shorter { IfOk result (λ x. length x.1.now ≤ length rest.now) }
{
    if next_is_sign(rest, Symbol::At) {
        let (depth, rest) = number(behind(rest))?;
        return Ok((Some(depth), rest));
    }
    Ok((None, rest))
}

/// The first value of a wire, if it has one, and the end of its declaration.
fn last_part(alloc: Global, rest: &[Token]) -> Result<(Option<Exp>, &[Token]), Stop>
    ensures reads { Gives (λ x. (x.0, kinds x.1.now)) result (closed (first_read MAX_DEPTH) (Sign Semicolon) (kinds rest.now)) }
    ensures shorter { IfOk result (λ x. length x.1.now < length rest.now) }
{
    let (initial, rest) = first_value(alloc, rest)?;
    match after_sign(rest, Symbol::Semicolon) {
        Ok(rest) => Ok((initial, rest)),
        Err(stop) => {
            drop(initial);
            Err(stop)
        }
    }
}

/// The first value of a wire, if it has one.
#[tactic(auto, using(crate::proofs::DeclSteps::first_steps))]
fn first_value(alloc: Global, rest: &[Token]) -> Result<(Option<Exp>, &[Token]), Stop>
    ensures reads { Gives (λ x. (x.0, kinds x.1.now)) result (first_read MAX_DEPTH (kinds rest.now)) }
    ensures shorter { IfOk result (λ x. length x.1.now ≤ length rest.now) }
{
    if next_is_word(rest, Keyword::Initial) {
        let (exp, rest) = expression(alloc, behind(rest))?;
        return Ok((Some(exp), rest));
    }
    Ok((None, rest))
}

fn starts_type(rest: &[Token]) -> bool
    ensures is { result ≡ next type_starts (kinds rest.now) }
    ensures some { IsTrue result → 0 < length rest.now }
{
    match rest {
        [] => false,
        [token, ..] => match token.kind {
            Kind::Upper(_) => true,
            Kind::Word(
                Keyword::Bool | Keyword::Char | Keyword::Int | Keyword::Nat | Keyword::Vector,
            ) => true,
            Kind::Sign(Symbol::OpenParen) => true,
            _ => false,
        },
    }
}
