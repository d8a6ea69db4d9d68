//! What stands in expressions and holds no expression.
ghost use Rattle.std.specs.Prelude.{◌≡◌, true, IfOk};
ghost use Rattle.hume_base.specs.declared.symbol.Symbol.TheVariants.{Equals, CloseParen, Arrow};
ghost use Rattle.hume_base.specs.declared.token.Kind.TheVariants.{Sign};
ghost use Rattle.hume_ast.specs.declared.tree.Exp.TheVariants.{Num as NumTree};
ghost use Rattle.hume_ast.specs.Depth.{exp_depth};
ghost use Rattle.hume_ast.specs.Places.{kinds};
ghost use Rattle.parse_errors.specs.inner.Gives.{Gives, Fails};
ghost use Rattle.parse_expressions.specs.inner.Parts.{head_of, no_atom, no_part, plain_atom as plain_read};
ghost use Rattle.parse_readers.specs.inner.Readers.{made, closed, pick, lower_name, number_of};
ghost use Rattle.parse_readers.specs.inner.Types.{types};
ghost use Rattle.parse_readers.specs.inner.Patterns.{patterns};

use crate::operators::{begins_part, starts_atom};
use crate::patterns::pattern;
use crate::tokens::{after_sign, lower, number};
use crate::trees::{Head, Tree};
use crate::types::ty;
use hume_ast::{Exp, Pat, TyExp};
use hume_base::limits::MAX_DEPTH;
use hume_base::{Keyword, Kind, List, Symbol, Text, Token};
use parse_errors::Stop;
use std::alloc::Global;

/// A name and `=`.
pub fn name_and_equals(rest: &[Token]) -> Result<(Text, &[Token]), Stop>
    ensures { Gives (λ x. (x.0, kinds x.1.now)) result (closed (pick lower_name) (Sign Equals) (kinds rest.now)) }
{
    let (name, rest) = lower(rest)?;
    let rest = after_sign(rest, Symbol::Equals)?;
    Ok((name, rest))
}

/// A pattern and `->`.
pub fn pattern_and_arrow(alloc: Global, rest: &[Token]) -> Result<(Pat, &[Token]), Stop>
    ensures { Gives (λ x. (x.0, kinds x.1.now)) result (closed (patterns MAX_DEPTH).whole (Sign Arrow) (kinds rest.now)) }
{
    let (pattern, rest) = pattern(alloc, rest, MAX_DEPTH)?;
    let rest = after_sign(rest, Symbol::Arrow)?;
    Ok((pattern, rest))
}

/// A type and `)`.
pub fn closed_type(alloc: Global, rest: &[Token]) -> Result<(TyExp, &[Token]), Stop>
    ensures { Gives (λ x. (x.0, kinds x.1.now)) result (closed (types MAX_DEPTH) (Sign CloseParen) (kinds rest.now)) }
{
    let (type_exp, rest) = ty(alloc, rest, MAX_DEPTH)?;
    let rest = after_sign(rest, Symbol::CloseParen)?;
    Ok((type_exp, rest))
}

/// The name that arguments may stand behind.
pub fn head(rest: &[Token]) -> Result<(Head, &[Token]), Stop>
    ensures { Gives (λ x. (x.0, kinds x.1.now)) result (pick head_of (kinds rest.now)) }
{
    match rest {
        [token, after @ ..] => match &token.kind {
            Kind::Lower(name) => Ok((Head::Function(name.copy()?), after)),
            Kind::Upper(name) => Ok((Head::Constructor(name.copy()?), after)),
            _ => Err(Stop::Syntax(rest.len())),
        },
        [] => Err(Stop::Syntax(rest.len())),
    }
}

/// The number behind a minus, with it.
pub fn negative_number(alloc: Global, rest: &[Token]) -> Result<(Tree, &[Token]), Stop>
    ensures { Gives (λ x. (x.0.exp, kinds x.1.now)) result (made (NumTree true) (pick number_of) (kinds rest.now)) }
{
    let (amount, rest) = number(rest)?;
    Ok((Tree::leaf(alloc, Exp::Num(true, amount))?, rest))
}

/// An atom that holds no expression.
pub fn plain_atom(alloc: Global, rest: &[Token]) -> Result<(Tree, &[Token]), Stop>
    ensures { Gives (λ x. (x.0.exp, kinds x.1.now)) result (plain_read (kinds rest.now)) }
{
    let (exp, after) = leaf(alloc, rest)?;
    Ok((Tree::leaf(alloc, exp)?, after))
}

#[tactic(auto, using(crate::proofs::ExpSteps::leaf_steps))]
fn leaf(alloc: Global, rest: &[Token]) -> Result<(Exp, &[Token]), Stop>
    ensures reads { Gives (λ x. (x.0, kinds x.1.now)) result (plain_read (kinds rest.now)) }
    ensures deep { IfOk result (λ x. exp_depth x.0 ≡ 1) }
{
    match rest {
        [token, after @ ..] => match &token.kind {
            Kind::Lower(name) => Ok((Exp::App(name.copy()?, List::new(alloc)), after)),
            Kind::Upper(name) => Ok((Exp::Con(name.copy()?, List::new(alloc)), after)),
            Kind::Number(amount) => Ok((Exp::Num(false, *amount), after)),
            Kind::Letter(byte) => Ok((Exp::Letter(*byte), after)),
            Kind::Word(Keyword::True) => Ok((Exp::Truth(true), after)),
            Kind::Word(Keyword::False) => Ok((Exp::Truth(false), after)),
            _ => Err(Stop::Syntax(rest.len())),
        },
        [] => Err(Stop::Syntax(rest.len())),
    }
}

/// Why nothing is read behind a sign where no part may be deeper.
pub fn part_stop(rest: &[Token]) -> Stop
    ensures { Fails result (no_part (kinds rest.now)) }
{
    if begins_part(rest) {
        Stop::Deep(rest.len())
    } else {
        Stop::Syntax(rest.len())
    }
}

/// Why no atom is read where none may be deeper.
pub fn atom_stop(rest: &[Token]) -> Stop
    ensures { Fails result (no_atom (kinds rest.now)) }
{
    if starts_atom(rest) {
        Stop::Deep(rest.len())
    } else {
        Stop::Syntax(rest.len())
    }
}
