ghost use Rattle.std.specs.Prelude.{◌≡◌, ◌<◌, length, IfOk};
ghost use Rattle.hume_base.specs.declared.symbol.Symbol.TheVariants.{Semicolon};
ghost use Rattle.hume_base.specs.declared.token.Kind.TheVariants.{Sign};
ghost use Rattle.hume_ast.specs.Places.{kinds};
ghost use Rattle.parse_errors.specs.inner.Gives.{Gives};
ghost use Rattle.parse_readers.specs.inner.Declarations.{signature as signature_read, equation as equation_read};
ghost use Rattle.parse_readers.specs.inner.Declarations.{expression as expression_read, some_patterns as patterns_read};
ghost use Rattle.parse_readers.specs.inner.Readers.{closed};

use hume_ast::{Exp, Pat, TyExp};
use hume_base::limits::MAX_DEPTH;
use hume_base::{List, Symbol, Token};
use parse_errors::Stop;
use parse_expressions::tokens::after_sign;
use parse_expressions::{expression, pat_atom, starts_pat, ty, type_list};
use std::alloc::Global;

/// The types of a function, behind its name.
pub fn signature(alloc: Global, rest: &[Token]) -> Result<(List<TyExp>, &[Token]), Stop>
    ensures reads { Gives (λ x. (x.0, kinds x.1.now)) result (signature_read MAX_DEPTH (kinds rest.now)) }
    ensures shorter { IfOk result (λ x. length x.1.now < length rest.now) }
{
    let rest = after_sign(rest, Symbol::DoubleColon)?;
    let mut types = List::new(alloc);
    let (first, rest) = ty(alloc, rest, MAX_DEPTH)?;
    types.push(first)?;
    let rest = after_sign(rest, Symbol::Arrow)?;
    let (others, rest) = type_list(alloc, rest, Symbol::Arrow, MAX_DEPTH)?;
    types.append(others)?;
    let rest = after_sign(rest, Symbol::Semicolon)?;
    Ok((types, rest))
}

/// The patterns and the expression of an equation, behind the name of its function.
pub fn equation(alloc: Global, rest: &[Token]) -> Result<((List<Pat>, Exp), &[Token]), Stop>
    ensures reads { Gives (λ x. (x.0, kinds x.1.now)) result (equation_read MAX_DEPTH (kinds rest.now)) }
    ensures shorter { IfOk result (λ x. length x.1.now < length rest.now) }
{
    let (patterns, rest) = some_patterns(alloc, rest)?;
    let rest = after_sign(rest, Symbol::Equals)?;
    let (exp, rest) = last_part(alloc, rest)?;
    Ok(((patterns, exp), rest))
}

/// The expression of an equation, and the end of the equation.
fn last_part(alloc: Global, rest: &[Token]) -> Result<(Exp, &[Token]), Stop>
    ensures reads { Gives (λ x. (x.0, kinds x.1.now)) result (closed (expression_read MAX_DEPTH) (Sign Semicolon) (kinds rest.now)) }
    ensures shorter { IfOk result (λ x. length x.1.now < length rest.now) }
{
    let (exp, rest) = expression(alloc, rest)?;
    match after_sign(rest, Symbol::Semicolon) {
        Ok(rest) => Ok((exp, rest)),
        Err(stop) => {
            drop(exp);
            Err(stop)
        }
    }
}

/// One or more patterns side by side.
fn some_patterns(alloc: Global, tokens: &[Token]) -> Result<(List<Pat>, &[Token]), Stop>
    ensures reads { Gives (λ x. (x.0, kinds x.1.now)) result (patterns_read MAX_DEPTH (kinds tokens.now)) }
    ensures shorter { IfOk result (λ x. length x.1.now < length tokens.now) }
{
    let mut items = List::new(alloc);
    let (first, after) = pat_atom(alloc, tokens, MAX_DEPTH)?;
    items.push(first)?;
    let mut rest = after;
    'items: while starts_pat(rest) {
        let (item, after) = pat_atom(alloc, rest, MAX_DEPTH)?;
        items.push(item)?;
        rest = after;
    }
    Ok((items, rest))
}
