ghost use Rattle.std.specs.Prelude.{◌≡◌, ◌-◌, ◌<◌, drop, length, IfOk};
ghost use Rattle.hume_ast.specs.Places.{kinds};
ghost use Rattle.parse_errors.specs.inner.Gives.{Gives};
ghost use Rattle.parse_items.specs.inner.Items.{seen_item, seen_expecting};
ghost use Rattle.hume_parse.specs.inner.Items.{named, signed};
ghost use Rattle.parse_readers.specs.inner.Items.{item as line, named_item as named_read};

use crate::declarations::whole_decl;
use crate::functions::{equation, signature};
use hume_base::limits::MAX_DEPTH;
use hume_base::{Symbol, Token};
use parse_errors::Stop;
use parse_expressions::tokens::{lower, next_is_lower, next_is_sign};
use parse_items::{Expecting, Item};
use std::alloc::Global;

/// The item that stands here, and the end of the tokens behind it.
pub fn cut_item(
    alloc: Global,
    expecting: Expecting,
    rest: &[Token],
) -> Result<(Item, &[Token]), Stop>
    ensures reads { Gives (λ x. (seen_item x.0, kinds x.1.now)) result
        (line MAX_DEPTH (seen_expecting expecting) (kinds rest.now)) }
    ensures cut { IfOk result (λ x. x.1.now ≡ drop (length rest.now - length x.1.now) rest.now) }
    ensures shorter { IfOk result (λ x. length x.1.now < length rest.now) }
{
    let (found, after) = next_item(alloc, expecting, rest)?;
    let taken = rest.len() - after.len();
    Ok((found, &rest[taken..]))
}

#[tactic(auto, using(crate::proofs::ItemSteps::item_steps))]
fn next_item(alloc: Global, expecting: Expecting, rest: &[Token]) -> Result<(Item, &[Token]), Stop>
    ensures reads { Gives (λ x. (seen_item x.0, kinds x.1.now)) result
        (line MAX_DEPTH (seen_expecting expecting) (kinds rest.now)) }
    ensures shorter { IfOk result (λ x. length x.1.now < length rest.now) }
{
    if begins_with_name(expecting, rest) {
        return named_item(alloc, expecting, rest);
    }
    let (decl, rest) = whole_decl(alloc, rest)?;
    Ok((Item::Declared(decl), rest))
}

#[tactic(auto, using(crate::proofs::ItemSteps::named_steps))]
fn named_item(alloc: Global, expecting: Expecting, rest: &[Token]) -> Result<(Item, &[Token]), Stop>
    ensures reads { Gives (λ x. (seen_item x.0, kinds x.1.now)) result
        (named_read MAX_DEPTH (seen_expecting expecting) (kinds rest.now)) }
    ensures shorter { IfOk result (λ x. length x.1.now < length rest.now) }
{
    let (name, rest) = lower(rest)?;
    if is_signature(expecting, rest) {
        let (types, rest) = signature(alloc, rest)?;
        return Ok((Item::Signature(name, types), rest));
    }
    let ((patterns, exp), rest) = equation(alloc, rest)?;
    Ok((Item::Equation(name, patterns, exp), rest))
}

fn begins_with_name(expecting: Expecting, rest: &[Token]) -> bool
    ensures { result ≡ named (seen_expecting expecting) (kinds rest.now) }
{
    match expecting {
        Expecting::Equation => true,
        Expecting::Declaration | Expecting::Either => next_is_lower(rest),
    }
}

/// Whether behind a name comes a signature.
fn is_signature(expecting: Expecting, rest: &[Token]) -> bool
    ensures { result ≡ signed (seen_expecting expecting) (kinds rest.now) }
{
    match expecting {
        Expecting::Declaration => true,
        Expecting::Equation => false,
        Expecting::Either => next_is_sign(rest, Symbol::DoubleColon),
    }
}
