ghost use Rattle.std.specs.Prelude.{◌≡◌, ◌<◌, ◌≤◌, length, IfOk};
ghost use Rattle.hume_base.specs.declared.symbol.Symbol.TheVariants.{Comma, Bar};
ghost use Rattle.hume_base.specs.declared.keyword.Keyword.TheVariants.{In};
ghost use Rattle.hume_base.specs.declared.token.Kind.TheVariants.{Word, Sign};
ghost use Rattle.hume_ast.specs.Places.{kinds};
ghost use Rattle.parse_errors.specs.inner.Gives.{Gives};
ghost use Rattle.parse_readers.specs.inner.Readers.{made, both, closed, listed, maybe, pick, lower_name};
ghost use Rattle.parse_readers.specs.inner.Patterns.{input_pattern as input};
ghost use Rattle.parse_readers.specs.inner.Declarations.{box_of, sides as sides_read, side as ports_read, typed_name as port_read};
ghost use Rattle.parse_readers.specs.inner.Declarations.{rules as rules_read, order as order_read, in_commas, rule as rule_read};
ghost use Rattle.parse_readers.specs.inner.Declarations.{handlers as handlers_read, handler as handler_read};
ghost use Rattle.parse_readers.specs.inner.Declarations.{is_carried, carried_pat};

use hume_ast::{Decl, Exp, Pat, TyExp};
use hume_base::limits::MAX_DEPTH;
use hume_base::{Keyword, Kind, List, Symbol, Text, Token};
use parse_errors::Stop;
use parse_expressions::tokens::{
    after_sign, after_word, behind, lower, next_is_sign, next_is_word, upper,
};
use parse_expressions::{expression, input_pattern, ty};
use std::alloc::Global;

/// The inputs and the outputs of a box.
#[derive(Drop)]
pub struct Sides {
    pub inputs: List<(Text, TyExp)>,
    pub outputs: List<(Text, TyExp)>,
}

/// Whether the rules of a box are fair, the rules and the handlers.
#[derive(Drop)]
pub struct Rules {
    pub fair: bool,
    pub rules: List<(List<Pat>, Exp)>,
    pub handlers: List<(Text, Option<Pat>, Exp)>,
}

/// A box, behind its keyword.
pub fn box_decl(alloc: Global, rest: &[Token]) -> Result<(Decl, &[Token]), Stop>
    ensures reads { Gives (λ x. (x.0, kinds x.1.now)) result
        (made box_of (both (closed (pick lower_name) (Word In)) (both (sides_read MAX_DEPTH) (rules_read MAX_DEPTH))) (kinds rest.now)) }
    ensures shorter { IfOk result (λ x. length x.1.now < length rest.now) }
{
    let (name, rest) = lower(rest)?;
    let rest = after_word(rest, Keyword::In)?;
    let (sides, rest) = both_sides(alloc, rest)?;
    let (body, rest) = box_rules(alloc, rest)?;
    Ok((
        Decl::BoxD(
            name,
            sides.inputs,
            sides.outputs,
            body.fair,
            body.rules,
            body.handlers,
        ),
        rest,
    ))
}

fn both_sides(alloc: Global, rest: &[Token]) -> Result<(Sides, &[Token]), Stop>
    ensures reads { Gives (λ x. ((x.0.inputs, x.0.outputs), kinds x.1.now)) result (sides_read MAX_DEPTH (kinds rest.now)) }
    ensures shorter { IfOk result (λ x. length x.1.now < length rest.now) }
{
    let (inputs, rest) = ports(alloc, rest)?;
    let rest = after_word(rest, Keyword::Out)?;
    let (outputs, rest) = ports(alloc, rest)?;
    Ok((Sides { inputs, outputs }, rest))
}

/// Ports in parentheses.
fn ports(alloc: Global, rest: &[Token]) -> Result<(List<(Text, TyExp)>, &[Token]), Stop>
    ensures reads { Gives (λ x. (x.0, kinds x.1.now)) result (ports_read MAX_DEPTH (kinds rest.now)) }
    ensures shorter { IfOk result (λ x. length x.1.now < length rest.now) }
{
    let rest = after_sign(rest, Symbol::OpenParen)?;
    let (items, rest) = port_list(alloc, rest)?;
    let rest = after_sign(rest, Symbol::CloseParen)?;
    Ok((items, rest))
}

/// One or more ports, with commas between them.
fn port_list(alloc: Global, tokens: &[Token]) -> Result<(List<(Text, TyExp)>, &[Token]), Stop>
    ensures reads { Gives (λ x. (x.0, kinds x.1.now)) result (listed Comma (port_read MAX_DEPTH) (kinds tokens.now)) }
    ensures shorter { IfOk result (λ x. length x.1.now < length tokens.now) }
{
    let mut items = List::new(alloc);
    let (first, after) = one_port(alloc, tokens)?;
    items.push(first)?;
    let mut rest = after;
    'items: while next_is_sign(rest, Symbol::Comma) {
        let (item, after) = one_port(alloc, behind(rest))?;
        items.push(item)?;
        rest = after;
    }
    Ok((items, rest))
}

fn one_port(alloc: Global, rest: &[Token]) -> Result<((Text, TyExp), &[Token]), Stop>
    ensures reads { Gives (λ x. (x.0, kinds x.1.now)) result (port_read MAX_DEPTH (kinds rest.now)) }
    ensures shorter { IfOk result (λ x. length x.1.now < length rest.now) }
{
    let (name, rest) = lower(rest)?;
    let rest = after_sign(rest, Symbol::DoubleColon)?;
    let (carries, rest) = ty(alloc, rest, MAX_DEPTH)?;
    Ok(((name, carries), rest))
}

fn box_rules(alloc: Global, rest: &[Token]) -> Result<(Rules, &[Token]), Stop>
    ensures reads { Gives (λ x. ((x.0.fair, (x.0.rules, x.0.handlers)), kinds x.1.now)) result
        (rules_read MAX_DEPTH (kinds rest.now)) }
    ensures shorter { IfOk result (λ x. length x.1.now < length rest.now) }
{
    let (fair, rest) = order(rest)?;
    let (rules, rest) = rule_list(alloc, rest)?;
    let (handlers, rest) = handlers(alloc, rest)?;
    let rest = after_sign(rest, Symbol::Semicolon)?;
    Ok((
        Rules {
            fair,
            rules,
            handlers,
        },
        rest,
    ))
}

/// Whether the rules of a box are fair.
#[tactic(auto, using(crate::proofs::BoxSteps::order_steps))]
fn order(rest: &[Token]) -> Result<(bool, &[Token]), Stop>
    ensures reads { Gives (λ x. (x.0, kinds x.1.now)) result (order_read (kinds rest.now)) }
    ensures shorter { IfOk result (λ x. length x.1.now < length rest.now) }
{
    if next_is_word(rest, Keyword::Fair) {
        return Ok((true, behind(rest)));
    }
    let rest = after_word(rest, Keyword::Match)?;
    Ok((false, rest))
}

/// One or more rules, with `|` between each two.
fn rule_list(alloc: Global, tokens: &[Token]) -> Result<(List<(List<Pat>, Exp)>, &[Token]), Stop>
    ensures reads { Gives (λ x. (x.0, kinds x.1.now)) result (listed Bar (rule_read MAX_DEPTH) (kinds tokens.now)) }
    ensures shorter { IfOk result (λ x. length x.1.now < length tokens.now) }
{
    let mut items = List::new(alloc);
    let (first, after) = rule(alloc, tokens)?;
    items.push(first)?;
    let mut rest = after;
    'items: while next_is_sign(rest, Symbol::Bar) {
        let (item, after) = rule(alloc, behind(rest))?;
        items.push(item)?;
        rest = after;
    }
    Ok((items, rest))
}

fn rule(alloc: Global, rest: &[Token]) -> Result<((List<Pat>, Exp), &[Token]), Stop>
    ensures reads { Gives (λ x. (x.0, kinds x.1.now)) result (rule_read MAX_DEPTH (kinds rest.now)) }
    ensures shorter { IfOk result (λ x. length x.1.now < length rest.now) }
{
    let (patterns, rest) = inputs(alloc, rest)?;
    let rest = after_sign(rest, Symbol::Arrow)?;
    let (exp, rest) = expression(alloc, rest)?;
    Ok(((patterns, exp), rest))
}

/// What stands at the inputs, in parentheses.
fn inputs(alloc: Global, rest: &[Token]) -> Result<(List<Pat>, &[Token]), Stop>
    ensures reads { Gives (λ x. (x.0, kinds x.1.now)) result (in_commas (input MAX_DEPTH) (kinds rest.now)) }
    ensures shorter { IfOk result (λ x. length x.1.now < length rest.now) }
{
    let rest = after_sign(rest, Symbol::OpenParen)?;
    let (items, rest) = input_list(alloc, rest)?;
    let rest = after_sign(rest, Symbol::CloseParen)?;
    Ok((items, rest))
}

/// What stands at the inputs, with commas between them.
fn input_list(alloc: Global, tokens: &[Token]) -> Result<(List<Pat>, &[Token]), Stop>
    ensures reads { Gives (λ x. (x.0, kinds x.1.now)) result (listed Comma (input MAX_DEPTH) (kinds tokens.now)) }
    ensures shorter { IfOk result (λ x. length x.1.now < length tokens.now) }
{
    let mut items = List::new(alloc);
    let (first, after) = input_pattern(alloc, tokens, MAX_DEPTH)?;
    items.push(first)?;
    let mut rest = after;
    'items: while next_is_sign(rest, Symbol::Comma) {
        let (item, after) = input_pattern(alloc, behind(rest), MAX_DEPTH)?;
        items.push(item)?;
        rest = after;
    }
    Ok((items, rest))
}

/// The handlers of a box, if it has any.
#[tactic(auto, using(crate::proofs::BoxSteps::handlers_steps))]
fn handlers(
    alloc: Global,
    rest: &[Token],
) -> Result<(List<(Text, Option<Pat>, Exp)>, &[Token]), Stop>
    ensures reads { Gives (λ x. (x.0, kinds x.1.now)) result (handlers_read MAX_DEPTH (kinds rest.now)) }
    ensures shorter { IfOk result (λ x. length x.1.now ≤ length rest.now) }
{
    if next_is_word(rest, Keyword::Handle) {
        return handler_list(alloc, behind(rest));
    }
    Ok((List::new(alloc), rest))
}

/// One or more handlers, with `|` between each two.
fn handler_list(
    alloc: Global,
    tokens: &[Token],
) -> Result<(List<(Text, Option<Pat>, Exp)>, &[Token]), Stop>
    ensures reads { Gives (λ x. (x.0, kinds x.1.now)) result (listed Bar (handler_read MAX_DEPTH) (kinds tokens.now)) }
    ensures shorter { IfOk result (λ x. length x.1.now < length tokens.now) }
{
    let mut items = List::new(alloc);
    let (first, after) = handler(alloc, tokens)?;
    items.push(first)?;
    let mut rest = after;
    'items: while next_is_sign(rest, Symbol::Bar) {
        let (item, after) = handler(alloc, behind(rest))?;
        items.push(item)?;
        rest = after;
    }
    Ok((items, rest))
}

fn handler(alloc: Global, rest: &[Token]) -> Result<((Text, Option<Pat>, Exp), &[Token]), Stop>
    ensures reads { Gives (λ x. (x.0, kinds x.1.now)) result (handler_read MAX_DEPTH (kinds rest.now)) }
    ensures shorter { IfOk result (λ x. length x.1.now < length rest.now) }
{
    let (name, rest) = upper(rest)?;
    let (carried, rest) = carried(rest)?;
    let rest = after_sign(rest, Symbol::Arrow)?;
    let (exp, rest) = expression(alloc, rest)?;
    Ok(((name, carried, exp), rest))
}

/// What a handler takes of an exception, if it takes anything.
#[tactic(auto, using(crate::proofs::BoxSteps::carried_steps))]
fn carried(rest: &[Token]) -> Result<(Option<Pat>, &[Token]), Stop>
    ensures reads { Gives (λ x. (x.0, kinds x.1.now)) result (maybe is_carried (pick carried_pat) (kinds rest.now)) }
    ensures shorter { IfOk result (λ x. length x.1.now ≤ length rest.now) }
{
    match rest {
        [token, after @ ..] => match &token.kind {
            Kind::Lower(name) => Ok((Some(Pat::Name(name.copy()?)), after)),
            Kind::Sign(Symbol::Underscore) => Ok((Some(Pat::Any), after)),
            _ => Ok((None, rest)),
        },
        [] => Ok((None, rest)),
    }
}
