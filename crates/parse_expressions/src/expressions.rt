ghost use Rattle.std.specs.Prelude.{◌≡◌, ◌+◌, ◌-◌, ◌<◌, ◌≤◌, ◌∷◌, length, IfOk, Some};
ghost use Rattle.hume_base.specs.declared.keyword.Keyword.TheVariants.{Of};
ghost use Rattle.hume_base.specs.declared.token.Kind.TheVariants.{Word};
ghost use Rattle.hume_ast.specs.declared.tree.Exp.{roll-Exp, out-Exp};
ghost use Rattle.hume_ast.specs.Fits.{op_level as level_of};
ghost use Rattle.hume_ast.specs.Places.{kinds};
ghost use Rattle.parse_expressions.specs.inner.Climbing.{operand_level};
ghost use Rattle.parse_errors.specs.inner.Gives.{Gives};
ghost use Rattle.parse_expressions.specs.inner.Parts.{let_parts, if_parts, case_parts, case_alternatives, raise_parts, update_parts, other_parts, minus_parts, parens_parts, vect_parts};
ghost use Rattle.parse_readers.specs.inner.Readers.{made, closed, many};
ghost use Rattle.parse_readers.specs.inner.Patterns.{patterns};
ghost use Rattle.parse_readers.specs.inner.Expressions.{exps, at_level, alternative as alternative_read, starts_atom as atom_starts, with_operator};

use crate::leaves::{
    atom_stop, closed_type, head, name_and_equals, negative_number, part_stop, pattern_and_arrow,
    plain_atom,
};
use crate::operators::{
    are_parts_too_deep, first_limit, is_form_too_deep, limit_behind, next_operator, right_level,
    starts_atom,
};
use crate::tokens::{
    after_sign, after_word, behind, next_is_name, next_is_number, next_is_sign, next_is_word, upper,
};
use crate::trees::{
    Alternatives, Tree, Trees, bare_raise_tree, binary_tree, call_tree, case_tree, cast_tree,
    if_tree, let_tree, neg_tree, not_tree, parens_tree, raise_tree, star_tree, update_tree,
    vect_tree,
};
use hume_ast::{BinOp, Exp, Pat};
use hume_base::limits::MAX_DEPTH;
use hume_base::{Keyword, Symbol, Token};
use parse_errors::Stop;
use std::alloc::Global;

/// An expression from the front of the tokens.
pub fn expression(alloc: Global, rest: &[Token]) -> Result<(Exp, &[Token]), Stop>
    ensures reads { Gives (λ x. (x.0, kinds x.1.now)) result ((exps MAX_DEPTH).whole (kinds rest.now)) }
    ensures shorter { IfOk result (λ x. length x.1.now ≤ length rest.now) }
{
    let (found, rest) = exp(alloc, rest, MAX_DEPTH)?;
    Ok((found.exp.into_inner(), rest))
}

/// An expression from the front of the tokens, at most so deep.
#[cycle(expressions)]
#[tactic(auto, using(crate::proofs::ExpSteps::whole_steps))]
fn exp(alloc: Global, rest: &[Token], room: u32) -> Result<(Tree, &[Token]), Stop>
    requires some { 0 < room }
    ensures { Gives (λ x. (x.0.exp, kinds x.1.now)) result ((exps room).whole (kinds rest.now)) }
{
    if is_form_too_deep(rest, room) {
        return Err(Stop::Deep(rest.len()));
    }
    if next_is_word(rest, Keyword::Let) {
        return let_exp(alloc, behind(rest), room - 1);
    }
    if next_is_word(rest, Keyword::If) {
        return if_exp(alloc, behind(rest), room - 1);
    }
    if next_is_word(rest, Keyword::Case) {
        return case_exp(alloc, behind(rest), room - 1);
    }
    if next_is_word(rest, Keyword::Raise) {
        return raise_exp(alloc, behind(rest), room - 1);
    }
    operation(alloc, rest, 2, room)
}

/// An expression with a keyword behind it.
#[cycle(expressions)]
fn exp_before(
    alloc: Global,
    rest: &[Token],
    keyword: Keyword,
    room: u32,
) -> Result<(Tree, &[Token]), Stop>
    requires some { 0 < room }
    ensures { Gives (λ x. (x.0.exp, kinds x.1.now)) result (closed (exps room).whole (Word keyword) (kinds rest.now)) }
{
    let (found, rest) = exp(alloc, rest, room)?;
    let rest = after_word(rest, keyword)?;
    Ok((found, rest))
}

#[cycle(expressions)]
#[tactic(auto, using(crate::proofs::ExpSteps::let_steps))]
fn let_exp(alloc: Global, rest: &[Token], room: u32) -> Result<(Tree, &[Token]), Stop>
    requires some { 0 < room }
    ensures { Gives (λ x. (x.0.exp, kinds x.1.now)) result (let_parts room (kinds rest.now)) }
{
    let (name, rest) = name_and_equals(rest)?;
    let (value, rest) = exp_before(alloc, rest, Keyword::In, room)?;
    let (body, rest) = exp(alloc, rest, room)?;
    Ok((let_tree(alloc, name, value, body)?, rest))
}

#[cycle(expressions)]
#[tactic(auto, using(crate::proofs::ExpSteps::if_steps))]
fn if_exp(alloc: Global, rest: &[Token], room: u32) -> Result<(Tree, &[Token]), Stop>
    requires some { 0 < room }
    ensures { Gives (λ x. (x.0.exp, kinds x.1.now)) result (if_parts room (kinds rest.now)) }
{
    let (test, rest) = exp_before(alloc, rest, Keyword::Then, room)?;
    let (first, rest) = exp_before(alloc, rest, Keyword::Else, room)?;
    let (second, rest) = exp(alloc, rest, room)?;
    Ok((if_tree(alloc, test, first, second)?, rest))
}

#[cycle(expressions)]
#[tactic(auto, using(crate::proofs::ExpSteps::case_steps))]
fn case_exp(alloc: Global, rest: &[Token], room: u32) -> Result<(Tree, &[Token]), Stop>
    requires some { 0 < room }
    ensures { Gives (λ x. (x.0.exp, kinds x.1.now)) result (case_parts room (kinds rest.now)) }
{
    let (subject, rest) = exp_before(alloc, rest, Keyword::Of, room)?;
    let (found, rest) = alternatives(alloc, rest, room)?;
    Ok((case_tree(alloc, subject, found)?, rest))
}

/// The alternatives of a `case`, and its end.
#[cycle(expressions)]
fn alternatives(
    alloc: Global,
    tokens: &[Token],
    room: u32,
) -> Result<(Alternatives, &[Token]), Stop>
    requires some { 0 < room }
    ensures { Gives (λ x. (x.0.items, kinds x.1.now)) result (case_alternatives room (kinds tokens.now)) }
{
    let ((pattern, body), after) = alternative(alloc, tokens, room)?;
    let mut found = Alternatives::new(alloc).with(pattern, body)?;
    let mut rest = after;
    'items: while next_is_sign(rest, Symbol::Bar) {
        let ((pattern, body), after) = alternative(alloc, behind(rest), room)?;
        found = found.with(pattern, body)?;
        rest = after;
    }
    let rest = after_word(rest, Keyword::End)?;
    Ok((found, rest))
}

#[cycle(expressions)]
fn alternative(alloc: Global, rest: &[Token], room: u32) -> Result<((Pat, Tree), &[Token]), Stop>
    requires some { 0 < room }
    ensures { Gives (λ x. ((x.0.0, x.0.1.exp), kinds x.1.now)) result
        (alternative_read (patterns MAX_DEPTH).whole (exps room).whole (kinds rest.now)) }
{
    let (pattern, rest) = pattern_and_arrow(alloc, rest)?;
    let (body, rest) = exp(alloc, rest, room)?;
    Ok(((pattern, body), rest))
}

#[cycle(expressions)]
#[tactic(auto, using(crate::proofs::ExpSteps::raise_steps))]
fn raise_exp(alloc: Global, rest: &[Token], room: u32) -> Result<(Tree, &[Token]), Stop>
    ensures { Gives (λ x. (x.0.exp, kinds x.1.now)) result (raise_parts room (kinds rest.now)) }
{
    let (name, rest) = upper(rest)?;
    if !starts_atom(rest) {
        return Ok((bare_raise_tree(alloc, name)?, rest));
    }
    let (value, rest) = atom(alloc, rest, room)?;
    Ok((raise_tree(alloc, name, value)?, rest))
}

/// Parts of a level with the operators of this level and of tighter ones between them, at most so deep.
#[cycle(expressions)]
fn operation(
    alloc: Global,
    tokens: &[Token],
    level: u32,
    room: u32,
) -> Result<(Tree, &[Token]), Stop>
    requires some { 0 < room }
    requires low { 2 ≤ level }
    requires high { level ≤ 9 }
    ensures { Gives (λ x. (x.0.exp, kinds x.1.now)) result (at_level level (exps room) (kinds tokens.now)) }
{
    let (first, after) = operand(alloc, tokens, level, room)?;
    let mut left = first;
    let mut rest = after;
    let mut limit = first_limit(level);
    'operators: while let Some(operator) = next_operator(rest, level, limit) {
        let (whole, after) = with_right(alloc, operator, left, rest, room - 1)?;
        left = whole;
        rest = after;
        limit = limit_behind(operator);
    }
    Ok((left, rest))
}

/// What stands between the operators of the level and of tighter ones.
#[cycle(expressions)]
#[tactic(auto, using(crate::proofs::ExpSteps::operand_steps))]
fn operand(alloc: Global, rest: &[Token], level: u32, room: u32) -> Result<(Tree, &[Token]), Stop>
    requires some { 0 < room }
    ensures { Gives (λ x. (x.0.exp, kinds x.1.now)) result (at_level (operand_level level) (exps room) (kinds rest.now)) }
{
    if level <= 7 {
        return unary(alloc, rest, room);
    }
    app(alloc, rest, room)
}

/// The left part with the operator that is next and its right part.
#[cycle(expressions)]
#[tactic(auto, using(crate::proofs::ExpSteps::right_steps))]
fn with_right(
    alloc: Global,
    operator: BinOp,
    left: Tree,
    rest: &[Token],
    room: u32,
) -> Result<(Tree, &[Token]), Stop>
    requires { room < 4294967295 }
    ensures { Gives (λ x. (x.0.exp, kinds x.1.now)) result
        (made roll-Exp (with_operator (Some operator) room (at_level (level_of operator + 1) (exps room)) (out-Exp left.exp)) (kinds rest.now)) }
{
    if !left.leaves_room(room) {
        return Err(Stop::Deep(rest.len()));
    }
    let (right, rest) = operation(alloc, behind(rest), right_level(operator), room)?;
    Ok((binary_tree(alloc, operator, left, right)?, rest))
}

#[cycle(expressions)]
#[tactic(auto, using(crate::proofs::ExpSteps::unary_steps))]
fn unary(alloc: Global, rest: &[Token], room: u32) -> Result<(Tree, &[Token]), Stop>
    ensures { Gives (λ x. (x.0.exp, kinds x.1.now)) result ((exps room).unary (kinds rest.now)) }
{
    if room == 0 {
        return Err(part_stop(rest));
    }
    if next_is_sign(rest, Symbol::Minus) {
        return minus(alloc, behind(rest), room - 1);
    }
    if next_is_word(rest, Keyword::Not) {
        if room == 1 {
            return Err(Stop::Deep(rest.len()));
        }
        let (part, rest) = unary(alloc, behind(rest), room - 1)?;
        return Ok((not_tree(alloc, part)?, rest));
    }
    operation(alloc, rest, 8, room)
}

/// Behind a minus, a number or a part that is negated.
#[cycle(expressions)]
#[tactic(auto, using(crate::proofs::ExpSteps::minus_steps))]
fn minus(alloc: Global, rest: &[Token], room: u32) -> Result<(Tree, &[Token]), Stop>
    ensures { Gives (λ x. (x.0.exp, kinds x.1.now)) result (minus_parts room (kinds rest.now)) }
{
    if next_is_number(rest) {
        return negative_number(alloc, rest);
    }
    let (part, rest) = unary(alloc, rest, room)?;
    Ok((neg_tree(alloc, part)?, rest))
}

#[cycle(expressions)]
#[tactic(auto, using(crate::proofs::ExpSteps::app_steps))]
fn app(alloc: Global, rest: &[Token], room: u32) -> Result<(Tree, &[Token]), Stop>
    requires some { 0 < room }
    ensures { Gives (λ x. (x.0.exp, kinds x.1.now)) result ((exps room).app (kinds rest.now)) }
{
    if next_is_name(rest) {
        let (head, rest) = head(rest)?;
        let (items, rest) = arguments(alloc, rest, room - 1)?;
        return Ok((call_tree(alloc, head, items)?, rest));
    }
    if next_is_word(rest, Keyword::Update) {
        if room == 1 {
            return Err(Stop::Deep(rest.len()));
        }
        return update(alloc, behind(rest), room - 1);
    }
    if next_is_sign(rest, Symbol::Star) {
        return Ok((star_tree(alloc)?, behind(rest)));
    }
    atom(alloc, rest, room)
}

/// The arguments of a name.
#[cycle(expressions)]
fn arguments(alloc: Global, tokens: &[Token], room: u32) -> Result<(Trees, &[Token]), Stop>
    ensures { Gives (λ x. (x.0.items, kinds x.1.now)) result (many atom_starts (exps room).atom (kinds tokens.now)) }
{
    let mut items = Trees::new(alloc);
    let mut rest = tokens;
    'items: while starts_atom(rest) {
        let (item, after) = atom(alloc, rest, room)?;
        items = items.with(item)?;
        rest = after;
    }
    Ok((items, rest))
}

#[cycle(expressions)]
#[tactic(auto, using(crate::proofs::ExpSteps::update_steps))]
fn update(alloc: Global, rest: &[Token], room: u32) -> Result<(Tree, &[Token]), Stop>
    ensures { Gives (λ x. (x.0.exp, kinds x.1.now)) result (update_parts room (kinds rest.now)) }
{
    let (vector, rest) = atom(alloc, rest, room)?;
    let (at, rest) = atom(alloc, rest, room)?;
    let (item, rest) = atom(alloc, rest, room)?;
    Ok((update_tree(alloc, vector, at, item)?, rest))
}

#[cycle(expressions)]
#[tactic(auto, using(crate::proofs::ExpSteps::atom_steps))]
fn atom(alloc: Global, rest: &[Token], room: u32) -> Result<(Tree, &[Token]), Stop>
    ensures { Gives (λ x. (x.0.exp, kinds x.1.now)) result ((exps room).atom (kinds rest.now)) }
{
    if room == 0 {
        return Err(atom_stop(rest));
    }
    if are_parts_too_deep(rest, room) {
        return Err(Stop::Deep(rest.len()));
    }
    if next_is_sign(rest, Symbol::OpenParen) {
        return parens(alloc, behind(rest), room - 1);
    }
    if next_is_sign(rest, Symbol::OpenAngles) {
        return vect(alloc, behind(rest), room - 1);
    }
    plain_atom(alloc, rest)
}

#[cycle(expressions)]
#[tactic(auto, using(crate::proofs::ExpSteps::parens_steps))]
fn parens(alloc: Global, rest: &[Token], room: u32) -> Result<(Tree, &[Token]), Stop>
    requires some { 0 < room }
    ensures { Gives (λ x. (x.0.exp, kinds x.1.now)) result (parens_parts room (kinds rest.now)) }
{
    let (first, rest) = exp(alloc, rest, room)?;
    if next_is_word(rest, Keyword::As) {
        let (type_exp, rest) = closed_type(alloc, behind(rest))?;
        return Ok((cast_tree(alloc, first, type_exp)?, rest));
    }
    let (parts, rest) = others(alloc, first, rest, Symbol::CloseParen, room)?;
    Ok((parens_tree(alloc, parts)?, rest))
}

#[cycle(expressions)]
#[tactic(auto, using(crate::proofs::ExpSteps::vect_steps))]
fn vect(alloc: Global, rest: &[Token], room: u32) -> Result<(Tree, &[Token]), Stop>
    requires some { 0 < room }
    ensures { Gives (λ x. (x.0.exp, kinds x.1.now)) result (vect_parts room (kinds rest.now)) }
{
    let (first, rest) = exp(alloc, rest, room)?;
    let (items, rest) = others(alloc, first, rest, Symbol::CloseAngles, room)?;
    Ok((vect_tree(alloc, items)?, rest))
}

/// The first part and the others, up to the symbol that closes them.
#[cycle(expressions)]
fn others(
    alloc: Global,
    first: Tree,
    tokens: &[Token],
    close: Symbol,
    room: u32,
) -> Result<(Trees, &[Token]), Stop>
    requires some { 0 < room }
    ensures { Gives (λ x. (x.0.items, kinds x.1.now)) result (made (λ parts. first.exp ∷ parts) (other_parts close room) (kinds tokens.now)) }
{
    let mut items = Trees::new(alloc).with(first)?;
    let mut rest = tokens;
    'items: while next_is_sign(rest, Symbol::Comma) {
        let (item, after) = exp(alloc, behind(rest), room)?;
        items = items.with(item)?;
        rest = after;
    }
    let rest = after_sign(rest, close)?;
    Ok((items, rest))
}
