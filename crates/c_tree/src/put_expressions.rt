//! The text of expressions.
ghost use Rattle.std.specs.Prelude.{◌≡◌, ◌++◌, OnOk, map, codes, nat_le};
ghost use Rattle.std.specs.List.{flat_map};
ghost use Rattle.c_tree.specs.declared.rank.TheConstants.{ANY, COMPARISON};
ghost use Rattle.c_tree.specs.Words.{separated, signed_text};
ghost use Rattle.c_tree.specs.Expressions.{all_text, any_text, binary_text, call_text, cast_text, choice_text, element_text, expression_text};
ghost use Rattle.c_tree.specs.Expressions.{member_text, op_rank, op_text, operand_text, pointed_text, prefix_text, signed_rank, spelled};

use crate::put_words::{put_negative, put_positive, put_truth, put_type, put_unsigned};
use crate::rank::{ANY, CAST, COMPARISON, PREFIX, UNIT};
use crate::tree::{CExp, COp, CType, Width};
use std::alloc::AllocError;

/// Adds the text of an expression.
#[cycle(put_expressions)]
#[tactic(auto, using(crate::proofs::ExpressionForms::text_forms))]
pub fn put_expression(text: &mut Vec<u8>, exp: &CExp) -> Result<(), AllocError>
    ensures { OnOk result (text.new.items ≡ text.old.items ++ expression_text exp.now) }
{
    match exp {
        CExp::Truth(holds) => put_truth(text, *holds),
        CExp::Unsigned(width, amount) => put_unsigned(text, *width, *amount),
        CExp::Signed(width, negative, amount) => put_signed(text, *width, *negative, *amount),
        CExp::Name(name) => text.extend_from_slice(name.bytes()),
        CExp::Pointed(name) => put_pointed(text, name.bytes()),
        CExp::Member(object, name) => put_member(text, object.get(), name.bytes()),
        CExp::Element(array, index) => put_element(text, array.get(), index.get()),
        CExp::Call(name, arguments) => put_call(text, name.bytes(), arguments.as_slice()),
        CExp::Cast(ty, part) => put_cast(text, ty, part.get()),
        CExp::Negate(part) => put_prefix(text, b"-", part.get()),
        CExp::Not(part) => put_prefix(text, b"!", part.get()),
        CExp::Address(part) => put_prefix(text, b"&", part.get()),
        CExp::Binary(operator, left, right) => put_binary(text, *operator, left.get(), right.get()),
        CExp::All(parts) => put_all(text, parts.as_slice()),
        CExp::Any(parts) => put_any(text, parts.as_slice()),
        CExp::Choice(test, first, second) => put_choice(
            text,
            test.get(),
            first.get(),
            second.get(),
        ),
    }
}

#[cycle(put_expressions)]
#[tactic(auto, using(crate::proofs::Steps::text_steps))]
fn put_member(text: &mut Vec<u8>, object: &CExp, name: &[u8]) -> Result<(), AllocError>
    ensures { OnOk result (text.new.items ≡ text.old.items ++ member_text (spelled object.now) name.now) }
{
    put_operand(text, UNIT, object)?;
    text.extend_from_slice(b".")?;
    text.extend_from_slice(name)
}

#[cycle(put_expressions)]
#[tactic(auto, using(crate::proofs::Steps::text_steps))]
fn put_element(text: &mut Vec<u8>, array: &CExp, index: &CExp) -> Result<(), AllocError>
    ensures { OnOk result (text.new.items ≡ text.old.items ++ element_text (spelled array.now) (spelled index.now)) }
{
    put_operand(text, UNIT, array)?;
    text.extend_from_slice(b"[")?;
    put_expression(text, index)?;
    text.extend_from_slice(b"]")
}

/// Adds the text of a call.
#[cycle(put_expressions)]
#[tactic(auto, using(crate::proofs::Steps::text_steps))]
pub fn put_call(text: &mut Vec<u8>, name: &[u8], arguments: &[CExp]) -> Result<(), AllocError>
    ensures { OnOk result (text.new.items ≡ text.old.items ++ call_text name.now (map spelled arguments.now)) }
{
    text.extend_from_slice(name)?;
    text.extend_from_slice(b"(")?;
    put_separated(text, ANY, b", ", arguments)?;
    text.extend_from_slice(b")")
}

#[cycle(put_expressions)]
#[tactic(auto, using(crate::proofs::Steps::text_steps))]
fn put_cast(text: &mut Vec<u8>, ty: &CType, part: &CExp) -> Result<(), AllocError>
    ensures { OnOk result (text.new.items ≡ text.old.items ++ cast_text ty.now (spelled part.now)) }
{
    text.extend_from_slice(b"(")?;
    put_type(text, ty)?;
    text.extend_from_slice(b")")?;
    put_operand(text, CAST, part)
}

#[cycle(put_expressions)]
#[tactic(auto, using(crate::proofs::Steps::text_steps))]
fn put_prefix(text: &mut Vec<u8>, sign: &[u8], part: &CExp) -> Result<(), AllocError>
    ensures { OnOk result (text.new.items ≡ text.old.items ++ prefix_text sign.now (spelled part.now)) }
{
    text.extend_from_slice(sign)?;
    put_operand(text, CAST, part)
}

#[cycle(put_expressions)]
#[tactic(auto, using(crate::proofs::Steps::text_steps))]
fn put_binary(
    text: &mut Vec<u8>,
    operator: COp,
    left: &CExp,
    right: &CExp,
) -> Result<(), AllocError>
    ensures { OnOk result (text.new.items ≡ text.old.items ++ binary_text operator (spelled left.now) (spelled right.now)) }
{
    put_operand(text, PREFIX, left)?;
    text.extend_from_slice(sign_of(operator))?;
    put_operand(text, PREFIX, right)
}

#[cycle(put_expressions)]
#[tactic(auto, using(crate::proofs::ExpressionForms::chain_steps))]
fn put_all(text: &mut Vec<u8>, parts: &[CExp]) -> Result<(), AllocError>
    ensures { OnOk result (text.new.items ≡ text.old.items ++ all_text (map spelled parts.now)) }
{
    if parts.is_empty() {
        text.extend_from_slice(b"true")
    } else {
        put_separated(text, COMPARISON, b" && ", parts)
    }
}

#[cycle(put_expressions)]
#[tactic(auto, using(crate::proofs::ExpressionForms::chain_steps))]
fn put_any(text: &mut Vec<u8>, parts: &[CExp]) -> Result<(), AllocError>
    ensures { OnOk result (text.new.items ≡ text.old.items ++ any_text (map spelled parts.now)) }
{
    if parts.is_empty() {
        text.extend_from_slice(b"false")
    } else {
        put_separated(text, COMPARISON, b" || ", parts)
    }
}

#[cycle(put_expressions)]
#[tactic(auto, using(crate::proofs::Steps::text_steps))]
fn put_choice(
    text: &mut Vec<u8>,
    test: &CExp,
    first: &CExp,
    second: &CExp,
) -> Result<(), AllocError>
    ensures { OnOk result (text.new.items ≡ text.old.items ++ choice_text (spelled test.now) (spelled first.now) (spelled second.now)) }
{
    put_operand(text, COMPARISON, test)?;
    text.extend_from_slice(b" ? ")?;
    put_operand(text, COMPARISON, first)?;
    text.extend_from_slice(b" : ")?;
    put_operand(text, COMPARISON, second)
}

/// Adds operands with a text between each two.
#[cycle(put_expressions)]
#[tactic(auto, using(crate::proofs::Steps::text_steps))]
fn put_separated(
    text: &mut Vec<u8>,
    asked: u8,
    between: &[u8],
    parts: &[CExp],
) -> Result<(), AllocError>
    ensures { OnOk result (text.new.items ≡ text.old.items ++ separated between.now (map (operand_text asked) (map spelled parts.now))) }
{
    match parts.split_first() {
        None => Ok(()),
        Some((first, others)) => {
            put_operand(text, asked, first)?;
            put_others(text, asked, between, others)
        }
    }
}

#[cycle(put_expressions)]
#[tactic(auto, using(crate::proofs::Steps::text_steps))]
fn put_others(
    text: &mut Vec<u8>,
    asked: u8,
    between: &[u8],
    others: &[CExp],
) -> Result<(), AllocError>
    ensures { OnOk result (text.new.items ≡ text.old.items
        ++ flat_map (λ part. between.now ++ part) (map (operand_text asked) (map spelled others.now))) }
{
    for part in others {
        text.extend_from_slice(between)?;
        put_operand(text, asked, part)?;
    }
    Ok(())
}

/// Adds the text of an operand where at least this rank is asked for.
#[cycle(put_expressions)]
#[tactic(auto, using(crate::proofs::Steps::text_steps))]
pub fn put_operand(text: &mut Vec<u8>, asked: u8, exp: &CExp) -> Result<(), AllocError>
    ensures { OnOk result (text.new.items ≡ text.old.items ++ operand_text asked (spelled exp.now)) }
{
    if is_bare(asked, exp) {
        put_expression(text, exp)
    } else {
        put_in_parens(text, exp)
    }
}

#[cycle(put_expressions)]
#[tactic(auto, using(crate::proofs::Steps::text_steps))]
fn put_in_parens(text: &mut Vec<u8>, exp: &CExp) -> Result<(), AllocError>
    ensures { OnOk result (text.new.items ≡ text.old.items ++ (codes "(" ++ (expression_text exp.now ++ codes ")"))) }
{
    text.extend_from_slice(b"(")?;
    put_expression(text, exp)?;
    text.extend_from_slice(b")")
}

#[tactic(auto, using(crate::proofs::Steps::text_steps))]
fn put_pointed(text: &mut Vec<u8>, name: &[u8]) -> Result<(), AllocError>
    ensures { OnOk result (text.new.items ≡ text.old.items ++ pointed_text name.now) }
{
    text.extend_from_slice(b"(*")?;
    text.extend_from_slice(name)?;
    text.extend_from_slice(b")")
}

fn put_signed(
    text: &mut Vec<u8>,
    width: Width,
    negative: bool,
    amount: u64,
) -> Result<(), AllocError>
    ensures { OnOk result (text.new.items ≡ text.old.items ++ signed_text width negative amount) }
{
    if negative {
        put_negative(text, width, amount)
    } else {
        put_positive(text, width, amount)
    }
}

fn is_bare(asked: u8, exp: &CExp) -> bool
    ensures { result ≡ nat_le asked (spelled exp.now).rank }
{
    asked <= rank_of(exp)
}

#[tactic(auto, using(crate::proofs::ExpressionForms::rank_forms))]
fn rank_of(exp: &CExp) -> u8
    ensures { result ≡ (spelled exp.now).rank }
{
    match exp {
        CExp::Truth(_) => UNIT,
        CExp::Unsigned(_, _) => UNIT,
        CExp::Signed(_, negative, _) => signed_rank(*negative),
        CExp::Name(_) => UNIT,
        CExp::Pointed(_) => UNIT,
        CExp::Member(_, _) => UNIT,
        CExp::Element(_, _) => UNIT,
        CExp::Call(_, _) => UNIT,
        CExp::Cast(_, _) => CAST,
        CExp::Negate(_) => PREFIX,
        CExp::Not(_) => PREFIX,
        CExp::Address(_) => PREFIX,
        CExp::Binary(operator, _, _) => rank_beside(*operator),
        CExp::All(_) => ANY,
        CExp::Any(_) => ANY,
        CExp::Choice(_, _, _) => ANY,
    }
}

fn signed_rank(negative: bool) -> u8
    ensures { result ≡ signed_rank negative }
{
    if negative { PREFIX } else { UNIT }
}

fn rank_beside(operator: COp) -> u8
    ensures { result ≡ op_rank operator }
{
    match operator {
        COp::Multiply => ANY,
        COp::Divide => ANY,
        COp::Remainder => ANY,
        COp::Add => ANY,
        COp::Subtract => ANY,
        COp::ShiftLeft => ANY,
        COp::ShiftRight => ANY,
        COp::BitAnd => ANY,
        COp::BitOr => ANY,
        COp::Equal => COMPARISON,
        COp::NotEqual => COMPARISON,
        COp::Less => COMPARISON,
        COp::LessEqual => COMPARISON,
        COp::Greater => COMPARISON,
        COp::GreaterEqual => COMPARISON,
    }
}

fn sign_of(operator: COp) -> &'static [u8]
    ensures { result.now ≡ op_text operator }
{
    match operator {
        COp::Multiply => b" * ",
        COp::Divide => b" / ",
        COp::Remainder => b" % ",
        COp::Add => b" + ",
        COp::Subtract => b" - ",
        COp::ShiftLeft => b" << ",
        COp::ShiftRight => b" >> ",
        COp::BitAnd => b" & ",
        COp::BitOr => b" | ",
        COp::Equal => b" == ",
        COp::NotEqual => b" != ",
        COp::Less => b" < ",
        COp::LessEqual => b" <= ",
        COp::Greater => b" > ",
        COp::GreaterEqual => b" >= ",
    }
}
