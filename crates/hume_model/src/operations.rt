//! What operations on values give.
ghost use Rattle.std.specs.Prelude.{◌≡◌, IfOk};
ghost use Rattle.hume_base.specs.declared.types.Ty.{out-Ty};
ghost use Rattle.hume_base.specs.declared.types.Value.{out-Value};
ghost use Rattle.hume_base.specs.Flat.{parts_in};
ghost use Rattle.hume_model.specs.Operations.{binary, unary, prim, gives_truth, item_of, updated};

use crate::arithmetic::{
    difference, number_of_word, product, quotient, remainder, sum, wrapped_word,
};
use crate::core_tree::Op;
use crate::exceptions::{DIV_ZERO, RANGE};
use crate::outcome::Outcome;
use hume_base::{Ty, Value, copy_value, copy_values};
use std::alloc::{AllocError, Global};

/// The result of an operation at a type.
pub fn operate(op: Op, ty: &Ty, operands: &[Value]) -> Outcome
    ensures { result ≡ prim op ty.now operands.now }
{
    match operands {
        [] => MISAPPLIED,
        [operand] => operate_on_one(op, ty, operand.word()),
        [left, right] => operate_on_two(op, ty, left.word(), right.word()),
        [_, _, _, ..] => MISAPPLIED,
    }
}

// What an operation on another number of operands than its own gives.
const MISAPPLIED: Outcome = Outcome::Gives(Value::Word(0));

fn operate_on_one(op: Op, ty: &Ty, word: u64) -> Outcome
    ensures { result ≡ unary op (out-Ty ty.now) word }
{
    match op {
        Op::Neg => Outcome::Gives(Value::Word(wrapped_word(ty, -number_of_word(ty, word)))),
        Op::Not => answer(word == 0),
        Op::Convert => Outcome::Gives(Value::Word(wrapped_word(ty, i128::from(word)))),
        Op::Add | Op::Sub | Op::Mul | Op::Div | Op::Mod => MISAPPLIED,
        Op::Eq | Op::Ne | Op::Lt | Op::Le | Op::Gt | Op::Ge => MISAPPLIED,
    }
}

fn operate_on_two(op: Op, ty: &Ty, left: u64, right: u64) -> Outcome
    ensures { result ≡ binary op (out-Ty ty.now) left right }
{
    match op {
        Op::Add => Outcome::Gives(Value::Word(sum(ty, left, right))),
        Op::Sub => Outcome::Gives(Value::Word(difference(ty, left, right))),
        Op::Mul => Outcome::Gives(Value::Word(product(ty, left, right))),
        Op::Div if right == 0 => Outcome::Raises(DIV_ZERO, None),
        Op::Mod if right == 0 => Outcome::Raises(DIV_ZERO, None),
        Op::Div => Outcome::Gives(Value::Word(quotient(ty, left, right))),
        Op::Mod => Outcome::Gives(Value::Word(remainder(ty, left, right))),
        Op::Eq => answer(left == right),
        Op::Ne => answer(left != right),
        Op::Lt => answer(number_of_word(ty, left) < number_of_word(ty, right)),
        Op::Le => answer(number_of_word(ty, left) <= number_of_word(ty, right)),
        Op::Gt => answer(number_of_word(ty, left) > number_of_word(ty, right)),
        Op::Ge => answer(number_of_word(ty, left) >= number_of_word(ty, right)),
        Op::Neg | Op::Not | Op::Convert => MISAPPLIED,
    }
}

fn answer(holds: bool) -> Outcome
    ensures { result ≡ gives_truth holds }
{
    Outcome::Gives(Value::Word(u64::from(holds)))
}

/// The element at a place of a vector of so many.
pub fn item(alloc: Global, count: u32, vector: &Value, place: &Value) -> Result<Outcome, AllocError>
    ensures { IfOk result (λ outcome. outcome ≡ item_of count vector.now place.now) }
{
    let place = place.word();
    if place == 0 || place > u64::from(count) {
        return Ok(Outcome::Raises(RANGE, None));
    }
    match parts(vector).get((place - 1) as usize) {
        None => Ok(Outcome::Raises(RANGE, None)),
        Some(item) => Ok(Outcome::Gives(copy_value(alloc, item)?)),
    }
}

/// The vector of so many with another element at a place.
pub fn changed(
    alloc: Global,
    count: u32,
    vector: &Value,
    place: &Value,
    item: Value,
) -> Result<Outcome, AllocError>
    ensures { IfOk result (λ outcome. outcome ≡ updated count vector.now place.now item) }
{
    let place = place.word();
    if place == 0 || place > u64::from(count) {
        return Ok(Outcome::Raises(RANGE, None));
    }
    let mut items = copy_values(alloc, parts(vector))?;
    let at = (place - 1) as usize;
    if at < items.len() {
        items.set(at, item);
    }
    Ok(Outcome::Gives(Value::Vector(items)))
}

fn parts(value: &Value) -> &[Value]
    ensures { result.now ≡ parts_in (out-Value value.now) }
{
    match value {
        Value::Word(_) => &[],
        Value::Con(_, parts) => parts.as_slice(),
        Value::Tuple(parts) => parts.as_slice(),
        Value::Vector(parts) => parts.as_slice(),
    }
}
