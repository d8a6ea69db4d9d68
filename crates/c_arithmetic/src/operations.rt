//! Operations on operands.
ghost use Rattle.std.specs.Prelude.{◌≡◌, ◌≤◌, true};
ghost use Rattle.c_tree.specs.declared.tree.CExp.{out-CExp};
ghost use Rattle.c_forms.specs.Gives.{Gives};
ghost use Rattle.c_arithmetic.specs.Widths.{greatest};
ghost use Rattle.c_arithmetic.specs.Operations.{arguments, compared, divide, dividing, equality, helped, inequality, is_c_width, is_computed, is_constant, is_end};
ghost use Rattle.c_arithmetic.specs.Operations.{is_extreme, is_foregone, is_narrow, is_number, is_plain, is_widened, is_zero, may_be_minus_one};
ghost use Rattle.c_arithmetic.specs.Operations.{operation_of, operation_of_one, operation_of_two, quotient};

use crate::conversions::numbers_of;
use crate::functions::{Helper, helper_name};
use c_forms::{binary, called, cast, is_same, not, of_one, of_two, truth};
use c_names::Names;
use c_tree::{CExp, COp, Width};
use hume_base::{Box, List, Ty};
use hume_model::Op;
use std::alloc::Global;

/// An operation on two operands of the type, other than a division; of one operand both are given.
pub fn operation(
    alloc: Global,
    names: &Names,
    op: Op,
    of: &Ty,
    operands: (Box<CExp>, Option<Box<CExp>>),
) -> Option<Box<CExp>>
    ensures { Gives result (operation_of names.now op of.now operands.0 operands.1) }
{
    match operands {
        (part, None) => on_one(alloc, names, op, of, part),
        (left, Some(right)) => on_two(alloc, names, op, of, left, right),
    }
}

fn on_one(alloc: Global, names: &Names, op: Op, of: &Ty, part: Box<CExp>) -> Option<Box<CExp>>
    ensures { Gives result (operation_of_one names.now op of.now part) }
{
    match op {
        Op::Not => not(alloc, Some(part)),
        Op::Neg => helped(alloc, names, Helper::Neg, of, part, None),
        _ => Some(part),
    }
}

fn on_two(
    alloc: Global,
    names: &Names,
    op: Op,
    of: &Ty,
    left: Box<CExp>,
    right: Box<CExp>,
) -> Option<Box<CExp>>
    ensures { Gives result (operation_of_two names.now op of.now left right) }
{
    match op {
        Op::Not => not(alloc, Some(left)),
        Op::Neg => helped(alloc, names, Helper::Neg, of, left, None),
        Op::Add => helped(alloc, names, Helper::Add, of, left, Some(right)),
        Op::Sub => helped(alloc, names, Helper::Sub, of, left, Some(right)),
        Op::Mul => helped(alloc, names, Helper::Mul, of, left, Some(right)),
        Op::Eq => equality(alloc, names, of, left, right),
        Op::Ne => inequality(alloc, names, of, left, right),
        Op::Lt => compared(alloc, names, of, COp::Less, left, right),
        Op::Le => compared(alloc, names, of, COp::LessEqual, left, right),
        Op::Gt => compared(alloc, names, of, COp::Greater, left, right),
        Op::Ge => compared(alloc, names, of, COp::GreaterEqual, left, right),
        _ => Some(left),
    }
}

/// A quotient, or with `Mod` a rest, by a divisor that isn't 0. A literal one is given too.
pub fn quotient(
    alloc: Global,
    names: &Names,
    op: Op,
    of: &Ty,
    left: Box<CExp>,
    right: Box<CExp>,
    literal: Option<u64>,
) -> Option<Box<CExp>>
    ensures { Gives result (quotient names.now op of.now left right literal) }
{
    match numbers_of(of) {
        Some(numbers) if numbers.signed && may_be_minus_one(literal) => {
            helped(alloc, names, dividing(op), of, left, Some(right))
        }
        Some(numbers) => {
            let quotient = binary(alloc, divide(op), Some(left), Some(right));
            cast(alloc, numbers.c_type(), quotient)
        }
        None => Some(left),
    }
}

fn divide(op: Op) -> COp
    ensures { result ≡ divide op }
{
    match op {
        Op::Div => COp::Divide,
        _ => COp::Remainder,
    }
}

fn dividing(op: Op) -> Helper
    ensures { result ≡ dividing op }
{
    match op {
        Op::Div => Helper::Div,
        _ => Helper::Mod,
    }
}

fn may_be_minus_one(literal: Option<u64>) -> bool
    ensures { result ≡ may_be_minus_one literal }
{
    match literal {
        None => true,
        Some(word) => word == u64::MAX,
    }
}

// A call of a function of arithmetic.
fn helped(
    alloc: Global,
    names: &Names,
    which: Helper,
    of: &Ty,
    left: Box<CExp>,
    right: Option<Box<CExp>>,
) -> Option<Box<CExp>>
    ensures { Gives result (helped names.now which of.now left right) }
{
    match numbers_of(of) {
        None => Some(left),
        Some(numbers) => {
            let name = helper_name(alloc, names, which, numbers);
            called(alloc, name, arguments(alloc, left, right))
        }
    }
}

fn arguments(alloc: Global, left: Box<CExp>, right: Option<Box<CExp>>) -> Option<List<CExp>>
    ensures { Gives result (arguments left right) }
{
    match right {
        None => of_one(alloc, Some(left)),
        Some(right) => of_two(alloc, Some(left), Some(right)),
    }
}

// Whether two operands are the same. A function compares where compilers warn of the comparison.
fn equality(
    alloc: Global,
    names: &Names,
    of: &Ty,
    left: Box<CExp>,
    right: Box<CExp>,
) -> Option<Box<CExp>>
    ensures { Gives result (equality names.now of.now left right) }
{
    if !is_foregone(of, &left, &right) {
        return binary(alloc, COp::Equal, Some(left), Some(right));
    }
    match numbers_of(of) {
        Some(_) => helped(alloc, names, Helper::Equal, of, left, Some(right)),
        None => truth(alloc, true),
    }
}

fn inequality(
    alloc: Global,
    names: &Names,
    of: &Ty,
    left: Box<CExp>,
    right: Box<CExp>,
) -> Option<Box<CExp>>
    ensures { Gives result (inequality names.now of.now left right) }
{
    if is_foregone(of, &left, &right) {
        return not(alloc, equality(alloc, names, of, left, right));
    }
    binary(alloc, COp::NotEqual, Some(left), Some(right))
}

// Whether compilers may warn that the comparison always comes to the same.
fn is_foregone(of: &Ty, left: &CExp, right: &CExp) -> bool
    ensures { result ≡ is_foregone of.now left.now right.now }
{
    is_same(left, right) || (is_number(of) && (is_narrow(left, right) || is_narrow(right, left)))
}

fn is_number(of: &Ty) -> bool
    ensures { result ≡ is_number of.now }
{
    numbers_of(of).is_some()
}

// A number of a narrower type beside a constant, which may lie outside of that type.
fn is_narrow(number: &CExp, other: &CExp) -> bool
    ensures { result ≡ is_narrow number.now other.now }
{
    is_widened(number) && is_constant(other)
}

fn is_widened(exp: &CExp) -> bool
    ensures { result ≡ is_widened (out-CExp exp.now) }
{
    match exp {
        CExp::Cast(_, part) => !is_computed(part.get()),
        _ => false,
    }
}

fn is_computed(exp: &CExp) -> bool
    ensures { result ≡ is_computed (out-CExp exp.now) }
{
    match exp {
        CExp::Binary(_, _, _) => true,
        CExp::Choice(_, _, _) => true,
        _ => false,
    }
}

fn is_constant(exp: &CExp) -> bool
    ensures { result ≡ is_constant (out-CExp exp.now) }
{
    match exp {
        CExp::Unsigned(_, _) => true,
        CExp::Signed(_, _, _) => true,
        _ => false,
    }
}

// A comparison. With the least or the greatest number of a type it would say the same of all: a function compares then, as
// compilers warn of such comparisons.
fn compared(
    alloc: Global,
    names: &Names,
    of: &Ty,
    operator: COp,
    left: Box<CExp>,
    right: Box<CExp>,
) -> Option<Box<CExp>>
    ensures { Gives result (compared names.now of.now operator left right) }
{
    if is_plain(of, &left, &right) {
        return binary(alloc, operator, Some(left), Some(right));
    }
    match operator {
        COp::Less => helped(alloc, names, Helper::Less, of, left, Some(right)),
        COp::LessEqual => helped(alloc, names, Helper::LessEqual, of, left, Some(right)),
        COp::Greater => helped(alloc, names, Helper::Less, of, right, Some(left)),
        _ => helped(alloc, names, Helper::LessEqual, of, right, Some(left)),
    }
}

fn is_plain(of: &Ty, left: &CExp, right: &CExp) -> bool
    ensures { result ≡ is_plain of.now left.now right.now }
{
    !(is_extreme(of, left) || is_extreme(of, right) || is_foregone(of, left, right))
}

fn is_extreme(of: &Ty, exp: &CExp) -> bool
    ensures { result ≡ is_extreme of.now exp.now }
{
    match numbers_of(of) {
        None => false,
        Some(numbers) if is_c_width(numbers.bits) => is_end(numbers.bits, exp),
        Some(_) => is_zero(exp),
    }
}

fn is_c_width(bits: u8) -> bool
    ensures { result ≡ is_c_width bits }
{
    bits == 8 || bits == 16 || bits == 32 || bits == 64
}

fn is_end(bits: u8, exp: &CExp) -> bool
    requires { is_c_width bits ≡ true }
    ensures { result ≡ is_end bits (out-CExp exp.now) }
{
    match exp {
        CExp::Unsigned(_, amount) => *amount == 0 || *amount == greatest(bits),
        CExp::Signed(_, true, amount) => *amount == greatest(bits - 1) + 1,
        CExp::Signed(_, false, amount) => *amount == greatest(bits - 1),
        _ => false,
    }
}

fn is_zero(exp: &CExp) -> bool
    ensures { result ≡ is_zero (out-CExp exp.now) }
{
    match exp {
        CExp::Unsigned(_, amount) => *amount == 0,
        _ => false,
    }
}

fn greatest(bits: u8) -> u64
    requires { bits ≤ 64 }
    ensures { result ≡ greatest bits }
{
    if bits == 64 {
        return u64::MAX;
    }
    (1u64 << bits) - 1
}
