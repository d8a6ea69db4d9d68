//! Operations: the last words become one, or an exception is raised.
ghost use Rattle.std.specs.Prelude.{◌≡◌, ◌≤◌, length};
ghost use Rattle.box_code.specs.Machine.{Setting};
ghost use Rattle.box_code.specs.declared.instr.Instr.TheVariants.{Add, Sub, Mul, Div, Mod, Neg, Not, Convert, Compare};
ghost use Rattle.box_machine.specs.inner.Stepping.{CanDo, Does, IsOf};

use crate::arithmetic::{
    compared, converted, difference, negated, product, quotient, remainder, sum,
};
use crate::calls::hand_over;
use crate::registers::Registers;
use crate::stack_words::{put_at, word_at};
use box_code::{BoxProgram, Comparison, Scalar};
use hume_model::DIV_ZERO;

#[inline(always)]
pub(crate) fn add(ty: Scalar, registers: Registers, words: &mut [u64]) -> Registers
    requires top { registers.top ≤ length words.old }
    requires can { (setting : Setting) × CanDo setting (Add ty) registers words.old }
    ensures { (setting : Setting) → Does setting (Add ty) registers words.old result words.new }
{
    let left = word_at(words, registers.top, 1);
    let right = word_at(words, registers.top, 0);
    put_at(registers, words, registers.top - 2, sum(ty, left, right))
}

#[inline(always)]
pub(crate) fn subtract(ty: Scalar, registers: Registers, words: &mut [u64]) -> Registers
    requires top { registers.top ≤ length words.old }
    requires can { (setting : Setting) × CanDo setting (Sub ty) registers words.old }
    ensures { (setting : Setting) → Does setting (Sub ty) registers words.old result words.new }
{
    let left = word_at(words, registers.top, 1);
    let right = word_at(words, registers.top, 0);
    put_at(
        registers,
        words,
        registers.top - 2,
        difference(ty, left, right),
    )
}

#[inline(always)]
pub(crate) fn multiply(ty: Scalar, registers: Registers, words: &mut [u64]) -> Registers
    requires top { registers.top ≤ length words.old }
    requires can { (setting : Setting) × CanDo setting (Mul ty) registers words.old }
    ensures { (setting : Setting) → Does setting (Mul ty) registers words.old result words.new }
{
    let left = word_at(words, registers.top, 1);
    let right = word_at(words, registers.top, 0);
    put_at(
        registers,
        words,
        registers.top - 2,
        product(ty, left, right),
    )
}

#[inline(always)]
pub(crate) fn divide(
    ty: Scalar,
    program: &BoxProgram,
    registers: Registers,
    words: &mut [u64],
) -> Registers
    requires top { registers.top ≤ length words.old }
    requires can { (setting : Setting) × CanDo setting (Div ty) registers words.old }
    ensures { (setting : Setting) → IsOf program.now setting → Does setting (Div ty) registers words.old result words.new }
{
    let left = word_at(words, registers.top, 1);
    let right = word_at(words, registers.top, 0);
    if right == 0 {
        return hand_over(program, DIV_ZERO, 0, registers, words);
    }
    put_at(
        registers,
        words,
        registers.top - 2,
        quotient(ty, left, right),
    )
}

#[inline(always)]
pub(crate) fn modulo(
    ty: Scalar,
    program: &BoxProgram,
    registers: Registers,
    words: &mut [u64],
) -> Registers
    requires top { registers.top ≤ length words.old }
    requires can { (setting : Setting) × CanDo setting (Mod ty) registers words.old }
    ensures { (setting : Setting) → IsOf program.now setting → Does setting (Mod ty) registers words.old result words.new }
{
    let left = word_at(words, registers.top, 1);
    let right = word_at(words, registers.top, 0);
    if right == 0 {
        return hand_over(program, DIV_ZERO, 0, registers, words);
    }
    put_at(
        registers,
        words,
        registers.top - 2,
        remainder(ty, left, right),
    )
}

#[inline(always)]
pub(crate) fn negate(ty: Scalar, registers: Registers, words: &mut [u64]) -> Registers
    requires top { registers.top ≤ length words.old }
    requires can { (setting : Setting) × CanDo setting (Neg ty) registers words.old }
    ensures { (setting : Setting) → Does setting (Neg ty) registers words.old result words.new }
{
    let operand = word_at(words, registers.top, 0);
    put_at(registers, words, registers.top - 1, negated(ty, operand))
}

#[inline(always)]
pub(crate) fn invert(registers: Registers, words: &mut [u64]) -> Registers
    requires top { registers.top ≤ length words.old }
    requires can { (setting : Setting) × CanDo setting Not registers words.old }
    ensures { (setting : Setting) → Does setting Not registers words.old result words.new }
{
    let operand = word_at(words, registers.top, 0);
    put_at(registers, words, registers.top - 1, u64::from(operand == 0))
}

#[inline(always)]
pub(crate) fn convert(ty: Scalar, registers: Registers, words: &mut [u64]) -> Registers
    requires top { registers.top ≤ length words.old }
    requires can { (setting : Setting) × CanDo setting (Convert ty) registers words.old }
    ensures { (setting : Setting) → Does setting (Convert ty) registers words.old result words.new }
{
    let operand = word_at(words, registers.top, 0);
    put_at(registers, words, registers.top - 1, converted(ty, operand))
}

#[inline(always)]
pub(crate) fn compare(
    comparison: Comparison,
    ty: Scalar,
    registers: Registers,
    words: &mut [u64],
) -> Registers
    requires top { registers.top ≤ length words.old }
    requires can { (setting : Setting) × CanDo setting (Compare comparison ty) registers words.old }
    ensures { (setting : Setting) → Does setting (Compare comparison ty) registers words.old result words.new }
{
    let left = word_at(words, registers.top, 1);
    let right = word_at(words, registers.top, 0);
    put_at(
        registers,
        words,
        registers.top - 2,
        u64::from(compared(comparison, ty, left, right)),
    )
}
