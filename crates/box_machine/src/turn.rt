//! What one instruction leads to.
ghost use Rattle.std.specs.Prelude.{◌≡◌, ◌≤◌, length};
ghost use Rattle.box_code.specs.Machine.{Setting};
ghost use Rattle.box_machine.specs.inner.Stepping.{CanDoOn, IsHeap, IsOf, IsTurn, PathWithin};

use crate::calls::{call, raise, return_with};
use crate::jumps::jump_false;
use crate::objects::{index, make, update};
use crate::operations::{
    add, compare, convert, divide, invert, modulo, multiply, negate, subtract,
};
use crate::paths::{field, match_tag, match_word};
use crate::registers::{Registers, Turn};
use crate::stack_words::{load, push_word, slide};
use box_code::{BoxProgram, Instr};
use box_heap::BoxHeap;

/// What the instruction leads to. The registers say where the code goes on after it.
#[inline(always)]
pub(crate) fn turn(
    instr: Instr,
    program: &BoxProgram,
    code: &[u64],
    registers: Registers,
    words: &mut [u64],
    heap: &mut BoxHeap,
) -> Turn
    requires top { registers.top ≤ length words.old }
    requires held { IsHeap heap.old }
    requires within { PathWithin (length code.now) instr }
    requires can { (setting : Setting) × (setting.code ≡ code.now) × CanDoOn setting instr registers words.old heap.old }
    ensures { (setting : Setting) → IsOf program.now setting → setting.code ≡ code.now
        → IsTurn setting instr registers words.old heap.old result words.new heap.new }
{
    match instr {
        Instr::Push { word } => Turn::Goes(push_word(word, registers, words)),
        Instr::Load { depth } => Turn::Goes(load(depth, registers, words)),
        Instr::Make { tag, count } => Turn::Goes(make(tag, count, registers, words, heap)),
        Instr::Add { ty } => Turn::Goes(add(ty, registers, words)),
        Instr::Sub { ty } => Turn::Goes(subtract(ty, registers, words)),
        Instr::Mul { ty } => Turn::Goes(multiply(ty, registers, words)),
        Instr::Div { ty } => Turn::Goes(divide(ty, program, registers, words)),
        Instr::Mod { ty } => Turn::Goes(modulo(ty, program, registers, words)),
        Instr::Neg { ty } => Turn::Goes(negate(ty, registers, words)),
        Instr::Not => Turn::Goes(invert(registers, words)),
        Instr::Convert { ty } => Turn::Goes(convert(ty, registers, words)),
        Instr::Compare { comparison, ty } => Turn::Goes(compare(comparison, ty, registers, words)),
        Instr::Index { count } => Turn::Goes(index(count, program, registers, words, heap)),
        Instr::Update { count } => Turn::Goes(update(count, program, registers, words, heap)),
        Instr::Jump { to } => Turn::Goes(Registers {
            at: to as usize,
            ..registers
        }),
        Instr::JumpFalse { to } => jump_false(to, registers, words, heap, code),
        Instr::MatchWord {
            depth,
            path,
            word,
            to,
        } => match_word(depth, path, word, to, registers, words, heap, code),
        Instr::MatchTag {
            depth,
            path,
            tag,
            to,
        } => match_tag(depth, path, tag, to, registers, words, heap, code),
        Instr::Field { depth, path } => Turn::Goes(field(
            depth, path, registers, words, heap, code,
        )),
        Instr::Slide { count } => Turn::Goes(slide(count, registers, words)),
        Instr::Call { to, count } => Turn::Goes(call(to, count, registers, words)),
        Instr::Return { count, variables } => Turn::Goes(return_with(
            count, variables, registers, words,
        )),
        Instr::Raise { exn, carried } => Turn::Goes(raise(exn, carried, program, registers, words)),
        Instr::Finish { mask } => Turn::Ends(registers, mask),
    }
}
