//! Jumps. Each is a way of its own out of its instruction: the processor goes on before it knows the word that is tested, which it
//! doesn't where the next place is picked from two.
ghost use Rattle.std.specs.Prelude.{◌≡◌, ◌≤◌, length};
ghost use Rattle.box_code.specs.Machine.{Setting};
ghost use Rattle.box_code.specs.declared.instr.Instr.TheVariants.{JumpFalse};
ghost use Rattle.box_machine.specs.declared.registers.Turn.TheVariants.{Goes};
ghost use Rattle.box_machine.specs.inner.Stepping.{CanDoOn, IsHeap, IsTurn};

use crate::registers::{Registers, Turn};
use crate::stack_words::word_at;
use box_heap::BoxHeap;

/// Goes on at the place, which is in the code or at its end.
#[inline(always)]
pub(crate) fn jump(to: u32, registers: Registers, code: &[u64]) -> Turn
    requires { to ≤ length code.now }
    ensures { result ≡ Goes (record registers { at = to }) }
{
    if to as usize > code.len() {
        return Turn::Ends(registers, 0);
    }
    Turn::Goes(Registers {
        at: to as usize,
        ..registers
    })
}

/// Takes the top word, and goes on at the place if it is 0.
#[inline(always)]
pub(crate) fn jump_false(
    to: u32,
    registers: Registers,
    words: &[u64],
    heap: &BoxHeap,
    code: &[u64],
) -> Turn
    requires top { registers.top ≤ length words.now }
    requires held { IsHeap heap.now }
    requires can { (setting : Setting) × (setting.code ≡ code.now) × CanDoOn setting (JumpFalse to) registers words.now heap.now }
    ensures { (setting : Setting) → setting.code ≡ code.now → IsTurn setting (JumpFalse to) registers words.now heap.now result words.now heap.now }
{
    let word = word_at(words, registers.top, 0);
    let lower = Registers {
        top: registers.top - 1,
        ..registers
    };
    if word == 0 {
        return jump(to, lower, code);
    }
    Turn::Goes(lower)
}
