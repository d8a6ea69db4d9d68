//! The stack as the first words of a row, with all else in registers.
ghost use Rattle.std.specs.Prelude.{◌≡◌, ◌≤◌, ◌<◌, ◌++◌, ◌∷◌, [], ◌+◌, max, length, take, Some};
ghost use Rattle.box_heap.specs.Stacks.{at_depth};
ghost use Rattle.box_code.specs.Machine.{Setting};
ghost use Rattle.box_code.specs.declared.instr.Instr.TheVariants.{Push, Load, Slide};
ghost use Rattle.box_machine.specs.inner.Stepping.{CanDo, Does, Stacked};

use crate::registers::Registers;

/// The word at a depth, 0 at the top.
#[inline(always)]
pub(crate) fn word_at(words: &[u64], top: usize, depth: usize) -> u64
    requires top { top ≤ length words.now }
    requires there { depth < top }
    ensures { at_depth depth (take top words.now) ≡ Some result }
{
    words[top - 1 - depth]
}

/// One more word.
#[inline(always)]
pub(crate) fn push(registers: Registers, words: &mut [u64], word: u64) -> Registers
    requires { registers.top < length words.old }
    ensures { Stacked result words.new registers.at (take registers.top words.old ++ word ∷ []) (max registers.peak (registers.top + 1)) registers.raised }
{
    words[registers.top] = word;
    let top = registers.top + 1;
    Registers {
        top,
        peak: registers.peak.max(top),
        ..registers
    }
}

/// The word in place of those from the height on, of which there is at least one.
#[inline(always)]
pub(crate) fn put_at(registers: Registers, words: &mut [u64], height: usize, word: u64) -> Registers
    requires { height < length words.old }
    ensures { Stacked result words.new registers.at (take height words.old ++ word ∷ []) registers.peak registers.raised }
{
    words[height] = word;
    Registers {
        top: height + 1,
        ..registers
    }
}

/// Pushes the word.
#[inline(always)]
pub(crate) fn push_word(word: u64, registers: Registers, words: &mut [u64]) -> Registers
    requires can { (setting : Setting) × CanDo setting (Push word) registers words.old }
    requires top { registers.top ≤ length words.old }
    ensures { (setting : Setting) → Does setting (Push word) registers words.old result words.new }
{
    push(registers, words, word)
}

/// Pushes a copy of the word at the depth.
#[inline(always)]
pub(crate) fn load(depth: u32, registers: Registers, words: &mut [u64]) -> Registers
    requires top { registers.top ≤ length words.old }
    requires can { (setting : Setting) × CanDo setting (Load depth) registers words.old }
    ensures { (setting : Setting) → Does setting (Load depth) registers words.old result words.new }
{
    let word = word_at(words, registers.top, depth as usize);
    push(registers, words, word)
}

/// Drops so many words under the top one.
#[inline(always)]
pub(crate) fn slide(count: u32, registers: Registers, words: &mut [u64]) -> Registers
    requires top { registers.top ≤ length words.old }
    requires can { (setting : Setting) × CanDo setting (Slide count) registers words.old }
    ensures { (setting : Setting) → Does setting (Slide count) registers words.old result words.new }
{
    let word = word_at(words, registers.top, 0);
    put_at(registers, words, registers.top - 1 - count as usize, word)
}
