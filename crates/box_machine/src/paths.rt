//! Words at paths: matched, and pushed.
ghost use Rattle.std.specs.Prelude.{◌≡◌, ◌≤◌, ◌+◌, ℕ, length, take, Some};
ghost use Rattle.box_code.specs.Machine.{Setting, at_path};
ghost use Rattle.box_code.specs.declared.instr.Instr.TheVariants.{MatchWord, MatchTag, Field};
ghost use Rattle.box_machine.specs.inner.Stepping.{CanDoOn, DoesOn, IsHeap, IsTurn, found_in, objects_in};

use crate::jumps::jump;
use crate::objects::{field_at, keeps_room, tag_at};
use crate::registers::{Registers, Turn};
use crate::stack_words::{push, word_at};
use box_code::Path;
use box_heap::BoxHeap;

/// Goes on if the word at the path is this one, and jumps if not.
#[inline(always)]
pub(crate) fn match_word(
    depth: u32,
    path: Path,
    word: u64,
    to: u32,
    registers: Registers,
    words: &[u64],
    heap: &BoxHeap,
    code: &[u64],
) -> Turn
    requires top { registers.top ≤ length words.now }
    requires held { IsHeap heap.now }
    requires within { path.at + path.length ≤ length code.now }
    requires can { (setting : Setting) × (setting.code ≡ code.now) × CanDoOn setting (MatchWord depth path word to) registers words.now heap.now }
    ensures { (setting : Setting) → setting.code ≡ code.now
        → IsTurn setting (MatchWord depth path word to) registers words.now heap.now result words.now heap.now }
{
    let found = found_at(depth, path, registers.top, words, heap, code);
    if found == word {
        return Turn::Goes(registers);
    }
    jump(to, registers, code)
}

/// Goes on if the object at the path has this tag, and jumps if not.
#[inline(always)]
pub(crate) fn match_tag(
    depth: u32,
    path: Path,
    tag: u32,
    to: u32,
    registers: Registers,
    words: &[u64],
    heap: &BoxHeap,
    code: &[u64],
) -> Turn
    requires top { registers.top ≤ length words.now }
    requires held { IsHeap heap.now }
    requires within { path.at + path.length ≤ length code.now }
    requires can { (setting : Setting) × (setting.code ≡ code.now) × CanDoOn setting (MatchTag depth path tag to) registers words.now heap.now }
    ensures { (setting : Setting) → setting.code ≡ code.now
        → IsTurn setting (MatchTag depth path tag to) registers words.now heap.now result words.now heap.now }
{
    let found = found_at(depth, path, registers.top, words, heap, code);
    if tag_at(heap, found) == tag {
        return Turn::Goes(registers);
    }
    jump(to, registers, code)
}

/// Pushes the word at the path.
#[inline(always)]
pub(crate) fn field(
    depth: u32,
    path: Path,
    registers: Registers,
    words: &mut [u64],
    heap: &BoxHeap,
    code: &[u64],
) -> Registers
    requires top { registers.top ≤ length words.old }
    requires held { IsHeap heap.now }
    requires within { path.at + path.length ≤ length code.now }
    requires can { (setting : Setting) × (setting.code ≡ code.now) × CanDoOn setting (Field depth path) registers words.old heap.now }
    ensures { (setting : Setting) → setting.code ≡ code.now → DoesOn setting (Field depth path) registers words.old heap.now result words.new heap.now }
{
    let found = found_at(depth, path, registers.top, words, heap, code);
    push(registers, words, found)
}

// The word at the path from the word at the depth on.
#[inline(always)]
fn found_at(depth: u32, path: Path, top: usize, words: &[u64], heap: &BoxHeap, code: &[u64]) -> u64
    requires top { top ≤ length words.now }
    requires held { IsHeap heap.now }
    requires within { path.at + path.length ≤ length code.now }
    requires there { (word : ℕ) × (found_in code.now (objects_in heap.now) depth path (take top words.now) ≡ Some word) }
    ensures { found_in code.now (objects_in heap.now) depth path (take top words.now) ≡ Some result }
{
    let start = word_at(words, top, depth as usize);
    let from = path.at as usize;
    follow(&code[from..from + path.length as usize], heap, start)
}

// The word to which field numbers lead from a word on. Most paths have one number or none: for these no call is made.
#[inline(always)]
fn follow(numbers: &[u64], heap: &BoxHeap, start: u64) -> u64
    requires held { IsHeap heap.now }
    requires there { (word : ℕ) × (at_path (objects_in heap.now) numbers.now start ≡ Some word) }
    ensures { at_path (objects_in heap.now) numbers.now start ≡ Some result }
{
    if numbers.len() == 0 {
        return start;
    }
    if numbers.len() == 1 {
        keeps_room(heap);
        return field_at(heap, start, numbers[0] as u32);
    }
    follow_on(numbers, heap, start)
}

#[inline(never)]
fn follow_on(numbers: &[u64], heap: &BoxHeap, start: u64) -> u64
    requires held { IsHeap heap.now }
    requires there { (word : ℕ) × (at_path (objects_in heap.now) numbers.now start ≡ Some word) }
    ensures { at_path (objects_in heap.now) numbers.now start ≡ Some result }
{
    keeps_room(heap);
    let mut word = start;
    for number in numbers {
        word = field_at(heap, word, *number as u32);
    }
    word
}
