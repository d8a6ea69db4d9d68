//! Objects: made, changed, and read by fields and tags.
ghost use Rattle.std.specs.Prelude.{◌≡◌, ◌≤◌, ◌<◌, ℕ, length, Some};
ghost use Rattle.hume_model.specs.Operations.{is_place as is_place_of};
ghost use Rattle.box_heap.specs.Heaps.{object_at};
ghost use Rattle.box_code.specs.Machine.{Setting, field_of, tag_of};
ghost use Rattle.box_code.specs.declared.instr.Instr.TheVariants.{Make, Index, Update};
ghost use Rattle.box_machine.specs.inner.Stepping.{CanDoOn, DoesOn, IsHeap, IsOf, objects_in};

use crate::calls::hand_over;
use crate::registers::Registers;
use crate::stack_words::{push, put_at, word_at};
use box_code::BoxProgram;
use box_heap::BoxHeap;
use hume_model::RANGE;

/// The field of that number of the object at the place.
#[inline(always)]
pub(crate) fn field_at(heap: &BoxHeap, at: u64, number: u32) -> u64
    requires held { IsHeap heap.now }
    requires there { (word : ℕ) × (field_of (object_at (objects_in heap.now) at) number ≡ Some word) }
    ensures { field_of (object_at (objects_in heap.now) at) number ≡ Some result }
{
    heap.field(at, number)
}

/// The tag of the object at the place.
#[inline(always)]
pub(crate) fn tag_at(heap: &BoxHeap, at: u64) -> u32
    requires held { IsHeap heap.now }
    requires there { (tag : ℕ) × (tag_of (object_at (objects_in heap.now) at) ≡ Some tag) }
    ensures { tag_of (object_at (objects_in heap.now) at) ≡ Some result }
{
    heap.tag(at)
}

/// The objects' words can be counted by 32 bits.
#[inline(always)]
pub(crate) fn keeps_room(heap: &BoxHeap)
    ensures { length heap.now.words < 4294967296 }
{
    let _used = heap.used();
}

/// So many words become the fields of an object, whose place takes their place.
#[inline(always)]
#[tactic(auto, using(crate::proofs::Effects::make_does))]
pub(crate) fn make(
    tag: u32,
    count: u32,
    registers: Registers,
    words: &mut [u64],
    heap: &mut BoxHeap,
) -> Registers
    requires top { registers.top ≤ length words.old }
    requires held { IsHeap heap.old }
    requires can { (setting : Setting) × CanDoOn setting (Make tag count) registers words.old heap.old }
    ensures { (setting : Setting) → DoesOn setting (Make tag count) registers words.old heap.old result words.new heap.new }
{
    let base = registers.top - count as usize;
    let place = heap.put(tag, &words[base..registers.top]);
    push(
        Registers {
            top: base,
            ..registers
        },
        words,
        place,
    )
}

#[inline(always)]
fn is_place(count: u32, place: u64) -> bool
    ensures { result ≡ is_place_of count place }
{
    1 <= place && place <= u64::from(count)
}

/// A vector and a place become the element.
#[inline(always)]
#[tactic(auto, using(crate::proofs::Reaching::index_rules))]
pub(crate) fn index(
    count: u32,
    program: &BoxProgram,
    registers: Registers,
    words: &mut [u64],
    heap: &BoxHeap,
) -> Registers
    requires top { registers.top ≤ length words.old }
    requires held { IsHeap heap.now }
    requires can { (setting : Setting) × CanDoOn setting (Index count) registers words.old heap.now }
    ensures { (setting : Setting) → IsOf program.now setting → DoesOn setting (Index count) registers words.old heap.now result words.new heap.now }
{
    let vector = word_at(words, registers.top, 1);
    let place = word_at(words, registers.top, 0);
    if !is_place(count, place) {
        return hand_over(program, RANGE, 0, registers, words);
    }
    let word = field_at(heap, vector, (place - 1) as u32);
    put_at(registers, words, registers.top - 2, word)
}

/// A vector, a place and an element become the changed vector.
#[inline(always)]
#[tactic(auto, using(crate::proofs::Reaching::update_rules))]
pub(crate) fn update(
    count: u32,
    program: &BoxProgram,
    registers: Registers,
    words: &mut [u64],
    heap: &mut BoxHeap,
) -> Registers
    requires top { registers.top ≤ length words.old }
    requires held { IsHeap heap.old }
    requires can { (setting : Setting) × CanDoOn setting (Update count) registers words.old heap.old }
    ensures { (setting : Setting) → IsOf program.now setting → DoesOn setting (Update count) registers words.old heap.old result words.new heap.new }
{
    let vector = word_at(words, registers.top, 2);
    let place = word_at(words, registers.top, 1);
    let item = word_at(words, registers.top, 0);
    if !is_place(count, place) {
        return hand_over(program, RANGE, 0, registers, words);
    }
    let changed = heap.put_changed(vector, (place - 1) as u32, item);
    push(
        Registers {
            top: registers.top - 3,
            ..registers
        },
        words,
        changed,
    )
}
