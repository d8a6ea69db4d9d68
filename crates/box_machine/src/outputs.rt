//! The outputs of a mask.
ghost use Rattle.std.specs.Prelude.{◌≡◌, ◌==◌, ◌-◌, ◌≤◌, List, Option, Some, length, ℕ};
ghost use Rattle.std.specs.Int.{bit_at};
ghost use Rattle.hume_base.specs.Sizes.{HaveTheirSizes};
ghost use Rattle.hume_model.specs.Reading.{HaveReadableSizes};
ghost use Rattle.box_code.specs.FlatObjects.{flat_at};
ghost use Rattle.box_code.specs.Machine.{flat_outs, outs_in};
ghost use Rattle.box_machine.specs.Running.{with_outputs};
ghost use Rattle.box_machine.specs.inner.PutOutputs.{HasSize, OutsFit, on_top, put_out};
ghost use Rattle.box_machine.specs.inner.Stepping.{IsHeap, objects_in};

use crate::standing::{flatten_standing, is_scalar};
use box_heap::{BoxHeap, OutBuf};
use hume_base::{Ty, Types};

/// Writes the flat words of the outputs of the mask, from the last one to the first, and says where their words begin. The other
/// outputs become absent. There is a word for each of the mask below the top.
pub(crate) fn write_outputs(
    types: &Types,
    outs: &[Ty],
    mask: u32,
    words: &[u64],
    top: usize,
    heap: &BoxHeap,
    out: &mut OutBuf,
) -> usize
    requires sizes { HaveTheirSizes types.now }
    requires readable { HaveReadableSizes types.now }
    requires held { IsHeap heap.now }
    requires enough { outs_in mask outs.now ≤ top }
    requires top { top ≤ length words.now }
    requires room { (flat : List (Option (List ℕ)))
        × OutsFit (flat_outs types.now (objects_in heap.now) outs.now mask (on_top (outs_in mask outs.now) words.now top)) out.old flat }
    ensures base { result ≡ top - outs_in mask outs.now }
    ensures out { (flat : List (Option (List ℕ)))
        → flat_outs types.now (objects_in heap.now) outs.now mask (on_top (outs_in mask outs.now) words.now top) ≡ Some flat
        → out.new ≡ with_outputs out.old flat }
{
    let mut base = top;
    let mut number = outs.len();
    'writing: while number > 0 {
        number -= 1;
        if has_output(mask, number) {
            base -= 1;
            write_output(types, &outs[number], words[base], heap, out, number);
        } else {
            out.remove(number);
        }
    }
    base
}

// Whether the mask has the output of that number.
#[inline(always)]
fn has_output(mask: u32, number: usize) -> bool
    ensures { result ≡ (bit_at mask number == 1) }
{
    number < 32 && (mask >> number) & 1 == 1
}

// One output. A scalar's word is all of it.
#[inline(always)]
fn write_output(types: &Types, ty: &Ty, word: u64, heap: &BoxHeap, out: &mut OutBuf, number: usize)
    requires sizes { HaveTheirSizes types.now }
    requires readable { HaveReadableSizes types.now }
    requires held { IsHeap heap.now }
    requires room { (words : List ℕ) × (flat_at types.now (objects_in heap.now) ty.now word ≡ Some words) × HasSize out.old number (length words) }
    ensures { (words : List ℕ) → flat_at types.now (objects_in heap.now) ty.now word ≡ Some words → out.new ≡ put_out out.old number words }
{
    if is_scalar(ty) {
        out.fill(number, word);
    } else {
        write_whole(types, ty, word, heap, out, number);
    }
}

// One output of any type.
#[inline(never)]
fn write_whole(types: &Types, ty: &Ty, word: u64, heap: &BoxHeap, out: &mut OutBuf, number: usize)
    requires sizes { HaveTheirSizes types.now }
    requires readable { HaveReadableSizes types.now }
    requires held { IsHeap heap.now }
    requires room { (words : List ℕ) × (flat_at types.now (objects_in heap.now) ty.now word ≡ Some words) × HasSize out.old number (length words) }
    ensures { (words : List ℕ) → flat_at types.now (objects_in heap.now) ty.now word ≡ Some words → out.new ≡ put_out out.old number words }
{
    flatten_standing(types, ty, word, heap, out.open(number));
}
