//! The flat words of what stands in a heap, written one behind another.
ghost use Rattle.std.specs.Prelude.{◌≡◌, ◌+◌, ◌-◌, ◌<◌, ◌≤◌, ℕ, List, [], ◌∷◌, length, map, replicate, IsTrue, Some};
ghost use Rattle.hume_base.specs.Sizes.{HaveTheirSizes};
ghost use Rattle.hume_base.specs.declared.types.Types.{Types as AnyTypes};
ghost use Rattle.hume_model.specs.Reading.{HaveReadableSizes};
ghost use Rattle.box_heap.specs.Heaps.{Object};
ghost use Rattle.box_code.specs.FlatObjects.{flat_at, named_at};
ghost use Rattle.box_machine.specs.inner.Stepping.{IsHeap, objects_in};
ghost use Rattle.box_machine.specs.inner.Written.{AreWritten, HaveExactSizes, HaveRoomAt, IsWritten, con_at, flat_below, items_at, parts_at};

use crate::objects::{field_at, keeps_room, tag_at};
use box_heap::BoxHeap;
use hume_base::{Shared, SumDef, Ty, Types};

/// Whether each value of the type is one word, which is its flat word too.
#[inline(always)]
pub(crate) fn is_scalar(ty: &Ty) -> bool
    ensures { IsTrue result → (types : AnyTypes) (objects : List Object) (word : ℕ) → flat_at types objects ty.now word ≡ Some (word ∷ []) }
{
    match ty {
        Ty::Bool => true,
        Ty::Char => true,
        Ty::Int(_) => true,
        Ty::Nat(_) => true,
        _ => false,
    }
}

/// Writes the flat words of what a word stands for by a type, which fill the row.
pub(crate) fn flatten_standing(types: &Types, ty: &Ty, word: u64, heap: &BoxHeap, into: &mut [u64])
    requires sizes { HaveTheirSizes types.now }
    requires readable { HaveReadableSizes types.now }
    requires held { IsHeap heap.now }
    requires fill { (words : List ℕ) × (flat_at types.now (objects_in heap.now) ty.now word ≡ Some words) × (length words ≡ length into.old) }
    ensures { flat_at types.now (objects_in heap.now) ty.now word ≡ Some into.new }
{
    write_value(types, types.sums.len(), ty, word, heap, into, 0);
}

// From a place on, and the place behind them. Data types of numbers from the bound on have no words: the type holds none.
#[cycle(write)]
fn write_value(
    types: &Types,
    bound: usize,
    ty: &Ty,
    word: u64,
    heap: &BoxHeap,
    into: &mut [u64],
    at: usize,
) -> usize
    requires sizes { HaveExactSizes types.now }
    requires held { IsHeap heap.now }
    requires room { HaveRoomAt (flat_below types.now bound (objects_in heap.now) ty.now word) at (length into.old) }
    ensures { AreWritten (flat_below types.now bound (objects_in heap.now) ty.now word) into.old at into.new result }
{
    match ty {
        Ty::Bool => write_word(word, into, at),
        Ty::Char => write_word(word, into, at),
        Ty::Int(_) => write_word(word, into, at),
        Ty::Nat(_) => write_word(word, into, at),
        Ty::Tuple(tys) => write_parts(types, bound, tys.as_slice(), word, heap, into, at),
        Ty::Vector(_, item) => write_items(types, bound, item, word, heap, into, at),
        Ty::Named(number) => write_data(types, bound, *number, word, heap, into, at),
    }
}

#[cycle(write)]
fn write_parts(
    types: &Types,
    bound: usize,
    tys: &[Shared<Ty>],
    place: u64,
    heap: &BoxHeap,
    into: &mut [u64],
    at: usize,
) -> usize
    requires sizes { HaveExactSizes types.now }
    requires held { IsHeap heap.now }
    requires room { HaveRoomAt (parts_at (objects_in heap.now) (map (flat_below types.now bound (objects_in heap.now)) tys.now) place) at (length into.old) }
    ensures { AreWritten (parts_at (objects_in heap.now) (map (flat_below types.now bound (objects_in heap.now)) tys.now) place) into.old at into.new result }
{
    keeps_room(heap);
    let mut end = at;
    for i in 0..tys.len() {
        let word = field_at(heap, place, i as u32);
        end = write_value(types, bound, &tys[i], word, heap, into, end);
    }
    end
}

#[cycle(write)]
fn write_items(
    types: &Types,
    bound: usize,
    item: &Ty,
    place: u64,
    heap: &BoxHeap,
    into: &mut [u64],
    at: usize,
) -> usize
    requires sizes { HaveExactSizes types.now }
    requires held { IsHeap heap.now }
    requires room { HaveRoomAt (items_at (objects_in heap.now) (flat_below types.now bound (objects_in heap.now) item.now) place) at (length into.old) }
    ensures { AreWritten (items_at (objects_in heap.now) (flat_below types.now bound (objects_in heap.now) item.now) place) into.old at into.new result }
{
    let mut end = at;
    for i in 0..heap.count(place) {
        let word = field_at(heap, place, i);
        end = write_value(types, bound, item, word, heap, into, end);
    }
    end
}

#[cycle(write)]
fn write_data(
    types: &Types,
    bound: usize,
    number: u32,
    place: u64,
    heap: &BoxHeap,
    into: &mut [u64],
    at: usize,
) -> usize
    requires sizes { HaveExactSizes types.now }
    requires held { IsHeap heap.now }
    requires room { HaveRoomAt (named_at types.now (objects_in heap.now) bound number place) at (length into.old) }
    ensures { AreWritten (named_at types.now (objects_in heap.now) bound number place) into.old at into.new result }
{
    match types.sums.get(number as usize) {
        None => at,
        Some(sum) => {
            let end = write_constructor(types, number as usize, sum, place, heap, into, at);
            write_zeros(into, end, at + sum.words as usize)
        }
    }
}

#[cycle(write)]
fn write_constructor(
    types: &Types,
    bound: usize,
    sum: &SumDef,
    place: u64,
    heap: &BoxHeap,
    into: &mut [u64],
    at: usize,
) -> usize
    requires sizes { HaveExactSizes types.now }
    requires held { IsHeap heap.now }
    requires room { HaveRoomAt (con_at (objects_in heap.now) (flat_below types.now bound (objects_in heap.now)) sum.now place) at (length into.old) }
    ensures { AreWritten (con_at (objects_in heap.now) (flat_below types.now bound (objects_in heap.now)) sum.now place) into.old at into.new result }
{
    let tag = tag_at(heap, place);
    let fields = write_word(u64::from(tag), into, at);
    match sum.cons.get(tag as usize) {
        None => fields,
        Some(con) => write_parts(
            types,
            bound,
            con.fields.as_slice(),
            place,
            heap,
            into,
            fields,
        ),
    }
}

fn write_word(word: u64, into: &mut [u64], at: usize) -> usize
    requires { at < length into.old }
    ensures { IsWritten into.old at (word ∷ []) into.new result }
{
    into[at] = word;
    at + 1
}

// Zeros from a place up to another.
fn write_zeros(into: &mut [u64], from: usize, to: usize) -> usize
    requires { from + (to - from) ≤ length into.old }
    ensures { IsWritten into.old from (replicate (to - from) 0) into.new result }
{
    for place in from..to {
        into[place] = 0;
    }
    from.max(to)
}
