//! A queue of values as flat words, with the number and the time of its wire.
ghost use Rattle.std.specs.Prelude.{◌≡◌, ◌<◌, ◌≤◌, ◌+◌, ◌*◌, ◌^◌, ◌↔◌, ◌∷◌, ◌++◌, [], length, take, drop, Some, slice_get, IsTrue, IfOk, true};
ghost use Rattle.hume_base.specs.declared.types.Value.{Value};
ghost use Rattle.hume_base.specs.Sizes.{size_of, HaveTheirSizes};
ghost use Rattle.hume_base.specs.Values.{is_value};
ghost use Rattle.hume_base.specs.Flat.{flat};
ghost use Rattle.std.specs.Option.{option_to_list};
ghost use Rattle.hume_model.specs.declared.core_tree.WireC.{WireC};
ghost use Rattle.hume_model.specs.Reading.{HaveReadableSizes};
ghost use Rattle.hume_model.specs.WellFormed.{HasSoundFrame};
ghost use Rattle.wire_cells.specs.Cells.{first_cell};
ghost use Rattle.wire_cells.specs.inner.Rings.{on_from, wrapped};

use crate::flat_words::flatten;
use hume_base::{Ty, Types, Value, size};
use hume_model::{Core, WireC};
use std::alloc::{AllocError, Global};
use std::marker::Model;

/// The values on a wire as flat words, in a ring of as many rows as the wire may hold values.
/// A row has `size` words, and there are `depth` rows. The oldest value begins at the word `first`, and the next value goes to the word `next`.
#[derive(Drop)]
pub(crate) struct Ring {
    number: u32,
    time: u64,
    words: Vec<u64>,
    size: usize,
    depth: usize,
    first: usize,
    next: usize,
    count: usize,
}

impl Model for Ring {
    ghost use Rattle.std.specs.Prelude.{◌≡◌, ◌<◌, ◌≤◌, ◌+◌, ◌*◌, ℕ, length};
    ghost use Rattle.hume_base.specs.declared.limits.TheConstants.{MAX_TYPE_WORDS, MAX_WIRE_DEPTH};
    ghost use Rattle.wire_cells.specs.Cells.{CellView};
    ghost use Rattle.wire_cells.specs.inner.Rings.{rows, from_first, wrapped};

    ghost Value = { CellView };

    ghost view = { λ cell. record {
      number = cell.number;
      time = cell.time;
      values = rows cell.count cell.size (from_first cell.first cell.words.items);
      size = cell.size;
      depth = cell.depth;
    } };

    // The oldest value stands in the row of the number `row`.
    ghost invariant = { λ cell. (row : ℕ) × (row < cell.depth) × (cell.first ≡ row * cell.size)
        × (cell.next ≡ wrapped (row + cell.count) cell.depth * cell.size) × (cell.count ≤ cell.depth)
        × (length cell.words.items ≡ cell.depth * cell.size) × (cell.depth ≤ MAX_WIRE_DEPTH) × (cell.size ≤ MAX_TYPE_WORDS) };
}

impl Ring {
    /// The cell of a wire of the core, with the wire's initial value alone or with none.
    pub(crate) fn make(alloc: Global, core: &Core, number: u32) -> Result<Ring, AllocError>
        requires core { HasSoundFrame core.now }
        requires number { number < length core.now.wires }
        ensures { IfOk result (λ cell. (wire : WireC) → slice_get core.now.wires number ≡ Some wire → cell ≡ first_cell core.now number wire) }
    {
        Ring::of_wire(alloc, core, number, &core.wires.as_slice()[number as usize])
    }

    fn of_wire(alloc: Global, core: &Core, number: u32, wire: &WireC) -> Result<Ring, AllocError>
        requires core { HasSoundFrame core.now }
        requires wire { slice_get core.now.wires number ≡ Some wire.now }
        ensures { IfOk result (λ cell. cell ≡ first_cell core.now number wire.now) }
    {
        let size = size(&core.types, &wire.ty) as usize;
        let depth = wire.depth as usize;
        let mut words = Vec::from_elem(alloc, 0u64, depth * size)?;
        let count = write_first(&core.types, &wire.ty, &wire.initial, size, &mut words);
        Ok(Ring {
            number,
            time: 0,
            words,
            size,
            depth,
            first: 0,
            next: on_from(count * size, depth * size),
            count,
        })
    }

    pub(crate) fn number(&self) -> u32
        ensures { result ≡ self.now.number }
    {
        self.number
    }

    /// How many half steps of the nodes at the ends of its wire it has gone through.
    #[inline(always)]
    pub(crate) fn time(&self) -> u64
        ensures { result ≡ self.now.time }
    {
        self.time
    }

    /// Goes on by one half step.
    #[inline(always)]
    pub(crate) fn tick(&mut self)
        requires { self.old.time < 2 ^ 40 }
        ensures { self.new ≡ record self.old { time = self.old.time + 1 } }
    {
        self.time += 1;
    }

    /// Goes back to time 0, and keeps all else.
    pub(crate) fn begin(&mut self)
        ensures { self.new ≡ record self.old { time = 0 } }
    {
        self.time = 0;
    }

    /// Whether it holds a value.
    #[inline(always)]
    pub(crate) fn full(&self) -> bool
        ensures { IsTrue result ↔ (1 ≤ length self.now.values) }
    {
        self.count > 0
    }

    /// Drops the oldest value.
    pub(crate) fn take(&mut self)
        requires { 1 ≤ length self.old.values }
        ensures { self.new ≡ record self.old { values = drop 1 self.old.values } }
    {
        self.first = on_from(self.first + self.size, self.words.len());
        self.count -= 1;
    }

    /// Whether it holds fewer values than it may.
    #[inline(always)]
    pub(crate) fn room(&self) -> bool
        ensures { IsTrue result ↔ (length self.now.values < self.now.depth) }
    {
        self.count < self.depth
    }

    /// Puts a value behind the others.
    pub(crate) fn assert_value(&mut self, words: &[u64])
        requires room { length self.old.values < self.old.depth }
        requires whole { length words.now ≡ self.old.size }
        ensures { self.new ≡ record self.old { values = self.old.values ++ words.now ∷ [] } }
    {
        // The words are written last: the compiler then reads no field twice.
        let start = self.next;
        self.next = on_from(start + self.size, self.words.len());
        self.count += 1;
        write_row(words, &mut self.words, start);
    }

    /// How many values it holds.
    pub(crate) fn count(&self) -> u32
        ensures count { result ≡ length self.now.values }
        ensures within { length self.now.values ≤ self.now.depth }
    {
        self.count as u32
    }

    /// The oldest value.
    #[inline(always)]
    pub(crate) fn front(&self) -> &[u64]
        requires { 1 ≤ length self.now.values }
        ensures { slice_get self.now.values 0 ≡ Some result.now }
    {
        row_at(&self.words, self.first, self.size)
    }

    /// The value at a place, the oldest at 0.
    #[inline(always)]
    pub(crate) fn nth(&self, i: u32) -> &[u64]
        requires { i < length self.now.values }
        ensures { slice_get self.now.values i ≡ Some result.now }
    {
        let start = wrapped(self.first + i as usize * self.size, self.words.len());
        row_at(&self.words, start, self.size)
    }
}

// A place in a ring, or the beginning of the ring where the place is at its end.
#[inline(always)]
fn on_from(place: usize, end: usize) -> usize
    ensures { result ≡ on_from place end }
{
    if place < end { place } else { 0 }
}

// A place in a ring, once round it or not.
#[inline(always)]
fn wrapped(place: usize, end: usize) -> usize
    ensures { result ≡ wrapped place end }
{
    if place < end { place } else { place - end }
}

// The words of a row.
#[inline(always)]
fn row_at(words: &[u64], start: usize, size: usize) -> &[u64]
    requires { start + size ≤ length words.now }
    ensures { result.now ≡ take size (drop start words.now) }
{
    &words[start..start + size]
}

// Writes the words of a row.
#[inline(always)]
fn write_row(row: &[u64], into: &mut [u64], start: usize)
    requires { start + length row.now ≤ length into.old }
    ensures room { length into.new ≡ length into.old }
    ensures words { into.new ≡ take start into.old ++ row.now ++ drop (start + length row.now) into.old }
{
    // Most values have one word, for which a call that copies takes longer than the copy.
    if row.len() == 1 {
        into[start] = row[0];
    } else {
        into[start..start + row.len()].copy_from_slice(row);
    }
}

// Writes the words of the value at the front, if there is one, and answers how many there are.
fn write_first(
    types: &Types,
    ty: &Ty,
    initial: &Option<Value>,
    size: usize,
    into: &mut [u64],
) -> usize
    requires sizes { HaveTheirSizes types.now }
    requires readable { HaveReadableSizes types.now }
    requires typed { (value : Value) → initial.now ≡ Some value → is_value types.now ty.now value ≡ true }
    requires size { size ≡ size_of types.now ty.now }
    requires room { size ≤ length into.old }
    ensures count { result ≡ length (option_to_list initial.now) }
    ensures room { length into.new ≡ length into.old }
    ensures words { (value : Value) → initial.now ≡ Some value → take size into.new ≡ flat types.now ty.now value }
{
    match initial {
        None => 0,
        Some(value) => {
            flatten(types, ty, value, &mut into[..size]);
            1
        }
    }
}
