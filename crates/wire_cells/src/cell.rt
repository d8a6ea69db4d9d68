//! The cell of a wire. What it holds is behind a pointer, so a cell is small where it is moved.
ghost use Rattle.std.specs.Prelude.{◌≡◌, ◌<◌, ◌≤◌, ◌+◌, ◌^◌, ◌↔◌, ◌∷◌, ◌++◌, [], length, drop, Some, slice_get, IsTrue, IfOk};
ghost use Rattle.hume_model.specs.declared.core_tree.WireC.{WireC};
ghost use Rattle.hume_model.specs.WellFormed.{HasSoundFrame};
ghost use Rattle.wire_cells.specs.Cells.{first_cell};

use crate::ring::Ring;
use hume_model::Core;
use std::alloc::{AllocError, Global};
use std::marker::Model;

/// The values on a wire, the oldest first, with the number of the wire and its time.
#[derive(Drop)]
pub struct WireCell {
    ring: Box<Ring>,
}

impl Model for WireCell {
    ghost use Rattle.wire_cells.specs.Cells.{CellView};

    ghost Value = { CellView };

    ghost view = { λ cell. cell.ring.value };
}

impl WireCell {
    /// The cell of a wire of the core, with the wire's initial value alone or with none.
    pub fn make(alloc: Global, core: &Core, number: u32) -> Result<WireCell, AllocError>
        requires core { HasSoundFrame core.now }
        requires number { number < length core.now.wires }
        ensures { IfOk result (λ cell. (wire : WireC) → slice_get core.now.wires number ≡ Some wire → cell ≡ first_cell core.now number wire) }
    {
        let ring = Ring::make(alloc, core, number)?;
        Ok(WireCell {
            ring: Box::new(alloc, ring)?,
        })
    }

    pub fn number(&self) -> u32
        ensures { result ≡ self.now.number }
    {
        self.ring.number()
    }

    /// How many half steps of the nodes at the ends of its wire it has gone through.
    #[inline(always)]
    pub fn time(&self) -> u64
        ensures { result ≡ self.now.time }
    {
        self.ring.time()
    }

    /// Goes on by one half step.
    #[inline(always)]
    pub fn tick(&mut self)
        requires { self.old.time < 2 ^ 40 }
        ensures { self.new ≡ record self.old { time = self.old.time + 1 } }
    {
        self.ring.tick();
    }

    /// Goes back to time 0, and keeps all else.
    pub fn begin(&mut self)
        ensures { self.new ≡ record self.old { time = 0 } }
    {
        self.ring.begin();
    }

    /// Whether it holds a value.
    #[inline(always)]
    pub fn full(&self) -> bool
        ensures { IsTrue result ↔ (1 ≤ length self.now.values) }
    {
        self.ring.full()
    }

    /// The oldest value.
    #[inline(always)]
    pub fn words(&self) -> &[u64]
        requires { 1 ≤ length self.now.values }
        ensures { slice_get self.now.values 0 ≡ Some result.now }
    {
        self.ring.front()
    }

    /// Drops the oldest value.
    #[inline(always)]
    pub fn take(&mut self)
        requires { 1 ≤ length self.old.values }
        ensures { self.new ≡ record self.old { values = drop 1 self.old.values } }
    {
        self.ring.take();
    }

    /// Whether it holds fewer values than it may.
    #[inline(always)]
    pub fn room(&self) -> bool
        ensures { IsTrue result ↔ (length self.now.values < self.now.depth) }
    {
        self.ring.room()
    }

    /// Puts a value behind the others.
    #[inline(always)]
    pub fn assert_value(&mut self, words: &[u64])
        requires room { length self.old.values < self.old.depth }
        requires whole { length words.now ≡ self.old.size }
        ensures { self.new ≡ record self.old { values = self.old.values ++ words.now ∷ [] } }
    {
        self.ring.assert_value(words);
    }

    /// How many values it holds, which are no more than its depth.
    pub fn count(&self) -> u32
        ensures count { result ≡ length self.now.values }
        ensures within { length self.now.values ≤ self.now.depth }
    {
        self.ring.count()
    }

    /// The value at a place, the oldest at 0.
    #[inline(always)]
    pub fn nth(&self, i: u32) -> &[u64]
        requires { i < length self.now.values }
        ensures { slice_get self.now.values i ≡ Some result.now }
    {
        self.ring.nth(i)
    }
}
