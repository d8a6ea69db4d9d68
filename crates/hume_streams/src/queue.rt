ghost use Rattle.std.specs.Prelude.{◌≡◌, ℕ, List, ◌<◌, ◌≤◌, false, true, [], ◌∷◌, length, drop, take, slice_get, IfOk, IsOk, IsTrue, IsFalse, Some, vec_len};

use crate::buffer::{LineBuffer, Next};
use crate::line::{is_empty, without_return};
use crate::rows::Rows;
use hume_base::limits::MAX_EMPTY_LINES;
use hume_base::{Ty, Types, size};
use hume_ports::Port;
use hume_text::read_value;
use std::alloc::{AllocError, Global};
use thiserror::Error;

/// Why a fill doesn't get what is wanted.
#[derive(Debug, Drop, Error)]
pub enum FillError {
    /// The line of that number, counted from 1, is bad.
    #[error("line {0} is bad")]
    BadValue(u64),
    #[error("a read of the port failed")]
    Failed,
}

/// Values of a type that come from the lines of a port, in order. All memory is taken when it is made.
#[derive(Drop)]
pub struct InQueue {
    rows: Rows,
    // the words of the line that is read
    words: Vec<u64>,
    buffer: LineBuffer,
    lines: u64,
    empty_lines: u32,
    ghost one_value: { vec_len words ≡ rows.width },
}

impl InQueue {
    ghost use Rattle.hume_base.specs.declared.limits.TheConstants.{MAX_TYPE_WORDS};
    ghost use Rattle.hume_base.specs.declared.types.Ty.{Ty};
    ghost use Rattle.hume_base.specs.declared.types.Types.{Types};
    ghost use Rattle.hume_base.specs.declared.types.Value.{Value};
    ghost use Rattle.hume_base.specs.Sizes.{size_of, HaveTheirSizes};
    ghost use Rattle.hume_text.specs.Bounds.{IsPrintable};
    ghost use Rattle.hume_text.specs.Names.{HaveNames};
    ghost use Rattle.hume_streams.specs.Queues.{queue_view, first_view, rebound, IsQueueOf, GivesFirst};
    ghost use Rattle.hume_streams.specs.Fills.{Fills};
    ghost use Rattle.hume_streams.specs.inner.Steps.{IsStep, IsRefused};
    ghost use Rattle.hume_ports.specs.Port.{next_count};

    /// A queue with room for so many values and for a line.
    pub fn make(alloc: Global, types: &Types, ty: &Ty, span: u32) -> Result<InQueue, AllocError>
        requires sizes { HaveTheirSizes types.now }
        requires small { size_of types.now ty.now ≤ MAX_TYPE_WORDS }
        ensures first { IfOk result (λ queue. queue_view queue ≡ first_view (size_of types.now ty.now) span) }
        ensures right { IfOk result (λ queue. (text : List ℕ) → IsQueueOf types.now ty.now (queue_view queue) text [] text) }
    {
        let width = size(types, ty);
        Ok(InQueue {
            rows: Rows::make(alloc, width, span)?,
            words: Vec::from_elem(alloc, 0, width as usize)?,
            buffer: LineBuffer::make(alloc)?,
            lines: 0,
            empty_lines: 0,
        })
    }

    /// How many values it holds.
    pub fn count(&self) -> u32
        ensures { result ≡ length (queue_view self.now).values }
    {
        self.rows.count()
    }

    /// The words of the first value.
    pub fn front(&self) -> &[u64]
        requires { 0 < length (queue_view self.now).values }
        ensures { slice_get (queue_view self.now).values 0 ≡ Some result.now }
    {
        self.rows.at(0)
    }

    /// Gives the first value away.
    pub fn drop_front(&mut self)
        requires { 0 < length (queue_view self.old).values }
        ensures values { queue_view self.new ≡ record (queue_view self.old) { values = drop 1 (queue_view self.old).values } }
        ensures given { (types : Types) (ty : Ty) (text : List ℕ) (given : List Value) (rest : List ℕ)
            → IsQueueOf types ty (queue_view self.old) text given rest → GivesFirst types ty (queue_view self.old) (queue_view self.new) text given rest }
    {
        self.rows.drop_front();
    }

    /// Reads lines until it holds as many values as are wanted, or the port is at its end, or a line is bad. It reads no line
    /// that it doesn't need, though a read of the port may bring more bytes. It takes no memory.
    pub fn fill(
        &mut self,
        types: &Types,
        ty: &Ty,
        port: &mut Box<dyn Port>,
        want: u32,
    ) -> Result<(), FillError>
        requires sizes { HaveTheirSizes types.now }
        requires names { HaveNames types.now }
        requires printable { IsPrintable types.now ty.now }
        requires own_type { size_of types.now ty.now ≡ (queue_view self.old).width }
        requires span { want ≤ (queue_view self.old).span }
        ensures fills { Fills types.now ty.now want (queue_view self.old) (queue_view self.new) (view port.old) (view port.new) result }
        ensures idle { want ≤ length (queue_view self.old).values
            → (queue_view self.new ≡ queue_view self.old) × (view port.new ≡ view port.old) × IsOk result }
    {
        'values: while self.count() < want {
            match self.buffer.next_line(port) {
                Err(_) => return Err(FillError::Failed),
                Ok(Next::End) => return Ok(()),
                Ok(Next::TooLong) => return Err(self.bad_line()),
                Ok(Next::Line(count)) => {
                    if !self.read_line(types, ty, count) {
                        return Err(self.bad_line());
                    }
                }
            }
        }
        Ok(())
    }

    /// Goes on with another port, whose lines count from 1: it forgets all that it read of the old port but the values that it holds.
    /// It takes no memory.
    pub fn rebind(&mut self)
        ensures { queue_view self.new ≡ rebound (queue_view self.old) }
    {
        self.buffer.forget();
        self.lines = 0;
        self.empty_lines = 0;
    }

    // Reads the line of so many bytes at the front, unless it is bad.
    fn read_line(&mut self, types: &Types, ty: &Ty, count: usize) -> bool
        requires sizes { HaveTheirSizes types.now }
        requires names { HaveNames types.now }
        requires printable { IsPrintable types.now ty.now }
        requires own_type { size_of types.now ty.now ≡ (queue_view self.old).width }
        requires room { length (queue_view self.old).values < (queue_view self.old).span }
        requires within { count ≤ length (queue_view self.old).unread }
        ensures good { IsTrue result → IsStep types.now ty.now count (take count (queue_view self.old).unread) (queue_view self.old) (queue_view self.new) }
        ensures bad { IsFalse result → IsRefused types.now ty.now (take count (queue_view self.old).unread) (queue_view self.old) }
        ensures kept { IsFalse result → queue_view self.new ≡ queue_view self.old }
    {
        let line = &self.buffer.unread()[..count];
        if is_empty(line) {
            if self.empty_lines >= MAX_EMPTY_LINES {
                return false;
            }
            self.empty_lines += 1;
        } else {
            if !read_value(types, ty, without_return(line), self.words.as_mut_slice()) {
                return false;
            }
            self.rows.push(self.words.as_slice());
            self.empty_lines = 0;
        }
        self.buffer.take_line(count);
        self.lines = self.lines.saturating_add(1);
        true
    }

    // The line behind those that were read, as a bad one.
    fn bad_line(&self) -> FillError
        ensures { result ≡ FillError.BadValue (next_count (queue_view self.now).lines) }
    {
        FillError::BadValue(self.lines.saturating_add(1))
    }
}
