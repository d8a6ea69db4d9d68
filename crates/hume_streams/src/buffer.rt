ghost use Rattle.std.specs.Prelude.{◌≡◌, ◌+◌, ◌<◌, ◌≤◌, ◌++◌, ℕ, false, true, List, [], length, drop, take, IfOk, OnOk, OnErr, MatchOption, slice_index, vec_len, vec_capacity};
ghost use Rattle.hume_base.specs.declared.limits.TheConstants.{MAX_LINE_BYTES};
ghost use Rattle.hume_ports.specs.Port.{IsRead};
ghost use Rattle.hume_streams.specs.inner.Newlines.{HasNoNewline};

use crate::rows::remove_front;
use hume_base::limits::MAX_LINE_BYTES;
use hume_ports::{Failed, Port};
use std::alloc::{AllocError, Global};

// Bytes that are read at once, at most.
const PIECE_BYTES: usize = 4_096;

/// What stands at the front of a buffer.
#[derive(Clone, Copy)]
pub enum Next {
    /// A line of so many bytes.
    Line(usize),
    /// A line that is longer than a line may be.
    TooLong,
    /// Nothing, and nothing more will come.
    End,
}

/// Bytes that came from a port and were not taken as lines yet. All memory is taken when it is made.
#[derive(Drop)]
pub struct LineBuffer {
    bytes: Vec<u8>,
    // the bytes of lines that were taken, at the front
    start: usize,
    ended: bool,
    ghost within: { start ≤ vec_len bytes },
    ghost short: { vec_len bytes ≤ start + (MAX_LINE_BYTES + 1) },
    ghost reserved: { MAX_LINE_BYTES + 1 ≤ vec_capacity bytes },
}

impl LineBuffer {
    ghost use Rattle.hume_streams.specs.Contents.{unread_in};
    ghost use Rattle.hume_streams.specs.Lines.{whole_lines};
    ghost use Rattle.hume_streams.specs.inner.Buffers.{IsNext, Draws, FailsAfter};

    pub fn make(alloc: Global) -> Result<LineBuffer, AllocError>
        ensures { IfOk result (λ buffer. (unread_in buffer ≡ []) × (buffer.ended ≡ false)) }
    {
        Ok(LineBuffer {
            bytes: Vec::with_capacity(alloc, MAX_LINE_BYTES + 1)?,
            start: 0,
            ended: false,
        })
    }

    pub fn unread(&self) -> &[u8]
        ensures { result.now ≡ unread_in self.now }
    {
        &self.bytes[self.start..]
    }

    /// Reads from the port until a whole line stands at the front, or it is too long, or nothing more comes.
    pub fn next_line(&mut self, port: &mut Box<dyn Port>) -> Result<Next, Failed>
        ensures next { IfOk result (λ next. Draws self.old self.new (view port.old) (view port.new)
            × IsNext (unread_in self.new) self.new.ended next) }
        ensures failed { OnErr result (FailsAfter self.old self.new (view port.old) (view port.new)) }
    {
        let mut scanned = 0;
        'pieces: loop {
            if let Some(count) = newline_from(self.unread(), scanned) {
                return Ok(Next::Line(count));
            }
            scanned = self.unread().len();
            if scanned > MAX_LINE_BYTES {
                return Ok(Next::TooLong);
            }
            if self.ended {
                return Ok(if scanned == 0 {
                    Next::End
                } else {
                    Next::Line(scanned)
                });
            }
            self.read_more(port)?;
        }
    }

    fn read_more(&mut self, port: &mut Box<dyn Port>) -> Result<(), Failed>
        requires short { length (unread_in self.old) ≤ MAX_LINE_BYTES }
        requires going { self.old.ended ≡ false }
        requires begun { whole_lines (unread_in self.old) ≡ [] }
        ensures drawn { OnOk result (Draws self.old self.new (view port.old) (view port.new)) }
        ensures more { OnOk result (self.new.ended ≡ false → length (unread_in self.old) < length (unread_in self.new)) }
        ensures failed { OnErr result (FailsAfter self.old self.new (view port.old) (view port.new)) }
    {
        let mut piece = [0; PIECE_BYTES];
        let spare = MAX_LINE_BYTES + 1 - self.unread().len();
        let room = spare.min(PIECE_BYTES);
        let count = read_piece(port, &mut piece[..room])?;
        self.add(&piece[..count]);
        self.ended = count == 0;
        Ok(())
    }

    // Puts bytes behind those that are there.
    fn add(&mut self, bytes: &[u8])
        requires { length (unread_in self.old) + length bytes.now ≤ MAX_LINE_BYTES + 1 }
        ensures unread { unread_in self.new ≡ unread_in self.old ++ bytes.now }
        ensures ended { self.new.ended ≡ self.old.ended }
    {
        if self.start > 0 {
            remove_front(&mut self.bytes, self.start);
            self.start = 0;
        }
        self.bytes.extend_from_slice(bytes).unwrap();
    }

    /// Forgets the bytes that are there, and that no more come.
    pub fn forget(&mut self)
        ensures unread { unread_in self.new ≡ [] }
        ensures ended { self.new.ended ≡ false }
    {
        self.bytes.clear();
        self.start = 0;
        self.ended = false;
    }

    /// Takes a line of so many bytes and its newline from the front.
    pub fn take_line(&mut self, count: usize)
        requires { count ≤ length (unread_in self.old) }
        ensures unread { unread_in self.new ≡ drop (count + 1) (unread_in self.old) }
        ensures ended { self.new.ended ≡ self.old.ended }
    {
        self.start = (self.start + count + 1).min(self.bytes.len());
    }
}

fn read_piece(port: &mut Box<dyn Port>, piece: &mut [u8]) -> Result<usize, Failed>
    requires { 0 < length piece.old }
    ensures read { IsRead (view port.old) (view port.new) result piece.new }
    ensures some { 0 < length piece.new }
{
    port.read(piece)
}

// The place of the first newline, where none stands before the place that is given.
fn newline_from(bytes: &[u8], scanned: usize) -> Option<usize>
    requires within { scanned ≤ length bytes.now }
    requires before { HasNoNewline (take scanned bytes.now) }
    ensures { MatchOption result (HasNoNewline bytes.now)
        (λ place. (place < length bytes.now) × (slice_index bytes.now place ≡ 10) × HasNoNewline (take place bytes.now)) }
{
    for place in scanned..bytes.len() {
        if bytes[place] == b'\n' {
            return Some(place);
        }
    }
    None
}
