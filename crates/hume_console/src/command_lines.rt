ghost use Rattle.std.specs.Prelude.{◌≡◌, ◌+◌, ◌<◌, ◌≤◌, ◌++◌, false, [], length, take, drop, map, slice_index, IfOk, MatchOption, OnOk, OnErr, vec_len, vec_capacity};
ghost use Rattle.hume_ports.specs.Ports.{names, ForNameAt};
ghost use Rattle.hume_streams.specs.Lines.{whole_lines};
ghost use Rattle.hume_streams.specs.inner.Newlines.{HasNoNewline};
ghost use Rattle.hume_console.specs.declared.command_lines.TheConstants.{MAX_COMMAND_BYTES};

use hume_ports::{Failed, Port};
use port_acts::read_act;
use std::alloc::{AllocError, Global};

/// The most bytes of a line, without its newline.
pub const MAX_COMMAND_BYTES: usize = 255;

/// What stands at the front of what was read.
#[derive(Clone, Copy)]
pub enum Next {
    /// A line of so many bytes.
    Line(usize),
    /// A line that is longer than a line may be.
    TooLong,
    /// Nothing, and nothing more will come.
    End,
}

/// Bytes that were read of the commands and were not taken as lines yet. All memory is taken when it is made.
#[derive(Drop)]
pub struct CommandLines {
    bytes: Vec<u8>,
    ended: bool,
    ghost short: { vec_len bytes ≤ MAX_COMMAND_BYTES + 1 },
    ghost reserved: { MAX_COMMAND_BYTES + 1 ≤ vec_capacity bytes },
}

impl CommandLines {
    ghost use Rattle.hume_console.specs.inner.CommandBuffers.{unread_in, IsNext, ReadsOn, FailsReading};

    pub fn make(alloc: Global) -> Result<CommandLines, AllocError>
        ensures { IfOk result (λ lines. (unread_in lines ≡ []) × (lines.ended ≡ false)) }
    {
        Ok(CommandLines {
            bytes: Vec::with_capacity(alloc, MAX_COMMAND_BYTES + 1)?,
            ended: false,
        })
    }

    pub fn unread(&self) -> &[u8]
        ensures { result.now ≡ unread_in self.now }
    {
        &self.bytes
    }

    /// Reads from the port at that place until a whole line stands at the front, or it is too long, or nothing more comes. It reads
    /// only if no whole line stands there.
    pub fn next(&mut self, ports: &mut [Box<dyn Port>], at: usize) -> Result<Next, Failed>
        requires { at < length ports.old }
        ensures reads { OnOk result (ForNameAt at (map view ports.old) (λ name.
            ReadsOn self.old self.new name (map view ports.old) (map view ports.new))) }
        ensures next { IfOk result (IsNext (unread_in self.new) self.new.ended) }
        ensures failed { OnErr result (ForNameAt at (map view ports.old) (λ name.
            FailsReading self.old name (map view ports.old) (map view ports.new))) }
        ensures same_names { names (map view ports.new) ≡ names (map view ports.old) }
    {
        'pieces: loop {
            if let Some(length) = newline_in(self.unread()) {
                return Ok(Next::Line(length));
            }
            let count = self.unread().len();
            if count > MAX_COMMAND_BYTES {
                return Ok(Next::TooLong);
            }
            if self.ended {
                return Ok(if count == 0 {
                    Next::End
                } else {
                    Next::Line(count)
                });
            }
            match self.read_more(ports, at) {
                Ok(()) => {}
                Err(failed) => return Err(failed),
            }
        }
    }

    // Reads once.
    fn read_more(&mut self, ports: &mut [Box<dyn Port>], at: usize) -> Result<(), Failed>
        requires place { at < length ports.old }
        requires room { length (unread_in self.old) ≤ MAX_COMMAND_BYTES }
        requires going { self.old.ended ≡ false }
        requires begun { whole_lines (unread_in self.old) ≡ [] }
        ensures reads { OnOk result (ForNameAt at (map view ports.old) (λ name.
            ReadsOn self.old self.new name (map view ports.old) (map view ports.new))) }
        ensures more { OnOk result (self.new.ended ≡ false → length (unread_in self.old) < length (unread_in self.new)) }
        ensures failed { OnErr result (ForNameAt at (map view ports.old) (λ name.
            FailsReading self.old name (map view ports.old) (map view ports.new))) }
        ensures same_names { names (map view ports.new) ≡ names (map view ports.old) }
    {
        let mut piece = [0; MAX_COMMAND_BYTES + 1];
        let room = MAX_COMMAND_BYTES + 1 - self.unread().len();
        let count = match read_act(ports, at, &mut piece[..room]) {
            Ok(count) => count,
            Err(failed) => return Err(failed),
        };
        self.add(&piece[..count]);
        self.ended = count == 0;
        Ok(())
    }

    // Puts bytes behind those that are there.
    fn add(&mut self, bytes: &[u8])
        requires { length (unread_in self.old) + length bytes.now ≤ MAX_COMMAND_BYTES + 1 }
        ensures unread { unread_in self.new ≡ unread_in self.old ++ bytes.now }
        ensures ended { self.new.ended ≡ self.old.ended }
    {
        self.bytes.extend_from_slice(bytes).unwrap();
    }

    /// Takes a line of so many bytes and its newline from the front.
    pub fn take_line(&mut self, count: usize)
        requires { count ≤ length (unread_in self.old) }
        ensures unread { unread_in self.new ≡ drop (count + 1) (unread_in self.old) }
        ensures ended { self.new.ended ≡ self.old.ended }
    {
        let all = self.bytes.len();
        let taken = (count + 1).min(all);
        self.bytes.copy_within(taken..all, 0);
        self.bytes.truncate(all - taken);
    }
}

// The place of the first newline.
fn newline_in(bytes: &[u8]) -> Option<usize>
    ensures { MatchOption result (HasNoNewline bytes.now)
        (λ place. (place < length bytes.now) × (slice_index bytes.now place ≡ 10) × HasNoNewline (take place bytes.now)) }
{
    for place in 0..bytes.len() {
        if bytes[place] == b'\n' {
            return Some(place);
        }
    }
    None
}
