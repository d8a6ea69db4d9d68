ghost use Rattle.std.specs.Prelude.{◌≡◌, ◌<◌, ◌≤◌, ◌+◌, ◌++◌, ◌↔◌, min, [], length, take, true, false, IfOk, IsNone, IsOk, vec_len, vec_capacity};
ghost use Rattle.hume_ports.specs.Port.{IsRead, IsWrite, IsFinish, next_count};
ghost use Rattle.hume_ports.specs.Memory.{told_room, listed, counted, due, accepted};

use crate::port::raise;
use crate::{Failed, Port};
use std::alloc::{AllocError, Global};

/// That a call fails: its number, where reads, writes and finishes are counted together from 1, and how many
/// bytes a write takes before it does.
#[derive(Clone, Copy)]
pub struct Fail {
    pub call: u32,
    pub taken: u32,
}

/// A port in memory, which gives its bytes in pieces, has a room, and fails at the calls that it is told.
#[derive(Drop)]
pub struct MemPort {
    name: String,
    incoming: Vec<u8>,
    taken: usize,
    piece: usize,
    output: Vec<u8>,
    room: usize,
    failing: Vec<Fail>,
    calls: u64,
    read_faults: u64,
    write_faults: u64,
    finish_faults: u64,
    flushed: bool,
    ghost within: { taken ≤ vec_len incoming },
    ghost moves: { 0 < piece },
    ghost fits: { vec_len output ≤ room },
    ghost reserved: { room ≤ vec_capacity output },
}

impl MemPort {
    ghost use Rattle.hume_ports.specs.MemoryPort.{memory_view, script_of, left_bytes, output_bytes};

    /// A port with these bytes to read, at most `piece` at a call, and with room for `room` bytes. All memory is
    /// taken here.
    pub fn make(
        alloc: Global,
        name: &str,
        bytes: &[u8],
        piece: u32,
        room: u32,
        failing: &[Fail],
    ) -> Result<MemPort, AllocError>
        requires { 0 < piece }
        ensures port { IfOk result (λ port. memory_view port ≡ record {
          name = name.now;
          left = Some bytes.now;
          bytes = Some [];
          read_faults = 0;
          write_faults = 0;
          finish_faults = 0;
          room = told_room failing.now room;
          flushed = false;
          shown = true;
        }) }
        ensures script { IfOk result (λ port.
            script_of port ≡ record { calls = 0; piece = piece; room = room; failing = failing.now }) }
    {
        Ok(MemPort {
            name: String::from_str(alloc, name)?,
            incoming: Vec::from_slice(alloc, bytes)?,
            taken: 0,
            piece: piece as usize,
            output: Vec::with_capacity(alloc, room as usize)?,
            room: room as usize,
            failing: Vec::from_slice(alloc, failing)?,
            calls: 0,
            read_faults: 0,
            write_faults: 0,
            finish_faults: 0,
            flushed: false,
        })
    }

    // Counts a call, and answers how many bytes it may take if it is to fail.
    fn next_call(&mut self) -> Option<u32>
        ensures due { result ≡ due (script_of self.new) }
        ensures rest { self.new ≡ record self.old { calls = next_count self.old.calls } }
    {
        self.calls = self.calls.saturating_add(1);
        listed(&self.failing, self.calls)
    }
}

impl Port for MemPort {
    ghost use Rattle.hume_ports.specs.MemoryPort.{memory_view, script_of, left_bytes, output_bytes};

    ghost view = { memory_view };

    fn name(&self) -> &str {
        self.name.as_str()
    }

    fn read(&mut self, buf: &mut [u8]) -> Result<usize, Failed>
        ensures port { IsRead (memory_view self.old) (memory_view self.new) result buf.new }
        ensures script { script_of self.new ≡ counted (script_of self.old) }
        ensures listed { IsOk result ↔ IsNone (due (script_of self.new)) }
        ensures piece { IfOk result (λ count.
            count ≡ min (script_of self.old).piece (min (length buf.new) (length (left_bytes self.old)))) }
    {
        if self.next_call().is_some() {
            return Err(raise(&mut self.read_faults));
        }
        let count = copy_front(&self.incoming[self.taken..], self.piece, buf);
        self.taken += count;
        Ok(count)
    }

    fn write(&mut self, bytes: &[u8]) -> Result<(), Failed>
        ensures port { IsWrite (memory_view self.old) (memory_view self.new) result bytes.now }
        ensures script { script_of self.new ≡ counted (script_of self.old) }
        ensures listed { IsOk result ↔ (IsNone (due (script_of self.new))
            × (length (output_bytes self.old) + length bytes.now ≤ (script_of self.old).room)) }
        ensures taken { output_bytes self.new ≡ output_bytes self.old
            ++ accepted (script_of self.new) (output_bytes self.old) bytes.now }
    {
        self.flushed = false;
        let failing = self.next_call();
        let wanted = match failing {
            Some(taken) => bytes.len().min(taken as usize),
            None => bytes.len(),
        };
        let count = wanted.min(self.room - self.output.len());
        self.output.extend_from_slice(&bytes[..count]).unwrap();
        if failing.is_some() || count < bytes.len() {
            return Err(raise(&mut self.write_faults));
        }
        Ok(())
    }

    fn finish(&mut self) -> Result<(), Failed>
        ensures port { IsFinish (memory_view self.old) (memory_view self.new) result }
        ensures script { script_of self.new ≡ counted (script_of self.old) }
        ensures listed { IsOk result ↔ IsNone (due (script_of self.new)) }
    {
        if self.next_call().is_some() {
            self.flushed = false;
            return Err(raise(&mut self.finish_faults));
        }
        self.flushed = true;
        Ok(())
    }

    fn written(&self) -> Option<&[u8]> {
        Some(self.output.as_slice())
    }
}

// Moves the lesser of `piece` and what there is and what fits from the front of `left` to the front of `buf`.
fn copy_front(left: &[u8], piece: usize, buf: &mut [u8]) -> usize
    ensures count { result ≡ min piece (min (length buf.new) (length left.now)) }
    ensures same { take result buf.new ≡ take result left.now }
{
    let count = left.len().min(piece).min(buf.len());
    buf[..count].copy_from_slice(&left[..count]);
    count
}

// How many bytes the call with that number may take, if it is to fail.
fn listed(failing: &[Fail], call: u64) -> Option<u32>
    ensures { result ≡ listed call failing.now }
{
    for fail in failing {
        if u64::from(fail.call) == call {
            return Some(fail.taken);
        }
    }
    None
}
