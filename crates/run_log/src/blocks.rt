//! The lines of a block, one by one.
ghost use Rattle.std.specs.Prelude.{◌≡◌, ◌≤◌, ◌+◌, ◌++◌, length, Some, slice_get};
ghost use Rattle.hume_text.specs.Chunks.{bytes_in, room_of};
ghost use Rattle.phase_workers.specs.Engines.{core_of};
ghost use Rattle.phase_workers.specs.Runnable.{IsRunnable};
ghost use Rattle.trace_print.specs.Rooms.{line_room};
ghost use Rattle.run_log.specs.Logs.{heading};
ghost use Rattle.run_log.specs.Nets.{engine_in};
ghost use Rattle.run_log.specs.inner.Blocks.{block_in};

use crate::half::Half;
use crate::net::Net;
use hume_text::Chunk;
use itoa::Buffer;
use trace_print::{lines_are_short, wire_line};

/// Puts the line at a place of the block of a net, as the only one: at first the heading, with the number of the superstep.
pub(crate) fn block_line(net: &Net, superstep: u32, place: usize, chunk: &mut Chunk)
    requires runnable { IsRunnable (core_of (engine_in net.now)) }
    requires there { place ≤ length (core_of (engine_in net.now)).wires }
    requires room { line_room (core_of (engine_in net.now)) ≤ room_of chunk.old }
    ensures line { slice_get (block_in net.now superstep) place ≡ Some (bytes_in chunk.new) }
    ensures room { room_of chunk.new ≡ room_of chunk.old }
{
    chunk.clear();
    if place == 0 {
        put_heading(net.half(), superstep, chunk);
    } else {
        let wire = place as u32 - 1;
        wire_line(net.core(), net.wire(wire), chunk);
    }
}

fn put_heading(half: Half, superstep: u32, chunk: &mut Chunk)
    requires { length (bytes_in chunk.old) + 128 ≤ room_of chunk.old }
    ensures line { bytes_in chunk.new ≡ bytes_in chunk.old ++ heading half superstep }
    ensures room { room_of chunk.new ≡ room_of chunk.old }
{
    lines_are_short();
    match half {
        Half::Mid => chunk.put(b"mid "),
        Half::End => chunk.put(b"end "),
    }
    chunk.put(Buffer::new().format(superstep).as_bytes());
    chunk.put(b"\n");
}
