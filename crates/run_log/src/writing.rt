//! A block of a log, written to a port.
ghost use Rattle.std.specs.Prelude.{◌≡◌, ◌≤◌, ◌<◌, [], ◌∷◌, length, map};
ghost use Rattle.hume_ports.specs.Ports.{names, ForNameAt};
ghost use Rattle.hume_text.specs.Chunks.{bytes_in, room_of};
ghost use Rattle.port_acts.specs.Acts.{writes};
ghost use Rattle.port_acts.specs.Ends.{Ends, never};
ghost use Rattle.phase_workers.specs.Engines.{core_of};
ghost use Rattle.phase_workers.specs.Runnable.{IsRunnable};
ghost use Rattle.trace_print.specs.InTurn.{EndsLines};
ghost use Rattle.trace_print.specs.Rooms.{line_room};
ghost use Rattle.run_log.specs.Nets.{engine_in};
ghost use Rattle.run_log.specs.inner.Blocks.{block_in};

use crate::blocks::block_line;
use crate::net::Net;
use hume_ports::{Failed, Port};
use hume_text::Chunk;
use port_acts::write_act;

/// Writes the block of a net to the port at that place, each line by a write of its own.
pub(crate) fn write_block(
    net: &Net,
    superstep: u32,
    ports: &mut [Box<dyn Port>],
    at: usize,
    chunk: &mut Chunk,
) -> Result<(), Failed>
    requires runnable { IsRunnable (core_of (engine_in net.now)) }
    requires place { at < length ports.old }
    requires room { line_room (core_of (engine_in net.now)) ≤ room_of chunk.old }
    ensures ends { EndsLines at (block_in net.now superstep) (map view ports.old) (map view ports.new) result }
    ensures same_names { names (map view ports.new) ≡ names (map view ports.old) }
    ensures room { room_of chunk.new ≡ room_of chunk.old }
{
    let count = net.core().wires.len() + 1;
    for place in 0..count {
        block_line(net, superstep, place, chunk);
        match write_line(ports, at, chunk) {
            Ok(()) => {}
            Err(failed) => return Err(failed),
        }
    }
    Ok(())
}

// Writes what the chunk holds.
fn write_line(ports: &mut [Box<dyn Port>], at: usize, chunk: &Chunk) -> Result<(), Failed>
    requires { at < length ports.old }
    ensures ends { ForNameAt at (map view ports.old) (λ name.
        Ends never [] (writes name (bytes_in chunk.now) ∷ []) [] (map view ports.old) (map view ports.new) result) }
    ensures same_names { names (map view ports.new) ≡ names (map view ports.old) }
{
    write_act(ports, at, chunk.bytes())
}
