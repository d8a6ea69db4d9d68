//! A block of a log, compared with what is read from a port.
ghost use Rattle.std.specs.Prelude.{◌≡◌, ◌≤◌, ◌<◌, [], ◌∷◌, length, map};
ghost use Rattle.hume_ports.specs.Ports.{names, ForNameAt, Untouched};
ghost use Rattle.hume_text.specs.Chunks.{bytes_in, room_of};
ghost use Rattle.phase_workers.specs.Engines.{core_of, state_of};
ghost use Rattle.phase_workers.specs.Runnable.{IsRunnable};
ghost use Rattle.trace_print.specs.Rooms.{line_room};
ghost use Rattle.run_log.specs.Compared.{AsksEnd, Compares};
ghost use Rattle.run_log.specs.Nets.{engine_in, half_in};
ghost use Rattle.run_log.specs.inner.LinesRead.{ReadsLine};

use crate::blaming::{fault_of, first_of};
use crate::blocks::block_line;
use crate::fault::LogFault;
use crate::line_read::{LineRead, line_read};
use crate::net::Net;
use hume_ports::{Failed, Port, fill_at, read_at};
use hume_text::Chunk;

/// Reads as many bytes of the port at that place as the block of a net has, or all if fewer are left, and finds the first line of the
/// block that differs.
pub(crate) fn compare_block(
    net: &Net,
    superstep: u32,
    ports: &mut [Box<dyn Port>],
    at: usize,
    chunk: &mut Chunk,
    buffer: &mut [u8],
) -> Result<Option<LogFault>, Failed>
    requires runnable { IsRunnable (core_of (engine_in net.now)) }
    requires place { at < length ports.old }
    requires room { line_room (core_of (engine_in net.now)) ≤ room_of chunk.old }
    requires buffer { room_of chunk.old ≤ length buffer.old }
    ensures compares { ForNameAt at (map view ports.old) (λ name.
        Compares (core_of (engine_in net.now)) (record { half = half_in net.now; superstep = superstep; state = state_of (engine_in net.now) })
        name (map view ports.old) (map view ports.new) result) }
    ensures same_names { names (map view ports.new) ≡ names (map view ports.old) }
    ensures untouched { ForNameAt at (map view ports.old) (λ name.
        Untouched (name ∷ []) (map view ports.old) (map view ports.new)) }
    ensures room { room_of chunk.new ≡ room_of chunk.old }
{
    let count = net.core().wires.len() + 1;
    let mut fault = None;
    for place in 0..count {
        block_line(net, superstep, place, chunk);
        match read_line(ports, at, chunk, buffer) {
            Ok(read) => {
                fault = first_of(fault, fault_of(net, superstep, place, read));
                if !read.whole {
                    return Ok(fault);
                }
            }
            Err(failed) => return Err(failed),
        }
    }
    Ok(fault)
}

// Reads as many bytes as the line in the chunk has, or all if fewer are left.
fn read_line(
    ports: &mut [Box<dyn Port>],
    at: usize,
    chunk: &Chunk,
    buffer: &mut [u8],
) -> Result<LineRead, Failed>
    requires place { at < length ports.old }
    requires room { room_of chunk.now ≤ length buffer.old }
    ensures reads { ForNameAt at (map view ports.old) (λ name.
        ReadsLine (bytes_in chunk.now) name (map view ports.old) (map view ports.new) result) }
    ensures same_names { names (map view ports.new) ≡ names (map view ports.old) }
    ensures untouched { ForNameAt at (map view ports.old) (λ name.
        Untouched (name ∷ []) (map view ports.old) (map view ports.new)) }
{
    let line = chunk.bytes();
    let target = &mut buffer[..line.len()];
    match fill_at(ports, at, target) {
        Ok(count) => Ok(line_read(line, &target[..count])),
        Err(failed) => Err(failed),
    }
}

/// Reads one byte of the port at that place. Answers whether there was none.
pub fn at_end(ports: &mut [Box<dyn Port>], at: usize) -> Result<bool, Failed>
    requires { at < length ports.old }
    ensures asks { ForNameAt at (map view ports.old) (λ name. AsksEnd name (map view ports.old) (map view ports.new) result) }
    ensures same_names { names (map view ports.new) ≡ names (map view ports.old) }
    ensures untouched { ForNameAt at (map view ports.old) (λ name.
        Untouched (name ∷ []) (map view ports.old) (map view ports.new)) }
{
    let mut byte = [0u8];
    match read_at(ports, at, &mut byte) {
        Ok(count) => Ok(count == 0),
        Err(failed) => Err(failed),
    }
}
