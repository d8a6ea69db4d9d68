//! The lines of supersteps and of what boxes took.
ghost use Rattle.std.specs.Prelude.{◌≡◌, ◌+◌, ◌≤◌, ◌++◌, length};
ghost use Rattle.hume_text.specs.Chunks.{bytes_in, room_of};
ghost use Rattle.trace_print.specs.TraceLines.{step_line as line_of_step, peak_line as line_of_peak};

use crate::space_lines::put_counted;
use hume_text::Chunk;

/// Puts the line of a superstep, counted from 1.
pub fn step_line(step: u32, chunk: &mut Chunk)
    requires { length (bytes_in chunk.old) + length (line_of_step step) ≤ room_of chunk.old }
    ensures line { bytes_in chunk.new ≡ bytes_in chunk.old ++ line_of_step step }
    ensures room { room_of chunk.new ≡ room_of chunk.old }
{
    put_counted(b"step ", step, chunk);
    chunk.put(b"\n");
}

/// Puts the line of a box of that name, whose execute steps took this at most: words of heap and of stack.
pub fn peak_line(name: &[u8], heap: u32, stack: u32, chunk: &mut Chunk)
    requires { length (bytes_in chunk.old) + length (line_of_peak name.now heap stack) ≤ room_of chunk.old }
    ensures line { bytes_in chunk.new ≡ bytes_in chunk.old ++ line_of_peak name.now heap stack }
    ensures room { room_of chunk.new ≡ room_of chunk.old }
{
    chunk.put(b"peak ");
    chunk.put(name);
    put_counted(b" heap ", heap, chunk);
    put_counted(b" stack ", stack, chunk);
    chunk.put(b"\n");
}
