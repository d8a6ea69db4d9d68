ghost use Rattle.std.specs.Prelude.{◌≡◌, ◌+◌, ◌≤◌, ◌++◌, length};
ghost use Rattle.hume_text.specs.Chunks.{bytes_in, room_of};
ghost use Rattle.trace_print.specs.SpaceLines.{space_line as line_of_box, total_line as line_of_all, counted};

use box_costs::Cost;
use hume_text::Chunk;
use itoa::Buffer;

/// No line of bounds is longer than so many bytes, where the name is one of a source (`lines_are_short`).
pub const LINE_BYTES: u32 = 128;

/// Puts the line of a box of that name, whose execute steps take this at most: words of heap and stack, and instructions.
pub fn space_line(name: &[u8], bound: Cost, chunk: &mut Chunk)
    requires { length (bytes_in chunk.old) + length (line_of_box name.now bound) ≤ room_of chunk.old }
    ensures line { bytes_in chunk.new ≡ bytes_in chunk.old ++ line_of_box name.now bound }
    ensures room { room_of chunk.new ≡ room_of chunk.old }
{
    chunk.put(b"box ");
    chunk.put(name);
    put_counted(b" heap ", bound.heap, chunk);
    put_counted(b" stack ", bound.stack, chunk);
    put_counted(b" work ", bound.work, chunk);
    chunk.put(b"\n");
}

/// Puts the line of all boxes together: words of heap, and of stack.
pub fn total_line(heap: u32, stack: u32, chunk: &mut Chunk)
    requires { length (bytes_in chunk.old) + length (line_of_all heap stack) ≤ room_of chunk.old }
    ensures line { bytes_in chunk.new ≡ bytes_in chunk.old ++ line_of_all heap stack }
    ensures room { room_of chunk.new ≡ room_of chunk.old }
{
    put_counted(b"total heap ", heap, chunk);
    put_counted(b" stack ", stack, chunk);
    chunk.put(b"\n");
}

pub(crate) fn put_counted(label: &[u8], count: u32, chunk: &mut Chunk)
    requires { length (bytes_in chunk.old) + length (counted label.now count) ≤ room_of chunk.old }
    ensures line { bytes_in chunk.new ≡ bytes_in chunk.old ++ counted label.now count }
    ensures room { room_of chunk.new ≡ room_of chunk.old }
{
    chunk.put(label);
    chunk.put(Buffer::new().format(count).as_bytes());
}
