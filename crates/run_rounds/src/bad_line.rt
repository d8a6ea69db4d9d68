ghost use Rattle.std.specs.Prelude.{◌≡◌, ◌+◌, ◌≤◌, ◌++◌, length};
ghost use Rattle.hume_base.specs.declared.limits.TheConstants.{MAX_NAME_BYTES};
ghost use Rattle.hume_text.specs.Chunks.{bytes_in, room_of};
ghost use Rattle.run_rounds.specs.Members.{member_bad_line};
ghost use Rattle.run_rounds.specs.Writes.{bad_value_line};

use hume_text::Chunk;
use itoa::Buffer;

/// A line of an input stream that is bad.
#[derive(Clone, Copy)]
pub struct BadLine {
    pub node: u32,
    /// Its number, counted from 1.
    pub line: u64,
}

/// Puts the line that tells at which line of its port an input stream of that name has no value.
pub fn put_bad_line(name: &[u8], line: u64, chunk: &mut Chunk)
    requires name { length name.now ≤ MAX_NAME_BYTES }
    requires room { length (bytes_in chunk.old) + 128 ≤ room_of chunk.old }
    ensures line { bytes_in chunk.new ≡ bytes_in chunk.old ++ bad_value_line name.now line }
    ensures room { room_of chunk.new ≡ room_of chunk.old }
{
    chunk.put(b"bad value ");
    chunk.put(name);
    chunk.put(b" line ");
    chunk.put(Buffer::new().format(line).as_bytes());
    chunk.put(b"\n");
}

/// Puts that line behind the number of the stream's program.
pub fn put_member_bad_line(number: u32, name: &[u8], line: u64, chunk: &mut Chunk)
    requires name { length name.now ≤ MAX_NAME_BYTES }
    requires room { length (bytes_in chunk.old) + 160 ≤ room_of chunk.old }
    ensures line { bytes_in chunk.new ≡ bytes_in chunk.old ++ member_bad_line number name.now line }
    ensures room { room_of chunk.new ≡ room_of chunk.old }
{
    chunk.put(b"program ");
    chunk.put(Buffer::new().format(number).as_bytes());
    chunk.put(b" ");
    put_bad_line(name, line, chunk);
}
