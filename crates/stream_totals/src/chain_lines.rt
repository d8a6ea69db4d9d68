ghost use Rattle.std.specs.Prelude.{◌≡◌, ◌+◌, ◌≤◌, ◌++◌, length};
ghost use Rattle.hume_text.specs.Chunks.{bytes_in, room_of};
ghost use Rattle.stream_totals.specs.ChainLines.{chain_line as line_of_chain};

use crate::total::Total;
use hume_text::Chunk;
use itoa::Buffer;

/// No line of a chain is longer than so many bytes.
pub const CHAIN_LINE_BYTES: u32 = 144;

/// Puts the line that tells the total of the chain of that number.
pub fn chain_line(chain: u32, total: Total, chunk: &mut Chunk)
    requires { length (bytes_in chunk.old) + CHAIN_LINE_BYTES ≤ room_of chunk.old }
    ensures line { bytes_in chunk.new ≡ bytes_in chunk.old ++ line_of_chain chain total }
    ensures room { room_of chunk.new ≡ room_of chunk.old }
{
    chunk.put(b"chain ");
    chunk.put(Buffer::new().format(chain).as_bytes());
    chunk.put(b" count ");
    chunk.put(Buffer::new().format(total.count).as_bytes());
    chunk.put(b" sum ");
    chunk.put(Buffer::new().format(total.sum).as_bytes());
    chunk.put(b"\n");
}
