ghost use Rattle.std.specs.Prelude.{◌≡◌, ◌<◌, ◌*◌, ℕ, List, []};
ghost use Rattle.hume_base.specs.Sizes.{size_of, HaveTheirSizes};
ghost use Rattle.hume_ports.specs.Port.{IsWrite};
ghost use Rattle.hume_text.specs.Bounds.{IsPrintable};
ghost use Rattle.hume_text.specs.Chunks.{bytes_in, room_of};
ghost use Rattle.hume_streams.specs.Logs.{IsLineOf};

use hume_base::{Ty, Types};
use hume_ports::{Failed, Port};
use hume_text::{Chunk, print_value, texts_are_bounded};

/// Writes the value with these words as a line, by one write.
pub fn write_line(
    types: &Types,
    ty: &Ty,
    words: &[u64],
    port: &mut Box<dyn Port>,
    chunk: &mut Chunk,
) -> Result<(), Failed>
    requires sizes { HaveTheirSizes types.now }
    requires printable { IsPrintable types.now ty.now }
    requires clear { bytes_in chunk.old ≡ [] }
    requires spare { 512 * size_of types.now ty.now < room_of chunk.old }
    ensures line { (line : List ℕ) × IsLineOf types.now ty.now words.now line × IsWrite (view port.old) (view port.new) result line }
    ensures clear { bytes_in chunk.new ≡ [] }
    ensures room { room_of chunk.new ≡ room_of chunk.old }
{
    print_line(types, ty, words, chunk);
    let result = write_to(port, chunk.bytes());
    chunk.clear();
    result
}

// Puts the line of the value with these words.
pub(crate) fn print_line(types: &Types, ty: &Ty, words: &[u64], chunk: &mut Chunk)
    requires sizes { HaveTheirSizes types.now }
    requires printable { IsPrintable types.now ty.now }
    requires clear { bytes_in chunk.old ≡ [] }
    requires spare { 512 * size_of types.now ty.now < room_of chunk.old }
    ensures line { IsLineOf types.now ty.now words.now (bytes_in chunk.new) }
    ensures room { room_of chunk.new ≡ room_of chunk.old }
{
    print_value(types, ty, words, chunk);
    // The text of a value always leaves room.
    texts_are_bounded();
    if chunk.spare() > 0 {
        chunk.put(b"\n");
    }
}

fn write_to(port: &mut Box<dyn Port>, bytes: &[u8]) -> Result<(), Failed>
    ensures { IsWrite (view port.old) (view port.new) result bytes.now }
{
    port.write(bytes)
}
