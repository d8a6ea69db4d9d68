ghost use Rattle.std.specs.Prelude.{◌≡◌, ◌<◌, ◌*◌, length, map, List, ℕ, [], ◌∷◌, OnOk, OnErr};
ghost use Rattle.std.specs.List.{AllZip};
ghost use Rattle.hume_base.specs.declared.types.Value.{Value};
ghost use Rattle.hume_base.specs.Sizes.{size_of, HaveTheirSizes};
ghost use Rattle.hume_text.specs.Bounds.{IsPrintable};
ghost use Rattle.hume_text.specs.Chunks.{bytes_in, room_of};
ghost use Rattle.hume_text.specs.Printed.{AreWordsOf};
ghost use Rattle.hume_ports.specs.Ports.{names, ForNameAt};
ghost use Rattle.port_acts.specs.Acts.{writes, write_each};
ghost use Rattle.port_acts.specs.Ends.{Ends, never};
ghost use Rattle.hume_streams.specs.Logs.{log_view, IsLineOf};
ghost use Rattle.hume_streams.specs.places.LineWrites.{line_writes};

use crate::OutLog;
use crate::log_line::print_line;
use hume_base::{Ty, Types};
use hume_ports::{Failed, Port};
use hume_text::Chunk;
use port_acts::write_act;

/// Writes each value of the log as a line to the port at that place, by a write of its own. The log then holds none. It takes no
/// memory.
pub fn drain_at(
    log: &mut OutLog,
    types: &Types,
    ty: &Ty,
    ports: &mut [Box<dyn Port>],
    at: usize,
    chunk: &mut Chunk,
) -> Result<(), Failed>
    requires place { at < length ports.old }
    requires sizes { HaveTheirSizes types.now }
    requires printable { IsPrintable types.now ty.now }
    requires clear { bytes_in chunk.old ≡ [] }
    requires spare { 512 * size_of types.now ty.now < room_of chunk.old }
    ensures ends { (values : List Value) → AllZip (AreWordsOf types.now ty.now) (log_view log.old).values values
        → ForNameAt at (map view ports.old) (λ name.
        Ends never [] (write_each (line_writes name types.now ty.now values)) [] (map view ports.old) (map view ports.new) result) }
    ensures same_names { names (map view ports.new) ≡ names (map view ports.old) }
    ensures drained { OnOk result (log_view log.new ≡ record (log_view log.old) { values = [] }) }
    ensures kept { OnErr result (log_view log.new ≡ log_view log.old) }
    ensures clear { bytes_in chunk.new ≡ [] }
    ensures room { room_of chunk.new ≡ room_of chunk.old }
{
    for place in 0..log.count() {
        match write_value(types, ty, log.at(place), ports, at, chunk) {
            Ok(()) => {}
            Err(failed) => return Err(failed),
        }
    }
    log.clear();
    Ok(())
}

// Writes the value with these words as a line, by one write.
fn write_value(
    types: &Types,
    ty: &Ty,
    words: &[u64],
    ports: &mut [Box<dyn Port>],
    at: usize,
    chunk: &mut Chunk,
) -> Result<(), Failed>
    requires place { at < length ports.old }
    requires sizes { HaveTheirSizes types.now }
    requires printable { IsPrintable types.now ty.now }
    requires clear { bytes_in chunk.old ≡ [] }
    requires spare { 512 * size_of types.now ty.now < room_of chunk.old }
    ensures ends { (line : List ℕ) × IsLineOf types.now ty.now words.now line × ForNameAt at (map view ports.old) (λ name.
        Ends never [] (writes name line ∷ []) [] (map view ports.old) (map view ports.new) result) }
    ensures same_names { names (map view ports.new) ≡ names (map view ports.old) }
    ensures clear { bytes_in chunk.new ≡ [] }
    ensures room { room_of chunk.new ≡ room_of chunk.old }
{
    print_line(types, ty, words, chunk);
    let result = write_act(ports, at, chunk.bytes());
    chunk.clear();
    result
}
