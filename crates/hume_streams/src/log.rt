ghost use Rattle.std.specs.Prelude.{◌≡◌, ◌<◌, ◌≤◌, ◌*◌, ◌++◌, ℕ, List, [], ◌∷◌, length, slice_get, IfOk, OnOk, OnErr, Some};
ghost use Rattle.std.specs.List.{AllZip, flat_map};

use crate::log_line::write_line;
use crate::rows::Rows;
use hume_base::{Ty, Types, size};
use hume_ports::{Failed, Port};
use hume_text::Chunk;
use std::alloc::{AllocError, Global};

/// Values of a type that are to be written to a port, each as a line. All memory is taken when it is made.
#[derive(Drop)]
pub struct OutLog {
    rows: Rows,
}

impl OutLog {
    ghost use Rattle.hume_base.specs.declared.types.Value.{Value};
    ghost use Rattle.hume_base.specs.declared.limits.TheConstants.{MAX_TYPE_WORDS};
    ghost use Rattle.hume_base.specs.Sizes.{size_of, HaveTheirSizes};
    ghost use Rattle.hume_ports.specs.Port.{WriteAppends, CountsFault};
    ghost use Rattle.hume_text.specs.Bounds.{IsPrintable};
    ghost use Rattle.hume_text.specs.Chunks.{bytes_in, room_of};
    ghost use Rattle.hume_text.specs.Printed.{AreWordsOf};
    ghost use Rattle.hume_streams.specs.Logs.{log_view, line_of, DrainsTo};

    /// A log with room for so many values.
    pub fn make(alloc: Global, types: &Types, ty: &Ty, span: u32) -> Result<OutLog, AllocError>
        requires sizes { HaveTheirSizes types.now }
        requires small { size_of types.now ty.now ≤ MAX_TYPE_WORDS }
        ensures { IfOk result (λ log. log_view log ≡ record { values = []; width = size_of types.now ty.now; span = span }) }
    {
        Ok(OutLog {
            rows: Rows::make(alloc, size(types, ty), span)?,
        })
    }

    /// Adds the value with these words.
    pub fn add(&mut self, words: &[u64])
        requires room { length (log_view self.old).values < (log_view self.old).span }
        requires width { length words.now ≡ (log_view self.old).width }
        ensures { log_view self.new ≡ record (log_view self.old) { values = (log_view self.old).values ++ words.now ∷ [] } }
    {
        self.rows.push(words);
    }

    /// How many values it holds.
    pub fn count(&self) -> u32
        ensures { result ≡ length (log_view self.now).values }
    {
        self.rows.count()
    }

    /// The words of the value at that place.
    pub fn at(&self, place: u32) -> &[u64]
        requires { place < length (log_view self.now).values }
        ensures { slice_get (log_view self.now).values place ≡ Some result.now }
    {
        self.rows.at(place)
    }

    pub fn clear(&mut self)
        ensures { log_view self.new ≡ record (log_view self.old) { values = [] } }
    {
        self.rows.clear();
    }

    /// Writes each value as a line, by a write of its own, and then holds none. It takes no memory.
    pub fn drain(
        &mut self,
        types: &Types,
        ty: &Ty,
        port: &mut Box<dyn Port>,
        chunk: &mut Chunk,
    ) -> Result<(), Failed>
        requires sizes { HaveTheirSizes types.now }
        requires printable { IsPrintable types.now ty.now }
        requires clear { bytes_in chunk.old ≡ [] }
        requires spare { 512 * size_of types.now ty.now < room_of chunk.old }
        ensures lines { DrainsTo types.now ty.now (log_view self.old).values (view port.old) (view port.new) result }
        ensures bytes { (values : List Value) → AllZip (AreWordsOf types.now ty.now) (log_view self.old).values values
            → WriteAppends (view port.old).bytes (view port.new).bytes result (flat_map (line_of types.now ty.now) values) }
        ensures count { CountsFault (view port.old).write_faults (view port.new).write_faults result }
        ensures drained { OnOk result (log_view self.new ≡ record (log_view self.old) { values = [] }) }
        ensures kept { OnErr result (log_view self.new ≡ log_view self.old) }
        ensures clear { bytes_in chunk.new ≡ [] }
        ensures room { room_of chunk.new ≡ room_of chunk.old }
    {
        for place in 0..self.rows.count() {
            match write_line(types, ty, self.rows.at(place), port, chunk) {
                Ok(()) => {}
                Err(failed) => return Err(failed),
            }
        }
        self.rows.clear();
        Ok(())
    }
}
