ghost use Rattle.std.specs.Prelude.{◌≡◌, [], IfOk, OnOk, OnErr, take};
ghost use Rattle.std.specs.Io.{ReadsAtMost, WritesAtMost};
ghost use Rattle.std.specs.Io.Buffered.{writer_buffer, writer_contents};
ghost use Rattle.std.specs.Io.KnownBytes.{Appends, Keeps, ReadConsumes};
ghost use Rattle.hume_ports.specs.Port.{WriteAppends};

use crate::Failed;
use std::io::{BufWriter, ErrorKind, Read, Write};

/// Reads again where a signal came in between.
pub fn read_once<F: Read>(file: &mut F, buf: &mut [u8]) -> Result<usize, Failed>
    ensures bound { ReadsAtMost result buf.new }
    ensures bytes { ReadConsumes (F.remaining file.old) (F.remaining file.new) result buf.new }
{
    for _ in 0..u64::MAX {
        match file.read(buf) {
            Ok(count) => return Ok(count),
            Err(error) if error.kind() == ErrorKind::Interrupted => {}
            Err(_) => return Err(Failed),
        }
    }
    Err(Failed)
}

/// Writes all of the bytes, in as many writes as that takes, and again where a signal came in between. A write that takes
/// none fails.
pub fn write_whole<F: Write>(file: &mut F, bytes: &[u8]) -> Result<(), Failed>
    ensures { WriteAppends (F.contents file.old) (F.contents file.new) result bytes.now }
{
    let mut rest = bytes;
    while !rest.is_empty() {
        match write_once(file, rest) {
            Ok(0) => return Err(Failed),
            Ok(count) => rest = &rest[count..],
            Err(failed) => return Err(failed),
        }
    }
    Ok(())
}

/// Nothing waits in the buffer any more.
pub(crate) fn flush<F: Write + Drop>(file: &mut BufWriter<F>) -> Result<(), Failed>
    ensures bytes { Keeps (writer_contents F.contents file.old) (writer_contents F.contents file.new) }
    ensures empty { OnOk result (writer_buffer file.new ≡ []) }
{
    match file.flush() {
        Ok(()) => Ok(()),
        Err(_) => Err(Failed),
    }
}

// Writes again where a signal came in between.
fn write_once<F: Write>(file: &mut F, bytes: &[u8]) -> Result<usize, Failed>
    ensures bound { WritesAtMost result bytes.now }
    ensures ok { IfOk result (λ count.
        Appends (F.contents file.old) (F.contents file.new) (take count bytes.now)) }
    ensures err { OnErr result (Keeps (F.contents file.old) (F.contents file.new)) }
{
    for _ in 0..u64::MAX {
        match file.write(bytes) {
            Ok(count) => return Ok(count),
            Err(error) if error.kind() == ErrorKind::Interrupted => {}
            Err(_) => return Err(Failed),
        }
    }
    Err(Failed)
}
