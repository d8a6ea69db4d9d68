ghost use Rattle.std.specs.Prelude.{◌≡◌, IfOk, IsErr, string_bytes};
ghost use Rattle.std.specs.Io.KnownBytes.{ReadConsumes};
ghost use Rattle.hume_ports.specs.Port.{IsRead, IsWrite, untold};

use crate::port::raise;
use crate::transfer::read_once;
use crate::{Failed, Port};
use std::alloc::{AllocError, Global};

/// The standard input, to which nothing can be written.
#[derive(Drop)]
pub struct StdIn<R: Input> {
    reader: R::Reader,
    name: String,
    read_faults: u64,
    write_faults: u64,
    flushed: bool,
}

impl<R: Input> StdIn<R> {
    /// A port of that name over the standard input.
    pub fn make(rt: &R, alloc: Global, name: &str) -> Result<StdIn<R>, AllocError>
        ensures { IfOk result (λ port. ⟦<StdIn<R> as Port>⟧.view port ≡ untold name.now) }
    {
        Ok(StdIn {
            name: String::from_str(alloc, name)?,
            reader: rt.reader(),
            read_faults: 0,
            write_faults: 0,
            flushed: false,
        })
    }
}

impl<R: Input> Port for StdIn<R> {
    // A finish never fails, so its count stays at 0.
    ghost view = { λ port. record (untold (string_bytes port.name)) {
      read_faults = port.read_faults;
      write_faults = port.write_faults;
      flushed = port.flushed;
    } };

    fn name(&self) -> &str {
        self.name.as_str()
    }

    /// Where the input tells what it has left, the bytes come from there.
    fn read(&mut self, buf: &mut [u8]) -> Result<usize, Failed>
        ensures port { IsRead (⟦<StdIn<R> as Port>⟧.view self.old) (⟦<StdIn<R> as Port>⟧.view self.new) result buf.new }
        ensures input { ReadConsumes (R.Reader.remaining self.old.reader) (R.Reader.remaining self.new.reader) result buf.new }
    {
        match read_once(&mut self.reader, buf) {
            Ok(count) => Ok(count),
            Err(_) => Err(raise(&mut self.read_faults)),
        }
    }

    fn write(&mut self, bytes: &[u8]) -> Result<(), Failed>
        ensures port { IsWrite (⟦<StdIn<R> as Port>⟧.view self.old) (⟦<StdIn<R> as Port>⟧.view self.new) result bytes.now }
        ensures never { IsErr result }
    {
        self.flushed = false;
        Err(raise(&mut self.write_faults))
    }

    fn finish(&mut self) -> Result<(), Failed> {
        self.flushed = true;
        Ok(())
    }

    fn written(&self) -> Option<&[u8]> {
        None
    }
}
