ghost use Rattle.std.specs.Prelude.{◌≡◌, Ok, IfOk, string_bytes};
ghost use Rattle.hume_ports.specs.Port.{IsRead, untold};

use crate::port::raise;
use crate::transfer::write_whole;
use crate::{Failed, Port};
use std::alloc::{AllocError, Global};
use std::io;

/// The standard output, from which nothing can be read.
#[derive(Drop)]
pub struct StdOut<R: Print + Clone + Drop> {
    rt: R,
    name: String,
    write_faults: u64,
    flushed: bool,
}

impl<R: Print + Clone + Drop> StdOut<R> {
    /// A port of that name over the standard output.
    pub fn make(rt: &R, alloc: Global, name: &str) -> Result<StdOut<R>, AllocError>
        ensures { IfOk result (λ port. ⟦<StdOut<R> as Port>⟧.view port ≡ untold name.now) }
    {
        Ok(StdOut {
            rt: rt.clone()?,
            name: String::from_str(alloc, name)?,
            write_faults: 0,
            flushed: false,
        })
    }
}

impl<R: Print + Clone + Drop> Port for StdOut<R> {
    // A read and a finish never fail, so their counts stay at 0.
    ghost view = { λ port. record (untold (string_bytes port.name)) {
      write_faults = port.write_faults;
      flushed = port.flushed;
    } };

    fn name(&self) -> &str {
        self.name.as_str()
    }

    fn read(&mut self, buf: &mut [u8]) -> Result<usize, Failed>
        ensures port { IsRead (⟦<StdOut<R> as Port>⟧.view self.old)
            (⟦<StdOut<R> as Port>⟧.view self.new) result buf.new }
        ensures nothing { result ≡ Ok 0 }
    {
        Ok(0)
    }

    fn write(&mut self, bytes: &[u8]) -> Result<(), Failed> {
        self.flushed = false;
        match write_whole(&mut io::writer(&self.rt), bytes) {
            Ok(()) => Ok(()),
            Err(_) => Err(raise(&mut self.write_faults)),
        }
    }

    fn finish(&mut self) -> Result<(), Failed> {
        self.flushed = true;
        Ok(())
    }

    fn written(&self) -> Option<&[u8]> {
        None
    }
}
