ghost use Rattle.hume_ports.specs.MemoryPort.{memory_view};

use crate::call::Call;
use hume_ports::{Fail, Failed, MemPort, Port};
use std::alloc::{AllocError, Global};

/// A port in memory that tells each call on the standard output: `NAME read COUNT`, `NAME write COUNT`, `NAME finish`, or the name and
/// the call with `fails` behind it.
#[derive(Drop)]
pub(crate) struct TellingPort<R: Print + Clone + Drop> {
    rt: R,
    inner: MemPort,
}

impl<R: Print + Clone + Drop> TellingPort<R> {
    /// A port with these bytes to read, in the pieces and with the room of the call, which says too whether one of its calls fails.
    pub(crate) fn make(
        rt: &R,
        alloc: Global,
        name: &str,
        bytes: &[u8],
        call: &Call,
    ) -> Result<TellingPort<R>, AllocError> {
        let calls = [Fail {
            call: call.number,
            taken: call.taken,
        }];
        let fails = if call.failing == name { 1 } else { 0 };
        Ok(TellingPort {
            rt: rt.clone()?,
            inner: MemPort::make(alloc, name, bytes, call.piece, call.room, &calls[..fails])?,
        })
    }

    // A line that can't be told is missing, so no trial takes the others for all.
    fn tell_count(&self, call: &str, count: usize) {
        let _ = println!(self.rt; "{} {call} {count}", self.inner.name());
    }

    fn tell(&self, call: &str) {
        let _ = println!(self.rt; "{} {call}", self.inner.name());
    }
}

impl<R: Print + Clone + Drop> Port for TellingPort<R> {
    ghost view = { λ port. memory_view port.inner };

    fn name(&self) -> &str {
        self.inner.name()
    }

    fn read(&mut self, buf: &mut [u8]) -> Result<usize, Failed> {
        let result = self.inner.read(buf);
        match result {
            Ok(count) => self.tell_count("read", count),
            Err(_) => self.tell("read fails"),
        }
        result
    }

    fn write(&mut self, bytes: &[u8]) -> Result<(), Failed> {
        let result = self.inner.write(bytes);
        match result {
            Ok(()) => self.tell_count("write", bytes.len()),
            Err(_) => self.tell("write fails"),
        }
        result
    }

    fn finish(&mut self) -> Result<(), Failed> {
        let result = self.inner.finish();
        self.tell(if result.is_ok() {
            "finish"
        } else {
            "finish fails"
        });
        result
    }

    fn written(&self) -> Option<&[u8]> {
        self.inner.written()
    }
}
