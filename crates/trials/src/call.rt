//! A call of the tool over ports in memory.
ghost use Rattle.std.specs.Prelude.{◌<◌};

use crate::error::TrialError;
use crate::files::read_file;
use crate::telling_port::TellingPort;
use hume_ports::Port;
use hume_run::{Status, hume};
use std::alloc::Global;
use std::io::Write;
use std::thread::Threads;
use turn_workers::OpenGate;

/// A call, and the ports that it is made over. A port has the bytes of the file of its name, if there is one.
#[derive(Clone, Copy)]
pub(crate) struct Call<'a> {
    /// How many bytes a read gives at most.
    pub piece: u32,
    /// How many bytes a port takes.
    pub room: u32,
    /// The port of which a call fails.
    pub failing: &'a str,
    /// The number of that call among those of its port, from 1 on.
    pub number: u32,
    /// How many bytes it takes if it is a write.
    pub taken: u32,
    /// The names of the ports.
    pub names: &'a [String],
    /// The words of the call of the tool.
    pub words: &'a [String],
    ghost moves: { 0 < piece },
}

/// Makes the call. The standard output has a line for each call of a port, then the number of the call's status, then what each
/// port was given.
pub(crate) fn make_call<R: Threads + Sync>(
    rt: &HostRuntime,
    threads: &R,
    alloc: Global,
    call: &Call,
) -> Result<(), TrialError> {
    let mut ports: Vec<Box<dyn Port>> = Vec::new(alloc);
    for name in call.names {
        let bytes = match read_file(rt, alloc, name)? {
            Some(bytes) => bytes,
            None => Vec::new(alloc),
        };
        let port = TellingPort::make(rt, alloc, name, &bytes, call)?;
        let Ok(port) = Box::new(alloc, port) else {
            return Err(TrialError::NoMemory);
        };
        if ports.push(port).is_err() {
            return Err(TrialError::NoMemory);
        }
    }
    let status = hume(threads, alloc, call.words, &mut ports, &OpenGate);
    tell(rt, status, &ports)
}

// How the call ended, and what each port was given.
fn tell(rt: &HostRuntime, status: Status, ports: &[Box<dyn Port>]) -> Result<(), TrialError> {
    println!(rt; "status {}", status.number())?;
    for port in ports {
        let bytes = port.written().unwrap_or(b"");
        println!(rt; "given {} {}", port.name(), bytes.len())?;
        rt.stdout().write_all(bytes)?;
    }
    Ok(())
}
