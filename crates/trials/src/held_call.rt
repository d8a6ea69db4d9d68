//! A call of the tool whose gate holds boxes.
use crate::error::TrialError;
use crate::files::read_file;
use crate::held_gate::{HeldGate, Hold};
use hume_ports::{MemPort, Port};
use hume_run::{Status, hume};
use std::alloc::{AllocError, Global};
use std::thread::Threads;

// How many bytes a read gives and a port takes at most.
const ROOM: u32 = 4_096;

/// Makes the call with these words over a port with the source, and `std_out`. The standard output has the number of its status, and
/// whether the gate let both boxes by.
pub(crate) fn hold_call<R: Threads + Sync>(
    rt: &HostRuntime,
    threads: &R,
    alloc: Global,
    hold: Hold,
    source: &str,
    words: &[String],
) -> Result<(), TrialError> {
    let Some(text) = read_file(rt, alloc, source)? else {
        return Err(TrialError::NoSource);
    };
    let gate = HeldGate::new(hold);
    let status = call_over(threads, alloc, source, text.as_slice(), words, &gate)?;
    println!(rt; "status {}", status.number())?;
    println!(rt; "{}", gate.told())?;
    Ok(())
}

// The call over ports in memory.
fn call_over<R: Threads + Sync>(
    threads: &R,
    alloc: Global,
    source: &str,
    text: &[u8],
    words: &[String],
    gate: &HeldGate,
) -> Result<Status, AllocError> {
    let empty: &[u8] = b"";
    let mut ports: Vec<Box<dyn Port>> = Vec::new(alloc);
    for (name, bytes) in [(source, text), ("std_out", empty)] {
        ports.push(Box::new(alloc, MemPort::make(alloc, name, bytes, ROOM, ROOM, &[])?)?)?;
    }
    Ok(hume(threads, alloc, words, &mut ports, gate))
}
