//! What a designer looks at: `hume why SOURCE`, `hume bounds SOURCE`, `hume net SOURCE` or `hume hints SOURCE`, where SOURCE names a file,
//! or is `std_in`; and `hume told`, which tells why a call of the tool failed. It prints to the standard output.
//!
//! The words of the latter are `hume told STATUS [WHY PORT].. -- WORD..`: the status and the words of the call, and before them, of each
//! port of which the shell knows it, why the port can't be used.
//!
//! It ends with Done where the source is accepted or the failure told, with Usage where the words have no form, Refused where the source
//! is refused, Fault where a file can't be read or the output can't be written.
use crate::files::HostDisk;
use hume_base::limits::MAX_SOURCE_BYTES;
use hume_look::{look, read_word, told};
use hume_ports::{Port, StdOut, finish_at, write_at};
use hume_run::Status;
use look_told::Disk;
use std::alloc::{AllocError, Global};
use std::io::IsTerminal;

/// Tells why a call failed. The words are those behind `told`.
pub(crate) fn tell(rt: &HostRuntime, words: &[String]) -> Result<u8, AllocError> {
    let alloc = rt.alloc();
    let disk = HostDisk { rt };
    let Some(text) = told(&disk, alloc, words, rt.stdout().is_terminal())? else {
        return Ok(Status::Usage.number());
    };
    let status = if print(rt, alloc, text.as_slice())? {
        Status::Done
    } else {
        Status::Fault
    };
    Ok(status.number())
}

/// Shows what is asked of a source.
pub(crate) fn show(rt: &HostRuntime, words: &[String]) -> Result<u8, AllocError> {
    let alloc = rt.alloc();
    let Some(word) = read_word(words) else {
        return Ok(Status::Usage.number());
    };
    let Some(name) = words.get(1) else {
        return Ok(Status::Usage.number());
    };
    let disk = HostDisk { rt };
    // A byte past the greatest length shows that the source is too long.
    let Some(text) = disk.text(alloc, name, MAX_SOURCE_BYTES + 1)? else {
        return Ok(Status::Fault.number());
    };
    let shown = look(alloc, word, name.as_bytes(), text.as_slice())?;
    if !print(rt, alloc, shown.text.as_slice())? {
        return Ok(Status::Fault.number());
    }
    let status = if shown.accepted {
        Status::Done
    } else {
        Status::Refused
    };
    Ok(status.number())
}

// Whether the bytes were written.
fn print(rt: &HostRuntime, alloc: Global, bytes: &[u8]) -> Result<bool, AllocError> {
    let mut ports: Vec<Box<dyn Port>> = Vec::new(alloc);
    ports.push(Box::new(alloc, StdOut::make(rt, alloc, "std_out")?)?)?;
    if write_at(&mut ports, 0, bytes).is_err() || ports.is_empty() {
        return Ok(false);
    }
    Ok(finish_at(&mut ports, 0).is_ok())
}
