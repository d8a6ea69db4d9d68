//! A source as C: `hume c file NAME SOURCE` prints the C file of a program of the name, `hume c header NAME SOURCE` its header, and
//! `hume c main NAME SOURCE` a main that reads and writes the files of its streams.
use crate::words::{STD_IN, STD_OUT, is_standard};
use hume_c::hume_c;
use hume_ports::{FilePort, Port, StdIn, StdOut};
use std::alloc::AllocError;

/// Makes the ports that the words behind `c` name, and the call over them.
pub(crate) fn write_c(rt: &HostRuntime, words: &[String]) -> Result<u8, AllocError> {
    let alloc = rt.alloc();
    let mut ports: Vec<Box<dyn Port>> = Vec::new(alloc);
    if let Some(source) = words.get(2) {
        if !is_standard(source) {
            ports.push(Box::new(alloc, FilePort::make(rt, alloc, source)?)?)?;
        }
    }
    ports.push(Box::new(alloc, StdIn::make(rt, alloc, STD_IN)?)?)?;
    ports.push(Box::new(alloc, StdOut::make(rt, alloc, STD_OUT)?)?)?;
    Ok(hume_c(alloc, words, &mut ports).number())
}
