//! A call over files. The words from SOURCE on name the files that are ports; `hume demo NUMBER STEPS WORKERS` names none. The ports `std_in`
//! and `std_out` are always there.
use crate::words::{STD_IN, STD_OUT, is_standard};
use hume_ports::{FilePort, Port, StdIn, StdOut, find};
use hume_run::{hume, read_words};
use std::alloc::AllocError;
use std::thread::Threads;
use turn_workers::OpenGate;

/// Makes the ports that the words name, and the call over them.
pub(crate) fn make_call<R: Threads + Sync>(
    rt: &HostRuntime,
    threads: &R,
    words: &[String],
) -> Result<u8, AllocError> {
    let alloc = rt.alloc();
    let mut ports: Vec<Box<dyn Port>> = Vec::new(alloc);
    if let Some(place) = read_words(words).and_then(|order| order.source()) {
        for word in words.iter().skip(place as usize) {
            if !is_standard(word) && find(&ports, word).is_none() {
                ports.push(Box::new(alloc, FilePort::make(rt, alloc, word)?)?)?;
            }
        }
    }
    ports.push(Box::new(alloc, StdIn::make(rt, alloc, STD_IN)?)?)?;
    ports.push(Box::new(alloc, StdOut::make(rt, alloc, STD_OUT)?)?)?;
    Ok(hume(threads, alloc, words, &mut ports, &OpenGate).number())
}
