//! A session: `hume console WORKERS SOURCE PORT..`, where the words from SOURCE on name the files that are ports. The commands come from
//! the standard input, and the answers go to the standard output.
//!
//! A file gets each line at once. The ports `std_in` and `std_out` are always there.
use crate::words::{STD_IN, STD_OUT, is_standard};
use direct_ports::DirectFile;
use hume_console::{console, read_words};
use hume_ports::{Port, StdIn, StdOut, find};
use std::alloc::AllocError;
use std::thread::Threads;
use turn_workers::OpenGate;

/// Makes the ports that the words behind `console` name, and holds the session over them.
pub(crate) fn hold_session<R: Threads + Sync>(
    rt: &HostRuntime,
    threads: &R,
    words: &[String],
) -> Result<u8, AllocError> {
    let alloc = rt.alloc();
    let mut ports: Vec<Box<dyn Port>> = Vec::new(alloc);
    if let Some(opening) = read_words(words) {
        for word in words.iter().skip(opening.source) {
            if !is_standard(word) && find(&ports, word).is_none() {
                ports.push(Box::new(alloc, DirectFile::make(rt, alloc, word)?)?)?;
            }
        }
    }
    ports.push(Box::new(alloc, StdIn::make(rt, alloc, STD_IN)?)?)?;
    ports.push(Box::new(alloc, StdOut::make(rt, alloc, STD_OUT)?)?)?;
    let mut gone: Vec<Box<dyn Port>> = Vec::new(alloc);
    Ok(console(threads, alloc, words, &mut ports, &mut gone, &OpenGate).number())
}
