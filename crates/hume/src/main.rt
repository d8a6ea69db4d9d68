//! The program `hume`: it makes the ports that the words of a call name, and makes the call over them.
//!
//! Its first word says which call is made. `console` begins a session: `hume console WORKERS SOURCE PORT..`. With `why`, `bounds`, `net` or
//! `hints`, as in `hume why SOURCE`, it shows something of a source; `told` tells why a call failed, and `c` writes a source as C. Any other
//! words are those of `hume_calls::words`, such as `hume run STEPS WORKERS SOURCE PORT..`.
//!
//! Proved: nothing beyond safety; `main` makes the ports, passes words and ports to `hume_run::hume`, `hume_console::console`,
//! `hume_c::hume_c` or `hume_look::look`, and has no contract.
//!
//! It knows files, the words of the command and exit statuses. It doesn't know what a call does.
#![tactic(auto)]

mod call;
mod files;
mod looking;
mod session;
mod targets;
mod words;

use crate::call::make_call;
use crate::looking::{show, tell};
use crate::session::hold_session;
use crate::targets::write_c;
use crate::words::words_of_command;
use hume_run::Status;
use std::alloc::AllocError;
use std::process::ExitCode;
use std::thread::Threads;

fn main(rt: HostRuntime) -> ExitCode {
    match run(&rt, &rt) {
        Ok(number) => ExitCode::from(number),
        Err(AllocError) => ExitCode::from(Status::NoMemory.number()),
    }
}

// The status of the call. The threads are those of the runtime, which only `main` can hand on.
fn run<R: Threads + Sync>(rt: &HostRuntime, threads: &R) -> Result<u8, AllocError> {
    let alloc = rt.alloc();
    let words = words_of_command(rt, alloc)?;
    match words.split_first() {
        Some((word, others)) => run_word(rt, threads, word, others, &words),
        None => make_call(rt, threads, &words),
    }
}

fn run_word<R: Threads + Sync>(
    rt: &HostRuntime,
    threads: &R,
    word: &str,
    others: &[String],
    words: &[String],
) -> Result<u8, AllocError> {
    match word {
        "console" => hold_session(rt, threads, others),
        "why" | "bounds" | "net" | "hints" => show(rt, words),
        "told" => tell(rt, others),
        "c" => write_c(rt, others),
        _ => make_call(rt, threads, words),
    }
}
