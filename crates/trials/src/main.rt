//! A program for work on this repository: a call of the tool over ports in memory, the code of a box, the plain net, threads at a gate, and a C
//! file.
//!
//! It is called by `trials FORM ..`; `Form` (`src/form.rt`) lists the forms and their words. `call` is used by `.ci/failing_ports.py`,
//! `code` and `net` by the scripts of `bench/`, all but `call` by `.ci/trials`. Status 2 says that there is no trial; the standard error
//! says why.
//!
//! Proved: it is safe, and a port that tells its calls keeps the contract of the port inside. What it prints has no contract.
//!
//! It knows ports in memory, files that it reads before a call, the call, accepted sources, the compiler, the engine, the locker, the
//! plain net and trees of C. It doesn't know what a call owes: `.ci/failing_ports.py` does.
#![tactic(auto)]

mod c_text;
mod call;
mod claims;
mod code;
mod error;
mod files;
mod form;
mod groups;
mod held_call;
mod held_gate;
mod held_round;
mod net;
mod source;
mod telling_port;

use crate::c_text::tell_text;
use crate::call::make_call;
use crate::claims::tell_claims;
use crate::code::tell_code;
use crate::error::TrialError;
use crate::form::{Form, read_form};
use crate::held_call::hold_call;
use crate::held_round::{hold_round, show_groups};
use crate::net::step_net;
use crate::source::accepted_source;
use std::alloc::{AllocError, Global};
use std::env;
use std::process::ExitCode;
use std::thread::Threads;

const DONE: u8 = 0;

const NO_TRIAL: u8 = 2;

fn main(rt: HostRuntime) -> ExitCode {
    match run(&rt, &rt) {
        Ok(()) => ExitCode::from(DONE),
        Err(error) => {
            let _ = eprintln!(rt; "trials: {error}");
            ExitCode::from(NO_TRIAL)
        }
    }
}

fn run<R: Threads + Sync>(rt: &HostRuntime, threads: &R) -> Result<(), TrialError> {
    let alloc = rt.alloc();
    let words = words_of_command(rt, alloc)?;
    match read_form(&words) {
        Some(Form::Call(call)) => make_call(rt, threads, alloc, &call),
        Some(Form::Code { source, name }) => {
            let accepted = accepted_source(rt, alloc, source)?;
            tell_code(rt, alloc, &accepted, name)
        }
        Some(Form::Net { source, steps }) => {
            let accepted = accepted_source(rt, alloc, source)?;
            step_net(rt, alloc, &accepted, steps)
        }
        Some(
            Form::HeldCall {
                hold,
                source,
                words,
            },
        ) => hold_call(rt, threads, alloc, hold, source, words),
        Some(
            Form::HeldRound {
                hold,
                source,
                steps,
                workers,
                groups,
            },
        ) => {
            let accepted = accepted_source(rt, alloc, source)?;
            hold_round(rt, threads, alloc, hold, accepted, steps, workers, groups)
        }
        Some(Form::Groups { source, workers }) => {
            let accepted = accepted_source(rt, alloc, source)?;
            show_groups(rt, threads, alloc, accepted, workers)
        }
        Some(Form::Claims) => tell_claims(rt, alloc),
        Some(Form::Text) => tell_text(rt, alloc),
        None => Err(TrialError::Usage),
    }
}

// The words after the program's own name. Where one isn't UTF-8 there are none, so that there is no trial.
fn words_of_command(rt: &HostRuntime, alloc: Global) -> Result<Vec<String>, AllocError> {
    let mut words = Vec::new(alloc);
    if let Ok(args) = env::args(rt) {
        for word in args.skip(1) {
            words.push(word)?;
        }
    }
    Ok(words)
}
