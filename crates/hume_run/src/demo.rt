//! A demo: a net that is made for a number, and what comes of it.
//!
//! Main call: `show_demo`. `Ended.antt` of `hume_calls` says how it can end.
//!
//! Proved: it ends as a demo of its net owes, or as the refusal of a source that isn't accepted does.
//!
//! It knows the source that it makes, and the port `std_out`. It doesn't know the words of the call.
mod showing;

ghost use Rattle.std.specs.Prelude.{◌≤◌, map};
ghost use Rattle.hume_ports.specs.Ports.{names};
ghost use Rattle.port_acts.specs.Places.{IsPlaceOf};
ghost use Rattle.demo_net.specs.declared.source.TheConstants.{MAX_NUMBER};
ghost use Rattle.run_rounds.specs.Streams.{std_out};
ghost use Rattle.hume_base.specs.declared.limits.TheConstants.{MAX_WORKERS};
ghost use Rattle.hume_calls.specs.Ended.{EndsDemo};

use crate::demo::showing::show_accepted;
use demo_net::demo_source;
use hume_calls::{Status, end_unaccepted};
use hume_front::accept;
use hume_ports::Port;
use std::alloc::Global;
use std::thread::Threads;
use turn_workers::Gate;

/// Shows the net of that number by `steps` supersteps on `workers` workers. `out` is the place of `std_out`.
pub fn show_demo<R: Threads + Sync, G: Gate>(
    rt: &R,
    alloc: Global,
    ports: &mut [Box<dyn Port>],
    number: u32,
    steps: u32,
    workers: u32,
    out: usize,
    gate: &G,
) -> Status
    requires number { number ≤ MAX_NUMBER }
    requires workers { workers ≤ MAX_WORKERS }
    requires out { IsPlaceOf std_out (names (map view ports.old)) out }
    ensures { EndsDemo number steps (map view ports.old) (map view ports.new) result }
{
    let Ok(text) = demo_source(alloc, number) else {
        return Status::NoMemory;
    };
    match accept(alloc, &text) {
        Ok(accepted) => show_accepted(rt, alloc, ports, accepted, steps, workers, out, gate),
        Err(error) => end_unaccepted(alloc, ports, out, error),
    }
}
