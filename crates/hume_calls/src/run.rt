//! A run of a source, traced or not.
//!
//! Main calls: `run_text`, and `run_ready` for a core that is ready. `Ended.antt` says how they can end. `open` takes all memory of a run;
//! `Opening.antt` says what it has then.
//!
//! Proved: a call ends as a run of its source owes, or as the refusal of a source that isn't accepted does.
//!
//! It knows a source's text and the ports. It doesn't know the words of the call.
mod finishes;
mod making;
mod opening;

ghost use Rattle.std.specs.Prelude.{◌≤◌, ◌⊎◌, ℕ, map};
ghost use Rattle.hume_ports.specs.Ports.{names};
ghost use Rattle.port_acts.specs.Places.{IsPlaceOf};
ghost use Rattle.run_rounds.specs.Streams.{ArePlacesOf, ArePortsApart, std_out};
ghost use Rattle.hume_calls.specs.declared.order.Order.TheVariants.{Run};
ghost use Rattle.hume_base.specs.declared.limits.TheConstants.{MAX_WORKERS};
ghost use Rattle.hume_calls.specs.Words.{source_alone};
ghost use Rattle.hume_calls.specs.Ready.{IsReady};
ghost use Rattle.hume_calls.specs.Ended.{EndsText, RunsOut, RunsCore};

use crate::ready::{Ready, made_ready};
use crate::refusals::{end_unaccepted, refuse, unfit_at};
use crate::run::making::run_opened;
use crate::status::Status;
use crate::streams::{PlacesError, find_places};
use hume_front::accept;
use hume_ports::Port;
pub use opening::{Opened, open};
use run_rounds::wants_stand_before_rounds;
use std::alloc::Global;
use std::thread::Threads;
use turn_workers::Gate;

/// Runs a source of that text for `steps` supersteps on `workers` workers. `out` is the place of `std_out`, and `source` the name of the
/// source's port.
pub fn run_text<R: Threads + Sync, G: Gate>(
    rt: &R,
    alloc: Global,
    ports: &mut [Box<dyn Port>],
    steps: u32,
    workers: u32,
    traced: bool,
    source: &[u8],
    text: &[u8],
    out: usize,
    gate: &G,
) -> Status
    requires workers { workers ≤ MAX_WORKERS }
    requires out { IsPlaceOf std_out (names (map view ports.old)) out }
    ensures { (place : ℕ) → EndsText (Run steps workers place traced) (source_alone source.now) text.now (map view ports.old) (map view ports.new) result }
{
    wants_stand_before_rounds();
    let accepted = match accept(alloc, text) {
        Ok(accepted) => accepted,
        Err(error) => return end_unaccepted(alloc, ports, out, error),
    };
    match find_places(alloc, ports, &accepted.core, source, &[]) {
        Ok(places) => run_ready(
            rt,
            alloc,
            ports,
            steps,
            workers,
            traced,
            made_ready(accepted),
            places,
            out,
            gate,
        ),
        Err(PlacesError::Unfit(line)) => {
            drop(accepted);
            refuse(alloc, ports, out, unfit_at(line))
        }
        Err(PlacesError::NoMemory) => {
            drop(accepted);
            Status::NoMemory
        }
    }
}

/// Runs a core that is ready. The ports of its streams are given by their places, one for each node.
pub fn run_ready<R: Threads + Sync, G: Gate>(
    rt: &R,
    alloc: Global,
    ports: &mut [Box<dyn Port>],
    steps: u32,
    workers: u32,
    traced: bool,
    ready: Ready,
    places: Vec<usize>,
    out: usize,
    gate: &G,
) -> Status
    requires workers { workers ≤ MAX_WORKERS }
    requires ready { IsReady ready }
    requires places { ArePlacesOf ready.core (names (map view ports.old)) places.items }
    requires apart { ArePortsApart ready.core }
    requires out { IsPlaceOf std_out (names (map view ports.old)) out }
    ensures { RunsOut (map view ports.old) (map view ports.new) result
        ⊎ RunsCore traced steps ready.core (map view ports.old) (map view ports.new) result }
{
    match open(alloc, ready, places, out, traced) {
        Ok(opened) => run_opened(rt, opened, ports, steps, workers, out, gate),
        Err(_) => Status::NoMemory,
    }
}
