ghost use Rattle.std.specs.Prelude.{◌≤◌, map};
ghost use Rattle.hume_ports.specs.Ports.{names};
ghost use Rattle.port_acts.specs.Places.{IsPlaceOf};
ghost use Rattle.run_rounds.specs.Streams.{ArePlacesOf, ArePortsApart, std_out};
ghost use Rattle.run_rounds.specs.Opened.{core_in, traced_in};
ghost use Rattle.hume_base.specs.declared.limits.TheConstants.{MAX_WORKERS};
ghost use Rattle.hume_calls.specs.Ended.{RunsCore};
ghost use Rattle.hume_calls.specs.inner.RunEnds.{RunEnds};
ghost use Rattle.hume_calls.specs.Opening.{IsOpen};

use crate::run::opening::Opened;
use crate::status::Status;
use hume_ports::{Failed, Port};
use port_acts::finish_acts;
use run_rounds::each_run_has_inputs;
use std::thread::Threads;
use trace_print::table::write_table;
use turn_workers::Gate;

/// Makes an open run for `steps` supersteps on `workers` workers. It takes no memory but for what several workers share.
pub fn run_opened<R: Threads + Sync, G: Gate>(
    rt: &R,
    mut opened: Opened,
    ports: &mut [Box<dyn Port>],
    steps: u32,
    workers: u32,
    out: usize,
    gate: &G,
) -> Status
    requires workers { workers ≤ MAX_WORKERS }
    requires open { IsOpen out opened }
    requires places { ArePlacesOf (core_in opened.running) (names (map view ports.old)) opened.places.items }
    requires apart { ArePortsApart (core_in opened.running) }
    requires out { IsPlaceOf std_out (names (map view ports.old)) out }
    ensures { RunsCore (traced_in opened.running) steps (core_in opened.running) (map view ports.old) (map view ports.new) result }
{
    let ended = make_run(rt, &mut opened, ports, steps, workers, out, gate);
    drop(opened);
    match ended {
        Ok(true) => Status::BadValue,
        Ok(false) => Status::Done,
        Err(Failed) => Status::Fault,
    }
}

// Writes the table, runs, and finishes. Answers whether a bad line of a stream has blocked a round.
fn make_run<R: Threads + Sync, G: Gate>(
    rt: &R,
    opened: &mut Opened,
    ports: &mut [Box<dyn Port>],
    steps: u32,
    workers: u32,
    out: usize,
    gate: &G,
) -> Result<bool, Failed>
    requires workers { workers ≤ MAX_WORKERS }
    requires open { IsOpen out opened.old }
    requires places { ArePlacesOf (core_in opened.old.running) (names (map view ports.old)) opened.old.places.items }
    requires apart { ArePortsApart (core_in opened.old.running) }
    requires out { IsPlaceOf std_out (names (map view ports.old)) out }
    ensures { RunEnds (traced_in opened.old.running) steps (core_in opened.old.running) (map view ports.old) (map view ports.new) result }
{
    each_run_has_inputs();
    let core = opened.running.core();
    match write_table(core, &opened.costs, &mut opened.chunk, ports, out) {
        Ok(()) => {}
        Err(failed) => return Err(failed),
    }
    let blocked = match opened
        .running
        .run(rt, steps, workers, gate, ports, &opened.places, out)
    {
        Ok(blocked) => blocked,
        Err(failed) => return Err(failed),
    };
    match finish_acts(ports, &opened.finishes) {
        Ok(()) => Ok(blocked),
        Err(failed) => Err(failed),
    }
}
