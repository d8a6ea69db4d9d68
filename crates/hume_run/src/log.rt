//! A run of a source that is logged: its log is written, or compared with one that is there.
//!
//! Main call: `log_text`. `Ended.antt` of `hume_calls` says how it can end.
//!
//! Proved: it ends as the recorded run of its source owes, or as what comes of the log owes, or as the refusal of a source that isn't
//! accepted does.
//!
//! It knows a source's text and the ports. It doesn't know the words of the call.
mod making;

ghost use Rattle.std.specs.Prelude.{◌≤◌, ◌⊎◌, ℕ, List, map, string_bytes};
ghost use Rattle.hume_base.specs.declared.limits.TheConstants.{MAX_SUPERSTEPS};
ghost use Rattle.hume_ports.specs.Ports.{names};
ghost use Rattle.phase_workers.specs.Runnable.{IsRunnable};
ghost use Rattle.port_acts.specs.Places.{IsPlaceOf};
ghost use Rattle.run_rounds.specs.Streams.{ArePlacesOf, ArePortsApart, std_out};
ghost use Rattle.log_rounds.specs.Opened.{core_in, run_in, IsApart, IsFresh};
ghost use Rattle.hume_calls.specs.declared.order.Order.TheVariants.{Log};
ghost use Rattle.hume_calls.specs.Words.{source_with};
ghost use Rattle.hume_calls.specs.Ended.{EndsText, IsFurtherAt, RunsOut};
ghost use Rattle.hume_run.specs.inner.LogEnds.{EndsLogged};
ghost use Rattle.hume_calls.specs.Ready.{IsReady};

use crate::log::making::{open_log, record_log, verify_log};
use hume_calls::{
    PlacesError, Ready, Status, end_unaccepted, find_places, made_ready, refuse, unfit_at,
};
use hume_front::accept;
use hume_ports::Port;
use log_rounds::{LoggedRun, logged_runs_read_their_ports};
use std::alloc::{AllocError, Global};

/// Runs a source of that text for `steps` supersteps. If `verify`, the log's port is read and compared with the log of the run, which
/// otherwise is written to it: it is the one word of `others`, and stands at the place `log`. `out` is the place of `std_out`, and `source`
/// the name of the source's port.
pub fn log_text(
    alloc: Global,
    ports: &mut [Box<dyn Port>],
    steps: u32,
    verify: bool,
    source: &[u8],
    others: &[String],
    text: &[u8],
    log: usize,
    out: usize,
) -> Status
    requires steps { steps ≤ MAX_SUPERSTEPS }
    requires log { IsFurtherAt (source_with source.now (map string_bytes others.now)) (names (map view ports.old)) log }
    requires out { IsPlaceOf std_out (names (map view ports.old)) out }
    ensures { (place at : ℕ) → EndsText (Log steps place at verify) (source_with source.now (map string_bytes others.now)) text.now
        (map view ports.old) (map view ports.new) result }
{
    logged_runs_read_their_ports();
    let accepted = match accept(alloc, text) {
        Ok(accepted) => accepted,
        Err(error) => return end_unaccepted(alloc, ports, out, error),
    };
    match find_places(alloc, ports, &accepted.core, source, others) {
        Ok(places) => log_ready(
            alloc,
            ports,
            steps,
            verify,
            made_ready(accepted),
            &places,
            log,
            out,
        ),
        Err(PlacesError::Unfit(line)) => {
            drop(accepted);
            refuse(alloc, ports, out, unfit_at(line))
        }
        Err(PlacesError::NoMemory) => {
            drop(accepted);
            Status::NoMemory
        }
    }
}

// Runs a core that is ready. The ports of its streams are given by their places, one for each node; none of them is the log's.
fn log_ready(
    alloc: Global,
    ports: &mut [Box<dyn Port>],
    steps: u32,
    verify: bool,
    ready: Ready,
    places: &[usize],
    log: usize,
    out: usize,
) -> Status
    requires steps { steps ≤ MAX_SUPERSTEPS }
    requires ready { IsReady ready }
    requires places { ArePlacesOf ready.core (names (map view ports.old)) places.now }
    requires apart { ArePortsApart ready.core }
    requires log { (port : List ℕ) × IsPlaceOf port (names (map view ports.old)) log × IsApart ready.core port }
    requires out { IsPlaceOf std_out (names (map view ports.old)) out }
    ensures { RunsOut (map view ports.old) (map view ports.new) result
        ⊎ ((port : List ℕ) → IsPlaceOf port (names (map view ports.old)) log
        → EndsLogged verify port steps ready.core (map view ports.old) (map view ports.new) result) }
{
    match open_log(alloc, ready) {
        Ok(logged) => run_logged(logged, ports, steps, verify, places, log, out),
        Err(AllocError) => Status::NoMemory,
    }
}

// Runs what all memory is taken for.
fn run_logged(
    mut logged: LoggedRun,
    ports: &mut [Box<dyn Port>],
    steps: u32,
    verify: bool,
    places: &[usize],
    log: usize,
    out: usize,
) -> Status
    requires steps { steps ≤ MAX_SUPERSTEPS }
    requires runnable { IsRunnable (core_in logged) }
    requires fresh { IsFresh (core_in logged) (run_in logged) }
    requires places { ArePlacesOf (core_in logged) (names (map view ports.old)) places.now }
    requires apart { ArePortsApart (core_in logged) }
    requires log { (port : List ℕ) × IsPlaceOf port (names (map view ports.old)) log × IsApart (core_in logged) port }
    requires out { IsPlaceOf std_out (names (map view ports.old)) out }
    ensures { (port : List ℕ) → IsPlaceOf port (names (map view ports.old)) log
        → EndsLogged verify port steps (core_in logged) (map view ports.old) (map view ports.new) result }
{
    let status = verify_or_record(&mut logged, ports, steps, verify, places, log, out);
    drop(logged);
    status
}

fn verify_or_record(
    logged: &mut LoggedRun,
    ports: &mut [Box<dyn Port>],
    steps: u32,
    verify: bool,
    places: &[usize],
    log: usize,
    out: usize,
) -> Status
    requires steps { steps ≤ MAX_SUPERSTEPS }
    requires runnable { IsRunnable (core_in logged.old) }
    requires fresh { IsFresh (core_in logged.old) (run_in logged.old) }
    requires places { ArePlacesOf (core_in logged.old) (names (map view ports.old)) places.now }
    requires apart { ArePortsApart (core_in logged.old) }
    requires log { (port : List ℕ) × IsPlaceOf port (names (map view ports.old)) log × IsApart (core_in logged.old) port }
    requires out { IsPlaceOf std_out (names (map view ports.old)) out }
    ensures { (port : List ℕ) → IsPlaceOf port (names (map view ports.old)) log
        → EndsLogged verify port steps (core_in logged.old) (map view ports.old) (map view ports.new) result }
{
    if verify {
        verify_log(logged, ports, steps, places, log, out)
    } else {
        record_log(logged, ports, steps, places, log, out)
    }
}
