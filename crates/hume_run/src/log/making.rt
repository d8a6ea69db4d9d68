//! Runs that are logged, once their memory is taken.
ghost use Rattle.std.specs.Prelude.{◌≡◌, ◌≤◌, ℕ, List, map, IfOk};
ghost use Rattle.hume_base.specs.declared.limits.TheConstants.{MAX_SUPERSTEPS};
ghost use Rattle.hume_ports.specs.Ports.{names};
ghost use Rattle.phase_workers.specs.Runnable.{IsRunnable};
ghost use Rattle.port_acts.specs.Places.{IsPlaceOf};
ghost use Rattle.run_rounds.specs.Streams.{ArePlacesOf, ArePortsApart, std_out};
ghost use Rattle.log_rounds.specs.Opened.{core_in, run_in, IsApart, IsFresh};
ghost use Rattle.hume_calls.specs.Owed.{verdict_status};
ghost use Rattle.hume_run.specs.inner.LogEnds.{RecordEnds, Records, Verifies, VerifyEnds};
ghost use Rattle.hume_calls.specs.Ready.{IsReady};

use box_compile::compile;
use hume_calls::{Ready, Status};
use hume_ports::{Failed, Port};
use log_rounds::{LoggedRun, Verdict};
use port_acts::{finish_act, finish_acts};
use std::alloc::{AllocError, Global};

/// Takes all memory of a run that is logged.
pub fn open_log(alloc: Global, ready: Ready) -> Result<LoggedRun, AllocError>
    requires { IsReady ready }
    ensures core { IfOk result (λ logged. core_in logged ≡ ready.core) }
    ensures runnable { IfOk result (λ logged. IsRunnable (core_in logged)) }
    ensures fresh { IfOk result (λ logged. IsFresh (core_in logged) (run_in logged)) }
{
    let Ready {
        core,
        wiring,
        costs,
    } = ready;
    let programs = compile(alloc, &core, &costs)?;
    let logged = LoggedRun::make(alloc, core, &wiring, programs)?;
    Ok(logged)
}

/// Makes the supersteps and writes the log. It takes no memory.
pub fn record_log(
    logged: &mut LoggedRun,
    ports: &mut [Box<dyn Port>],
    steps: u32,
    places: &[usize],
    log: usize,
    out: usize,
) -> Status
    requires steps { steps ≤ MAX_SUPERSTEPS }
    requires runnable { IsRunnable (core_in logged.old) }
    requires fresh { IsFresh (core_in logged.old) (run_in logged.old) }
    requires places { ArePlacesOf (core_in logged.old) (names (map view ports.old)) places.now }
    requires apart { ArePortsApart (core_in logged.old) }
    requires log { (port : List ℕ) × IsPlaceOf port (names (map view ports.old)) log }
    requires out { IsPlaceOf std_out (names (map view ports.old)) out }
    ensures { (port : List ℕ) → IsPlaceOf port (names (map view ports.old)) log
        → Records port steps (core_in logged.old) (map view ports.old) (map view ports.new) result }
{
    match make_record(logged, ports, steps, places, log, out) {
        Ok(true) => Status::BadValue,
        Ok(false) => Status::Done,
        Err(Failed) => Status::Fault,
    }
}

// Writes the log, and finishes. Answers whether a bad line of a stream has blocked a superstep.
fn make_record(
    logged: &mut LoggedRun,
    ports: &mut [Box<dyn Port>],
    steps: u32,
    places: &[usize],
    log: usize,
    out: usize,
) -> Result<bool, Failed>
    requires steps { steps ≤ MAX_SUPERSTEPS }
    requires runnable { IsRunnable (core_in logged.old) }
    requires fresh { IsFresh (core_in logged.old) (run_in logged.old) }
    requires places { ArePlacesOf (core_in logged.old) (names (map view ports.old)) places.now }
    requires apart { ArePortsApart (core_in logged.old) }
    requires log { (port : List ℕ) × IsPlaceOf port (names (map view ports.old)) log }
    requires out { IsPlaceOf std_out (names (map view ports.old)) out }
    ensures { (port : List ℕ) → IsPlaceOf port (names (map view ports.old)) log
        → RecordEnds port steps (core_in logged.old) (map view ports.old) (map view ports.new) result }
{
    let blocked = match logged.record(steps, ports, places, log, out) {
        Ok(blocked) => blocked,
        Err(failed) => return Err(failed),
    };
    match finish_acts(ports, &[log, out]) {
        Ok(()) => Ok(blocked),
        Err(failed) => Err(failed),
    }
}

/// Makes the supersteps and compares the log with them. It takes no memory.
pub fn verify_log(
    logged: &mut LoggedRun,
    ports: &mut [Box<dyn Port>],
    steps: u32,
    places: &[usize],
    log: usize,
    out: usize,
) -> Status
    requires steps { steps ≤ MAX_SUPERSTEPS }
    requires runnable { IsRunnable (core_in logged.old) }
    requires fresh { IsFresh (core_in logged.old) (run_in logged.old) }
    requires places { ArePlacesOf (core_in logged.old) (names (map view ports.old)) places.now }
    requires apart { ArePortsApart (core_in logged.old) }
    requires log { (port : List ℕ) × IsPlaceOf port (names (map view ports.old)) log × IsApart (core_in logged.old) port }
    requires out { IsPlaceOf std_out (names (map view ports.old)) out }
    ensures { (port : List ℕ) → IsPlaceOf port (names (map view ports.old)) log
        → Verifies port steps (core_in logged.old) (map view ports.old) (map view ports.new) result }
{
    match make_verify(logged, ports, steps, places, log, out) {
        Ok(verdict) => status_of(verdict),
        Err(Failed) => Status::Fault,
    }
}

// Compares the log, and finishes.
fn make_verify(
    logged: &mut LoggedRun,
    ports: &mut [Box<dyn Port>],
    steps: u32,
    places: &[usize],
    log: usize,
    out: usize,
) -> Result<Verdict, Failed>
    requires steps { steps ≤ MAX_SUPERSTEPS }
    requires runnable { IsRunnable (core_in logged.old) }
    requires fresh { IsFresh (core_in logged.old) (run_in logged.old) }
    requires places { ArePlacesOf (core_in logged.old) (names (map view ports.old)) places.now }
    requires apart { ArePortsApart (core_in logged.old) }
    requires log { (port : List ℕ) × IsPlaceOf port (names (map view ports.old)) log × IsApart (core_in logged.old) port }
    requires out { IsPlaceOf std_out (names (map view ports.old)) out }
    ensures { (port : List ℕ) → IsPlaceOf port (names (map view ports.old)) log
        → VerifyEnds port steps (core_in logged.old) (map view ports.old) (map view ports.new) result }
{
    let verdict = match logged.verify(steps, ports, places, log, out) {
        Ok(verdict) => verdict,
        Err(failed) => return Err(failed),
    };
    match finish_act(ports, out) {
        Ok(()) => Ok(verdict),
        Err(failed) => Err(failed),
    }
}

fn status_of(verdict: Verdict) -> Status
    ensures { result ≡ verdict_status verdict }
{
    match verdict {
        Verdict::Holds => Status::Done,
        Verdict::Fails => Status::LogFails,
        Verdict::Blocked => Status::BadValue,
    }
}
