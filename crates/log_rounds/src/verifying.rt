//! The supersteps of a run by which a log is verified.
ghost use Rattle.std.specs.Prelude.{◌≡◌, ◌≤◌, ◌<◌, ◌+◌, ◌^◌, [], ◌∷◌, ℕ, suc, List, Some, map, length};
ghost use Rattle.hume_base.specs.declared.limits.TheConstants.{MAX_SUPERSTEPS};
ghost use Rattle.hume_ports.specs.Port.{PortView};
ghost use Rattle.hume_ports.specs.Ports.{names, place_of, ForNameAt, Untouched};
ghost use Rattle.phase_workers.specs.Engines.{queue_at};
ghost use Rattle.phase_workers.specs.Runnable.{IsRunnable};
ghost use Rattle.run_log.specs.declared.half.Half.TheVariants.{End};
ghost use Rattle.run_log.specs.Compared.{Compares};
ghost use Rattle.run_log.specs.Moments.{core_in, engine_of, moment_of, next_half};
ghost use Rattle.run_rounds.specs.Streams.{ArePlacesOf, ArePortsApart};
ghost use Rattle.log_rounds.specs.Opened.{IsApart, IsFresh};
ghost use Rattle.log_rounds.specs.Outcomes.{surplus as surplus_of};
ghost use Rattle.log_rounds.specs.inner.Steps.{EndsAgreeing, EndsJudging, HasVerified, IsNext};

use crate::filling::fill_inputs;
use hume_model::Core;
use hume_ports::{Failed, Port};
use run_log::{LogFault, LogRun, at_end};
use run_rounds::BadLine;

/// Why a log is verified no further.
#[derive(Clone, Copy)]
pub(crate) enum Stop {
    /// A line of it is wrong.
    Wrong(LogFault),
    /// The next line of a stream is bad.
    Bad(BadLine),
}

/// Makes `steps` supersteps from the start, and compares all blocks with the log and its end with the log's, until a line of it is wrong
/// or a stream blocks a superstep by a bad line. The ports of the streams are given by their places, one for each node, and so is that of
/// the log.
pub(crate) fn judge(
    run: &mut LogRun,
    steps: u32,
    ports: &mut [Box<dyn Port>],
    places: &[usize],
    log: usize,
) -> Result<Option<Stop>, Failed>
    requires steps { steps ≤ MAX_SUPERSTEPS }
    requires runnable { IsRunnable (core_in run.old) }
    requires places { ArePlacesOf (core_in run.old) (names (map view ports.old)) places.now }
    requires apart { ArePortsApart (core_in run.old) }
    requires log { log < length ports.old }
    requires own { ForNameAt log (map view ports.old) (IsApart (core_in run.old)) }
    requires fresh { IsFresh (core_in run.old) run.old }
    ensures core { core_in run.new ≡ core_in run.old }
    ensures ends { ForNameAt log (map view ports.old) (λ name.
        EndsJudging (core_in run.old) name steps (map view ports.old) (map view ports.new) result) }
    ensures same_names { names (map view ports.new) ≡ names (map view ports.old) }
{
    match run.compare(ports, log) {
        Ok(None) => {}
        Ok(Some(fault)) => return Ok(Some(Stop::Wrong(fault))),
        Err(failed) => return Err(failed),
    }
    match verify_supersteps(run, steps, ports, places, log) {
        Ok(None) => {}
        Ok(Some(stop)) => return Ok(Some(stop)),
        Err(failed) => return Err(failed),
    }
    match at_end(ports, log) {
        Ok(true) => Ok(None),
        Ok(false) => Ok(Some(Stop::Wrong(surplus(run.core(), steps)))),
        Err(failed) => Err(failed),
    }
}

// Makes supersteps and compares the blocks of each.
fn verify_supersteps(
    run: &mut LogRun,
    steps: u32,
    ports: &mut [Box<dyn Port>],
    places: &[usize],
    log: usize,
) -> Result<Option<Stop>, Failed>
    requires steps { steps ≤ MAX_SUPERSTEPS }
    requires runnable { IsRunnable (core_in run.old) }
    requires places { ArePlacesOf (core_in run.old) (names (map view ports.old)) places.now }
    requires apart { ArePortsApart (core_in run.old) }
    requires log { log < length ports.old }
    requires own { ForNameAt log (map view ports.old) (IsApart (core_in run.old)) }
    requires whole { (moment_of run.old).half ≡ End }
    requires first { (moment_of run.old).superstep ≡ 0 }
    ensures core { core_in run.new ≡ core_in run.old }
    ensures ends { (name : List ℕ) (olds : List PortView) → place_of name (names (map view ports.old)) ≡ Some log
        → HasVerified (core_in run.old) name steps 0 olds (map view ports.old) run.old
        → EndsAgreeing (core_in run.old) name steps steps olds (map view ports.new) run.new result }
    ensures same_names { names (map view ports.new) ≡ names (map view ports.old) }
{
    for _done in 0..steps {
        match verify_superstep(run, ports, places, log) {
            Ok(None) => {}
            Ok(Some(stop)) => return Ok(Some(stop)),
            Err(failed) => return Err(failed),
        }
    }
    Ok(None)
}

// Makes the next superstep, for which the streams are read, and compares its blocks.
fn verify_superstep(
    run: &mut LogRun,
    ports: &mut [Box<dyn Port>],
    places: &[usize],
    log: usize,
) -> Result<Option<Stop>, Failed>
    requires runnable { IsRunnable (core_in run.old) }
    requires whole { (moment_of run.old).half ≡ End }
    requires few { (moment_of run.old).superstep + 2 < 2 ^ 32 }
    requires places { ArePlacesOf (core_in run.old) (names (map view ports.old)) places.now }
    requires apart { ArePortsApart (core_in run.old) }
    requires log { log < length ports.old }
    requires own { ForNameAt log (map view ports.old) (IsApart (core_in run.old)) }
    ensures core { core_in run.new ≡ core_in run.old }
    ensures next { IsNext run.old run.new result }
    ensures ends { (name : List ℕ) (steps done : ℕ) (olds : List PortView) → done < steps → steps < 2 ^ 32
        → place_of name (names (map view ports.old)) ≡ Some log
        → HasVerified (core_in run.old) name steps done olds (map view ports.old) run.old
        → EndsAgreeing (core_in run.old) name steps (suc done) olds (map view ports.new) run.new result }
    ensures same_names { names (map view ports.new) ≡ names (map view ports.old) }
{
    match fill_inputs(run, ports, places) {
        Ok(None) => {}
        Ok(Some(bad)) => return Ok(Some(Stop::Bad(bad))),
        Err(failed) => return Err(failed),
    }
    match verify_half(run, ports, log) {
        Ok(None) => {}
        Ok(Some(fault)) => return Ok(Some(Stop::Wrong(fault))),
        Err(failed) => return Err(failed),
    }
    match verify_half(run, ports, log) {
        Ok(None) => Ok(None),
        Ok(Some(fault)) => Ok(Some(Stop::Wrong(fault))),
        Err(failed) => Err(failed),
    }
}

// Makes the next half of a superstep, and compares its block.
fn verify_half(
    run: &mut LogRun,
    ports: &mut [Box<dyn Port>],
    log: usize,
) -> Result<Option<LogFault>, Failed>
    requires runnable { IsRunnable (core_in run.old) }
    requires few { (moment_of run.old).superstep + 1 < 2 ^ 32 }
    requires log { log < length ports.old }
    ensures core { core_in run.new ≡ core_in run.old }
    ensures moment { moment_of run.new ≡ next_half (core_in run.old) (moment_of run.old) }
    ensures queues { (n : ℕ) → queue_at (engine_of run.new) n ≡ queue_at (engine_of run.old) n }
    ensures compares { ForNameAt log (map view ports.old) (λ name.
        Compares (core_in run.old) (next_half (core_in run.old) (moment_of run.old)) name (map view ports.old) (map view ports.new) result) }
    ensures same_names { names (map view ports.new) ≡ names (map view ports.old) }
    ensures untouched { ForNameAt log (map view ports.old) (λ name. Untouched (name ∷ []) (map view ports.old) (map view ports.new)) }
{
    run.half();
    run.compare(ports, log)
}

// The fault of a log that goes on behind its last line.
fn surplus(core: &Core, steps: u32) -> LogFault
    requires steps { steps ≤ MAX_SUPERSTEPS }
    requires runnable { IsRunnable core.now }
    ensures { result ≡ surplus_of core.now steps }
{
    let blocks = 2 * steps as u64 + 1;
    LogFault {
        line: blocks * (core.wires.len() as u64 + 1) + 1,
        node: None,
    }
}
