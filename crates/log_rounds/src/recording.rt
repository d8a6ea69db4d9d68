//! The supersteps of a run that is recorded.
ghost use Rattle.std.specs.Prelude.{◌≡◌, ◌≤◌, ◌<◌, ◌+◌, ◌^◌, ℕ, List, Some, map, length};
ghost use Rattle.hume_base.specs.declared.limits.TheConstants.{MAX_SUPERSTEPS};
ghost use Rattle.hume_ports.specs.Port.{PortView};
ghost use Rattle.hume_ports.specs.Ports.{names, place_of};
ghost use Rattle.phase_workers.specs.Engines.{queue_at};
ghost use Rattle.phase_workers.specs.Runnable.{IsRunnable};
ghost use Rattle.trace_print.specs.InTurn.{EndsLines};
ghost use Rattle.run_log.specs.declared.half.Half.TheVariants.{End};
ghost use Rattle.run_log.specs.Moments.{block_at, core_in, engine_of, moment_of, next_half};
ghost use Rattle.run_rounds.specs.Streams.{ArePlacesOf, ArePortsApart};
ghost use Rattle.log_rounds.specs.inner.Steps.{EndsSuperstep, EndsSupersteps, HasRecorded, IsNext};

use crate::filling::fill_inputs;
use hume_ports::{Failed, Port};
use run_log::LogRun;
use run_rounds::BadLine;

/// Makes `steps` supersteps and writes the blocks of each to the log, until a stream blocks one by a bad line. The ports of the streams
/// are given by their places, one for each node, and so is that of the log.
pub(crate) fn record_supersteps(
    run: &mut LogRun,
    steps: u32,
    ports: &mut [Box<dyn Port>],
    places: &[usize],
    log: usize,
) -> Result<Option<BadLine>, Failed>
    requires steps { steps ≤ MAX_SUPERSTEPS }
    requires runnable { IsRunnable (core_in run.old) }
    requires places { ArePlacesOf (core_in run.old) (names (map view ports.old)) places.now }
    requires apart { ArePortsApart (core_in run.old) }
    requires log { log < length ports.old }
    requires whole { (moment_of run.old).half ≡ End }
    requires first { (moment_of run.old).superstep ≡ 0 }
    ensures core { core_in run.new ≡ core_in run.old }
    ensures ends { (name : List ℕ) (olds : List PortView) → place_of name (names (map view ports.old)) ≡ Some log
        → HasRecorded (core_in run.old) name steps 0 olds (map view ports.old) run.old
        → EndsSupersteps (core_in run.old) name steps olds (map view ports.new) run.new result }
    ensures same_names { names (map view ports.new) ≡ names (map view ports.old) }
{
    for _done in 0..steps {
        match record_superstep(run, ports, places, log) {
            Ok(None) => {}
            Ok(Some(bad)) => return Ok(Some(bad)),
            Err(failed) => return Err(failed),
        }
    }
    Ok(None)
}

// Makes the next superstep, for which the streams are read, and writes its blocks.
fn record_superstep(
    run: &mut LogRun,
    ports: &mut [Box<dyn Port>],
    places: &[usize],
    log: usize,
) -> Result<Option<BadLine>, Failed>
    requires runnable { IsRunnable (core_in run.old) }
    requires whole { (moment_of run.old).half ≡ End }
    requires few { (moment_of run.old).superstep + 2 < 2 ^ 32 }
    requires places { ArePlacesOf (core_in run.old) (names (map view ports.old)) places.now }
    requires apart { ArePortsApart (core_in run.old) }
    requires log { log < length ports.old }
    ensures core { core_in run.new ≡ core_in run.old }
    ensures next { IsNext run.old run.new result }
    ensures ends { (name : List ℕ) (steps done : ℕ) (olds : List PortView) → done < steps → place_of name (names (map view ports.old)) ≡ Some log
        → HasRecorded (core_in run.old) name steps done olds (map view ports.old) run.old
        → EndsSuperstep (core_in run.old) name steps done olds (map view ports.new) run.new result }
    ensures same_names { names (map view ports.new) ≡ names (map view ports.old) }
{
    match fill_inputs(run, ports, places) {
        Ok(None) => {}
        Ok(Some(bad)) => return Ok(Some(bad)),
        Err(failed) => return Err(failed),
    }
    match record_half(run, ports, log) {
        Ok(()) => {}
        Err(failed) => return Err(failed),
    }
    match record_half(run, ports, log) {
        Ok(()) => Ok(None),
        Err(failed) => Err(failed),
    }
}

// Makes the next half of a superstep, and writes its block.
fn record_half(run: &mut LogRun, ports: &mut [Box<dyn Port>], log: usize) -> Result<(), Failed>
    requires runnable { IsRunnable (core_in run.old) }
    requires few { (moment_of run.old).superstep + 1 < 2 ^ 32 }
    requires log { log < length ports.old }
    ensures core { core_in run.new ≡ core_in run.old }
    ensures moment { moment_of run.new ≡ next_half (core_in run.old) (moment_of run.old) }
    ensures queues { (n : ℕ) → queue_at (engine_of run.new) n ≡ queue_at (engine_of run.old) n }
    ensures ends { EndsLines log (block_at (core_in run.old) (next_half (core_in run.old) (moment_of run.old)))
        (map view ports.old) (map view ports.new) result }
    ensures same_names { names (map view ports.new) ≡ names (map view ports.old) }
{
    run.half();
    run.write(ports, log)
}
