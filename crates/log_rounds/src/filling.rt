//! The reads before a superstep.
ghost use Rattle.std.specs.Prelude.{◌≡◌, ◌<◌, ℕ, List, map, length, Some, slice_get};
ghost use Rattle.hume_model.specs.declared.core_tree.NodeC.TheVariants.{From};
ghost use Rattle.hume_model.specs.declared.core_tree.StreamC.{StreamC};
ghost use Rattle.hume_ports.specs.Port.{PortView};
ghost use Rattle.hume_ports.specs.Ports.{names};
ghost use Rattle.port_acts.specs.Places.{IsPlaceOf};
ghost use Rattle.phase_workers.specs.Runnable.{IsRunnable};
ghost use Rattle.run_log.specs.declared.half.Half.TheVariants.{End};
ghost use Rattle.run_log.specs.Moments.{core_in, moment_of};
ghost use Rattle.run_rounds.specs.Streams.{ArePlacesOf, ArePortsApart};
ghost use Rattle.log_rounds.specs.inner.Standing.{Deeds};
ghost use Rattle.log_rounds.specs.inner.Steps.{StandsFilling, EndsFills, EndsNode};

use hume_ports::{Failed, Port};
use hume_streams::FillError;
use run_log::LogRun;
use run_rounds::{BadLine, is_input};

/// Fills each input stream, in source order, until a value comes to it. The ports are given by their places, one for each node. Answers
/// the first stream whose next line is bad before it has one.
pub(crate) fn fill_inputs(
    run: &mut LogRun,
    ports: &mut [Box<dyn Port>],
    places: &[usize],
) -> Result<Option<BadLine>, Failed>
    requires runnable { IsRunnable (core_in run.old) }
    requires whole { (moment_of run.old).half ≡ End }
    requires places { ArePlacesOf (core_in run.old) (names (map view ports.old)) places.now }
    requires apart { ArePortsApart (core_in run.old) }
    ensures core { core_in run.new ≡ core_in run.old }
    ensures half { (moment_of run.new).half ≡ End }
    ensures superstep { (moment_of run.new).superstep ≡ (moment_of run.old).superstep }
    ensures ends { (steps done : ℕ) (deeds : Deeds) (olds : List PortView)
        → StandsFilling (core_in run.old) steps done 0 deeds olds (map view ports.old) run.old
        → EndsFills (core_in run.old) steps done deeds olds (map view ports.new) run.new result }
    ensures same_names { names (map view ports.new) ≡ names (map view ports.old) }
{
    for node in 0..places.len() {
        match fill_node(run, node, ports, places[node]) {
            Ok(None) => {}
            Ok(Some(line)) => {
                let node = node as u32;
                return Ok(Some(BadLine { node, line }));
            }
            Err(failed) => return Err(failed),
        }
    }
    Ok(None)
}

// The same of one node. Answers the number of its next line, if that is bad.
fn fill_node(
    run: &mut LogRun,
    node: usize,
    ports: &mut [Box<dyn Port>],
    at: usize,
) -> Result<Option<u64>, Failed>
    requires runnable { IsRunnable (core_in run.old) }
    requires whole { (moment_of run.old).half ≡ End }
    requires within { node < length (core_in run.old).nodes }
    requires place { (stream : StreamC) → slice_get (core_in run.old).nodes node ≡ Some (From stream)
        → IsPlaceOf stream.port (names (map view ports.old)) at }
    requires apart { ArePortsApart (core_in run.old) }
    ensures core { core_in run.new ≡ core_in run.old }
    ensures half { (moment_of run.new).half ≡ End }
    ensures superstep { (moment_of run.new).superstep ≡ (moment_of run.old).superstep }
    ensures ends { (steps done : ℕ) (deeds : Deeds) (olds : List PortView)
        → StandsFilling (core_in run.old) steps done node deeds olds (map view ports.old) run.old
        → EndsNode (core_in run.old) steps done node deeds olds (map view ports.new) run.new result }
    ensures same_names { names (map view ports.new) ≡ names (map view ports.old) }
{
    if !is_input(run.core(), node) {
        return Ok(None);
    }
    match run.fill(node as u32, ports, at, 1) {
        Ok(()) => Ok(None),
        Err(FillError::BadValue(line)) => Ok(Some(line)),
        Err(FillError::Failed) => Err(Failed),
    }
}
