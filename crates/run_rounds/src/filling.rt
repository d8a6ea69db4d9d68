//! The reads before a round.
ghost use Rattle.std.specs.Prelude.{◌≡◌, ◌≤◌, ◌<◌, ℕ, Bool, List, map, length, Some, slice_get};
ghost use Rattle.hume_model.specs.declared.core_tree.NodeC.TheVariants.{From};
ghost use Rattle.hume_model.specs.declared.core_tree.StreamC.{StreamC};
ghost use Rattle.hume_ports.specs.Port.{PortView};
ghost use Rattle.hume_ports.specs.Ports.{names};
ghost use Rattle.port_acts.specs.Places.{IsPlaceOf};
ghost use Rattle.phase_workers.specs.Engines.{core_of, span_of};
ghost use Rattle.phase_workers.specs.Runnable.{IsRunnable};
ghost use Rattle.run_rounds.specs.Streams.{ArePlacesOf, ArePortsApart};
ghost use Rattle.run_rounds.specs.inner.Steps.{StandsFilling, EndsFills, EndsNode};

use crate::bad_line::BadLine;
use crate::nodes::is_input;
use hume_ports::{Failed, Port};
use hume_streams::FillError;
use phase_workers::Engine;

/// Fills each input stream, in source order, until as many values come to it as are wanted. The ports are given by their
/// places, one for each node. Answers the first stream whose next line is bad before it has what is wanted.
pub fn fill_inputs(
    engine: &mut Engine,
    ports: &mut [Box<dyn Port>],
    places: &[usize],
    want: u32,
) -> Result<Option<BadLine>, Failed>
    requires runnable { IsRunnable (core_of engine.old) }
    requires places { ArePlacesOf (core_of engine.old) (names (map view ports.old)) places.now }
    requires apart { ArePortsApart (core_of engine.old) }
    requires span { want ≤ span_of engine.old }
    ensures core { core_of engine.new ≡ core_of engine.old }
    ensures span { span_of engine.new ≡ span_of engine.old }
    ensures ends { (traced : Bool) (steps done : ℕ) (olds : List PortView)
        → StandsFilling (core_of engine.old) traced steps done 0 want olds (map view ports.old) engine.old
        → EndsFills (core_of engine.old) traced steps done want olds (map view ports.new) engine.new result }
    ensures same_names { names (map view ports.new) ≡ names (map view ports.old) }
{
    for node in 0..places.len() {
        match fill_node(engine, node, ports, places[node], want) {
            Ok(None) => {}
            Ok(Some(line)) => {
                let node = node as u32;
                return Ok(Some(BadLine { node, line }));
            }
            Err(failed) => return Err(failed),
        }
    }
    Ok(None)
}

// The same of one node. Answers the number of its next line, if that is bad.
fn fill_node(
    engine: &mut Engine,
    node: usize,
    ports: &mut [Box<dyn Port>],
    at: usize,
    want: u32,
) -> Result<Option<u64>, Failed>
    requires runnable { IsRunnable (core_of engine.old) }
    requires within { node < length (core_of engine.old).nodes }
    requires place { (stream : StreamC) → slice_get (core_of engine.old).nodes node ≡ Some (From stream)
        → IsPlaceOf stream.port (names (map view ports.old)) at }
    requires apart { ArePortsApart (core_of engine.old) }
    requires span { want ≤ span_of engine.old }
    ensures core { core_of engine.new ≡ core_of engine.old }
    ensures span { span_of engine.new ≡ span_of engine.old }
    ensures ends { (traced : Bool) (steps done : ℕ) (olds : List PortView)
        → StandsFilling (core_of engine.old) traced steps done node want olds (map view ports.old) engine.old
        → EndsNode (core_of engine.old) traced steps done node want olds (map view ports.new) engine.new result }
    ensures same_names { names (map view ports.new) ≡ names (map view ports.old) }
{
    if !is_input(engine.core(), node) {
        return Ok(None);
    }
    match engine.fill(node as u32, ports, at, want) {
        Ok(()) => Ok(None),
        Err(FillError::BadValue(line)) => Ok(Some(line)),
        Err(FillError::Failed) => Err(Failed),
    }
}
