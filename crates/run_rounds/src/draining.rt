//! The lines of what output streams have taken.
ghost use Rattle.std.specs.Prelude.{◌≡◌, ◌<◌, ◌*◌, ℕ, [], length, map, Some, slice_get, OnOk};
ghost use Rattle.hume_model.specs.declared.core_tree.NodeC.TheVariants.{To};
ghost use Rattle.hume_model.specs.declared.core_tree.StreamC.{StreamC};
ghost use Rattle.hume_net.specs.Parts.{IsStateOf};
ghost use Rattle.hume_net.specs.Sides.{part_of};
ghost use Rattle.hume_ports.specs.Ports.{names};
ghost use Rattle.hume_text.specs.Chunks.{bytes_in, room_of};
ghost use Rattle.port_acts.specs.Acts.{write_each};
ghost use Rattle.port_acts.specs.Ends.{Ends, never};
ghost use Rattle.port_acts.specs.Places.{IsPlaceOf};
ghost use Rattle.phase_workers.specs.Engines.{core_of, queue_at, span_of, state_of, ArePeaksKept};
ghost use Rattle.phase_workers.specs.Runnable.{IsRunnable};
ghost use Rattle.run_rounds.specs.Streams.{ArePlacesOf};
ghost use Rattle.run_rounds.specs.Writes.{writes_of_node, writes_of_nodes};
ghost use Rattle.run_rounds.specs.inner.Clearing.{Clears, ClearsNode};

use crate::nodes::is_output;
use hume_ports::{Failed, Port};
use hume_text::Chunk;
use phase_workers::{Engine, stream_types_have_texts};

/// Writes each value that output streams have taken, in source order, and forgets them. The ports are given by their places, one for
/// each node.
pub fn drain_outputs(
    engine: &mut Engine,
    ports: &mut [Box<dyn Port>],
    places: &[usize],
    chunk: &mut Chunk,
) -> Result<(), Failed>
    requires runnable { IsRunnable (core_of engine.old) }
    requires parts { IsStateOf (core_of engine.old) (state_of engine.old) }
    requires places { ArePlacesOf (core_of engine.old) (names (map view ports.old)) places.now }
    requires room { 512 * 1024 < room_of chunk.old }
    ensures core { core_of engine.new ≡ core_of engine.old }
    ensures span { span_of engine.new ≡ span_of engine.old }
    ensures queues { (n : ℕ) → queue_at engine.new n ≡ queue_at engine.old n }
    ensures peaks { ArePeaksKept engine.old engine.new }
    ensures ends { Ends never [] (write_each (writes_of_nodes (core_of engine.old) (λ n. (part_of (state_of engine.old) n).taken))) []
        (map view ports.old) (map view ports.new) result }
    ensures clears { OnOk result (Clears (core_of engine.old) (state_of engine.old) (state_of engine.new)) }
    ensures same_names { names (map view ports.new) ≡ names (map view ports.old) }
    ensures room { room_of chunk.new ≡ room_of chunk.old }
{
    for node in 0..places.len() {
        match drain_node(engine, node, ports, places[node], chunk) {
            Ok(()) => {}
            Err(failed) => return Err(failed),
        }
    }
    Ok(())
}

fn drain_node(
    engine: &mut Engine,
    node: usize,
    ports: &mut [Box<dyn Port>],
    at: usize,
    chunk: &mut Chunk,
) -> Result<(), Failed>
    requires runnable { IsRunnable (core_of engine.old) }
    requires within { node < length (core_of engine.old).nodes }
    requires place { (stream : StreamC) → slice_get (core_of engine.old).nodes node ≡ Some (To stream)
        → IsPlaceOf stream.port (names (map view ports.old)) at }
    requires room { 512 * 1024 < room_of chunk.old }
    ensures core { core_of engine.new ≡ core_of engine.old }
    ensures span { span_of engine.new ≡ span_of engine.old }
    ensures queues { (n : ℕ) → queue_at engine.new n ≡ queue_at engine.old n }
    ensures peaks { ArePeaksKept engine.old engine.new }
    ensures ends { Ends never []
        (write_each (writes_of_node (core_of engine.old) node (slice_get (core_of engine.old).nodes node) (part_of (state_of engine.old) node).taken)) []
        (map view ports.old) (map view ports.new) result }
    ensures clears { OnOk result (ClearsNode (core_of engine.old) node (state_of engine.old) (state_of engine.new)) }
    ensures same_names { names (map view ports.new) ≡ names (map view ports.old) }
    ensures room { room_of chunk.new ≡ room_of chunk.old }
{
    if !is_output(engine.core(), node) {
        return Ok(());
    }
    stream_types_have_texts();
    chunk.clear();
    engine.drain(node as u32, ports, at, chunk)
}
