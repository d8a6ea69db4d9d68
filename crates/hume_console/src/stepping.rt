ghost use Rattle.std.specs.Prelude.{◌≡◌, ◌*◌, ◌^◌, ◌<◌, ◌≤◌, ℕ, List, [], length, map, Some, OnOk, slice_get, slice_index_or};
ghost use Rattle.hume_model.specs.declared.core_tree.NodeC.TheVariants.{To};
ghost use Rattle.hume_model.specs.declared.core_tree.StreamC.{StreamC};
ghost use Rattle.hume_net.specs.Nodes.{IsOutputStream};
ghost use Rattle.hume_net.specs.Parts.{IsStateOf};
ghost use Rattle.hume_net.specs.Sides.{part_of};
ghost use Rattle.hume_net.specs.Start.{no_values};
ghost use Rattle.hume_ports.specs.Ports.{names, place_of, ForNameAt};
ghost use Rattle.hume_text.specs.Chunks.{room_of};
ghost use Rattle.port_acts.specs.Acts.{write_each};
ghost use Rattle.port_acts.specs.Ends.{Ends, never};
ghost use Rattle.phase_workers.specs.Engines.{core_of, queue_at, span_of, state_of, ArePeaksKept};
ghost use Rattle.phase_workers.specs.Runnable.{IsRunnable};
ghost use Rattle.hume_console.specs.inner.Stepping.{cleared_at, lines_at, lines_of_all, AreWithin, EndsFills, EndsMade, EndsNode, EndsStep, HavePlaces, IsBefore, IsFilling, OnlyOutputsTook, StandsFilling, Step};

use crate::places::Places;
use hume_ports::{Failed, Port};
use hume_streams::FillError;
use hume_text::Chunk;
use phase_workers::{Engine, stream_types_have_texts};
use run_rounds::{BadLine, is_input, is_output};
use std::thread::Threads;
use turn_workers::Gate;

/// Fills each input stream, makes the supersteps, and writes what output streams have taken. Answers the first stream whose next line
/// is bad before it has as many values as there are supersteps; then none is made.
pub fn step<R: Threads + Sync, G: Gate>(
    rt: &R,
    engine: &mut Engine,
    steps: u32,
    workers: u32,
    gate: &G,
    ports: &mut [Box<dyn Port>],
    places: &Places,
    chunk: &mut Chunk,
) -> Result<Option<BadLine>, Failed>
    requires workers { workers ≤ 2 ^ 16 }
    requires before { (step : Step) × IsBefore step steps places.now engine.old (map view ports.old) }
    requires room { 512 * 1024 < room_of chunk.old }
    ensures ends { (step : Step) → IsBefore step steps places.now engine.old (map view ports.old) → EndsStep step engine.new (map view ports.new) result }
    ensures room { room_of chunk.new ≡ room_of chunk.old }
    ensures same_names { names (map view ports.new) ≡ names (map view ports.old) }
{
    match fill_inputs(engine, ports, &places.streams, steps) {
        Ok(None) => {}
        Ok(Some(bad)) => return Ok(Some(bad)),
        Err(failed) => return Err(failed),
    }
    match make_step(
        rt,
        engine,
        steps,
        workers,
        gate,
        ports,
        &places.streams,
        chunk,
    ) {
        Ok(()) => Ok(None),
        Err(failed) => Err(failed),
    }
}

// The supersteps for which all streams are filled, and the lines that come of them.
fn make_step<R: Threads + Sync, G: Gate>(
    rt: &R,
    engine: &mut Engine,
    steps: u32,
    workers: u32,
    gate: &G,
    ports: &mut [Box<dyn Port>],
    places: &[usize],
    chunk: &mut Chunk,
) -> Result<(), Failed>
    requires workers { workers ≤ 2 ^ 16 }
    requires filled { (step : Step) × IsFilling step (length (core_of engine.old).nodes) steps places.now engine.old (map view ports.old) }
    requires room { 512 * 1024 < room_of chunk.old }
    ensures ends { (step : Step) → IsFilling step (length (core_of engine.old).nodes) steps places.now engine.old (map view ports.old)
        → EndsMade step engine.new (map view ports.new) result }
    ensures room { room_of chunk.new ≡ room_of chunk.old }
    ensures same_names { names (map view ports.new) ≡ names (map view ports.old) }
{
    engine.round(rt, steps, workers, gate);
    drain_outputs(engine, ports, places, chunk)
}

fn fill_inputs(
    engine: &mut Engine,
    ports: &mut [Box<dyn Port>],
    places: &[usize],
    want: u32,
) -> Result<Option<BadLine>, Failed>
    requires runnable { IsRunnable (core_of engine.old) }
    requires long { length places.now ≡ length (core_of engine.old).nodes }
    requires filling { (step : Step) × IsFilling step 0 want places.now engine.old (map view ports.old) }
    ensures core { core_of engine.new ≡ core_of engine.old }
    ensures ends { (step : Step) → IsFilling step 0 want places.now engine.old (map view ports.old) → EndsFills step engine.new (map view ports.new) result }
    ensures same_names { names (map view ports.new) ≡ names (map view ports.old) }
{
    for node in 0..places.len() {
        match fill_node(engine, node, ports, places[node], want) {
            Ok(None) => {}
            Ok(Some(line)) => {
                let node = node as u32;
                return Ok(Some(BadLine { node, line }));
            }
            Err(failed) => return Err(failed),
        }
    }
    Ok(None)
}

// Answers the number of the node's next line, if that is bad.
fn fill_node(
    engine: &mut Engine,
    node: usize,
    ports: &mut [Box<dyn Port>],
    at: usize,
    want: u32,
) -> Result<Option<u64>, Failed>
    requires runnable { IsRunnable (core_of engine.old) }
    requires within { node < length (core_of engine.old).nodes }
    requires filling { (step : Step) × (places : List ℕ) × (slice_index_or places node 0 ≡ at)
        × IsFilling step node want places engine.old (map view ports.old) }
    ensures core { core_of engine.new ≡ core_of engine.old }
    ensures ends { (step : Step) (places : List ℕ) → slice_index_or places node 0 ≡ at → IsFilling step node want places engine.old (map view ports.old)
        → EndsNode step node engine.new (map view ports.new) result }
    ensures same_names { names (map view ports.new) ≡ names (map view ports.old) }
{
    if !is_input(engine.core(), node) {
        return Ok(None);
    }
    match engine.fill(node as u32, ports, at, want) {
        Ok(()) => Ok(None),
        Err(FillError::BadValue(line)) => Ok(Some(line)),
        Err(FillError::Failed) => Err(Failed),
    }
}

fn drain_outputs(
    engine: &mut Engine,
    ports: &mut [Box<dyn Port>],
    places: &[usize],
    chunk: &mut Chunk,
) -> Result<(), Failed>
    requires runnable { IsRunnable (core_of engine.old) }
    requires parts { IsStateOf (core_of engine.old) (state_of engine.old) }
    requires places { AreWithin (core_of engine.old) (length ports.old) places.now }
    requires room { 512 * 1024 < room_of chunk.old }
    ensures core { core_of engine.new ≡ core_of engine.old }
    ensures span { span_of engine.new ≡ span_of engine.old }
    ensures queues { (n : ℕ) → queue_at engine.new n ≡ queue_at engine.old n }
    ensures peaks { ArePeaksKept engine.old engine.new }
    ensures ends { (port : ℕ → List ℕ) → HavePlaces (core_of engine.old) port (names (map view ports.old)) places.now
        → Ends never [] (write_each (lines_of_all (core_of engine.old) port (state_of engine.old))) [] (map view ports.old) (map view ports.new) result }
    ensures cleared { OnlyOutputsTook (core_of engine.old) (state_of engine.old)
        → OnOk result (state_of engine.new ≡ record (state_of engine.old) { taken = no_values (core_of engine.old) }) }
    ensures room { room_of chunk.new ≡ room_of chunk.old }
    ensures same_names { names (map view ports.new) ≡ names (map view ports.old) }
{
    for node in 0..places.len() {
        match drain_node(engine, node, ports, places[node], chunk) {
            Ok(()) => {}
            Err(failed) => return Err(failed),
        }
    }
    Ok(())
}

fn drain_node(
    engine: &mut Engine,
    node: usize,
    ports: &mut [Box<dyn Port>],
    at: usize,
    chunk: &mut Chunk,
) -> Result<(), Failed>
    requires runnable { IsRunnable (core_of engine.old) }
    requires within { node < length (core_of engine.old).nodes }
    requires place { (stream : StreamC) → slice_get (core_of engine.old).nodes node ≡ Some (To stream) → at < length ports.old }
    requires room { 512 * 1024 < room_of chunk.old }
    ensures core { core_of engine.new ≡ core_of engine.old }
    ensures span { span_of engine.new ≡ span_of engine.old }
    ensures queues { (n : ℕ) → queue_at engine.new n ≡ queue_at engine.old n }
    ensures peaks { ArePeaksKept engine.old engine.new }
    ensures ends { ForNameAt at (map view ports.old) (λ name. Ends never []
        (write_each (lines_at (core_of engine.old) name node (slice_get (core_of engine.old).nodes node) (part_of (state_of engine.old) node).taken)) []
        (map view ports.old) (map view ports.new) result) }
    ensures quiet { (IsOutputStream (core_of engine.old) node → ⊥) → Ends never [] [] [] (map view ports.old) (map view ports.new) result }
    ensures cleared { OnOk result (state_of engine.new ≡ cleared_at node (slice_get (core_of engine.old).nodes node) (state_of engine.old)) }
    ensures same_names { names (map view ports.new) ≡ names (map view ports.old) }
    ensures room { room_of chunk.new ≡ room_of chunk.old }
{
    if !is_output(engine.core(), node) {
        return Ok(());
    }
    stream_types_have_texts();
    chunk.clear();
    engine.drain(node as u32, ports, at, chunk)
}
