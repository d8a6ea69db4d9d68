//! The rounds of a run.
ghost use Rattle.std.specs.Prelude.{◌≡◌, ◌+◌, ◌*◌, ◌≤◌, ◌<◌, ◌^◌, ◌++◌, [], ℕ, suc, List, length, map, OnOk};
ghost use Rattle.hume_net.specs.Lockstep.{lockstep};
ghost use Rattle.hume_net.specs.Nodes.{IsOutputStream};
ghost use Rattle.hume_net.specs.Parts.{IsStateOf};
ghost use Rattle.hume_net.specs.Sides.{part_of};
ghost use Rattle.hume_net.specs.rounds.Rounds.{IsRound, length_of};
ghost use Rattle.hume_ports.specs.Port.{PortView};
ghost use Rattle.hume_ports.specs.Ports.{names};
ghost use Rattle.hume_text.specs.Chunks.{room_of};
ghost use Rattle.port_acts.specs.Acts.{write_each};
ghost use Rattle.port_acts.specs.Ends.{Ends, never};
ghost use Rattle.port_acts.specs.Places.{IsPlaceOf};
ghost use Rattle.phase_workers.specs.Engines.{core_of, queue_at, state_of, span_of as room_in};
ghost use Rattle.phase_workers.specs.Runnable.{IsRunnable};
ghost use Rattle.run_rounds.specs.Streams.{ArePlacesOf, ArePortsApart, std_out};
ghost use Rattle.trace_print.specs.Rooms.{line_room};
ghost use Rattle.run_rounds.specs.Writes.{span_of, writes_of_nodes};
ghost use Rattle.run_rounds.specs.inner.Clearing.{Clears};
ghost use Rattle.run_rounds.specs.inner.Rounding.{told_now, wires_now, PeaksGrow};
ghost use Rattle.run_rounds.specs.inner.Steps.{StandsAfter, EndsRound, EndsRounds};

use crate::bad_line::BadLine;
use crate::draining::drain_outputs;
use crate::filling::fill_inputs;
use crate::telling::tell_superstep;
use hume_ports::{Failed, Port};
use hume_text::Chunk;
use phase_workers::Engine;
use std::thread::Threads;
use turn_workers::Gate;

/// How many supersteps a round has, but for the last, where not all wires are told after each superstep.
pub const SPAN: u32 = 64;

/// How many supersteps a round has, but for the last.
pub fn span(traced: bool) -> u32
    ensures { result ≡ span_of traced }
{
    if traced { 1 } else { SPAN }
}

/// Makes rounds of at most `workers` threads until `steps` supersteps are made, or a stream blocks one by a bad line. The ports of the
/// streams are given by their places, one for each node, and so is the port for all that is told besides.
pub fn make_rounds<R: Threads + Sync, G: Gate>(
    rt: &R,
    engine: &mut Engine,
    traced: bool,
    steps: u32,
    workers: u32,
    gate: &G,
    ports: &mut [Box<dyn Port>],
    places: &[usize],
    out: usize,
    chunk: &mut Chunk,
) -> Result<Option<BadLine>, Failed>
    requires workers { workers ≤ 2 ^ 16 }
    requires runnable { IsRunnable (core_of engine.old) }
    requires places { ArePlacesOf (core_of engine.old) (names (map view ports.old)) places.now }
    requires apart { ArePortsApart (core_of engine.old) }
    requires out { IsPlaceOf std_out (names (map view ports.old)) out }
    requires room { 512 * 1024 < room_of chunk.old }
    requires lines { line_room (core_of engine.old) ≤ room_of chunk.old }
    requires stands { StandsAfter (core_of engine.old) traced steps 0 (map view ports.old) (map view ports.old) engine.old }
    ensures core { core_of engine.new ≡ core_of engine.old }
    ensures ends { EndsRounds (core_of engine.old) traced steps (map view ports.old) (map view ports.new) engine.new result }
    ensures same_names { names (map view ports.new) ≡ names (map view ports.old) }
    ensures room { room_of chunk.new ≡ room_of chunk.old }
{
    for done in 0..steps.div_ceil(span(traced)) {
        match make_round(
            rt, engine, traced, steps, done, workers, gate, ports, places, out, chunk,
        ) {
            Ok(None) => {}
            Ok(Some(bad)) => return Ok(Some(bad)),
            Err(failed) => return Err(failed),
        }
    }
    Ok(None)
}

// Makes the round after those that are done.
fn make_round<R: Threads + Sync, G: Gate>(
    rt: &R,
    engine: &mut Engine,
    traced: bool,
    steps: u32,
    done: u32,
    workers: u32,
    gate: &G,
    ports: &mut [Box<dyn Port>],
    places: &[usize],
    out: usize,
    chunk: &mut Chunk,
) -> Result<Option<BadLine>, Failed>
    requires workers { workers ≤ 2 ^ 16 }
    requires runnable { IsRunnable (core_of engine.old) }
    requires places { ArePlacesOf (core_of engine.old) (names (map view ports.old)) places.now }
    requires apart { ArePortsApart (core_of engine.old) }
    requires out { IsPlaceOf std_out (names (map view ports.old)) out }
    requires room { 512 * 1024 < room_of chunk.old }
    requires lines { line_room (core_of engine.old) ≤ room_of chunk.old }
    requires is { IsRound (span_of traced) steps (suc done) }
    requires stands { (olds : List PortView) × StandsAfter (core_of engine.old) traced steps done olds (map view ports.old) engine.old }
    ensures core { core_of engine.new ≡ core_of engine.old }
    ensures ends { (olds : List PortView) → StandsAfter (core_of engine.old) traced steps done olds (map view ports.old) engine.old
        → EndsRound (core_of engine.old) traced steps done olds (map view ports.new) engine.new result }
    ensures same_names { names (map view ports.new) ≡ names (map view ports.old) }
    ensures room { room_of chunk.new ≡ room_of chunk.old }
{
    let supersteps = (steps - done * span(traced)).min(span(traced));
    match fill_inputs(engine, ports, places, supersteps) {
        Ok(None) => {}
        Ok(Some(bad)) => return Ok(Some(bad)),
        Err(failed) => return Err(failed),
    }
    match run_round(
        rt,
        engine,
        traced,
        done + 1,
        supersteps,
        workers,
        gate,
        ports,
        places,
        out,
        chunk,
    ) {
        Ok(()) => Ok(None),
        Err(failed) => Err(failed),
    }
}

// The supersteps of a round of that number for which all streams are filled, and the lines that come of it.
fn run_round<R: Threads + Sync, G: Gate>(
    rt: &R,
    engine: &mut Engine,
    traced: bool,
    round: u32,
    supersteps: u32,
    workers: u32,
    gate: &G,
    ports: &mut [Box<dyn Port>],
    places: &[usize],
    out: usize,
    chunk: &mut Chunk,
) -> Result<(), Failed>
    requires workers { workers ≤ 2 ^ 16 }
    requires runnable { IsRunnable (core_of engine.old) }
    requires parts { IsStateOf (core_of engine.old) (state_of engine.old) }
    requires places { ArePlacesOf (core_of engine.old) (names (map view ports.old)) places.now }
    requires out { IsPlaceOf std_out (names (map view ports.old)) out }
    requires room { 512 * 1024 < room_of chunk.old }
    requires lines { line_room (core_of engine.old) ≤ room_of chunk.old }
    requires span { supersteps ≤ room_in engine.old }
    requires clear { (n : ℕ) → IsOutputStream (core_of engine.old) n → (part_of (state_of engine.old) n).taken ≡ [] }
    ensures core { core_of engine.new ≡ core_of engine.old }
    ensures span { room_in engine.new ≡ room_in engine.old }
    ensures queues { (n : ℕ) → queue_at engine.new n ≡ queue_at engine.old n }
    ensures peaks { PeaksGrow engine.old supersteps engine.new }
    ensures ends { Ends never [] (write_each (told_now (core_of engine.old) traced round (lockstep (core_of engine.old) (state_of engine.old) supersteps))) []
        (map view ports.old) (map view ports.new) result }
    ensures clears { OnOk result (Clears (core_of engine.old) (lockstep (core_of engine.old) (state_of engine.old) supersteps) (state_of engine.new)) }
    ensures same_names { names (map view ports.new) ≡ names (map view ports.old) }
    ensures room { room_of chunk.new ≡ room_of chunk.old }
{
    engine.round(rt, supersteps, workers, gate);
    match drain_outputs(engine, ports, places, chunk) {
        Ok(()) => {}
        Err(failed) => return Err(failed),
    }
    tell_wires_now(engine, traced, round, ports, out, chunk)
}

// The superstep of that number and all wires, if they are told.
fn tell_wires_now(
    engine: &Engine,
    traced: bool,
    round: u32,
    ports: &mut [Box<dyn Port>],
    out: usize,
    chunk: &mut Chunk,
) -> Result<(), Failed>
    requires runnable { IsRunnable (core_of engine.now) }
    requires out { IsPlaceOf std_out (names (map view ports.old)) out }
    requires lines { line_room (core_of engine.now) ≤ room_of chunk.old }
    ensures ends { Ends never [] (write_each (wires_now (core_of engine.now) traced round (state_of engine.now))) []
        (map view ports.old) (map view ports.new) result }
    ensures same_names { names (map view ports.new) ≡ names (map view ports.old) }
    ensures room { room_of chunk.new ≡ room_of chunk.old }
{
    if traced {
        tell_superstep(engine, round, ports, out, chunk)
    } else {
        Ok(())
    }
}
