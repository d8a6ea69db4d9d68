//! What a line of commands asks for is done, or what is wrong with it is told.
ghost use Rattle.std.specs.Prelude.{◌≡◌, ◌+◌, ◌≤◌, ◌^◌, ℕ, List, OnOk, Some, map, vec_len, vec_capacity};
ghost use Rattle.std.specs.Option.{option_map};
ghost use Rattle.hume_ports.specs.Port.{PortView};
ghost use Rattle.hume_ports.specs.Ports.{names};
ghost use Rattle.run_rounds.specs.declared.rounds.TheConstants.{SPAN};
ghost use Rattle.hume_console.specs.inner.Asked.{asked_by};
ghost use Rattle.hume_console.specs.Commands.{Step as StepAsked, Exchange as ExchangeAsked};
ghost use Rattle.hume_console.specs.inner.Answering.{left_asked, turn_of, EndsAnswer, HasRooms, IsMoment, IsShort, Moment};

use crate::command::Command;
use crate::ending::Ending;
use crate::exchanging::exchange;
use crate::places::Places;
use crate::stepping::step;
use crate::telling::{tell_no_command, tell_no_exchange};
use hume_ports::{Failed, Port};
use hume_text::Chunk;
use phase_workers::Engine;
use run_rounds::{tell_bad_line, tell_peaks, tell_wires};
use std::thread::Threads;
use turn_workers::Gate;

/// How a session goes on after a line.
#[derive(Clone, Copy)]
pub enum Turn {
    Continues,
    Ends(Ending),
}

/// Does what the line of that number asks for, or tells that it has no form.
pub fn obey<R: Threads + Sync, G: Gate>(
    rt: &R,
    engine: &mut Engine,
    places: &mut Places,
    chunk: &mut Chunk,
    workers: u32,
    command: Option<Command>,
    number: u32,
    ports: &mut Vec<Box<dyn Port>>,
    gone: &mut Vec<Box<dyn Port>>,
    gate: &G,
) -> Result<Turn, Failed>
    requires workers { workers ≤ 2 ^ 16 }
    requires short { IsShort (option_map asked_by command) }
    requires rooms { HasRooms engine.old chunk.old }
    requires room { vec_len gone.old + vec_len ports.old ≤ vec_capacity gone.old }
    requires at { (m : Moment) × IsMoment m (left_asked m.call number (option_map asked_by command) m.later) engine.old places.old
        (record { ports = map view ports.old.items; gone = map view gone.old.items }) }
    ensures ends { (m : Moment) → IsMoment m (left_asked m.call number (option_map asked_by command.entry) m.later) engine.old places.old
        (record { ports = map view ports.old.items; gone = map view gone.old.items })
        → EndsAnswer m.call (m.limit + 64) m.later engine.new m.commands places.new
        (record { ports = map view ports.new.items; gone = map view gone.new.items }) result }
    ensures rooms { OnOk result (HasRooms engine.new chunk.new) }
    ensures room { vec_len gone.new + vec_len ports.new ≤ vec_capacity gone.new }
{
    match command {
        None => told(tell_no_command(number, ports, places.std_out, chunk)),
        Some(command) => obey_command(
            rt, engine, places, chunk, workers, command, number, ports, gone, gate,
        ),
    }
}

// Does what a command asks for.
fn obey_command<R: Threads + Sync, G: Gate>(
    rt: &R,
    engine: &mut Engine,
    places: &mut Places,
    chunk: &mut Chunk,
    workers: u32,
    command: Command,
    number: u32,
    ports: &mut Vec<Box<dyn Port>>,
    gone: &mut Vec<Box<dyn Port>>,
    gate: &G,
) -> Result<Turn, Failed>
    requires workers { workers ≤ 2 ^ 16 }
    requires short { IsShort (Some (asked_by command)) }
    requires rooms { HasRooms engine.old chunk.old }
    requires room { vec_len gone.old + vec_len ports.old ≤ vec_capacity gone.old }
    requires at { (m : Moment) × IsMoment m (left_asked m.call number (Some (asked_by command)) m.later) engine.old places.old
        (record { ports = map view ports.old.items; gone = map view gone.old.items }) }
    ensures ends { (m : Moment) → IsMoment m (left_asked m.call number (Some (asked_by command.entry)) m.later) engine.old places.old
        (record { ports = map view ports.old.items; gone = map view gone.old.items })
        → EndsAnswer m.call (m.limit + 64) m.later engine.new m.commands places.new
        (record { ports = map view ports.new.items; gone = map view gone.new.items }) result }
    ensures rooms { OnOk result (HasRooms engine.new chunk.new) }
    ensures room { vec_len gone.new + vec_len ports.new ≤ vec_capacity gone.new }
{
    match command {
        Command::Wires => told(tell_wires(engine, ports, places.std_out, chunk)),
        Command::Peaks => told(tell_peaks(engine, ports, places.std_out, chunk)),
        Command::End => Ok(Turn::Ends(Ending::Done)),
        Command::Step(steps) => {
            obey_step(rt, engine, places, chunk, workers, steps, ports, gate)
        }
        Command::Exchange { stream, port } => {
            obey_exchange(engine, places, chunk, stream, port, number, ports, gone)
        }
    }
}

// A line is told, and the session goes on.
fn told(written: Result<(), Failed>) -> Result<Turn, Failed>
    ensures { result ≡ turn_of written }
{
    match written {
        Ok(()) => Ok(Turn::Continues),
        Err(failed) => Err(failed),
    }
}

// Makes supersteps, or tells the bad line that blocks them.
fn obey_step<R: Threads + Sync, G: Gate>(
    rt: &R,
    engine: &mut Engine,
    places: &Places,
    chunk: &mut Chunk,
    workers: u32,
    steps: u32,
    ports: &mut [Box<dyn Port>],
    gate: &G,
) -> Result<Turn, Failed>
    requires workers { workers ≤ 2 ^ 16 }
    requires short { steps ≤ SPAN }
    requires rooms { HasRooms engine.old chunk.old }
    requires at { (m : Moment) × (number : ℕ) × (gone : List PortView)
        × IsMoment m (left_asked m.call number (Some (StepAsked steps)) m.later) engine.old places.now (record { ports = map view ports.old; gone = gone }) }
    ensures ends { (m : Moment) (number : ℕ) (gone : List PortView)
        → IsMoment m (left_asked m.call number (Some (StepAsked steps)) m.later) engine.old places.now (record { ports = map view ports.old; gone = gone })
        → EndsAnswer m.call (m.limit + 64) m.later engine.new m.commands places.now (record { ports = map view ports.new; gone = gone }) result }
    ensures same_names { names (map view ports.new) ≡ names (map view ports.old) }
    ensures rooms { OnOk result (HasRooms engine.new chunk.new) }
{
    match step(rt, engine, steps, workers, gate, ports, places, chunk) {
        Ok(None) => Ok(Turn::Continues),
        Ok(Some(bad)) => {
            match tell_bad_line(engine.core(), bad, ports, places.std_out, chunk) {
                Ok(()) => Ok(Turn::Ends(Ending::BadValue)),
                Err(failed) => Err(failed),
            }
        }
        Err(failed) => Err(failed),
    }
}

// Lets a stream go on with another port, or tells that it can't.
fn obey_exchange(
    engine: &mut Engine,
    places: &mut Places,
    chunk: &mut Chunk,
    stream: &[u8],
    port: &[u8],
    number: u32,
    ports: &mut Vec<Box<dyn Port>>,
    gone: &mut Vec<Box<dyn Port>>,
) -> Result<Turn, Failed>
    requires rooms { HasRooms engine.old chunk.old }
    requires room { vec_len gone.old + vec_len ports.old ≤ vec_capacity gone.old }
    requires at { (m : Moment) × IsMoment m (left_asked m.call number (Some (ExchangeAsked stream.now port.now)) m.later) engine.old places.old
        (record { ports = map view ports.old.items; gone = map view gone.old.items }) }
    ensures ends { (m : Moment) → IsMoment m (left_asked m.call number (Some (ExchangeAsked stream.now port.now)) m.later) engine.old places.old
        (record { ports = map view ports.old.items; gone = map view gone.old.items })
        → EndsAnswer m.call (m.limit + 64) m.later engine.new m.commands places.new
        (record { ports = map view ports.new.items; gone = map view gone.new.items }) result }
    ensures rooms { OnOk result (HasRooms engine.new chunk.new) }
    ensures room { vec_len gone.new + vec_len ports.new ≤ vec_capacity gone.new }
{
    match exchange(engine, places, stream, port, ports, gone) {
        Ok(true) => Ok(Turn::Continues),
        Ok(false) => told(tell_no_exchange(number, ports, places.std_out, chunk)),
        Err(failed) => Err(failed),
    }
}
