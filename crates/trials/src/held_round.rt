//! A round of an engine by itself, whose gate holds boxes.
ghost use Rattle.std.specs.Prelude.{◌≡◌, ◌<◌, ◌≤◌, IfOk, length};
ghost use Rattle.hume_base.specs.declared.limits.TheConstants.{MAX_NODES, MAX_WIRES};
ghost use Rattle.hume_net.specs.Start.{start, no_values};
ghost use Rattle.phase_workers.specs.Engines.{core_of, span_of, state_of};
ghost use Rattle.trials.specs.inner.Sources.{IsOfSource};

use crate::error::TrialError;
use crate::groups::{Groups, divided, tell_groups};
use crate::held_gate::{HeldGate, Hold};
use box_compile::compile;
use hume_front::Accepted;
use hume_model::NodeC;
use phase_workers::Engine;
use std::alloc::{AllocError, Global};
use std::io;
use std::thread::Threads;
use turn_workers::OpenGate;

// More workers are never asked for.
const MOST_WORKERS: u32 = 65_536;

/// Makes so many supersteps of a new engine as one round. The standard output has whether the gate let both boxes by, and what the round
/// leaves: each word on a wire, each word that an output stream has taken, and the most words of stack of each node.
pub(crate) fn hold_round<R: Threads + Sync>(
    rt: &HostRuntime,
    threads: &R,
    alloc: Global,
    hold: Hold,
    accepted: Accepted,
    steps: u32,
    workers: u32,
    groups: Option<Groups>,
) -> Result<(), TrialError>
    requires { IsOfSource accepted }
{
    let gate = HeldGate::new(hold);
    let engine = divided_engine(alloc, accepted, steps, workers, groups)?;
    make_round(rt, threads, engine, steps, workers, &gate)?;
    Ok(())
}

/// Tells the groups of a round of no superstep by so many workers.
pub(crate) fn show_groups<R: Threads + Sync>(
    rt: &HostRuntime,
    threads: &R,
    alloc: Global,
    accepted: Accepted,
    workers: u32,
) -> Result<(), TrialError>
    requires { IsOfSource accepted }
{
    let engine = new_engine(alloc, accepted, 0)?;
    divide_and_tell(rt, threads, engine, workers)?;
    Ok(())
}

fn divide_and_tell<R: Threads + Sync>(
    rt: &HostRuntime,
    threads: &R,
    mut engine: Engine,
    workers: u32,
) -> io::Result<()>
    requires begun { state_of engine ≡ start (core_of engine) (no_values (core_of engine)) }
{
    engine.round(threads, 0, workers.min(MOST_WORKERS), &OpenGate);
    tell_groups(rt, &engine)
}

// A new engine, which goes by groups that are chosen at random where some are asked for.
fn divided_engine(
    alloc: Global,
    accepted: Accepted,
    steps: u32,
    workers: u32,
    groups: Option<Groups>,
) -> Result<Engine, AllocError>
    requires { IsOfSource accepted }
    ensures span { IfOk result (λ engine. span_of engine ≡ steps) }
    ensures begun { IfOk result (λ engine. state_of engine ≡ start (core_of engine) (no_values (core_of engine))) }
    ensures core { IfOk result (λ engine. core_of engine ≡ accepted.core) }
{
    let engine = new_engine(alloc, accepted, steps)?;
    match groups {
        None => Ok(engine),
        Some(groups) => divided(alloc, engine, groups, workers),
    }
}

// The first round of an engine, and what it leaves.
fn make_round<R: Threads + Sync>(
    rt: &HostRuntime,
    threads: &R,
    mut engine: Engine,
    steps: u32,
    workers: u32,
    gate: &HeldGate,
) -> io::Result<()>
    requires span { steps ≤ span_of engine }
    requires begun { state_of engine ≡ start (core_of engine) (no_values (core_of engine)) }
    requires nodes { length (core_of engine).nodes ≤ MAX_NODES }
    requires wires { length (core_of engine).wires ≤ MAX_WIRES }
{
    engine.round(threads, steps, workers.min(MOST_WORKERS), gate);
    tell(rt, gate, &engine)
}

fn tell(rt: &HostRuntime, gate: &HeldGate, engine: &Engine) -> io::Result<()>
    requires nodes { length (core_of engine.now).nodes ≤ MAX_NODES }
    requires wires { length (core_of engine.now).wires ≤ MAX_WIRES }
{
    println!(rt; "{}", gate.told())?;
    tell_wires(rt, engine)?;
    tell_nodes(rt, engine)
}

fn new_engine(alloc: Global, accepted: Accepted, span: u32) -> Result<Engine, AllocError>
    requires { IsOfSource accepted }
    ensures span { IfOk result (λ engine. span_of engine ≡ span) }
    ensures begun { IfOk result (λ engine. state_of engine ≡ start (core_of engine) (no_values (core_of engine))) }
    ensures core { IfOk result (λ engine. core_of engine ≡ accepted.core) }
{
    let Accepted {
        core,
        wiring,
        costs,
        ..
    } = accepted;
    let programs = compile(alloc, &core, &costs)?;
    let engine = Engine::make(alloc, core, &wiring, programs, span)?;
    Ok(engine)
}

fn tell_wires(rt: &HostRuntime, engine: &Engine) -> io::Result<()>
    requires { length (core_of engine.now).wires ≤ MAX_WIRES }
{
    for wire in 0..engine.core().wires.len() {
        tell_wire(rt, engine, wire as u32)?;
    }
    Ok(())
}

fn tell_wire(rt: &HostRuntime, engine: &Engine, wire: u32) -> io::Result<()>
    requires { wire < length (core_of engine.now).wires }
{
    let cell = engine.wire(wire);
    for i in 0..cell.count() {
        tell_words(rt, "wire", wire, cell.nth(i))?;
    }
    Ok(())
}

fn tell_nodes(rt: &HostRuntime, engine: &Engine) -> io::Result<()>
    requires { length (core_of engine.now).nodes ≤ MAX_NODES }
{
    for node in 0..engine.core().nodes.len() {
        tell_taken(rt, engine, node as u32)?;
        println!(rt; "stack {node} {}", engine.stack_peak(node as u32))?;
    }
    Ok(())
}

fn tell_taken(rt: &HostRuntime, engine: &Engine, node: u32) -> io::Result<()> {
    let Some(NodeC::To(_)) = engine.core().nodes.get(node as usize) else {
        return Ok(());
    };
    let log = engine.log(node);
    for i in 0..log.count() {
        tell_words(rt, "taken", node, log.at(i))?;
    }
    Ok(())
}

fn tell_words(rt: &HostRuntime, what: &str, number: u32, words: &[u64]) -> io::Result<()> {
    for word in words {
        println!(rt; "{what} {number} {}", *word)?;
    }
    Ok(())
}
