ghost use Rattle.std.specs.Prelude.{◌≡◌, ◌≤◌, ℕ, List, [], map, IfOk};
ghost use Rattle.hume_front.specs.Accepted.{IsAccepted};
ghost use Rattle.hume_ports.specs.Ports.{names};
ghost use Rattle.port_acts.specs.Ends.{Ends, never};
ghost use Rattle.port_acts.specs.Places.{IsPlaceOf};
ghost use Rattle.run_rounds.specs.Streams.{std_out};
ghost use Rattle.demo_rounds.specs.Opened.{core_in};
ghost use Rattle.hume_calls.specs.Owed.{owed_demo};
ghost use Rattle.hume_base.specs.declared.limits.TheConstants.{MAX_WORKERS};
ghost use Rattle.hume_calls.specs.Ended.{EndsOwed};
ghost use Rattle.hume_run.specs.inner.Opening.{IsOpenDemo};

use box_compile::compile;
use demo_rounds::Demo;
use hume_calls::Status;
use hume_front::Accepted;
use hume_ports::{Failed, Port};
use hume_text::Chunk;
use port_acts::finish_act;
use space_costs::Costs;
use std::alloc::{AllocError, Global};
use std::thread::Threads;
use trace_print::LINE_BYTES;
use trace_print::table::write_total;
use turn_workers::Gate;

/// A demo with all its memory.
#[derive(Drop)]
pub struct OpenedDemo {
    pub demo: Demo,
    /// The bounds of its boxes, and room for the line that tells them.
    pub costs: Costs,
    pub chunk: Chunk,
}

/// Shows an accepted source.
pub fn show_accepted<R: Threads + Sync, G: Gate>(
    rt: &R,
    alloc: Global,
    ports: &mut [Box<dyn Port>],
    accepted: Accepted,
    steps: u32,
    workers: u32,
    out: usize,
    gate: &G,
) -> Status
    requires workers { workers ≤ MAX_WORKERS }
    requires accepted { (text : List ℕ) × IsAccepted text accepted }
    requires out { IsPlaceOf std_out (names (map view ports.old)) out }
    ensures { EndsOwed (owed_demo steps accepted.core) (map view ports.old) (map view ports.new) result }
{
    let Ok(mut opened) = open(alloc, accepted) else {
        return Status::NoMemory;
    };
    let told = tell(rt, &mut opened, ports, steps, workers, out, gate);
    drop(opened);
    match told {
        Ok(()) => Status::Done,
        Err(Failed) => Status::Fault,
    }
}

// Takes all memory of a demo.
fn open(alloc: Global, accepted: Accepted) -> Result<OpenedDemo, AllocError>
    requires { (text : List ℕ) × IsAccepted text accepted }
    ensures core { IfOk result (λ opened. core_in opened.demo ≡ accepted.core) }
    ensures open { IfOk result IsOpenDemo }
{
    let Accepted {
        core,
        wiring,
        costs,
        ..
    } = accepted;
    let chunk = Chunk::make(alloc, LINE_BYTES)?;
    let programs = compile(alloc, &core, &costs)?;
    let demo = Demo::make(alloc, core, &wiring, programs)?;
    Ok(OpenedDemo { demo, costs, chunk })
}

// Tells the bounds of all boxes together, makes the supersteps, tells the chains, and finishes.
fn tell<R: Threads + Sync, G: Gate>(
    rt: &R,
    opened: &mut OpenedDemo,
    ports: &mut [Box<dyn Port>],
    steps: u32,
    workers: u32,
    out: usize,
    gate: &G,
) -> Result<(), Failed>
    requires workers { workers ≤ MAX_WORKERS }
    requires open { IsOpenDemo opened.old }
    requires out { IsPlaceOf std_out (names (map view ports.old)) out }
    ensures { Ends never [] (owed_demo steps (core_in opened.old.demo)).acts [] (map view ports.old) (map view ports.new) result }
{
    let core = opened.demo.core();
    match write_total(core, &opened.costs, &mut opened.chunk, ports, out) {
        Ok(()) => {}
        Err(failed) => return Err(failed),
    }
    match opened.demo.run(rt, steps, workers, gate, ports, out) {
        Ok(()) => {}
        Err(failed) => return Err(failed),
    }
    finish_act(ports, out)
}
