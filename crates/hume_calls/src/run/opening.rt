ghost use Rattle.std.specs.Prelude.{◌≡◌, ◌<◌, ℕ, List, length, All, IfOk, vec_len};
ghost use Rattle.hume_net.specs.StatePlaces.{BoxesHandleAll};
ghost use Rattle.hume_text.specs.Chunks.{room_of};
ghost use Rattle.port_acts.specs.Acts.{AreNamed};
ghost use Rattle.port_acts.specs.Places.{IsPlaceOf};
ghost use Rattle.phase_workers.specs.Runnable.{IsRunnable};
ghost use Rattle.run_rounds.specs.Opened.{core_in, traced_in, IsOpened};
ghost use Rattle.run_rounds.specs.Streams.{ArePlacesOf, std_out};
ghost use Rattle.trace_print.specs.declared.space_lines.TheConstants.{LINE_BYTES as ROOM};
ghost use Rattle.wiring_check.specs.Wires.{IsWiringOf};
ghost use Rattle.hume_calls.specs.Bounds.{KeepsBounds};
ghost use Rattle.hume_calls.specs.Opening.{IsOpen};
ghost use Rattle.hume_calls.specs.Owed.{run_finishes};
ghost use Rattle.hume_calls.specs.Ready.{IsReady};

use crate::ready::Ready;
use crate::run::finishes::finish_places;
use box_compile::compile;
use hume_model::Core;
use hume_text::Chunk;
use run_rounds::Running;
use space_costs::Costs;
use std::alloc::{AllocError, Global};
use trace_print::LINE_BYTES;
use wiring_check::Wiring;

/// A run with all its memory.
#[derive(Drop)]
pub struct Opened {
    pub running: Running,
    /// The bounds of its boxes, and room for a line that tells them.
    pub costs: Costs,
    pub chunk: Chunk,
    /// The places of the streams' ports, one for each node.
    pub places: Vec<usize>,
    /// The places of the ports that are finished.
    pub finishes: Vec<usize>,
}

/// Takes all memory of a run. The ports of the streams are given by their places, and so is `std_out`.
pub fn open(
    alloc: Global,
    ready: Ready,
    places: Vec<usize>,
    out: usize,
    traced: bool,
) -> Result<Opened, AllocError>
    requires ready { IsReady ready }
    requires places { vec_len places ≡ length ready.core.nodes }
    ensures core { IfOk result (λ opened. core_in opened.running ≡ ready.core) }
    ensures traced { IfOk result (λ opened. traced_in opened.running ≡ traced) }
    ensures places { IfOk result (λ opened. opened.places.items ≡ places.items) }
    ensures open { IfOk result (IsOpen out) }
{
    let output = make_output(alloc, &ready.core, &places, out)?;
    let running = make_running(alloc, ready.core, &ready.wiring, &ready.costs, traced)?;
    Ok(Opened {
        running,
        costs: ready.costs,
        chunk: output.chunk,
        places,
        finishes: output.finishes,
    })
}

// Room for a line, and the places of the ports that are finished.
#[derive(Drop)]
struct Output {
    chunk: Chunk,
    finishes: Vec<usize>,
}

fn make_output(
    alloc: Global,
    core: &Core,
    places: &[usize],
    out: usize,
) -> Result<Output, AllocError>
    requires { length places.now ≡ length core.now.nodes }
    ensures chunk { IfOk result (λ output. room_of output.chunk ≡ ROOM) }
    ensures finishes { IfOk result (λ output. (names : List (List ℕ)) → ArePlacesOf core.now names places.now → IsPlaceOf std_out names out
        → AreNamed names output.finishes.items (run_finishes core.now) × All (λ at. at < length names) output.finishes.items) }
{
    let finishes = finish_places(alloc, core, places, out)?;
    let chunk = Chunk::make(alloc, LINE_BYTES)?;
    Ok(Output { chunk, finishes })
}

// The run of a core by the programs of its boxes.
fn make_running(
    alloc: Global,
    core: Core,
    wiring: &Wiring,
    costs: &Costs,
    traced: bool,
) -> Result<Running, AllocError>
    requires runnable { IsRunnable core }
    requires handles { BoxesHandleAll core }
    requires wiring { IsWiringOf core wiring.now }
    requires bounds { KeepsBounds core costs.now }
    ensures { IfOk result (IsOpened core traced) }
{
    let programs = compile(alloc, &core, costs)?;
    Running::make(alloc, core, wiring, programs, traced)
}
