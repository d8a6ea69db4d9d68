ghost use Rattle.std.specs.Prelude.{◌≤◌, ◌^◌, IfOk};
ghost use Rattle.hume_console.specs.inner.Opening.{IsOpen, IsOpenable};

use crate::command_lines::CommandLines;
use crate::places::Places;
use crate::session::Session;
use box_compile::compile;
use hume_base::limits::MAX_TYPE_WORDS;
use hume_front::Accepted;
use hume_text::Chunk;
use phase_workers::Engine;
use run_rounds::SPAN;
use space_costs::Costs;
use std::alloc::{AllocError, Global};
use trace_print::line_bound;

// No text of a value is longer than so many bytes for each of its words.
const WORD_BYTES: u32 = 512;

/// A session with the bounds of its boxes.
#[derive(Drop)]
pub struct Opened {
    pub session: Session,
    pub costs: Costs,
}

/// Takes all memory of a session of an accepted source.
pub fn open(
    alloc: Global,
    accepted: Accepted,
    places: Places,
    workers: u32,
) -> Result<Opened, AllocError>
    requires accepted { IsOpenable accepted }
    requires workers { workers ≤ 2 ^ 16 }
    ensures { IfOk result (IsOpen accepted.core accepted.costs places) }
{
    let Accepted {
        core,
        wiring,
        costs,
        ..
    } = accepted;
    let lines = CommandLines::make(alloc)?;
    let bytes = line_bound(&core).max(WORD_BYTES * MAX_TYPE_WORDS + 1);
    let chunk = Chunk::make(alloc, bytes)?;
    let programs = compile(alloc, &core, &costs)?;
    let engine = Engine::make(alloc, core, &wiring, programs, SPAN)?;
    let session = Session {
        engine,
        lines,
        chunk,
        places,
        workers,
    };
    Ok(Opened { session, costs })
}
