ghost use Rattle.std.specs.Prelude.{◌≡◌, ℕ, [], map};
ghost use Rattle.hume_ports.specs.Ports.{names};
ghost use Rattle.hume_text.specs.Chunks.{room_of};
ghost use Rattle.port_acts.specs.Ends.{Ends, never};
ghost use Rattle.port_acts.specs.Places.{IsPlaceOf};
ghost use Rattle.trace_print.specs.declared.space_lines.TheConstants.{LINE_BYTES as ROOM};
ghost use Rattle.run_rounds.specs.Streams.{std_out};
ghost use Rattle.hume_calls.specs.declared.order.Order.TheVariants.{Check};
ghost use Rattle.hume_calls.specs.Words.{Named};
ghost use Rattle.hume_calls.specs.Owed.{owed_check};
ghost use Rattle.hume_calls.specs.Bounds.{KeepsBounds};
ghost use Rattle.hume_calls.specs.Ended.{EndsOwed, EndsText};

use crate::refusals::end_unaccepted;
use crate::status::Status;
use hume_front::accept;
use hume_model::Core;
use hume_ports::{Failed, Port};
use hume_text::Chunk;
use port_acts::finish_act;
use space_costs::Costs;
use std::alloc::Global;
use trace_print::LINE_BYTES;
use trace_print::table::write_table;

/// Says whether a source of that text is accepted, and what its boxes may take. `out` is the place of `std_out`.
pub fn check_text(alloc: Global, ports: &mut [Box<dyn Port>], text: &[u8], out: usize) -> Status
    requires { IsPlaceOf std_out (names (map view ports.old)) out }
    ensures { (place : ℕ) (named : Named) → EndsText (Check place) named text.now (map view ports.old) (map view ports.new) result }
{
    match accept(alloc, text) {
        Ok(accepted) => {
            let status = check_accepted(alloc, ports, &accepted.core, &accepted.costs, out);
            drop(accepted);
            status
        }
        Err(error) => end_unaccepted(alloc, ports, out, error),
    }
}

// Memory is taken before the first byte is written.
fn check_accepted(
    alloc: Global,
    ports: &mut [Box<dyn Port>],
    core: &Core,
    costs: &Costs,
    out: usize,
) -> Status
    requires bounds { KeepsBounds core.now costs.now }
    requires out { IsPlaceOf std_out (names (map view ports.old)) out }
    ensures { EndsOwed (owed_check core.now) (map view ports.old) (map view ports.new) result }
{
    let Ok(mut chunk) = Chunk::make(alloc, LINE_BYTES) else {
        return Status::NoMemory;
    };
    match tell_table(core, costs, &mut chunk, ports, out) {
        Ok(()) => Status::Done,
        Err(Failed) => Status::Fault,
    }
}

// Writes the table, and finishes the port.
fn tell_table(
    core: &Core,
    costs: &Costs,
    chunk: &mut Chunk,
    ports: &mut [Box<dyn Port>],
    out: usize,
) -> Result<(), Failed>
    requires bounds { KeepsBounds core.now costs.now }
    requires room { room_of chunk.old ≡ ROOM }
    requires out { IsPlaceOf std_out (names (map view ports.old)) out }
    ensures { Ends never [] (owed_check core.now).acts [] (map view ports.old) (map view ports.new) result }
{
    match write_table(core, costs, chunk, ports, out) {
        Ok(()) => {}
        Err(failed) => return Err(failed),
    }
    finish_act(ports, out)
}
