ghost use Rattle.std.specs.Prelude.{◌≡◌, ◌+◌, ◌≤◌, List, None, map, vec_len, vec_capacity};
ghost use Rattle.hume_base.specs.Least.{IsLeast};
ghost use Rattle.hume_model.specs.WellFormed.{HasSoundFrame};
ghost use Rattle.hume_ports.specs.Port.{PortView};
ghost use Rattle.hume_ports.specs.Ports.{names};
ghost use Rattle.box_costs.specs.CostRules.{BreaksCosts};
ghost use Rattle.space_costs.specs.NodeCosts.{AreCosts};
ghost use Rattle.hume_console.specs.inner.Answering.{IsRoomy};
ghost use Rattle.hume_console.specs.inner.Begun.{EndsServed, EndsTable, HasBegun};
ghost use Rattle.hume_console.specs.inner.Opening.{IsOpen};
ghost use Rattle.hume_console.specs.inner.Standing.{Call};

use crate::closing::finish;
use crate::ending::Ending;
use crate::opening::Opened;
use hume_ports::{Failed, Port};
use std::thread::Threads;
use trace_print::table::write_table;
use turn_workers::Gate;

/// Writes the table, does what the commands ask for, and finishes.
pub fn serve<R: Threads + Sync, G: Gate>(
    rt: &R,
    opened: &mut Opened,
    ports: &mut Vec<Box<dyn Port>>,
    gone: &mut Vec<Box<dyn Port>>,
    gate: &G,
) -> Result<Ending, Failed>
    requires room { vec_len gone.old + vec_len ports.old ≤ vec_capacity gone.old }
    requires begun { (call : Call) × HasBegun call opened.old.session.places (record { ports = map view ports.old.items; gone = map view gone.old.items })
        × IsOpen call.core opened.old.costs opened.old.session.places opened.old
        × HasSoundFrame call.core × AreCosts call.core opened.old.costs × IsLeast (BreaksCosts call.core) None }
    ensures { (call : Call) → HasBegun call opened.old.session.places (record { ports = map view ports.old.items; gone = map view gone.old.items })
        → IsOpen call.core opened.old.costs opened.old.session.places opened.old
        → EndsServed call (record { ports = map view ports.new.items; gone = map view gone.new.items }) result }
{
    match tell_table(opened, ports) {
        Ok(()) => {}
        Err(failed) => return Err(failed),
    }
    let ending = match opened.session.run(rt, ports, gone, gate) {
        Ok(ending) => ending,
        Err(failed) => return Err(failed),
    };
    match finish(&opened.session, ports) {
        Ok(()) => Ok(ending),
        Err(failed) => Err(failed),
    }
}

// Tells what each box may take.
fn tell_table(opened: &mut Opened, ports: &mut [Box<dyn Port>]) -> Result<(), Failed>
    requires begun { (call : Call) × (gone : List PortView) × HasBegun call opened.old.session.places (record { ports = map view ports.old; gone = gone })
        × IsOpen call.core opened.old.costs opened.old.session.places opened.old
        × HasSoundFrame call.core × AreCosts call.core opened.old.costs × IsLeast (BreaksCosts call.core) None }
    ensures ends { (call : Call) (gone : List PortView) → HasBegun call opened.old.session.places (record { ports = map view ports.old; gone = gone })
        → IsOpen call.core opened.old.costs opened.old.session.places opened.old
        → EndsTable call opened.new.session (record { ports = map view ports.new; gone = gone }) result }
    ensures roomy { IsRoomy opened.new.session }
    ensures same_names { names (map view ports.new) ≡ names (map view ports.old) }
{
    let out = opened.session.places.std_out;
    write_table(
        opened.session.engine.core(),
        &opened.costs,
        &mut opened.session.chunk,
        ports,
        out,
    )
}
