ghost use Rattle.std.specs.Prelude.{◌≡◌, Some, map};
ghost use Rattle.hume_ports.specs.Ports.{names, place_of};
ghost use Rattle.run_rounds.specs.Streams.{std_out};
ghost use Rattle.hume_calls.specs.Owed.{owed_refused};
ghost use Rattle.hume_console.specs.inner.Begun.{EndsAlone};

use crate::ending::Ending;
use hume_base::Refusal;
use hume_calls::refused_line;
use hume_ports::{Failed, Port};
use port_acts::write_and_finish;
use std::alloc::Global;

/// Tells which rule the source breaks.
pub fn refuse(alloc: Global, ports: &mut [Box<dyn Port>], out: usize, refusal: Refusal) -> Ending
    requires out { place_of std_out (names (map view ports.old)) ≡ Some out }
    ensures ends { EndsAlone (owed_refused refusal).acts Ending.Refused (map view ports.old) (map view ports.new) result }
    ensures usage { result ≡ Ending.Usage → ⊥ }
    ensures same_names { names (map view ports.new) ≡ names (map view ports.old) }
{
    let Ok(line) = refused_line(alloc, refusal) else {
        return Ending::NoMemory;
    };
    match write_and_finish(ports, out, &line) {
        Ok(()) => Ending::Refused,
        Err(Failed) => Ending::Fault,
    }
}
