ghost use Rattle.std.specs.Prelude.{◌≡◌, ℕ, List, map};
ghost use Rattle.hume_base.specs.declared.rule.Rule.TheVariants.{C55};
ghost use Rattle.hume_front.specs.Accepted.{IsUnaccepted};
ghost use Rattle.hume_ports.specs.Ports.{names};
ghost use Rattle.port_acts.specs.Places.{IsPlaceOf};
ghost use Rattle.run_rounds.specs.Streams.{std_out};
ghost use Rattle.hume_calls.specs.Owed.{owed_refused};
ghost use Rattle.hume_calls.specs.Ended.{EndsOwed, EndsRefused};

use crate::lines::refused_line;
use crate::status::Status;
use hume_base::{Refusal, Rule};
use hume_front::FrontError;
use hume_ports::{Failed, Port};
use port_acts::write_and_finish;
use std::alloc::Global;

/// Ends a call of a source that isn't accepted: a rule that it breaks is told, unless memory ran out.
pub fn end_unaccepted(
    alloc: Global,
    ports: &mut [Box<dyn Port>],
    out: usize,
    error: FrontError,
) -> Status
    requires { IsPlaceOf std_out (names (map view ports.old)) out }
    ensures { (text : List ℕ) → IsUnaccepted text error → EndsRefused text (map view ports.old) (map view ports.new) result }
{
    match error {
        FrontError::Refused(refusal) => refuse(alloc, ports, out, refusal),
        FrontError::NoMemory => Status::NoMemory,
    }
}

/// Tells which rule the source breaks.
pub fn refuse(alloc: Global, ports: &mut [Box<dyn Port>], out: usize, refusal: Refusal) -> Status
    requires { IsPlaceOf std_out (names (map view ports.old)) out }
    ensures { EndsOwed (owed_refused refusal) (map view ports.old) (map view ports.new) result }
{
    let Ok(line) = refused_line(alloc, refusal) else {
        return Status::NoMemory;
    };
    match write_and_finish(ports, out, &line) {
        Ok(()) => Status::Refused,
        Err(Failed) => Status::Fault,
    }
}

/// The refusal of a source in whose line a stream stands that can't have its port.
pub fn unfit_at(line: u32) -> Refusal
    ensures { result ≡ record { rule = C55; line = line } }
{
    Refusal {
        rule: Rule::C55,
        line,
    }
}
