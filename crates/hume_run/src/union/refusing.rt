//! The refusal of one of several programs.
ghost use Rattle.std.specs.Prelude.{◌≡◌, map};
ghost use Rattle.hume_base.specs.declared.rule.Rule.TheVariants.{C56};
ghost use Rattle.hume_ports.specs.Ports.{names};
ghost use Rattle.port_acts.specs.Places.{IsPlaceOf};
ghost use Rattle.run_rounds.specs.Streams.{std_out};
ghost use Rattle.hume_calls.specs.Owed.{owed_program_refused};
ghost use Rattle.hume_calls.specs.Ended.{EndsOwed};

use hume_base::{Refusal, Rule};
use hume_calls::{ProgramRefusal, Status, program_refused_line};
use hume_ports::{Failed, Port};
use port_acts::write_and_finish;
use std::alloc::Global;

/// Tells which rule the program breaks.
pub fn refuse_program(
    alloc: Global,
    ports: &mut [Box<dyn Port>],
    out: usize,
    refusal: ProgramRefusal,
) -> Status
    requires { IsPlaceOf std_out (names (map view ports.old)) out }
    ensures { EndsOwed (owed_program_refused refusal) (map view ports.old) (map view ports.new) result }
{
    let Ok(line) = program_refused_line(alloc, refusal) else {
        return Status::NoMemory;
    };
    match write_and_finish(ports, out, &line) {
        Ok(()) => Status::Refused,
        Err(Failed) => Status::Fault,
    }
}

/// The refusal of the program of that number, with which the union passes a limit.
pub fn over_limit(program: u32) -> ProgramRefusal
    ensures { result ≡ record { program = program; refusal = record { rule = C56; line = 1 } } }
{
    ProgramRefusal {
        program,
        refusal: Refusal {
            rule: Rule::C56,
            line: 1,
        },
    }
}
