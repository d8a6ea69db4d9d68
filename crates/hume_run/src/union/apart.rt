//! Whether the streams of several programs may have their ports.
ghost use Rattle.std.specs.Prelude.{◌≡◌, [], ◌≤◌, ◌<◌, ◌+◌, ◌^◌, ◌++◌, drop, length, map, string_bytes, take, IfOk, IsErrOf, None, Some};
ghost use Rattle.std.specs.Option.{option_to_list};
ghost use Rattle.hume_base.specs.declared.rule.Rule.TheVariants.{C55, C57};
ghost use Rattle.hume_ports.specs.Ports.{is_among, names};
ghost use Rattle.run_rounds.specs.Streams.{stream_of, streams};
ghost use Rattle.hume_calls.specs.declared.program_refusal.ProgramRefusal.{ProgramRefusal as AnyRefusal};
ghost use Rattle.hume_calls.specs.Unions.{shared_program, taken_line, unfit_program};
ghost use Rattle.hume_run.specs.inner.Texts.{IsPortRefusal, earlier_ports};

use hume_base::{Refusal, Rule};
use hume_calls::{PlacesError, ProgramRefusal, find_places, is_named};
use hume_front::Accepted;
use hume_model::NodeC;
use hume_ports::Port;
use std::alloc::Global;
use thiserror::Error;

/// Why they may not.
#[derive(Debug, Drop, Error)]
pub enum ApartError {
    /// The first program with a stream that can't have its port.
    #[error("a stream can't have its port")]
    Refused(ProgramRefusal),
    #[error("out of memory")]
    NoMemory,
}

/// Whether each stream's port is there and is its own. The programs have the sources of these names.
pub fn check_ports(
    alloc: Global,
    ports: &[Box<dyn Port>],
    sources: &[String],
    programs: &[Accepted],
) -> Result<(), ApartError>
    requires few { length programs.now < 2 ^ 31 }
    requires sources { length sources.now ≡ length programs.now }
    ensures fit { IfOk result (λ done. unfit_program (names (map view ports.now)) (map string_bytes sources.now) programs.now 1 ≡ None) }
    ensures apart { IfOk result (λ done. shared_program (map string_bytes sources.now) [] programs.now 1 ≡ None) }
    ensures refused { (refusal : AnyRefusal) → IsErrOf result (ApartError.Refused refusal)
        → IsPortRefusal (names (map view ports.now)) (map string_bytes sources.now) programs.now refusal }
{
    check_fit(alloc, ports, sources, programs, 1)?;
    match shared_from(sources, programs, 0) {
        Some(refusal) => Err(ApartError::Refused(refusal)),
        None => Ok(()),
    }
}

// Whether each program could run alone over these ports. The first one has that number.
#[cycle(check_fit)]
fn check_fit(
    alloc: Global,
    ports: &[Box<dyn Port>],
    sources: &[String],
    programs: &[Accepted],
    number: u32,
) -> Result<(), ApartError>
    requires few { number + length programs.now < 2 ^ 32 }
    requires sources { length sources.now ≡ length programs.now }
    ensures fit { IfOk result (λ done. unfit_program (names (map view ports.now)) (map string_bytes sources.now) programs.now number ≡ None) }
    ensures refused { (refusal : AnyRefusal) → IsErrOf result (ApartError.Refused refusal)
        → unfit_program (names (map view ports.now)) (map string_bytes sources.now) programs.now number ≡ Some refusal }
{
    let Some((program, later)) = programs.split_first() else {
        return Ok(());
    };
    let Some((source, others)) = sources.split_first() else {
        return Ok(());
    };
    match find_places(alloc, ports, &program.core, source.as_bytes(), &[]) {
        Ok(_) => check_fit(alloc, ports, others, later, number + 1),
        Err(PlacesError::Unfit(line)) => Err(ApartError::Refused(unfit_at(number, line))),
        Err(PlacesError::NoMemory) => Err(ApartError::NoMemory),
    }
}

fn unfit_at(program: u32, line: u32) -> ProgramRefusal
    ensures { result ≡ record { program = program; refusal = record { rule = C55; line = line } } }
{
    ProgramRefusal {
        program,
        refusal: Refusal {
            rule: Rule::C55,
            line,
        },
    }
}

fn shared_at(program: u32, line: u32) -> ProgramRefusal
    ensures { result ≡ record { program = program; refusal = record { rule = C57; line = line } } }
{
    ProgramRefusal {
        program,
        refusal: Refusal {
            rule: Rule::C57,
            line,
        },
    }
}

// The first stream of the programs from that place on whose port is the source of a program or is named by an earlier program.
#[cycle(shared_from)]
fn shared_from(sources: &[String], programs: &[Accepted], place: usize) -> Option<ProgramRefusal>
    requires few { length programs.now < 2 ^ 31 }
    requires place { place ≤ length programs.now }
    ensures { result ≡ shared_program (map string_bytes sources.now) (earlier_ports (take place programs.now)) (drop place programs.now) (place + 1) }
{
    if place == programs.len() {
        return None;
    }
    match shared_line(sources, &programs[..place], &programs[place]) {
        Some(line) => Some(shared_at(place as u32 + 1, line)),
        None => shared_from(sources, programs, place + 1),
    }
}

// The line of its first such stream.
fn shared_line(sources: &[String], earlier: &[Accepted], program: &Accepted) -> Option<u32>
    ensures { result ≡ taken_line (map string_bytes sources.now ++ earlier_ports earlier.now) (streams program.now.core) }
{
    for node in program.core.nodes.as_slice() {
        if let Some(line) = shared_stream(sources, earlier, node) {
            return Some(line);
        }
    }
    None
}

// The line of the node, if it is a stream whose port is taken.
fn shared_stream(sources: &[String], earlier: &[Accepted], node: &NodeC) -> Option<u32>
    ensures { result ≡ taken_line (map string_bytes sources.now ++ earlier_ports earlier.now) (option_to_list (stream_of node.now)) }
{
    match node {
        NodeC::Rules(_) => None,
        NodeC::From(stream) | NodeC::To(stream) => {
            if is_taken(sources, earlier, stream.port.bytes()) {
                return Some(stream.line);
            }
            None
        }
    }
}

// Whether the port is a program's source, or that of a stream of an earlier program.
fn is_taken(sources: &[String], earlier: &[Accepted], port: &[u8]) -> bool
    ensures { result ≡ is_among port.now (map string_bytes sources.now ++ earlier_ports earlier.now) }
{
    is_source(sources, port) || is_earlier(earlier, port)
}

#[cycle(is_source)]
fn is_source(sources: &[String], port: &[u8]) -> bool
    ensures { result ≡ is_among port.now (map string_bytes sources.now) }
{
    let Some((source, later)) = sources.split_first() else {
        return false;
    };
    port == source.as_bytes() || is_source(later, port)
}

#[cycle(is_earlier)]
fn is_earlier(programs: &[Accepted], port: &[u8]) -> bool
    ensures { result ≡ is_among port.now (earlier_ports programs.now) }
{
    let Some((program, later)) = programs.split_first() else {
        return false;
    };
    is_named(program.core.nodes.as_slice(), port) || is_earlier(later, port)
}
