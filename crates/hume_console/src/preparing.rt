ghost use Rattle.std.specs.Prelude.{◌≡◌, ◌∷◌, [], ℕ, List, None, Some, map, IfOk, IfErr, IsErrOf};
ghost use Rattle.hume_base.specs.declared.rule.Rule.TheVariants.{C55};
ghost use Rattle.hume_ports.specs.Port.{PortView};
ghost use Rattle.hume_ports.specs.Ports.{names, place_of};
ghost use Rattle.run_rounds.specs.Streams.{ArePlacesOf, ArePortsApart, std_out as output, streams};
ghost use Rattle.hume_calls.specs.Streams.{unfit_line};
ghost use Rattle.hume_console.specs.Words.{std_in as commands};
ghost use Rattle.hume_console.specs.inner.Begun.{EndsAnswered};
ghost use Rattle.hume_console.specs.inner.Prepared.{HasRead, IsPrepared};

use crate::ending::Ending;
use crate::places::Places;
use crate::refusing::refuse;
use hume_base::{Refusal, Rule};
use hume_calls::{PlacesError, SourceError, find_places, read_source};
use hume_front::{Accepted, FrontError, accept};
use hume_model::Core;
use hume_ports::Port;
use std::alloc::Global;

/// A source that is accepted, and the places of its session's ports.
#[derive(Drop)]
pub struct Ready {
    pub accepted: Accepted,
    pub places: Places,
}

/// Reads the source from the port at the place `source`, and asks whether it is accepted and its streams may have their ports; or ends
/// the call.
pub fn prepare(
    alloc: Global,
    name: &[u8],
    source: usize,
    std_in: usize,
    std_out: usize,
    ports: &mut [Box<dyn Port>],
) -> Result<Ready, Ending>
    requires source { place_of name.now (names (map view ports.old)) ≡ Some source }
    requires std_in { place_of commands (names (map view ports.old)) ≡ Some std_in }
    requires std_out { place_of output (names (map view ports.old)) ≡ Some std_out }
    ensures ready { IfOk result (IsPrepared name.now (map view ports.old) (map view ports.new)) }
    ensures ended { IfErr result (λ ending. (gone : List PortView) → EndsAnswered name.now
        (record { ports = map view ports.old; gone = gone }) (record { ports = map view ports.new; gone = gone }) ending) }
    ensures usage { IfErr result (λ ending. ending ≡ Ending.Usage → ⊥) }
    ensures same_names { names (map view ports.new) ≡ names (map view ports.old) }
{
    match read_source(alloc, ports, source) {
        Ok(text) => prepare_text(alloc, name, &text, source, std_in, std_out, ports),
        Err(SourceError::Failed) => Err(Ending::Fault),
        Err(SourceError::NoMemory) => Err(Ending::NoMemory),
    }
}

// Asks whether a source of that text, which was read, is accepted and its streams may have their ports; or ends the call.
fn prepare_text(
    alloc: Global,
    name: &[u8],
    text: &[u8],
    source: usize,
    std_in: usize,
    std_out: usize,
    ports: &mut [Box<dyn Port>],
) -> Result<Ready, Ending>
    requires source { place_of name.now (names (map view ports.old)) ≡ Some source }
    requires std_in { place_of commands (names (map view ports.old)) ≡ Some std_in }
    requires std_out { place_of output (names (map view ports.old)) ≡ Some std_out }
    ensures ready { IfOk result (λ ready. (first : List PortView) → HasRead name.now text.now first (map view ports.old)
        → IsPrepared name.now first (map view ports.new) ready) }
    ensures ended { IfErr result (λ ending. (first gone : List PortView) → HasRead name.now text.now first (map view ports.old)
        → EndsAnswered name.now (record { ports = first; gone = gone }) (record { ports = map view ports.new; gone = gone }) ending) }
    ensures usage { IfErr result (λ ending. ending ≡ Ending.Usage → ⊥) }
    ensures same_names { names (map view ports.new) ≡ names (map view ports.old) }
{
    let accepted = match accept(alloc, text) {
        Ok(accepted) => accepted,
        Err(FrontError::Refused(refusal)) => return Err(refuse(alloc, ports, std_out, refusal)),
        Err(FrontError::NoMemory) => return Err(Ending::NoMemory),
    };
    let streams = match find_streams(alloc, ports, &accepted.core, name) {
        Ok(streams) => streams,
        Err(PlacesError::Unfit(line)) => return Err(refuse(alloc, ports, std_out, unfit_at(line))),
        Err(PlacesError::NoMemory) => return Err(Ending::NoMemory),
    };
    let places = Places {
        source,
        std_in,
        std_out,
        streams,
    };
    Ok(Ready { accepted, places })
}

// The places of the ports of all streams, if each port may be its stream's: none may have the port of the commands.
fn find_streams(
    alloc: Global,
    ports: &[Box<dyn Port>],
    core: &Core,
    source: &[u8],
) -> Result<Vec<usize>, PlacesError>
    ensures fit { IfOk result (λ places. unfit_line (names (map view ports.now)) source.now (commands ∷ []) (streams core.now) ≡ None) }
    ensures places { IfOk result (λ places. ArePlacesOf core.now (names (map view ports.now)) places.items) }
    ensures apart { IfOk result (λ places. ArePortsApart core.now) }
    ensures unfit { (line : ℕ) → IsErrOf result (PlacesError.Unfit line)
        → unfit_line (names (map view ports.now)) source.now (commands ∷ []) (streams core.now) ≡ Some line }
{
    let Ok(std_in) = String::from_str(alloc, "std_in") else {
        return Err(PlacesError::NoMemory);
    };
    find_places(alloc, ports, core, source, &[std_in])
}

fn unfit_at(line: u32) -> Refusal
    ensures { result ≡ record { rule = C55; line = line } }
{
    Refusal {
        rule: Rule::C55,
        line,
    }
}
