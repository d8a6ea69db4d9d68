ghost use Rattle.std.specs.Prelude.{◌≡◌, ◌↔◌, ◌^◌, ◌≤◌, false, Some, map, string_bytes};
ghost use Rattle.hume_ports.specs.Ports.{names, place_of};
ghost use Rattle.run_rounds.specs.Streams.{std_out as output};
ghost use Rattle.hume_console.specs.Words.{is_standard, std_in as commands};
ghost use Rattle.hume_console.specs.Headline.{Headline, IsUsage};
ghost use Rattle.hume_console.specs.inner.Begun.{EndsAnswered};

use crate::ending::Ending;
use crate::preparing::prepare;
use crate::starting::start;
use crate::words::read_words;
use hume_ports::{Port, find};
use run_rounds::each_run_has_inputs;
use std::alloc::Global;
use std::thread::Threads;
use turn_workers::Gate;

/// Steps the net of a source as the commands ask that come from the port `std_in`, and says how it ended. Of two ports with one name
/// the first is meant, at each command. A port that a stream has given up is moved to the end of `gone`, for the caller to drop. A
/// worker goes through the gate before each execute step.
pub fn console<R: Threads + Sync, G: Gate>(
    rt: &R,
    alloc: Global,
    words: &[String],
    ports: &mut Vec<Box<dyn Port>>,
    gone: &mut Vec<Box<dyn Port>>,
    gate: &G,
) -> Ending
    ensures usage { (result ≡ Ending.Usage) ↔ IsUsage (map string_bytes words.now) (names (map view ports.old.items)) }
    ensures idle { result ≡ Ending.Usage → (map view ports.new.items ≡ map view ports.old.items) × (map view gone.new.items ≡ map view gone.old.items) }
    ensures session { Headline (map string_bytes words.now)
        (record { ports = map view ports.old.items; gone = map view gone.old.items })
        (record { ports = map view ports.new.items; gone = map view gone.new.items }) result }
{
    let Some(opening) = read_words(words) else {
        return Ending::Usage;
    };
    let name = words[opening.source].as_str();
    let Some(source) = find(ports, name) else {
        return Ending::Usage;
    };
    let Some(std_in) = find(ports, "std_in") else {
        return Ending::Usage;
    };
    let Some(std_out) = find(ports, "std_out") else {
        return Ending::Usage;
    };
    answer(
        rt,
        alloc,
        name,
        opening.workers,
        source,
        std_in,
        std_out,
        ports,
        gone,
        gate,
    )
}

// Reads the source from the port at the place `source`, and serves its session.
fn answer<R: Threads + Sync, G: Gate>(
    rt: &R,
    alloc: Global,
    name: &str,
    workers: u32,
    source: usize,
    std_in: usize,
    std_out: usize,
    ports: &mut Vec<Box<dyn Port>>,
    gone: &mut Vec<Box<dyn Port>>,
    gate: &G,
) -> Ending
    requires workers { workers ≤ 2 ^ 16 }
    requires own { is_standard name.now ≡ false }
    requires source { place_of name.now (names (map view ports.old.items)) ≡ Some source }
    requires std_in { place_of commands (names (map view ports.old.items)) ≡ Some std_in }
    requires std_out { place_of output (names (map view ports.old.items)) ≡ Some std_out }
    ensures ends { EndsAnswered name.now
        (record { ports = map view ports.old.items; gone = map view gone.old.items })
        (record { ports = map view ports.new.items; gone = map view gone.new.items }) result }
    ensures usage { result ≡ Ending.Usage → ⊥ }
{
    each_run_has_inputs();
    match prepare(alloc, name.as_bytes(), source, std_in, std_out, ports) {
        Ok(ready) => start(rt, alloc, ready, workers, ports, gone, gate),
        Err(ending) => ending,
    }
}
