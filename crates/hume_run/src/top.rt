ghost use Rattle.std.specs.Prelude.{◌≡◌, ◌≤◌, ◌<◌, ◌^◌, ◌∷◌, ◌↔◌, ◌⊎◌, ℕ, true, Some, length, map, string_bytes};
ghost use Rattle.std.specs.List.{list_any};
ghost use Rattle.std.specs.Option.{is_none};
ghost use Rattle.hume_ports.specs.Ports.{names, place_of};
ghost use Rattle.port_acts.specs.Places.{IsPlaceOf};
ghost use Rattle.hume_calls.specs.Headline.{Headline, IsUsage, AnswersFrom, EndsUntold};
ghost use Rattle.hume_calls.specs.declared.order.Order.TheVariants as orders;
ghost use Rattle.hume_calls.specs.Ended.{EndsText, IsFurtherAt};
ghost use Rattle.hume_run.specs.inner.Places.{has_source_alone};
ghost use Rattle.hume_run.specs.Sources.{AreThere};
ghost use Rattle.hume_calls.specs.Words.{Named, all_differ, order_of, source_alone, source_with, workers_of};
ghost use Rattle.hume_base.specs.declared.limits.TheConstants.{MAX_SUPERSTEPS, MAX_WORKERS};
ghost use Rattle.run_rounds.specs.Streams.{std_out};

use crate::calc::calc_text;
use crate::demo::show_demo;
use crate::log::log_text;
use crate::union::run_union;
use hume_calls::{Order, SourceError, Status, check_text, read_source, read_words, run_text};
use hume_ports::{Port, find};
use std::alloc::Global;
use std::thread::Threads;
use turn_workers::Gate;

/// Does what the words ask for, over the ports, and says how it ended. Of two ports with one name the first is meant. A worker goes
/// through the gate before each execute step.
pub fn hume<R: Threads + Sync, G: Gate>(
    rt: &R,
    alloc: Global,
    words: &[String],
    ports: &mut [Box<dyn Port>],
    gate: &G,
) -> Status
    ensures usage { (result ≡ Status.Usage) ↔ IsUsage (map string_bytes words.now) (names (map view ports.old)) }
    ensures idle { result ≡ Status.Usage → map view ports.new ≡ map view ports.old }
    ensures run { Headline (map string_bytes words.now) (map view ports.old) (map view ports.new) result }
{
    let Some(order) = read_words(words) else {
        return Status::Usage;
    };
    let Some(out) = find(ports, "std_out") else {
        return Status::Usage;
    };
    match order {
        Order::Demo {
            number,
            steps,
            workers,
        } => show_demo(rt, alloc, ports, number, steps, workers, out, gate),
        Order::Calc {
            steps,
            workers,
            source,
            script,
        } => ask_calc(
            rt, alloc, words, ports, steps, workers, source, script, out, gate,
        ),
        Order::Log {
            steps,
            source,
            log,
            verify,
        } => ask_log(alloc, words, ports, steps, source, log, verify, out),
        Order::Union {
            steps,
            workers,
            count,
            sources,
        } => ask_union(
            rt, alloc, words, ports, steps, workers, count, sources, out, gate,
        ),
        Order::Run { source, .. } | Order::Check { source } => {
            let name = words[source as usize].as_str();
            let Some(at) = find(ports, name) else {
                return Status::Usage;
            };
            answer(rt, alloc, ports, order, name, at, out, gate)
        }
    }
}

// Finds the ports of source and script, which the words at these places name, and goes on with the source.
fn ask_calc<R: Threads + Sync, G: Gate>(
    rt: &R,
    alloc: Global,
    words: &[String],
    ports: &mut [Box<dyn Port>],
    steps: u32,
    workers: u32,
    source: u32,
    script: u32,
    out: usize,
    gate: &G,
) -> Status
    requires asked { order_of (map string_bytes words.now) ≡ Some (orders.Calc steps workers source script) }
    requires workers { workers ≤ MAX_WORKERS }
    requires source { source < length words.now }
    requires script { script < length words.now }
    requires out { IsPlaceOf std_out (names (map view ports.old)) out }
    ensures usage { (result ≡ Status.Usage) ↔ IsUsage (map string_bytes words.now) (names (map view ports.old)) }
    ensures idle { result ≡ Status.Usage → map view ports.new ≡ map view ports.old }
    ensures run { Headline (map string_bytes words.now) (map view ports.old) (map view ports.new) result }
{
    let name = words[source as usize].as_str();
    let others = &words[script as usize..script as usize + 1];
    let Some(at) = find(ports, name) else {
        return Status::Usage;
    };
    let Some(script_at) = find(ports, words[script as usize].as_str()) else {
        return Status::Usage;
    };
    answer_calc(
        rt, alloc, ports, steps, workers, name, others, at, script_at, out, gate,
    )
}

// Reads the source from the port at the place `at`, and goes on with the script, whose port is the one of `others` and stands at the
// place `script_at`.
fn answer_calc<R: Threads + Sync, G: Gate>(
    rt: &R,
    alloc: Global,
    ports: &mut [Box<dyn Port>],
    steps: u32,
    workers: u32,
    name: &str,
    others: &[String],
    at: usize,
    script_at: usize,
    out: usize,
    gate: &G,
) -> Status
    requires workers { workers ≤ MAX_WORKERS }
    requires source { IsPlaceOf name.now (names (map view ports.old)) at }
    requires script { IsFurtherAt (source_with name.now (map string_bytes others.now)) (names (map view ports.old)) script_at }
    requires out { IsPlaceOf std_out (names (map view ports.old)) out }
    ensures { (place script : ℕ)
        → EndsUntold (orders.Calc steps workers place script) (source_with name.now (map string_bytes others.now)) (map view ports.old)
        (map view ports.new) result
        ⊎ AnswersFrom (orders.Calc steps workers place script) (source_with name.now (map string_bytes others.now)) (map view ports.old)
        (map view ports.new) result }
{
    match read_source(alloc, ports, at) {
        Ok(text) => calc_text(
            rt,
            alloc,
            ports,
            steps,
            workers,
            name.as_bytes(),
            others,
            &text,
            script_at,
            out,
            gate,
        ),
        Err(SourceError::Failed) => Status::Fault,
        Err(SourceError::NoMemory) => Status::NoMemory,
    }
}

// Finds the ports of source and log, which the words at these places name, and goes on with the source.
fn ask_log(
    alloc: Global,
    words: &[String],
    ports: &mut [Box<dyn Port>],
    steps: u32,
    source: u32,
    log: u32,
    verify: bool,
    out: usize,
) -> Status
    requires asked { order_of (map string_bytes words.now) ≡ Some (orders.Log steps source log verify) }
    requires steps { steps ≤ MAX_SUPERSTEPS }
    requires source { source < length words.now }
    requires log { log < length words.now }
    requires out { IsPlaceOf std_out (names (map view ports.old)) out }
    ensures usage { (result ≡ Status.Usage) ↔ IsUsage (map string_bytes words.now) (names (map view ports.old)) }
    ensures idle { result ≡ Status.Usage → map view ports.new ≡ map view ports.old }
    ensures run { Headline (map string_bytes words.now) (map view ports.old) (map view ports.new) result }
{
    let name = words[source as usize].as_str();
    let others = &words[log as usize..log as usize + 1];
    let Some(at) = find(ports, name) else {
        return Status::Usage;
    };
    let Some(log_at) = find(ports, words[log as usize].as_str()) else {
        return Status::Usage;
    };
    answer_log(alloc, ports, steps, verify, name, others, at, log_at, out)
}

// Reads the source from the port at the place `at`, and goes on with the log, whose port is the one of `others` and stands at the place
// `log_at`.
fn answer_log(
    alloc: Global,
    ports: &mut [Box<dyn Port>],
    steps: u32,
    verify: bool,
    name: &str,
    others: &[String],
    at: usize,
    log_at: usize,
    out: usize,
) -> Status
    requires steps { steps ≤ MAX_SUPERSTEPS }
    requires source { IsPlaceOf name.now (names (map view ports.old)) at }
    requires log { IsFurtherAt (source_with name.now (map string_bytes others.now)) (names (map view ports.old)) log_at }
    requires out { IsPlaceOf std_out (names (map view ports.old)) out }
    ensures { (place log : ℕ)
        → EndsUntold (orders.Log steps place log verify) (source_with name.now (map string_bytes others.now)) (map view ports.old) (map view ports.new) result
        ⊎ AnswersFrom (orders.Log steps place log verify) (source_with name.now (map string_bytes others.now)) (map view ports.old)
        (map view ports.new) result }
{
    match read_source(alloc, ports, at) {
        Ok(text) => log_text(
            alloc,
            ports,
            steps,
            verify,
            name.as_bytes(),
            others,
            &text,
            log_at,
            out,
        ),
        Err(SourceError::Failed) => Status::Fault,
        Err(SourceError::NoMemory) => Status::NoMemory,
    }
}

// Finds the ports of `count` sources, which the words from this place on name, and goes on with the sources.
fn ask_union<R: Threads + Sync, G: Gate>(
    rt: &R,
    alloc: Global,
    words: &[String],
    ports: &mut [Box<dyn Port>],
    steps: u32,
    workers: u32,
    count: u32,
    sources: u32,
    out: usize,
    gate: &G,
) -> Status
    requires asked { order_of (map string_bytes words.now) ≡ Some (orders.Union steps workers count sources) }
    requires workers { workers ≤ MAX_WORKERS }
    requires out { IsPlaceOf std_out (names (map view ports.old)) out }
    ensures usage { (result ≡ Status.Usage) ↔ IsUsage (map string_bytes words.now) (names (map view ports.old)) }
    ensures idle { result ≡ Status.Usage → map view ports.new ≡ map view ports.old }
    ensures run { Headline (map string_bytes words.now) (map view ports.old) (map view ports.new) result }
{
    let named = &words[sources as usize..(sources + count) as usize];
    if lacks_one(ports, named) {
        return Status::Usage;
    }
    answer_union(rt, alloc, ports, steps, workers, named, out, gate)
}

// Reads the first of the sources, and goes on with the others.
fn answer_union<R: Threads + Sync, G: Gate>(
    rt: &R,
    alloc: Global,
    ports: &mut [Box<dyn Port>],
    steps: u32,
    workers: u32,
    sources: &[String],
    out: usize,
    gate: &G,
) -> Status
    requires workers { workers ≤ MAX_WORKERS }
    requires several { 2 ≤ length sources.now }
    requires few { length sources.now < 2 ^ 31 }
    requires differ { all_differ (map string_bytes sources.now) ≡ true }
    requires there { AreThere (map string_bytes sources.now) (names (map view ports.old)) }
    requires out { IsPlaceOf std_out (names (map view ports.old)) out }
    ensures { (named : Named) → map string_bytes sources.now ≡ named.source ∷ named.others → (count place : ℕ)
        → EndsUntold (orders.Union steps workers count place) named (map view ports.old) (map view ports.new) result
        ⊎ AnswersFrom (orders.Union steps workers count place) named (map view ports.old) (map view ports.new) result }
{
    let Some(at) = find(ports, sources[0].as_str()) else {
        unreachable!()
    };
    match read_source(alloc, ports, at) {
        Ok(text) => run_union(rt, alloc, ports, steps, workers, sources, text, out, gate),
        Err(SourceError::Failed) => Status::Fault,
        Err(SourceError::NoMemory) => Status::NoMemory,
    }
}

// Whether there is no port of one of the names.
#[cycle(lacks_one)]
fn lacks_one(ports: &[Box<dyn Port>], sources: &[String]) -> bool
    ensures { result ≡ list_any (λ name. is_none (place_of name (names (map view ports.now)))) (map string_bytes sources.now) }
{
    let Some((source, later)) = sources.split_first() else {
        return false;
    };
    find(ports, source.as_str()).is_none() || lacks_one(ports, later)
}

// Reads the source from the port at the place `at`, and goes on by the words, which name a source.
fn answer<R: Threads + Sync, G: Gate>(
    rt: &R,
    alloc: Global,
    ports: &mut [Box<dyn Port>],
    order: Order,
    name: &str,
    at: usize,
    out: usize,
    gate: &G,
) -> Status
    requires sourced { has_source_alone order ≡ true }
    requires workers { workers_of order ≤ MAX_WORKERS }
    requires source { IsPlaceOf name.now (names (map view ports.old)) at }
    requires out { IsPlaceOf std_out (names (map view ports.old)) out }
    ensures { EndsUntold order (source_alone name.now) (map view ports.old) (map view ports.new) result
        ⊎ AnswersFrom order (source_alone name.now) (map view ports.old) (map view ports.new) result }
{
    match read_source(alloc, ports, at) {
        Ok(text) => answer_text(rt, alloc, ports, order, name.as_bytes(), &text, out, gate),
        Err(SourceError::Failed) => Status::Fault,
        Err(SourceError::NoMemory) => Status::NoMemory,
    }
}

fn answer_text<R: Threads + Sync, G: Gate>(
    rt: &R,
    alloc: Global,
    ports: &mut [Box<dyn Port>],
    order: Order,
    source: &[u8],
    text: &[u8],
    out: usize,
    gate: &G,
) -> Status
    requires sourced { has_source_alone order ≡ true }
    requires workers { workers_of order ≤ MAX_WORKERS }
    requires out { IsPlaceOf std_out (names (map view ports.old)) out }
    ensures { EndsText order (source_alone source.now) text.now (map view ports.old) (map view ports.new) result }
{
    match order {
        Order::Run {
            steps,
            workers,
            traced,
            ..
        } => run_text(
            rt, alloc, ports, steps, workers, traced, source, text, out, gate,
        ),
        Order::Check { .. } => check_text(alloc, ports, text, out),
        Order::Calc { .. } | Order::Log { .. } | Order::Union { .. } | Order::Demo { .. } => {
            unreachable!()
        }
    }
}
