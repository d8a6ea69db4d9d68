ghost use Rattle.std.specs.Prelude.{◌≡◌, ◌<◌, ◌≤◌, length, map, IfSome, Some, string_bytes};
ghost use Rattle.demo_net.specs.declared.source.TheConstants.{MAX_NUMBER};
ghost use Rattle.hume_calls.specs.Words.{order_of, four_of as asked_four, number_of, traced_of as trace_asked, run_of as asked_run, demo_of as asked_demo};
ghost use Rattle.hume_calls.specs.Words.{verify_of as verify_asked, log_order as asked_log, runs_of as asked_runs};
ghost use Rattle.hume_calls.specs.Words.{more_of as asked_more, calc_of as asked_calc, is_own as own_asked};
ghost use Rattle.hume_calls.specs.Words.{is_run as run_asked, steps_of, net_of, workers_of};
ghost use Rattle.hume_calls.specs.Words.{all_differ, is_union as union_asked, union_of as asked_union};
ghost use Rattle.hume_ports.specs.Ports.{is_among};
ghost use Rattle.hume_calls.specs.Places.{further_place, source_place};

use crate::order::Order;
use crate::words::numbers::{is_number, value};
use demo_net::MAX_NUMBER;
use hume_base::limits::{MAX_SUPERSTEPS, MAX_WORKERS};

/// How many programs may be run as one net.
const MAX_PROGRAMS: usize = 8;

/// The place of the source's name among the words of a run.
const RUN_SOURCE: u32 = 3;

/// The place of a script's name among them.
const SCRIPT: u32 = 4;

/// That of the first source's name among the words of a union.
const UNION_SOURCES: u32 = 4;

/// The place of the source's name among the words of a run that is logged.
const LOG_SOURCE: u32 = 2;

/// That of the log's name.
const LOG: u32 = 3;

/// The place of the source's name among the words of a check.
const CHECK_SOURCE: u32 = 1;

/// What the words of a call ask for, if they have a form.
pub fn read_words(words: &[String]) -> Option<Order>
    ensures order { result ≡ order_of (map string_bytes words.now) }
    ensures steps { IfSome result (λ order. steps_of order ≤ MAX_SUPERSTEPS) }
    ensures number { IfSome result (λ order. net_of order ≤ MAX_NUMBER) }
    ensures workers { IfSome result (λ order. workers_of order ≤ MAX_WORKERS) }
    ensures source { IfSome result (λ order. IfSome (source_place order) (λ place. place < length words.now)) }
    ensures further { IfSome result (λ order. IfSome (further_place order) (λ place. place < length words.now)) }
{
    match words {
        [command, _] if command.as_str() == "check" => Some(Order::Check {
            source: CHECK_SOURCE,
        }),
        [command, first, second, third] => four_of(command, first, second, third),
        [command, first, second, third, names @ ..] => {
            more_of(command, first, second, third, names)
        }
        _ => None,
    }
}

// What four words ask for: a demo, or a run without ports.
fn four_of(command: &str, first: &str, second: &str, third: &str) -> Option<Order>
    ensures order { result ≡ asked_four command.now first.now second.now third.now }
    ensures steps { IfSome result (λ order. steps_of order ≤ MAX_SUPERSTEPS) }
    ensures number { IfSome result (λ order. net_of order ≤ MAX_NUMBER) }
    ensures workers { IfSome result (λ order. workers_of order ≤ MAX_WORKERS) }
    ensures source { IfSome result (λ order. IfSome (source_place order) (λ place. place < 4)) }
    ensures further { IfSome result (λ order. IfSome (further_place order) (λ place. place < 4)) }
{
    if command == "demo" {
        return demo_of(number(first)?, number(second)?, number(third)?);
    }
    runs_of(command, first, second, third)
}

// What a command and three words ask for, whatever ports follow: a run that is logged, or one that isn't.
fn runs_of(command: &str, first: &str, second: &str, third: &str) -> Option<Order>
    ensures order { result ≡ asked_runs (verify_asked command.now) command.now first.now second.now third.now }
    ensures steps { IfSome result (λ order. steps_of order ≤ MAX_SUPERSTEPS) }
    ensures number { IfSome result (λ order. net_of order ≡ 0) }
    ensures workers { IfSome result (λ order. workers_of order ≤ MAX_WORKERS) }
    ensures source { IfSome result (λ order. IfSome (source_place order) (λ place. place < 4)) }
    ensures further { IfSome result (λ order. IfSome (further_place order) (λ place. place < 4)) }
{
    match verify_of(command) {
        Some(verify) => log_order(verify, number(first)?, second, third),
        None => run_of(traced_of(command)?, number(first)?, number(second)?),
    }
}

// Whether the command compares a log, if it is one of logs.
fn verify_of(command: &str) -> Option<bool>
    ensures { result ≡ verify_asked command.now }
{
    if command == "record" {
        return Some(false);
    }
    if command == "verify" {
        return Some(true);
    }
    None
}

// What five words or more ask for: a run of what a script makes, of several sources, or of one. The names are those behind the
// fourth word.
fn more_of(command: &str, first: &str, second: &str, third: &str, names: &[String]) -> Option<Order>
    ensures order { result ≡ asked_more command.now first.now second.now third.now (map string_bytes names.now) }
    ensures steps { IfSome result (λ order. steps_of order ≤ MAX_SUPERSTEPS) }
    ensures number { IfSome result (λ order. net_of order ≡ 0) }
    ensures workers { IfSome result (λ order. workers_of order ≤ MAX_WORKERS) }
    ensures source { IfSome result (λ order. IfSome (source_place order) (λ place. place ≤ UNION_SOURCES)) }
    ensures further { IfSome result (λ order. IfSome (further_place order) (λ place. place ≤ SCRIPT)) }
{
    if command == "calc" {
        return calc_of(number(first)?, number(second)?, third, names);
    }
    if command == "union" {
        return union_of(number(first)?, number(second)?, number(third)?, names);
    }
    runs_of(command, first, second, third)
}

// Whether the command traces a run, if it runs one.
fn traced_of(command: &str) -> Option<bool>
    ensures { result ≡ trace_asked command.now }
{
    if command == "run" {
        return Some(false);
    }
    if command == "trace" {
        return Some(true);
    }
    None
}

fn number(word: &str) -> Option<u32>
    ensures { result ≡ number_of word.now }
{
    if is_number(word.as_bytes()) {
        return Some(value(word.as_bytes()));
    }
    None
}

fn run_of(traced: bool, steps: u32, workers: u32) -> Option<Order>
    ensures { result ≡ asked_run (Some traced) (Some steps) (Some workers) }
{
    if is_run(steps, workers) {
        return Some(Order::Run {
            steps,
            workers,
            source: RUN_SOURCE,
            traced,
        });
    }
    None
}

// A run that is logged, if the log may have its port.
fn log_order(verify: bool, steps: u32, source: &str, log: &str) -> Option<Order>
    ensures { result ≡ asked_log verify (Some steps) source.now log.now }
{
    if steps <= MAX_SUPERSTEPS && is_own(source, log) {
        return Some(Order::Log {
            steps,
            source: LOG_SOURCE,
            log: LOG,
            verify,
        });
    }
    None
}

// The run of what the first of the names makes of the source, if that may be a script's name.
fn calc_of(steps: u32, workers: u32, source: &str, names: &[String]) -> Option<Order>
    ensures { result ≡ asked_calc (Some steps) (Some workers) source.now (map string_bytes names.now) }
{
    let (script, _) = names.split_first()?;
    if is_run(steps, workers) && is_own(source, script) {
        return Some(Order::Calc {
            steps,
            workers,
            source: RUN_SOURCE,
            script: SCRIPT,
        });
    }
    None
}

// The union of `count` sources, if the first words name as many.
fn union_of(steps: u32, workers: u32, count: u32, words: &[String]) -> Option<Order>
    ensures { result ≡ asked_union (Some steps) (Some workers) (Some count) (map string_bytes words.now) }
{
    if is_run(steps, workers) && is_union(count as usize, words) {
        return Some(Order::Union {
            steps,
            workers,
            count,
            sources: UNION_SOURCES,
        });
    }
    None
}

// Whether a port of that name is neither the source's nor one of the standard ones.
fn is_own(source: &str, port: &str) -> bool
    ensures { result ≡ own_asked source.now port.now }
{
    port != source && port != "std_in" && port != "std_out"
}

// Whether there may be so many sources, and the first words are as many and all different.
fn is_union(count: usize, words: &[String]) -> bool
    ensures { result ≡ union_asked count (map string_bytes words.now) }
{
    if count < 2 {
        return false;
    }
    if MAX_PROGRAMS < count {
        return false;
    }
    if words.len() < count {
        return false;
    }
    differ(&words[..count])
}

// Whether no word comes again.
#[cycle(differ)]
fn differ(words: &[String]) -> bool
    ensures { result ≡ all_differ (map string_bytes words.now) }
{
    let Some((word, later)) = words.split_first() else {
        return true;
    };
    !is_in(word, later) && differ(later)
}

#[cycle(is_in)]
fn is_in(word: &str, words: &[String]) -> bool
    ensures { result ≡ is_among word.now (map string_bytes words.now) }
{
    let Some((other, later)) = words.split_first() else {
        return false;
    };
    word == other.as_str() || is_in(word, later)
}

fn demo_of(number: u32, steps: u32, workers: u32) -> Option<Order>
    ensures { result ≡ asked_demo (Some number) (Some steps) (Some workers) }
{
    if number <= MAX_NUMBER && is_run(steps, workers) {
        return Some(Order::Demo {
            number,
            steps,
            workers,
        });
    }
    None
}

// Whether there may be so many supersteps and workers.
fn is_run(steps: u32, workers: u32) -> bool
    ensures { result ≡ run_asked steps workers }
{
    steps <= MAX_SUPERSTEPS && 1 <= workers && workers <= MAX_WORKERS
}
