//! A run of several sources as one net.
//!
//! Main call: `run_union`. `Ended.antt` of `hume_calls` says how it can end, and `Unions.antt` there what it owes.
//!
//! Proved: it ends as the union of its sources owes, or as the refusal of one of them does.
//!
//! It knows the names of the sources' ports and the first source's text. It doesn't know the words of the call.
mod accepting;
mod apart;
mod making;
mod opening;
mod reading;
mod refusing;

ghost use Rattle.std.specs.Prelude.{◌≡◌, ◌≤◌, ◌<◌, ◌^◌, ◌⊎◌, [], ◌∷◌, ℕ, true, All, List, length, map, None, string_bytes};
ghost use Rattle.hume_base.specs.declared.limits.TheConstants.{MAX_WORKERS};
ghost use Rattle.hume_ports.specs.Ports.{names};
ghost use Rattle.port_acts.specs.Places.{IsPlaceOf};
ghost use Rattle.run_rounds.specs.Streams.{std_out};
ghost use Rattle.union_front.specs.Unions.{IsUnion};
ghost use Rattle.hume_calls.specs.Unions.{AreAccepted, shared_program, unfit_program, union_core};
ghost use Rattle.hume_calls.specs.Words.{Named, all_differ};
ghost use Rattle.hume_calls.specs.declared.order.Order.TheVariants as orders;
ghost use Rattle.hume_calls.specs.Ended.{EndsText, RunsOut};
ghost use Rattle.hume_run.specs.Sources.{AreThere};
ghost use Rattle.hume_run.specs.inner.UnionEnds.{EndsUnion, IsBounded, RunsUnion};

use crate::union::accepting::{AcceptError, accept_all};
use crate::union::apart::{ApartError, check_ports};
use crate::union::making::make_union;
use crate::union::opening::open_union;
use crate::union::reading::read_others;
use crate::union::refusing::{over_limit, refuse_program};
use hume_calls::{SourceError, Status};
use hume_front::Accepted;
use hume_ports::Port;
use run_rounds::{each_run_has_inputs, wants_stand_before_rounds};
use std::alloc::Global;
use std::thread::Threads;
use turn_workers::Gate;
use union_front::{Union, UnionError, unite_all};

/// Runs sources as one net for `steps` supersteps on `workers` workers. `text` is the source of the first of the names, and `out` the
/// place of `std_out`.
pub fn run_union<R: Threads + Sync, G: Gate>(
    rt: &R,
    alloc: Global,
    ports: &mut [Box<dyn Port>],
    steps: u32,
    workers: u32,
    sources: &[String],
    text: Vec<u8>,
    out: usize,
    gate: &G,
) -> Status
    requires workers { workers ≤ MAX_WORKERS }
    requires several { 2 ≤ length sources.now }
    requires few { length sources.now < 2 ^ 31 }
    requires differ { all_differ (map string_bytes sources.now) ≡ true }
    requires there { AreThere (map string_bytes sources.now) (names (map view ports.old)) }
    requires out { IsPlaceOf std_out (names (map view ports.old)) out }
    ensures { (named : Named) → map string_bytes sources.now ≡ named.source ∷ named.others → (count place : ℕ)
        → EndsText (orders.Union steps workers count place) named text.items (map view ports.old) (map view ports.new) result }
{
    each_run_has_inputs();
    wants_stand_before_rounds();
    let texts = match read_others(alloc, ports, text, &sources[1..]) {
        Ok(texts) => texts,
        Err(SourceError::Failed) => return Status::Fault,
        Err(SourceError::NoMemory) => return Status::NoMemory,
    };
    match accept_all(alloc, &texts) {
        Ok(programs) => run_programs(
            rt, alloc, ports, steps, workers, sources, programs, out, gate,
        ),
        Err(AcceptError::Refused(refusal)) => refuse_program(alloc, ports, out, refusal),
        Err(AcceptError::NoMemory) => Status::NoMemory,
    }
}

// Runs accepted sources, if the ports of their streams are apart, and their union is within the limits.
fn run_programs<R: Threads + Sync, G: Gate>(
    rt: &R,
    alloc: Global,
    ports: &mut [Box<dyn Port>],
    steps: u32,
    workers: u32,
    sources: &[String],
    programs: Vec<Accepted>,
    out: usize,
    gate: &G,
) -> Status
    requires workers { workers ≤ MAX_WORKERS }
    requires several { 2 ≤ length programs.items }
    requires few { length programs.items < 2 ^ 31 }
    requires sources { length sources.now ≡ length programs.items }
    requires accepted { (texts : List (List ℕ)) × AreAccepted texts programs.items }
    requires out { IsPlaceOf std_out (names (map view ports.old)) out }
    ensures { (texts : List (List ℕ)) → AreAccepted texts programs.items
        → EndsUnion steps (map string_bytes sources.now) texts (map view ports.old) (map view ports.new) result }
{
    match check_ports(alloc, ports, sources, &programs) {
        Ok(()) => {}
        Err(ApartError::Refused(refusal)) => return refuse_program(alloc, ports, out, refusal),
        Err(ApartError::NoMemory) => return Status::NoMemory,
    }
    match unite_all(alloc, &programs) {
        Ok(union) => run_united(
            rt, alloc, ports, steps, workers, sources, programs, union, out, gate,
        ),
        Err(UnionError::OverLimit(program)) => {
            refuse_program(alloc, ports, out, over_limit(program))
        }
        Err(UnionError::NoMemory) => Status::NoMemory,
    }
}

// Runs the union of accepted sources, the ports of whose streams are apart.
fn run_united<R: Threads + Sync, G: Gate>(
    rt: &R,
    alloc: Global,
    ports: &mut [Box<dyn Port>],
    steps: u32,
    workers: u32,
    sources: &[String],
    programs: Vec<Accepted>,
    union: Union,
    out: usize,
    gate: &G,
) -> Status
    requires workers { workers ≤ MAX_WORKERS }
    requires several { 2 ≤ length programs.items }
    requires few { length programs.items < 2 ^ 31 }
    requires sources { length sources.now ≡ length programs.items }
    requires bounded { All IsBounded programs.items }
    requires union { IsUnion (union_core programs.items) union }
    requires fit { unfit_program (names (map view ports.old)) (map string_bytes sources.now) programs.items 1 ≡ None }
    requires apart { shared_program (map string_bytes sources.now) [] programs.items 1 ≡ None }
    requires out { IsPlaceOf std_out (names (map view ports.old)) out }
    ensures { RunsOut (map view ports.old) (map view ports.new) result
        ⊎ RunsUnion steps (map string_bytes sources.now) programs.items (map view ports.old) (map view ports.new) result }
{
    match open_union(alloc, ports, sources, programs, union, out) {
        Ok(opened) => make_union(rt, opened, ports, steps, workers, out, gate),
        Err(_) => Status::NoMemory,
    }
}
