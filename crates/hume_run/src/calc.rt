//! A run of what a script makes of a source.
//!
//! Main call: `calc_text`. `Calc.antt` of `hume_calls` says what is refused, and `Ended.antt` there how the call can end.
//!
//! Proved: it ends as the refusal of a source that isn't sound does, or reads the script and ends as the refusal of a line or of
//! the new core, or as the run of the new core.
//!
//! It knows a source's text and the ports. It doesn't know the words of the call.
mod refusals;

ghost use Rattle.std.specs.Prelude.{◌≡◌, ◌≤◌, ◌∷◌, [], ℕ, List, Ok, map, string_bytes};
ghost use Rattle.hume_base.specs.declared.limits.TheConstants.{MAX_WORKERS};
ghost use Rattle.hume_model.specs.declared.core_tree.Core.{Core as CoreValue};
ghost use Rattle.hume_net.specs.StatePlaces.{BoxesHandleAll};
ghost use Rattle.wiring_check.specs.Wires.{IsWiringOf};
ghost use Rattle.phase_workers.specs.Runnable.{IsRunnable};
ghost use Rattle.box_calculus.specs.Scripts.{scripted};
ghost use Rattle.hume_front.specs.Accepted.{IsSound};
ghost use Rattle.hume_ports.specs.Ports.{names};
ghost use Rattle.port_acts.specs.Places.{IsPlaceOf};
ghost use Rattle.run_rounds.specs.Streams.{std_out};
ghost use Rattle.hume_calls.specs.declared.order.Order.TheVariants.{Calc};
ghost use Rattle.hume_calls.specs.Words.{source_with};
ghost use Rattle.hume_calls.specs.Ended.{EndsText, IsFurtherAt};
ghost use Rattle.hume_run.specs.inner.ScriptEnds.{EndsScript};

use crate::calc::refusals::{end_script, end_unsound, new_costs};
use box_calculus::run_script;
use hume_calls::{
    PlacesError, Ready, SourceError, Status, find_places, read_script, refuse, run_ready, unfit_at,
};
use hume_front::{Sound, check_source};
use hume_model::Core;
use hume_ports::Port;
use run_rounds::{each_run_has_inputs, wants_stand_before_rounds};
use space_costs::CostError;
use std::alloc::Global;
use std::thread::Threads;
use turn_workers::Gate;
use wiring_check::Wiring;

/// Runs what a script makes of a source of that text, for `steps` supersteps on `workers` workers. The script's port is the one word
/// of `others` and stands at the place `at`; `out` is the place of `std_out`, and `source` the name of the source's port.
pub fn calc_text<R: Threads + Sync, G: Gate>(
    rt: &R,
    alloc: Global,
    ports: &mut [Box<dyn Port>],
    steps: u32,
    workers: u32,
    source: &[u8],
    others: &[String],
    text: &[u8],
    at: usize,
    out: usize,
    gate: &G,
) -> Status
    requires workers { workers ≤ MAX_WORKERS }
    requires script { IsFurtherAt (source_with source.now (map string_bytes others.now)) (names (map view ports.old)) at }
    requires out { IsPlaceOf std_out (names (map view ports.old)) out }
    ensures { (place script : ℕ) → EndsText (Calc steps workers place script) (source_with source.now (map string_bytes others.now)) text.now
        (map view ports.old) (map view ports.new) result }
{
    each_run_has_inputs();
    wants_stand_before_rounds();
    let sound = match check_source(alloc, text) {
        Ok(sound) => sound,
        Err(error) => return end_unsound(alloc, ports, out, error),
    };
    match read_script(alloc, ports, at) {
        Ok(script) => {
            run_rewritten(
                rt, alloc, ports, steps, workers, sound, &script, source, others, out, gate,
            )
        }
        Err(SourceError::Failed) => {
            drop(sound);
            Status::Fault
        }
        Err(SourceError::NoMemory) => {
            drop(sound);
            Status::NoMemory
        }
    }
}

// Makes the steps of the script, and runs what comes of it.
fn run_rewritten<R: Threads + Sync, G: Gate>(
    rt: &R,
    alloc: Global,
    ports: &mut [Box<dyn Port>],
    steps: u32,
    workers: u32,
    sound: Sound,
    script: &[u8],
    source: &[u8],
    others: &[String],
    out: usize,
    gate: &G,
) -> Status
    requires workers { workers ≤ MAX_WORKERS }
    requires sound { (text : List ℕ) × IsSound text sound }
    requires out { IsPlaceOf std_out (names (map view ports.old)) out }
    ensures { (port : List ℕ) → map string_bytes others.now ≡ port ∷ []
        → EndsScript steps sound.core script.now source.now port (map view ports.old) (map view ports.new) result }
{
    let Sound { core, wiring, .. } = sound;
    match run_script(alloc, core, script) {
        Ok(new) => run_new(
            rt, alloc, ports, steps, workers, new, wiring, source, others, out, gate,
        ),
        Err(error) => end_script(alloc, ports, out, error),
    }
}

// Runs the new core, if its boxes don't take too much and its streams have their ports.
fn run_new<R: Threads + Sync, G: Gate>(
    rt: &R,
    alloc: Global,
    ports: &mut [Box<dyn Port>],
    steps: u32,
    workers: u32,
    core: Core,
    wiring: Wiring,
    source: &[u8],
    others: &[String],
    out: usize,
    gate: &G,
) -> Status
    requires workers { workers ≤ MAX_WORKERS }
    requires runnable { IsRunnable core }
    requires handles { BoxesHandleAll core }
    requires wiring { IsWiringOf core wiring }
    requires out { IsPlaceOf std_out (names (map view ports.old)) out }
    ensures { (first : CoreValue) (lines port : List ℕ) → scripted first lines ≡ Ok core → map string_bytes others.now ≡ port ∷ []
        → EndsScript steps first lines source.now port (map view ports.old) (map view ports.new) result }
{
    let costs = match new_costs(alloc, &core) {
        Ok(costs) => costs,
        Err(CostError::Refused(refusal)) => {
            drop((core, wiring));
            return refuse(alloc, ports, out, refusal);
        }
        Err(CostError::NoMemory) => {
            drop((core, wiring));
            return Status::NoMemory;
        }
    };
    let ready = Ready {
        core,
        wiring,
        costs,
    };
    match find_places(alloc, ports, &ready.core, source, others) {
        Ok(places) => run_ready(
            rt, alloc, ports, steps, workers, false, ready, places, out, gate,
        ),
        Err(PlacesError::Unfit(line)) => {
            drop(ready);
            refuse(alloc, ports, out, unfit_at(line))
        }
        Err(PlacesError::NoMemory) => {
            drop(ready);
            Status::NoMemory
        }
    }
}
