ghost use Rattle.std.specs.Prelude.{◌≡◌, ◌^◌, ◌≤◌, map};
ghost use Rattle.hume_console.specs.inner.Begun.{EndsStarted, HasBegun};
ghost use Rattle.hume_console.specs.inner.Opening.{IsOpenable};
ghost use Rattle.hume_console.specs.inner.Standing.{Call};

use crate::ending::Ending;
use crate::opening::open;
use crate::preparing::Ready;
use crate::serving::serve;
use hume_ports::{Failed, Port};
use std::alloc::Global;
use std::thread::Threads;
use turn_workers::Gate;

/// Takes all memory of a session, with room among those that are gone for all ports, and serves it.
pub fn start<R: Threads + Sync, G: Gate>(
    rt: &R,
    alloc: Global,
    ready: Ready,
    workers: u32,
    ports: &mut Vec<Box<dyn Port>>,
    gone: &mut Vec<Box<dyn Port>>,
    gate: &G,
) -> Ending
    requires workers { workers ≤ 2 ^ 16 }
    requires accepted { IsOpenable ready.accepted }
    requires begun { (call : Call) × (call.core ≡ ready.accepted.core)
        × HasBegun call ready.places (record { ports = map view ports.old.items; gone = map view gone.old.items }) }
    ensures ends { (call : Call) → call.core ≡ ready.accepted.core
        → HasBegun call ready.places (record { ports = map view ports.old.items; gone = map view gone.old.items })
        → EndsStarted call (record { ports = map view ports.old.items; gone = map view gone.old.items })
        (record { ports = map view ports.new.items; gone = map view gone.new.items }) result }
    ensures usage { result ≡ Ending.Usage → ⊥ }
{
    let Ready { accepted, places } = ready;
    let Ok(()) = gone.reserve(ports.len()) else {
        return Ending::NoMemory;
    };
    let Ok(mut opened) = open(alloc, accepted, places, workers) else {
        return Ending::NoMemory;
    };
    match serve(rt, &mut opened, ports, gone, gate) {
        Ok(ending) => ending,
        Err(Failed) => Ending::Fault,
    }
}
