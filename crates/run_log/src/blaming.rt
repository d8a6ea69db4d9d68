//! The fault of a line, and the node that is blamed for it.
ghost use Rattle.std.specs.Prelude.{◌≡◌, ◌≤◌, ◌^◌, length};
ghost use Rattle.std.specs.Option.{option_or};
ghost use Rattle.phase_workers.specs.Engines.{core_of};
ghost use Rattle.phase_workers.specs.Runnable.{IsRunnable};
ghost use Rattle.run_log.specs.Faults.{blamed as blamed_at, blamed_for as blamed_by, blocks_before as blocks_there, lines_before as lines_there};
ghost use Rattle.run_log.specs.Nets.{engine_in, half_in};
ghost use Rattle.run_log.specs.inner.LineReads.{IsFaultOf};

use crate::fault::LogFault;
use crate::half::Half;
use crate::line_read::LineRead;
use crate::net::Net;
use hume_model::{Core, WireC};

/// The fault that was found first.
pub(crate) fn first_of(fault: Option<LogFault>, found: Option<LogFault>) -> Option<LogFault>
    ensures { result ≡ option_or fault found }
{
    match fault {
        None => found,
        Some(fault) => Some(fault),
    }
}

/// The fault of the line at a place of the block of a net, if it has one.
pub(crate) fn fault_of(net: &Net, superstep: u32, place: usize, read: LineRead) -> Option<LogFault>
    requires runnable { IsRunnable (core_of (engine_in net.now)) }
    requires there { place ≤ length (core_of (engine_in net.now)).wires }
    ensures { IsFaultOf (core_of (engine_in net.now)) (half_in net.now) superstep place read result }
{
    if read.agrees && read.whole {
        return None;
    }
    let core = net.core();
    let half = net.half();
    let line = lines_before(half, superstep, core) + place as u64 + 1;
    let node = if read.agrees {
        None
    } else {
        blamed(half, superstep, place, core)
    };
    Some(LogFault { line, node })
}

// How many lines stand before the block of a half.
fn lines_before(half: Half, superstep: u32, core: &Core) -> u64
    requires { IsRunnable core.now }
    ensures lines { result ≡ lines_there core.now half superstep }
    ensures few { result ≤ 2 ^ 50 }
{
    blocks_before(half, superstep) * (core.wires.len() as u64 + 1)
}

fn blocks_before(half: Half, superstep: u32) -> u64
    ensures blocks { result ≡ blocks_there half superstep }
    ensures few { result ≤ 2 ^ 33 }
{
    match half {
        Half::Mid => (2 * superstep as u64).saturating_sub(1),
        Half::End => 2 * superstep as u64,
    }
}

// The node that is blamed for the line at a place of a block.
fn blamed(half: Half, superstep: u32, place: usize, core: &Core) -> Option<u32>
    ensures { result ≡ blamed_at core.now half superstep place }
{
    if place == 0 {
        return None;
    }
    match core.wires.get(place - 1) {
        None => None,
        Some(wire) => blamed_for(half, superstep, wire),
    }
}

fn blamed_for(half: Half, superstep: u32, wire: &WireC) -> Option<u32>
    ensures { result ≡ blamed_by half superstep wire.now }
{
    match half {
        Half::Mid => Some(wire.to),
        Half::End => blamed_at_end(superstep, wire),
    }
}

fn blamed_at_end(superstep: u32, wire: &WireC) -> Option<u32>
    ensures { result ≡ blamed_by Half.End superstep wire.now }
{
    if superstep == 0 {
        None
    } else {
        Some(wire.from)
    }
}
