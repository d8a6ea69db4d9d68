//! All half steps of a round: those that workers made, and those that are left. And those of one time.
ghost use Rattle.std.specs.Prelude.{◌≡◌, ◌+◌, ◌*◌, ◌%◌, ◌<◌, ◌≤◌, ◌^◌, ℕ, length};
ghost use Rattle.hume_base.specs.declared.limits.TheConstants.{MAX_INPUTS, MAX_OUTPUTS};
ghost use Rattle.hume_net.specs.Plan.{IsPlan, plan_of};
ghost use Rattle.box_step.specs.nodes.Openings.{Opening, IsOpeningOf};
ghost use Rattle.step_turns.specs.Rounds.{AllRight, AreFrom, AreInPlace, AreSides, AreUntil, HasSpan, HaveSpan};
ghost use Rattle.phase_workers.specs.inner.Going.{ArePaths};

use crate::paths::Paths;
use box_step::nodes::BoxCell;
use hume_model::Core;
use std::thread::Threads;
use step_turns::{Gate, OpenGate, Sides};
use turn_workers::share_round;
use wire_cells::WireCell;

/// Makes the half steps of `steps` supersteps from times 0, by at most `workers` threads, this one included. It asks for memory for
/// what they share. If there is none, or a thread leaves early, this one makes the half steps that are left.
pub(crate) fn step_all<R: Threads + Sync, G: Gate>(
    rt: &R,
    core: &Core,
    paths: &Paths,
    steps: u32,
    workers: u32,
    gate: &G,
    nodes: &mut Vec<BoxCell>,
    home: &mut Vec<Option<WireCell>>,
)
    requires plan { IsPlan (plan_of core.now) }
    requires workers { workers ≤ 2 ^ 16 }
    requires place { AreInPlace core.now nodes.old.items home.old.items }
    requires wires { length home.old.items ≡ length core.now.wires }
    requires begun { AreUntil 0 nodes.old.items }
    requires paths { ArePaths core.now paths.now }
    requires right { (opening : Opening) × IsOpeningOf core.now opening × AllRight opening nodes.old.items home.old.items × HaveSpan opening steps }
    ensures place { AreInPlace core.now nodes.new.items home.new.items }
    ensures wires { length home.new.items ≡ length core.now.wires }
    ensures until { AreUntil (2 * steps) nodes.new.items }
    ensures from { AreFrom (2 * steps) nodes.new.items }
    ensures right { (opening : Opening) → IsOpeningOf core.now opening → AllRight opening nodes.old.items home.old.items
        → AllRight opening nodes.new.items home.new.items }
{
    share(rt, core, paths, steps, workers, gate, nodes, home);
    step_turns::round(core, &paths.sides, steps, gate, nodes, home);
}

// Makes half steps by several workers where the net is divided among them.
fn share<R: Threads + Sync, G: Gate>(
    rt: &R,
    core: &Core,
    paths: &Paths,
    steps: u32,
    workers: u32,
    gate: &G,
    nodes: &mut Vec<BoxCell>,
    home: &mut Vec<Option<WireCell>>,
)
    requires plan { IsPlan (plan_of core.now) }
    requires workers { workers ≤ 2 ^ 16 }
    requires place { AreInPlace core.now nodes.old.items home.old.items }
    requires wires { length home.old.items ≡ length core.now.wires }
    requires begun { AreUntil 0 nodes.old.items }
    requires paths { ArePaths core.now paths.now }
    requires right { (opening : Opening) × IsOpeningOf core.now opening × AllRight opening nodes.old.items home.old.items × HaveSpan opening steps }
    ensures place { AreInPlace core.now nodes.new.items home.new.items }
    ensures wires { length home.new.items ≡ length core.now.wires }
    ensures until { AreUntil (2 * steps) nodes.new.items }
    ensures right { (opening : Opening) → IsOpeningOf core.now opening → AllRight opening nodes.old.items home.old.items
        → AllRight opening nodes.new.items home.new.items }
{
    let Some(division) = &paths.division else {
        return;
    };
    let alloc = *nodes.allocator();
    // out of memory, it has changed nothing
    let _refused = share_round(
        rt,
        alloc,
        core,
        &paths.sides,
        division,
        steps,
        workers,
        gate,
        nodes,
        home,
    );
}

/// Makes the half step of each node that is at the time. No node is before it.
pub(crate) fn sweep_all(
    core: &Core,
    sides: &Sides,
    time: u64,
    nodes: &mut Vec<BoxCell>,
    home: &mut Vec<Option<WireCell>>,
)
    requires time { time < 2 ^ 40 }
    requires plan { IsPlan (plan_of core.now) }
    requires place { AreInPlace core.now nodes.old.items home.old.items }
    requires wires { length home.old.items ≡ length core.now.wires }
    requires from { AreFrom time nodes.old.items }
    requires sides { AreSides core.now (MAX_INPUTS + MAX_OUTPUTS) sides.now }
    requires right { (opening : Opening) × IsOpeningOf core.now opening × AllRight opening nodes.old.items home.old.items
        × (time % 2 ≡ 0 → HasSpan opening time) }
    ensures place { AreInPlace core.now nodes.new.items home.new.items }
    ensures wires { length home.new.items ≡ length core.now.wires }
    ensures from { AreFrom (time + 1) nodes.new.items }
    ensures until { (most : ℕ) → time < most → AreUntil most nodes.old.items → AreUntil most nodes.new.items }
    ensures right { (opening : Opening) → IsOpeningOf core.now opening → AllRight opening nodes.old.items home.old.items
        → AllRight opening nodes.new.items home.new.items }
{
    step_turns::sweep(core, sides, time, &OpenGate, nodes, home);
}
