//! The values that output streams take, counted round by round.
ghost use Rattle.std.specs.Prelude.{◌≡◌, ◌≤◌, ◌<◌, ◌+◌, ◌^◌, ◌++◌, ℕ, List, length, IsTrue, IsFalse};
ghost use Rattle.hume_base.specs.declared.types.Value.{Value};
ghost use Rattle.hume_net.specs.Nodes.{IsOutputStream};
ghost use Rattle.hume_net.specs.Parts.{IsStateOf};
ghost use Rattle.hume_net.specs.rounds.Pieces.{taken_in};
ghost use Rattle.hume_net.specs.rounds.Rounds.{rounds_of};
ghost use Rattle.phase_workers.specs.Engines.{core_of, span_of, state_of};
ghost use Rattle.phase_workers.specs.Runnable.{IsRunnable};
ghost use Rattle.phase_workers.specs.StreamTypes.{type_at};
ghost use Rattle.stream_totals.specs.Totals.{total_of};
ghost use Rattle.demo_rounds.specs.inner.Counted.{AreTotals, Clears, ClearsNode, Counted};

use hume_model::{Core, NodeC};
use phase_workers::Engine;
use std::thread::Threads;
use stream_totals::Total;
use turn_workers::Gate;

/// How many supersteps a round has, but for the last.
pub(crate) const SPAN: u32 = 64;

/// Makes `steps` supersteps by rounds of at most `workers` threads. Each total gets the values that its output stream takes.
pub(crate) fn count_rounds<R: Threads + Sync, G: Gate>(
    rt: &R,
    engine: &mut Engine,
    totals: &mut [Total],
    steps: u32,
    workers: u32,
    gate: &G,
)
    requires workers { workers ≤ 2 ^ 16 }
    requires runnable { IsRunnable (core_of engine.old) }
    requires counted { Counted (core_of engine.old) steps 0 totals.old engine.old }
    ensures core { core_of engine.new ≡ core_of engine.old }
    ensures counted { Counted (core_of engine.old) steps (rounds_of SPAN steps) totals.new engine.new }
{
    for done in 0..steps.div_ceil(SPAN) {
        let supersteps = (steps - done * SPAN).min(SPAN);
        engine.round(rt, supersteps, workers, gate);
        count_outputs(engine, totals);
    }
}

// Adds to each total what its output stream has taken, and forgets it there.
fn count_outputs(engine: &mut Engine, totals: &mut [Total])
    requires runnable { IsRunnable (core_of engine.old) }
    requires parts { IsStateOf (core_of engine.old) (state_of engine.old) }
    requires totals { (values : ℕ → List Value) × AreTotals (core_of engine.old) values (2 ^ 61) totals.old }
    ensures core { core_of engine.new ≡ core_of engine.old }
    ensures span { span_of engine.new ≡ span_of engine.old }
    ensures clears { Clears (core_of engine.old) (state_of engine.old) (state_of engine.new) }
    ensures totals { (values : ℕ → List Value) (few : ℕ) → few ≤ 2 ^ 61 → AreTotals (core_of engine.old) values few totals.old
        → AreTotals (core_of engine.old) (λ n. values n ++ taken_in (state_of engine.old) n) (few + 2 ^ 32) totals.new }
{
    for node in 0..totals.len() {
        count_node(engine, node, &mut totals[node]);
    }
}

fn count_node(engine: &mut Engine, node: usize, total: &mut Total)
    requires runnable { IsRunnable (core_of engine.old) }
    requires within { node < length (core_of engine.old).nodes }
    requires few { IsOutputStream (core_of engine.old) node
        → (values : List Value) × (total.old ≡ total_of (core_of engine.old).types (type_at (core_of engine.old) node) values) × (length values ≤ 2 ^ 61) }
    ensures core { core_of engine.new ≡ core_of engine.old }
    ensures span { span_of engine.new ≡ span_of engine.old }
    ensures clears { ClearsNode (core_of engine.old) node (state_of engine.old) (state_of engine.new) }
    ensures total { IsOutputStream (core_of engine.old) node → (values : List Value)
        → total.old ≡ total_of (core_of engine.old).types (type_at (core_of engine.old) node) values
        → total.new ≡ total_of (core_of engine.old).types (type_at (core_of engine.old) node) (values ++ taken_in (state_of engine.old) node) }
    ensures few { IsOutputStream (core_of engine.old) node → length (taken_in (state_of engine.old) node) < 2 ^ 32 }
{
    if !is_output(engine.core(), node) {
        return;
    }
    let log = engine.log(node as u32);
    let _few = log.count();
    total.add(log);
    engine.clear(node as u32);
}

/// Whether the node of that number is an output stream.
pub(crate) fn is_output(core: &Core, node: usize) -> bool
    ensures yes { IsTrue result → IsOutputStream core.now node }
    ensures no { IsFalse result → IsOutputStream core.now node → ⊥ }
{
    match core.nodes.get(node) {
        Some(NodeC::To(_)) => true,
        Some(NodeC::Rules(_) | NodeC::From(_)) | None => false,
    }
}
