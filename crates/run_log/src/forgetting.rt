//! The execute steps of a superstep, before which output streams forget what they took.
ghost use Rattle.std.specs.Prelude.{◌≡◌, ◌<◌, ℕ, length, IsTrue, IsFalse};
ghost use Rattle.hume_net.specs.Lockstep.{mid};
ghost use Rattle.hume_net.specs.Nodes.{IsOutputStream};
ghost use Rattle.phase_workers.specs.Engines.{core_of, queue_at, span_of, state_of};
ghost use Rattle.phase_workers.specs.Runnable.{IsRunnable};
ghost use Rattle.run_log.specs.Moments.{forgotten};
ghost use Rattle.run_log.specs.inner.Forgetting.{ForgetsNode};

use hume_model::{Core, NodeC};
use phase_workers::{Engine, Halfway};

/// Output streams forget what they took, and then all nodes make their execute steps.
pub(crate) fn execute(engine: Engine) -> Halfway
    requires runnable { IsRunnable (core_of engine) }
    requires span { span_of engine ≡ 1 }
    ensures core { core_of result ≡ core_of engine }
    ensures span { span_of result ≡ span_of engine }
    ensures queues { (n : ℕ) → queue_at result n ≡ queue_at engine n }
    ensures state { state_of result ≡ mid (core_of engine) (forgotten (core_of engine) (state_of engine)) }
{
    let mut engine = engine;
    forget_taken(&mut engine);
    engine.execute()
}

// Output streams forget what they took.
fn forget_taken(engine: &mut Engine)
    requires runnable { IsRunnable (core_of engine.old) }
    ensures core { core_of engine.new ≡ core_of engine.old }
    ensures span { span_of engine.new ≡ span_of engine.old }
    ensures queues { (n : ℕ) → queue_at engine.new n ≡ queue_at engine.old n }
    ensures state { state_of engine.new ≡ forgotten (core_of engine.old) (state_of engine.old) }
{
    let count = engine.core().nodes.len();
    for node in 0..count {
        forget_node(engine, node);
    }
}

// So does a node, if it is an output stream.
fn forget_node(engine: &mut Engine, node: usize)
    requires runnable { IsRunnable (core_of engine.old) }
    requires within { node < length (core_of engine.old).nodes }
    ensures core { core_of engine.new ≡ core_of engine.old }
    ensures span { span_of engine.new ≡ span_of engine.old }
    ensures queues { (n : ℕ) → queue_at engine.new n ≡ queue_at engine.old n }
    ensures forgets { ForgetsNode (core_of engine.old) node (state_of engine.old) (state_of engine.new) }
{
    if is_output(engine.core(), node) {
        engine.clear(node as u32);
    }
}

fn is_output(core: &Core, node: usize) -> bool
    ensures yes { IsTrue result → IsOutputStream core.now node }
    ensures no { IsFalse result → IsOutputStream core.now node → ⊥ }
{
    match core.nodes.get(node) {
        Some(NodeC::To(_)) => true,
        Some(NodeC::Rules(_) | NodeC::From(_)) | None => false,
    }
}
