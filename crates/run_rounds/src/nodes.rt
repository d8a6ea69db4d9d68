//! Which nodes are streams.
ghost use Rattle.std.specs.Prelude.{IsTrue, IsFalse};
ghost use Rattle.hume_net.specs.Nodes.{IsInputStream, IsOutputStream};

use hume_model::{Core, NodeC};

pub fn is_input(core: &Core, node: usize) -> bool
    ensures yes { IsTrue result → IsInputStream core.now node }
    ensures no { IsFalse result → IsInputStream core.now node → ⊥ }
{
    match core.nodes.get(node) {
        Some(NodeC::From(_)) => true,
        Some(NodeC::Rules(_) | NodeC::To(_)) | None => false,
    }
}

pub fn is_output(core: &Core, node: usize) -> bool
    ensures yes { IsTrue result → IsOutputStream core.now node }
    ensures no { IsFalse result → IsOutputStream core.now node → ⊥ }
{
    match core.nodes.get(node) {
        Some(NodeC::To(_)) => true,
        Some(NodeC::Rules(_) | NodeC::From(_)) | None => false,
    }
}
