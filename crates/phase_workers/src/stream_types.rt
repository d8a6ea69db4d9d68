//! The type of a stream's values.
ghost use Rattle.std.specs.Prelude.{◌≡◌, ◌⊎◌, Some, None};
ghost use Rattle.std.specs.List.{find};
ghost use Rattle.std.specs.Option.{MatchOption};
ghost use Rattle.hume_net.specs.Nodes.{IsInputStream, IsOutputStream};
ghost use Rattle.phase_workers.specs.Runnable.{IsRunnable};
ghost use Rattle.phase_workers.specs.StreamTypes.{joins, type_at};

use hume_base::Ty;
use hume_model::{Core, WireC};

/// The type of the wire that comes from the stream or leads to it.
pub fn stream_type(core: &Core, node: u32) -> &Ty
    requires runnable { IsRunnable core.now }
    requires stream { IsInputStream core.now node ⊎ IsOutputStream core.now node }
    ensures { result.now ≡ type_at core.now node }
{
    wire_type(core, node as usize)
}

pub fn wire_type(core: &Core, node: usize) -> &Ty
    requires runnable { IsRunnable core.now }
    requires stream { IsInputStream core.now node ⊎ IsOutputStream core.now node }
    ensures { result.now ≡ type_at core.now node }
{
    match first_wire(core.wires.as_slice(), node) {
        None => unreachable!(),
        Some(wire) => &wire.ty,
    }
}

fn first_wire(wires: &[WireC], node: usize) -> Option<&WireC>
    ensures { MatchOption result (find (joins node) wires.now ≡ None) (λ wire. find (joins node) wires.now ≡ Some wire.now) }
{
    for wire in wires {
        if wire.from as usize == node || wire.to as usize == node {
            return Some(wire);
        }
    }
    None
}
