//! The first wire that ends at each port.
ghost use Rattle.std.specs.Prelude.{IfOk, length};
ghost use Rattle.hume_model.specs.WellFormed.{HasSoundFrame};
ghost use Rattle.wiring_check.specs.inner.Slots.{AreFirst};

use crate::side::Side;
use crate::slots::Slots;
use hume_model::Core;
use std::alloc::{AllocError, Global};

/// The first wire at each port of the side.
pub fn first_wires(alloc: Global, core: &Core, side: Side) -> Result<Slots, AllocError>
    requires { HasSoundFrame core.now }
    ensures { IfOk result (AreFirst core.now side (length core.now.wires)) }
{
    let mut slots = Slots::empty(alloc, core.nodes.as_slice(), side)?;
    let wires = core.wires.as_slice();
    for w in 0..wires.len() {
        let wire = &wires[w];
        slots.put_first(side.node(wire) as usize, side.port(wire) as usize, w as u32);
    }
    Ok(slots)
}
