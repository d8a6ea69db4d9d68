//! Wires with the numbers of their nodes and types moved up.
ghost use Rattle.std.specs.Prelude.{◌≡◌, map, IfOk};
ghost use Rattle.union_laws.specs.Moving.{moved_wire};

use crate::gathering::{both, pushed};
use crate::numbers::raised;
use crate::types::move_type;
use hume_base::{List, Value, copy_value};
use hume_model::WireC;
use std::alloc::{AllocError, Global};
use union_laws::Moves;

pub(crate) fn move_wires(
    alloc: Global,
    moves: Moves,
    wires: &[WireC],
) -> Result<List<WireC>, AllocError>
    ensures { IfOk result (λ higher. higher ≡ map (moved_wire moves) wires.now) }
{
    let mut higher = Ok(List::new(alloc));
    for wire in wires {
        higher = pushed(higher, move_wire(alloc, moves, wire));
    }
    higher
}

fn move_wire(alloc: Global, moves: Moves, wire: &WireC) -> Result<WireC, AllocError>
    ensures { IfOk result (λ higher. higher ≡ moved_wire moves wire.now) }
{
    let from = raised(wire.from, moves.nodes)?;
    let to = raised(wire.to, moves.nodes)?;
    let (ty, initial) = both(
        move_type(alloc, moves, &wire.ty),
        copy_initial(alloc, &wire.initial),
    )?;
    Ok(WireC {
        line: wire.line,
        declaration: wire.declaration,
        from,
        from_port: wire.from_port,
        to,
        to_port: wire.to_port,
        ty,
        depth: wire.depth,
        initial,
    })
}

fn copy_initial(alloc: Global, value: &Option<Value>) -> Result<Option<Value>, AllocError>
    ensures { IfOk result (λ copy. copy ≡ value.now) }
{
    match value {
        None => Ok(None),
        Some(value) => Ok(Some(copy_value(alloc, value)?)),
    }
}
