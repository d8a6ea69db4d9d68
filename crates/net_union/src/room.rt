//! Whether the union of two programs is within the limits of a program.
ghost use Rattle.std.specs.Prelude.{◌≡◌, ◌+◌, ◌*◌, ◌≤◌, Decides, map, nat_le, slice_get, sum};
ghost use Rattle.hume_base.specs.Sizes.{HaveTheirSizes};
ghost use Rattle.hume_base.specs.declared.limits.TheConstants.{MAX_TYPE_WORDS as MOST_TYPE_WORDS, MAX_WIRE_DEPTH as MOST_DEPTH};
ghost use Rattle.hume_model.specs.Limits.{is_stream_there, wire_words};
ghost use Rattle.hume_model.specs.WellFormed.{HasSoundFrame};
ghost use Rattle.hume_model.specs.WireEnds.{HasEnds};
ghost use Rattle.union_laws.specs.Room.{HasRoom};
ghost use Rattle.union_laws.specs.Union.{united};

use hume_base::limits::{
    MAX_DECLARED_EXCEPTIONS, MAX_EXCEPTIONS, MAX_FUNCTIONS, MAX_NODES, MAX_WIRE_WORDS, MAX_WIRES,
};
use hume_base::size;
use hume_model::{Core, NodeC, WireC};

pub(crate) fn has_room(a: &Core, b: &Core) -> bool
    requires first { HasSoundFrame a.now }
    requires second { HasSoundFrame b.now }
    ensures { Decides result (HasRoom (united a.now b.now)) }
{
    if !fits(a.funs.len(), b.funs.len(), MAX_FUNCTIONS) {
        return false;
    }
    let declared = b.exns.len() - (MAX_EXCEPTIONS - MAX_DECLARED_EXCEPTIONS);
    if !fits(a.exns.len(), declared, MAX_EXCEPTIONS) {
        return false;
    }
    if !fits(a.nodes.len(), b.nodes.len(), MAX_NODES) {
        return false;
    }
    if !fits(a.wires.len(), b.wires.len(), MAX_WIRES) {
        return false;
    }
    fits(
        words(a) as usize,
        words(b) as usize,
        MAX_WIRE_WORDS as usize,
    )
}

fn fits(one: usize, other: usize, most: usize) -> bool
    ensures { result ≡ nat_le (one + other) most }
{
    one <= most && other <= most - one
}

// The words of the values that all wires hold at most.
fn words(core: &Core) -> u32
    requires { HasSoundFrame core.now }
    ensures { result ≡ sum (map (wire_words core.now) core.now.wires) }
{
    let mut total = 0;
    for wire in core.wires.as_slice() {
        total += words_of(core, wire);
    }
    total
}

fn words_of(core: &Core, wire: &WireC) -> u32
    requires sizes { HaveTheirSizes core.now.types }
    requires ends { HasEnds core.now wire.now }
    ensures words { result ≡ wire_words core.now wire.now }
    ensures few { result ≤ MOST_TYPE_WORDS * MOST_DEPTH }
{
    if is_stream_at(core, wire.from) && is_stream_at(core, wire.to) {
        return 0;
    }
    size(&core.types, &wire.ty) * wire.depth
}

fn is_stream_at(core: &Core, node: u32) -> bool
    ensures { result ≡ is_stream_there (slice_get core.now.nodes node) }
{
    match core.nodes.get(node as usize) {
        None => false,
        Some(NodeC::Rules(_)) => false,
        Some(NodeC::From(_)) => true,
        Some(NodeC::To(_)) => true,
    }
}
