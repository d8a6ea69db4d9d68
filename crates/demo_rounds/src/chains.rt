//! The lines of a demo: one for each output stream, in source order.
ghost use Rattle.std.specs.Prelude.{◌≡◌, ◌≤◌, ◌<◌, ◌+◌, length, map, slice_get};
ghost use Rattle.hume_base.specs.declared.limits.TheConstants.{MAX_NODES};
ghost use Rattle.hume_net.specs.Nodes.{IsOutputStream};
ghost use Rattle.hume_ports.specs.Ports.{names};
ghost use Rattle.hume_text.specs.Chunks.{room_of};
ghost use Rattle.phase_workers.specs.Runnable.{IsRunnable};
ghost use Rattle.stream_totals.specs.declared.chain_lines.TheConstants.{CHAIN_LINE_BYTES};
ghost use Rattle.trace_print.specs.InTurn.{EndsLines};
ghost use Rattle.demo_rounds.specs.Chains.{chain_lines, chain_there};
ghost use Rattle.demo_rounds.specs.inner.Counted.{total_at};

use crate::counting::is_output;
use hume_model::{Core, NodeC};
use hume_ports::{Failed, Port};
use hume_text::Chunk;
use port_acts::write_act;
use stream_totals::{Total, chain_line};

/// Writes the line of each output stream to the port at the place `out`. There is one total for each node.
pub(crate) fn tell_chains(
    core: &Core,
    totals: &[Total],
    ports: &mut [Box<dyn Port>],
    out: usize,
    chunk: &mut Chunk,
) -> Result<(), Failed>
    requires runnable { IsRunnable core.now }
    requires count { length totals.now ≡ length core.now.nodes }
    requires place { out < length ports.old }
    requires room { CHAIN_LINE_BYTES ≤ room_of chunk.old }
    ensures ends { EndsLines out (chain_lines core.now (total_at totals.now)) (map view ports.old) (map view ports.new) result }
    ensures same_names { names (map view ports.new) ≡ names (map view ports.old) }
    ensures room { room_of chunk.new ≡ room_of chunk.old }
{
    let mut chain = 0;
    for node in 0..totals.len() {
        match tell_chain(core, node, chain, totals[node], ports, out, chunk) {
            Ok(()) => {}
            Err(failed) => return Err(failed),
        }
        chain = next_chain(core, node, chain);
    }
    Ok(())
}

// The number of the chain behind a node, where that of the node is `chain`.
fn next_chain(core: &Core, node: usize, chain: u32) -> u32
    requires { chain < MAX_NODES }
    ensures output { IsOutputStream core.now node → result ≡ chain + 1 }
    ensures other { (IsOutputStream core.now node → ⊥) → result ≡ chain }
{
    if is_output(core, node) {
        chain + 1
    } else {
        chain
    }
}

// Writes the line of a node, if it is an output stream.
fn tell_chain(
    core: &Core,
    node: usize,
    chain: u32,
    total: Total,
    ports: &mut [Box<dyn Port>],
    out: usize,
    chunk: &mut Chunk,
) -> Result<(), Failed>
    requires place { out < length ports.old }
    requires room { CHAIN_LINE_BYTES ≤ room_of chunk.old }
    ensures ends { EndsLines out (chain_there chain total (slice_get core.now.nodes node)) (map view ports.old) (map view ports.new) result }
    ensures same_names { names (map view ports.new) ≡ names (map view ports.old) }
    ensures room { room_of chunk.new ≡ room_of chunk.old }
{
    match core.nodes.get(node) {
        Some(NodeC::To(_)) => {
            chunk.clear();
            chain_line(chain, total, chunk);
            write_act(ports, out, chunk.bytes())
        }
        Some(NodeC::Rules(_) | NodeC::From(_)) | None => Ok(()),
    }
}
