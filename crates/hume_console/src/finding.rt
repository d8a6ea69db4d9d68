//! Whether an exchange may be made.
ghost use Rattle.std.specs.Prelude.{◌≡◌, ◌<◌, List, ℕ, length, map, IfSome};
ghost use Rattle.std.specs.List.{position};
ghost use Rattle.hume_ports.specs.Ports.{names};
ghost use Rattle.hume_console.specs.Session.{Session, is_stream_of as named, stream_named};
ghost use Rattle.hume_console.specs.inner.Placed.{ArePlaced, IsExchange};

use crate::places::Places;
use hume_model::{Core, NodeC};
use hume_ports::{Port, find_bytes};

/// An exchange that may be made: the node of a stream, and the place of the port with which it goes on.
#[derive(Clone, Copy)]
pub struct Exchange {
    pub node: usize,
    pub to: usize,
}

/// The exchange of the ports of these names, if it may be made.
pub fn find_exchange(
    core: &Core,
    places: &Places,
    stream: &[u8],
    port: &[u8],
    ports: &[Box<dyn Port>],
) -> Option<Exchange>
    requires { length places.now.streams.items ≡ length core.now.nodes }
    ensures { (source : List ℕ) (session : Session) → ArePlaced core.now source session (names (map view ports.now)) places.now
        → IsExchange core.now source session (names (map view ports.now)) stream.now port.now result }
{
    let node = find_stream(core, stream)?;
    let to = find_bytes(ports, port)?;
    if places.of_node(node) == places.std_out {
        return None;
    }
    if places.is_taken(core, to) {
        return None;
    }
    Some(Exchange { node, to })
}

#[tactic(auto, using(std::proofs::lemmas::Option::slice_get_within, crate::proofs::Placing::position_within))]
fn find_stream(core: &Core, name: &[u8]) -> Option<usize>
    ensures number { result ≡ stream_named core.now name.now }
    ensures within { IfSome result (λ number. number < length core.now.nodes) }
{
    core.nodes
        .as_slice()
        .iter()
        .position(|node| is_stream_of(node, name))
}

fn is_stream_of(node: &NodeC, name: &[u8]) -> bool
    ensures { result ≡ named name.now node.now }
{
    match node {
        NodeC::Rules(_) => false,
        NodeC::From(stream) | NodeC::To(stream) => stream.name.bytes() == name,
    }
}
