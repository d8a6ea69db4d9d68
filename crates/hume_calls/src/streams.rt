ghost use Rattle.std.specs.Prelude.{◌≡◌, ◌++◌, ℕ, None, Some, map, string_bytes, IfOk, IfErr, IsErrOf, if◌then◌else◌};
ghost use Rattle.std.specs.List.{filter_map};
ghost use Rattle.hume_ports.specs.Ports.{names, place_of, is_among};
ghost use Rattle.run_rounds.specs.Streams.{ArePlacesOf, ArePortsApart, ports_of, stream_of, streams};
ghost use Rattle.hume_calls.specs.Streams.{is_unfit, unfit_line};
ghost use Rattle.hume_calls.specs.inner.FoundPlaces.{IsFitAt, IsUnfitAt, is_port_of};

use hume_model::{Core, NodeC};
use hume_ports::{Port, find_bytes};
use std::alloc::Global;
use thiserror::Error;

/// Why there are no places.
#[derive(Debug, Drop, Error)]
pub enum PlacesError {
    /// The stream declared in that line can't have its port.
    #[error("the stream in line {0} has an unfit port")]
    Unfit(u32),
    #[error("out of memory")]
    NoMemory,
}

/// The places of the ports of all streams, one for each node, if each port may be its stream's. For a box stands any number. The
/// words `others` name ports that no stream may have.
pub fn find_places(
    alloc: Global,
    ports: &[Box<dyn Port>],
    core: &Core,
    source: &[u8],
    others: &[String],
) -> Result<Vec<usize>, PlacesError>
    ensures fit { IfOk result (λ places. unfit_line (names (map view ports.now)) source.now (map string_bytes others.now) (streams core.now) ≡ None) }
    ensures places { IfOk result (λ places. ArePlacesOf core.now (names (map view ports.now)) places.items) }
    ensures apart { IfOk result (λ places. ArePortsApart core.now) }
    ensures unfit { (line : ℕ) → IsErrOf result (PlacesError.Unfit line)
        → unfit_line (names (map view ports.now)) source.now (map string_bytes others.now) (streams core.now) ≡ Some line }
{
    let mut places = Vec::new(alloc);
    let nodes = core.nodes.as_slice();
    for number in 0..nodes.len() {
        match place_of_node(ports, &nodes[..number], &nodes[number], source, others) {
            Err(line) => return Err(PlacesError::Unfit(line)),
            Ok(at) => match places.push(at) {
                Ok(()) => {}
                Err(_) => return Err(PlacesError::NoMemory),
            },
        }
    }
    Ok(places)
}

// The place of the port of a node behind these, or the line of the node if it is a stream that can't have its port.
fn place_of_node(
    ports: &[Box<dyn Port>],
    earlier: &[NodeC],
    node: &NodeC,
    source: &[u8],
    others: &[String],
) -> Result<usize, u32>
    ensures fit { IfOk result (IsFitAt (names (map view ports.now)) source.now (map string_bytes others.now) earlier.now node.now) }
    ensures unfit { IfErr result (IsUnfitAt (names (map view ports.now)) source.now (map string_bytes others.now) earlier.now node.now) }
{
    match node {
        NodeC::Rules(_) => Ok(0),
        NodeC::From(stream) | NodeC::To(stream) => {
            match fit_place(ports, earlier, stream.port.bytes(), source, others) {
                Some(at) => Ok(at),
                None => Err(stream.line),
            }
        }
    }
}

// The place of a port, if it may be that of a stream behind these nodes.
fn fit_place(
    ports: &[Box<dyn Port>],
    earlier: &[NodeC],
    port: &[u8],
    source: &[u8],
    others: &[String],
) -> Option<usize>
    ensures { result ≡ (if is_unfit (names (map view ports.now)) source.now
        (map string_bytes others.now ++ ports_of (filter_map stream_of earlier.now)) port.now
        then None else place_of port.now (names (map view ports.now))) }
{
    if port == source || is_word(others, port) || is_named(earlier, port) {
        return None;
    }
    find_bytes(ports, port)
}

// Whether one of the words is the port's name.
fn is_word(words: &[String], port: &[u8]) -> bool
    ensures { result ≡ is_among port.now (map string_bytes words.now) }
{
    for word in words {
        if port == word.as_bytes() {
            return true;
        }
    }
    false
}

/// Whether one of the nodes is a stream that names the port.
pub fn is_named(nodes: &[NodeC], port: &[u8]) -> bool
    ensures { result ≡ is_among port.now (ports_of (filter_map stream_of nodes.now)) }
{
    for node in nodes {
        if names_port(node, port) {
            return true;
        }
    }
    false
}

fn names_port(node: &NodeC, port: &[u8]) -> bool
    ensures { result ≡ is_port_of (stream_of node.now) port.now }
{
    match node {
        NodeC::Rules(_) => false,
        NodeC::From(stream) | NodeC::To(stream) => port == stream.port.bytes(),
    }
}
