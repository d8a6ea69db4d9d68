//! Programs of a call, and the lines of files of which something is said.
#![tactic(auto, using(look_sources::proofs::Growing::growing))]

ghost use Rattle.look_sources.specs.Pages.{Grows};

use crate::quoted::put_name;
use hume_model::{Core, NodeC, StreamC};
use look_sources::Page;

/// A program of the call: the name of its source, and its core.
#[derive(Drop)]
pub struct Program<'a> {
    pub source: &'a str,
    pub core: Core,
}

/// Puts `FILE:LINE: `.
pub fn put_head(file: &[u8], line: u64, page: &mut Page)
    ensures { Grows page.old page.new }
{
    put_name(file, page);
    page.put(b":");
    page.number(line);
    page.put(b": ");
}

/// The stream that a node is, if it is one.
pub(crate) fn stream_of(node: &NodeC) -> Option<&StreamC> {
    match node {
        NodeC::Rules(_) => None,
        NodeC::From(stream) | NodeC::To(stream) => Some(stream),
    }
}

/// The first of these nodes that is a stream with that port.
pub(crate) fn stream_with_port<'a>(nodes: &'a [NodeC], port: &[u8]) -> Option<&'a StreamC> {
    for node in nodes {
        if let Some(stream) = stream_of(node) {
            if stream.port.bytes() == port {
                return Some(stream);
            }
        }
    }
    None
}
