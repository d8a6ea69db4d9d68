//! Where the nodes and wires of a core are declared.
ghost use Rattle.std.specs.Prelude.{◌≡◌, ◌==◌, ℕ};
ghost use Rattle.std.specs.List.{find};
ghost use Rattle.std.specs.Option.{option_map};
ghost use Rattle.hume_model.specs.declared.core_tree.NodeC.{NodeC};
ghost use Rattle.hume_model.specs.declared.core_tree.WireC.{WireC};
ghost use Rattle.hume_model.specs.Declarations.{declaration_of, line_of, StandsAt};

use crate::core_tree::{Core, NodeC, WireC};

impl NodeC {
    /// The number of its declaration in the source, from 0.
    pub fn declaration(&self) -> u32
        ensures { result ≡ declaration_of self.now }
    {
        match self {
            NodeC::Rules(b) => b.declaration,
            NodeC::From(stream) => stream.declaration,
            NodeC::To(stream) => stream.declaration,
        }
    }

    /// The line of its declaration.
    pub fn line(&self) -> u32
        ensures { result ≡ line_of self.now }
    {
        match self {
            NodeC::Rules(b) => b.line,
            NodeC::From(stream) => stream.line,
            NodeC::To(stream) => stream.line,
        }
    }
}

/// The line of the declaration of a node or a wire, if it is one.
pub fn declared_line(core: &Core, declaration: u32) -> u32
    ensures { (line : ℕ) → StandsAt core.now declaration line → StandsAt core.now declaration result }
{
    if let Some(line) = node_line(core.nodes.as_slice(), declaration) {
        return line;
    }
    if let Some(line) = wire_line(core.wires.as_slice(), declaration) {
        return line;
    }
    0
}

fn node_line(nodes: &[NodeC], declaration: u32) -> Option<u32>
    ensures { result ≡ option_map line_of (find (λ (node : NodeC). declaration_of node == declaration) nodes.now) }
{
    for node in nodes {
        if node.declaration() == declaration {
            return Some(node.line());
        }
    }
    None
}

fn wire_line(wires: &[WireC], declaration: u32) -> Option<u32>
    ensures { result ≡ option_map (λ (wire : WireC). wire.line) (find (λ (wire : WireC). wire.declaration == declaration) wires.now) }
{
    for wire in wires {
        if wire.declaration == declaration {
            return Some(wire.line);
        }
    }
    None
}
