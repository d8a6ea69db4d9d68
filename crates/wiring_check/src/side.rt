//! The two sides of a node: its inputs, at which wires arrive, and its outputs, from which they come.
ghost use Rattle.std.specs.Prelude.{◌≡◌};
ghost use Rattle.wiring_check.specs.inner.Slots.{ports_of, end_node, end_port, lack_rule, repeat_rule};

use hume_base::Rule;
use hume_model::{NodeC, WireC};

#[derive(Clone, Copy)]
pub enum Side {
    Inputs,
    Outputs,
}

impl Side {
    /// How many ports the node has on this side.
    pub fn ports(self, node: &NodeC) -> usize
        ensures { result ≡ ports_of self node.now }
    {
        match (self, node) {
            (Side::Inputs, NodeC::Rules(b)) => b.ins.len(),
            (Side::Inputs, NodeC::From(_)) => 0,
            (Side::Inputs, NodeC::To(_)) => 1,
            (Side::Outputs, NodeC::Rules(b)) => b.outs.len(),
            (Side::Outputs, NodeC::From(_)) => 1,
            (Side::Outputs, NodeC::To(_)) => 0,
        }
    }

    /// The node at which the wire ends on this side.
    pub fn node(self, wire: &WireC) -> u32
        ensures { result ≡ end_node self wire.now }
    {
        match self {
            Side::Inputs => wire.to,
            Side::Outputs => wire.from,
        }
    }

    /// The port at which the wire ends.
    pub fn port(self, wire: &WireC) -> u32
        ensures { result ≡ end_port self wire.now }
    {
        match self {
            Side::Inputs => wire.to_port,
            Side::Outputs => wire.from_port,
        }
    }

    /// The rule on ports without a wire.
    pub fn lack(self) -> Rule
        ensures { result ≡ lack_rule self }
    {
        match self {
            Side::Inputs => Rule::C50,
            Side::Outputs => Rule::C52,
        }
    }

    /// The rule on wires that end where an earlier one does.
    pub fn repeat(self) -> Rule
        ensures { result ≡ repeat_rule self }
    {
        match self {
            Side::Inputs => Rule::C51,
            Side::Outputs => Rule::C53,
        }
    }
}
