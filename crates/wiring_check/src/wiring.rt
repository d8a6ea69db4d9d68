//! Which wire ends at each input and each output.
ghost use Rattle.std.specs.Prelude.{◌≡◌, Some};
ghost use Rattle.hume_model.specs.declared.core_tree.Core.{Core};
ghost use Rattle.hume_model.specs.Wiring.{IsTheWire, leads_to, comes_from};
ghost use Rattle.wiring_check.specs.Wires.{HasPosition, IsWiringOf, wire_at};
ghost use Rattle.wiring_check.specs.inner.Slots.{known_rows};

use crate::slots::Slots;
use std::marker::Model;

/// For each node the wires of its inputs and of its outputs.
#[derive(Drop)]
pub struct Wiring {
    inputs: Slots,
    outputs: Slots,
}

impl Model for Wiring {
    ghost use Rattle.wiring_check.specs.Wires.{Wires};
    ghost use Rattle.wiring_check.specs.inner.Slots.{known_rows};

    ghost Value = { Wires };

    ghost view = { λ wiring. record { inputs = known_rows wiring.inputs; outputs = known_rows wiring.outputs } };
}

impl Wiring {
    /// The wiring by the wires in the slots.
    pub fn of(inputs: Slots, outputs: Slots) -> Wiring
        ensures inputs { result.inputs ≡ known_rows inputs }
        ensures outputs { result.outputs ≡ known_rows outputs }
    {
        Wiring { inputs, outputs }
    }

    /// The number of the wire that leads to the input of the node.
    pub fn input(&self, node: u32, input: u32) -> u32
        requires { HasPosition self.now.inputs node input }
        ensures at { wire_at self.now.inputs node input ≡ Some result }
        ensures is { (core : Core) → IsWiringOf core self.now → IsTheWire (leads_to node input) core.wires result }
    {
        wire_in_slot(&self.inputs, node, input)
    }

    /// The number of the wire that comes from the output of the node.
    pub fn output(&self, node: u32, output: u32) -> u32
        requires { HasPosition self.now.outputs node output }
        ensures at { wire_at self.now.outputs node output ≡ Some result }
        ensures is { (core : Core) → IsWiringOf core self.now → IsTheWire (comes_from node output) core.wires result }
    {
        wire_in_slot(&self.outputs, node, output)
    }
}

fn wire_in_slot(slots: &Slots, node: u32, port: u32) -> u32
    requires { HasPosition (known_rows slots.now) node port }
    ensures { wire_at (known_rows slots.now) node port ≡ Some result }
{
    match slots.get(node as usize, port as usize) {
        None => 0,
        Some(wire) => wire,
    }
}
