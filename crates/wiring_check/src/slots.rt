//! A slot for each port of each node.
ghost use Rattle.std.specs.Prelude.{◌≡◌, IfOk, replicate, Option, ℕ, None, ◌<◌};
ghost use Rattle.wiring_check.specs.inner.Slots.{slot, with_wire, with_first, empty_rows, HasSlot};

use crate::side::Side;
use hume_base::List;
use hume_model::NodeC;
use std::alloc::{AllocError, Global};
use std::marker::Model;

#[derive(Drop)]
pub struct Slots {
    rows: Vec<List<Option<u32>>>,
}

impl Model for Slots {
    ghost use Rattle.std.specs.Prelude.{List, Option, ℕ};

    ghost Value = { List (List (Option ℕ)) };

    ghost view = { λ slots. slots.rows.items };
}

impl Slots {
    /// Slots for the ports of the nodes, without wires.
    pub fn empty(alloc: Global, nodes: &[NodeC], side: Side) -> Result<Slots, AllocError>
        ensures { IfOk result (λ slots. slots ≡ empty_rows side nodes.now) }
    {
        let mut rows = Vec::new(alloc);
        for node in nodes {
            rows.push(empty_row(alloc, side.ports(node))?)?;
        }
        Ok(Slots { rows })
    }

    /// The wire in the slot, if there is one.
    pub fn get(&self, node: usize, port: usize) -> Option<u32>
        ensures { result ≡ slot self.now node port }
    {
        match self.rows.get(node) {
            None => None,
            Some(row) => match row.get(port) {
                None => None,
                Some(wire) => *wire,
            },
        }
    }

    /// Puts the wire into the slot, unless there is one already.
    pub fn put_first(&mut self, node: usize, port: usize, wire: u32)
        requires { HasSlot self.old node port }
        ensures { self.new ≡ with_first self.old node port wire }
    {
        if self.get(node, port).is_none() {
            self.put(node, port, wire);
        }
    }

    fn put(&mut self, node: usize, port: usize, wire: u32)
        requires { HasSlot self.old node port }
        ensures { self.new ≡ with_wire self.old node port wire }
    {
        self.rows[node].set(port, Some(wire));
    }
}

fn empty_row(alloc: Global, count: usize) -> Result<List<Option<u32>>, AllocError>
    ensures { IfOk result (λ row. row ≡ replicate {A = Option ℕ} count None) }
{
    let slots = vec![in alloc; None; count]?;
    Ok(List::from_vec(slots))
}
