//! How the nodes of a net are joined.
ghost use Rattle.std.specs.Prelude.{◌≡◌, ◌<◌, ◌^◌, IfOk, length};
ghost use Rattle.hume_net.specs.Plan.{plan_of};

use hume_base::List;
use hume_model::Core;
use std::alloc::{AllocError, Global};

/// How many nodes a net has, and for each wire, by its number, the node that it comes from and the node that it leads to.
#[derive(Drop)]
pub struct Plan {
    pub nodes: u32,
    pub producer: List<u32>,
    pub consumer: List<u32>,
}

/// The plan of a core's net.
pub fn find_plan(alloc: Global, core: &Core) -> Result<Plan, AllocError>
    requires { length core.now.nodes < 2 ^ 32 }
    ensures { IfOk result (λ plan. plan ≡ plan_of core.now) }
{
    let mut producer = List::new(alloc);
    let mut consumer = List::new(alloc);
    for wire in core.wires.as_slice() {
        producer.push(wire.from)?;
        consumer.push(wire.to)?;
    }
    Ok(Plan {
        nodes: core.nodes.len() as u32,
        producer,
        consumer,
    })
}
