//! The wires of each node's sides in a plan.
ghost use Rattle.std.specs.Prelude.{◌+◌, ◌<◌, ◌^◌, IfOk, OnOk, length};
ghost use Rattle.hume_net.specs.Plan.{IsPlan, wires_of};
ghost use Rattle.turn_workers.specs.inner.Rows.{AreRows, IsRow};

use hume_base::List;
use hume_net::Plan;
use std::alloc::{AllocError, Global};

/// The numbers of the wires that lead to each node of a plan, and of those that come from it.
#[derive(Drop)]
pub struct Ways {
    pub inputs: List<List<u32>>,
    pub outputs: List<List<u32>>,
}

impl Ways {
    ghost use Rattle.turn_workers.specs.Ways.{AreWays};

    /// The wires of each node's sides.
    pub fn make(alloc: Global, plan: &Plan) -> Result<Ways, AllocError>
        requires { IsPlan plan.now × (wires_of plan.now < 2 ^ 32) }
        ensures { IfOk result (λ ways. AreWays plan.now ways) }
    {
        let inputs = rows_of(alloc, plan.nodes, plan.consumer.as_slice())?;
        let outputs = rows_of(alloc, plan.nodes, plan.producer.as_slice())?;
        Ok(Ways { inputs, outputs })
    }
}

fn rows_of(alloc: Global, nodes: u32, ends: &[u32]) -> Result<List<List<u32>>, AllocError>
    requires { length ends.now < 2 ^ 32 }
    ensures { IfOk result (λ rows. AreRows ends.now nodes rows) }
{
    let mut rows = List::new(alloc);
    for n in 0..nodes {
        rows.push(row_of(alloc, n, ends)?)?;
    }
    Ok(rows)
}

fn row_of(alloc: Global, n: u32, ends: &[u32]) -> Result<List<u32>, AllocError>
    requires { length ends.now < 2 ^ 32 }
    ensures { IfOk result (λ row. IsRow ends.now n (length ends.now) row) }
{
    let mut row = List::new(alloc);
    for w in 0..ends.len() {
        add_if_end(n, ends, w, &mut row)?;
    }
    Ok(row)
}

fn add_if_end(n: u32, ends: &[u32], w: usize, row: &mut List<u32>) -> Result<(), AllocError>
    requires { (w < length ends.now) × (length ends.now < 2 ^ 32) × IsRow ends.now n w row.old }
    ensures { OnOk result (IsRow ends.now n (w + 1) row.new) }
{
    if ends[w] != n {
        return Ok(());
    }
    row.push(w as u32)?;
    Ok(())
}
