ghost use Rattle.std.specs.Prelude.{◌≡◌, ℕ, ◌^◌, ◌<◌, length, Contains, IfOk, OnOk};
ghost use Rattle.check_tables.specs.graph.inner.Reversed.{LedBack, IsReversed};

use crate::graph::rows::row_of;
use hume_base::List;
use std::alloc::{AllocError, Global};

/// The graph in which each edge goes the other way.
pub(crate) fn reversed(
    alloc: Global,
    graph: &List<List<u32>>,
) -> Result<List<List<u32>>, AllocError>
    requires { length graph.now < 2 ^ 32 }
    ensures { IfOk result (IsReversed graph.now (length graph.now)) }
{
    let mut back = empty_rows(alloc, graph.len())?;
    for a in 0..graph.len() {
        lead_back(row_of(graph, a), a as u32, &mut back)?;
    }
    Ok(back)
}

fn empty_rows(alloc: Global, count: usize) -> Result<List<List<u32>>, AllocError>
    ensures { IfOk result (λ rows. length rows ≡ count) }
{
    let mut rows = List::new(alloc);
    for _node in 0..count {
        rows.push(List::new(alloc))?;
    }
    Ok(rows)
}

// Lets the nodes of a row lead back to a node.
fn lead_back(row: &[u32], a: u32, back: &mut List<List<u32>>) -> Result<(), AllocError>
    ensures { OnOk result (LedBack back.old back.new a (Contains row.now)) }
{
    for b in row {
        lead_one_back(*b, a, back)?;
    }
    Ok(())
}

fn lead_one_back(b: u32, a: u32, back: &mut List<List<u32>>) -> Result<(), AllocError>
    ensures { OnOk result (LedBack back.old back.new a (λ c. c ≡ b)) }
{
    let place = b as usize;
    if place >= back.len() {
        return Ok(());
    }
    back.push_at(place, a)?;
    Ok(())
}
