ghost use Rattle.std.specs.Prelude.{◌≡◌, ℕ, ◌<◌, ◌≤◌, ◌^◌, ◌↔◌, length, IsTrue, IfOk, OnOk};
ghost use Rattle.hume_base.specs.Least.{IsFirst};
ghost use Rattle.check_tables.specs.graph.Cycles.{InCycle};
ghost use Rattle.check_tables.specs.graph.inner.Search.{IsMarked, IsListed, Grows, MarkedAreFree};

use crate::graph::numbering::whole_progress;
use crate::graph::reversed::reversed;
use crate::graph::rows::row_of;
use hume_base::List;
use std::alloc::{AllocError, Global};

/// The first node that leads to itself, directly or through others. Only nodes that get a number neither
/// in the graph nor in the reversed one are searched from; each search takes a step for each edge.
pub fn first_in_cycle(alloc: Global, graph: &List<List<u32>>) -> Result<Option<u32>, AllocError>
    requires { length graph.now < 2 ^ 32 }
    ensures { IfOk result (IsFirst (InCycle graph.now)) }
{
    let progress = whole_progress(alloc, graph)?;
    let back = reversed(alloc, graph)?;
    let back_progress = whole_progress(alloc, &back)?;
    let found = first_of_left_out(
        alloc,
        graph,
        progress.marks.as_slice(),
        back_progress.marks.as_slice(),
    )?;
    Ok(found)
}

// The same, where no node with a mark leads to itself.
fn first_of_left_out(
    alloc: Global,
    graph: &List<List<u32>>,
    marks: &[bool],
    back_marks: &[bool],
) -> Result<Option<u32>, AllocError>
    requires few { length graph.now < 2 ^ 32 }
    requires long { length graph.now ≤ length marks.now }
    requires back_long { length graph.now ≤ length back_marks.now }
    requires none { MarkedAreFree graph.now marks.now }
    requires back_none { MarkedAreFree graph.now back_marks.now }
    ensures { IfOk result (IsFirst (InCycle graph.now)) }
{
    for a in 0..graph.len() {
        if leads_to_itself(alloc, graph, marks, back_marks, a)? {
            return Ok(Some(a as u32));
        }
    }
    Ok(None)
}

fn leads_to_itself(
    alloc: Global,
    graph: &List<List<u32>>,
    marks: &[bool],
    back_marks: &[bool],
    a: usize,
) -> Result<bool, AllocError>
    requires few { length graph.now < 2 ^ 32 }
    requires a { a < length graph.now }
    requires long { length graph.now ≤ length marks.now }
    requires back_long { length graph.now ≤ length back_marks.now }
    requires none { MarkedAreFree graph.now marks.now }
    requires back_none { MarkedAreFree graph.now back_marks.now }
    ensures { IfOk result (λ yes. IsTrue yes ↔ InCycle graph.now a) }
{
    if marks[a] {
        return Ok(false);
    }
    if back_marks[a] {
        return Ok(false);
    }
    is_in_cycle(alloc, graph, a)
}

fn is_in_cycle(alloc: Global, graph: &List<List<u32>>, f: usize) -> Result<bool, AllocError>
    requires few { length graph.now < 2 ^ 32 }
    requires f { f < length graph.now }
    ensures { IfOk result (λ yes. IsTrue yes ↔ InCycle graph.now f) }
{
    let mut marks = vec![in alloc; false; graph.len()]?;
    let mut seen = Vec::new(alloc);
    see_all(row_of(graph, f), &mut marks, &mut seen)?;
    let mut at = 0;
    while at < seen.len() {
        let a = seen[at] as usize;
        see_all(row_of(graph, a), &mut marks, &mut seen)?;
        at += 1;
    }
    Ok(marks[f])
}

// Adds the nodes of a row to those that are seen.
fn see_all(row: &[u32], marks: &mut Vec<bool>, seen: &mut Vec<u32>) -> Result<(), AllocError>
    requires { IsMarked marks.old.items seen.old.items }
    ensures { OnOk result (Grows marks.old.items seen.old.items marks.new.items seen.new.items (IsListed (length marks.old.items) row.now)) }
{
    for b in row {
        see(*b, marks, seen)?;
    }
    Ok(())
}

// Adds a node, if there is one of that number.
fn see(b: u32, marks: &mut Vec<bool>, seen: &mut Vec<u32>) -> Result<(), AllocError>
    requires { IsMarked marks.old.items seen.old.items }
    ensures { OnOk result (Grows marks.old.items seen.old.items marks.new.items seen.new.items (λ c. (c < length marks.old.items) × (c ≡ b))) }
{
    let place = b as usize;
    if place >= marks.len() || marks[place] {
        return Ok(());
    }
    seen.push(b)?;
    marks[place] = true;
    Ok(())
}
