//! Groups that have no cells yet, with room for all of them.
ghost use Rattle.std.specs.Prelude.{◌≡◌, ◌+◌, ◌-◌, ◌<◌, ℕ, List, IfOk, length, Some, slice_get};
ghost use Rattle.box_step.specs.declared.nodes.cell.BoxCell.{BoxCell as AnyCell};
ghost use Rattle.wire_cells.specs.Cells.{CellView};
ghost use Rattle.turn_workers.specs.Members.{members_from};
ghost use Rattle.turn_workers.specs.inner.Gathered.{AreGathered, IsGathered};

use crate::cells::Group;
use std::alloc::{AllocError, Global};
use superstep_core::Grouping;
use wire_cells::WireCell;

/// The groups of a grouping, at time 0. It takes all memory that they need.
pub(crate) fn empty_groups(
    alloc: Global,
    shape: &Grouping,
    wires: usize,
) -> Result<Vec<Group>, AllocError>
    ensures count { IfOk result (λ groups. length groups.items ≡ shape.now.count) }
    ensures groups { IfOk result (λ groups. (cells : List AnyCell)
        → AreGathered shape.now (length shape.now.group) wires (length shape.now.group) cells groups.items) }
{
    let mut groups = Vec::with_capacity(alloc, shape.count as usize)?;
    for i in 0..shape.count {
        let group = empty_group(alloc, shape, i, wires)?;
        groups.push_reserved(group);
    }
    Ok(groups)
}

fn empty_group(alloc: Global, shape: &Grouping, i: u32, wires: usize) -> Result<Group, AllocError>
    ensures { IfOk result (λ group. (cells : List AnyCell) → IsGathered shape.now (length shape.now.group) wires (length shape.now.group) i cells group) }
{
    let members = Vec::with_capacity(alloc, count_members(shape, i))?;
    let home = empty_places(alloc, wires)?;
    Ok(Group {
        number: i,
        time: 0,
        members,
        home,
    })
}

fn empty_places(alloc: Global, wires: usize) -> Result<Vec<Option<WireCell>>, AllocError>
    ensures long { IfOk result (λ home. length home.items ≡ wires) }
    ensures bare { IfOk result (λ home. (w : ℕ) (cell : CellView) → slice_get home.items w ≡ Some (Some cell) → ⊥) }
{
    let mut home = Vec::with_capacity(alloc, wires)?;
    for k in 0..wires {
        let _k = k;
        home.push_reserved(None);
    }
    Ok(home)
}

fn count_members(shape: &Grouping, i: u32) -> usize
    ensures { result ≡ length (members_from shape.now i 0 (length shape.now.group)) }
{
    let nodes = shape.group.len();
    let mut count = 0usize;
    for k in 0..nodes {
        count = count_one(shape, i, nodes - 1 - k, count);
    }
    count
}

fn count_one(shape: &Grouping, i: u32, n: usize, count: usize) -> usize
    requires inside { (n < length shape.now.group) × (count < length shape.now.group) }
    requires so_far { count ≡ length (members_from shape.now i (n + 1) (length shape.now.group - (n + 1))) }
    ensures { result ≡ length (members_from shape.now i n (length shape.now.group - n)) }
{
    if shape.group[n] == i {
        count + 1
    } else {
        count
    }
}
