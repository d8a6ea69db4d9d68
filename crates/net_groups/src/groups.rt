//! Groups of about equal work.
ghost use Rattle.std.specs.Prelude.{◌≡◌, ◌*◌, ◌<◌, ◌≤◌, ◌^◌, IfOk, length};
ghost use Rattle.hume_net.specs.Plan.{IsPlan, wires_of};
ghost use Rattle.superstep_core.specs.Groups.{IsGrouping};
ghost use Rattle.net_groups.specs.inner.Below.{AreBelow};

use crate::numbers::{add_work, number_at, work_at};
use crate::packing::pack;
use crate::pieces::{Pieces, find_pieces};
use crate::shares::{first_groups, heaviest_share};
use hume_base::List;
use hume_net::Plan;
use std::alloc::{AllocError, Global};
use superstep_core::Grouping;

/// Groups of a plan's nodes for workers. The share of a worker begins at its number in `first`, and ends where the next one begins. The
/// heaviest share has so much work.
#[derive(Drop)]
pub struct WorkerGroups {
    pub groups: Grouping,
    pub first: List<u32>,
    pub heaviest: u64,
}

/// Makes groups for so many workers by the work of each node in a superstep. It takes memory.
pub fn partition(
    alloc: Global,
    plan: &Plan,
    work: &[u64],
    workers: u32,
) -> Result<WorkerGroups, AllocError>
    requires plan { IsPlan plan.now × (wires_of plan.now < 2 ^ 32) }
    requires workers { (0 < workers) × (workers ≤ 2 ^ 16) }
    ensures groups { IfOk result (λ made. IsGrouping plan.now made.groups) }
    ensures few { IfOk result (λ made. made.groups.count ≤ 4 * workers) }
{
    let pieces = find_pieces(alloc, plan, work, workers)?;
    let count = pieces.count.min(4 * workers).max(1);
    let group_of = pack(alloc, pieces.work.as_slice(), pieces.count, count)?;
    let load = group_work(alloc, &pieces, group_of.as_slice(), count)?;
    let first = first_groups(alloc, load.as_slice(), workers)?;
    let numbers = node_numbers(alloc, plan.nodes, pieces.of.as_slice(), group_of.as_slice())?;
    let group = node_groups(alloc, plan.nodes, numbers.as_slice(), count)?;
    let groups = Grouping::of(alloc, plan, group, count)?;
    let heaviest = heaviest_share(load.as_slice(), first.as_slice());
    Ok(WorkerGroups {
        groups,
        first,
        heaviest,
    })
}

/// Makes groups by numbers that are given: a node's group is what its number leaves by `count`. All groups weigh the same. It takes memory.
pub fn grouping_by(
    alloc: Global,
    plan: &Plan,
    numbers: &[u32],
    count: u32,
    workers: u32,
) -> Result<WorkerGroups, AllocError>
    requires plan { IsPlan plan.now × (wires_of plan.now < 2 ^ 32) }
    requires workers { (0 < workers) × (workers ≤ 2 ^ 16) }
    requires count { 0 < count }
    ensures groups { IfOk result (λ made. IsGrouping plan.now made.groups) }
    ensures few { IfOk result (λ made. made.groups.count ≡ count) }
{
    let load = Vec::from_elem(alloc, 1u64, count as usize)?;
    let first = first_groups(alloc, load.as_slice(), workers)?;
    let group = node_groups(alloc, plan.nodes, numbers, count)?;
    let groups = Grouping::of(alloc, plan, group, count)?;
    let heaviest = heaviest_share(load.as_slice(), first.as_slice());
    Ok(WorkerGroups {
        groups,
        first,
        heaviest,
    })
}

fn group_work(
    alloc: Global,
    pieces: &Pieces,
    group_of: &[u32],
    count: u32,
) -> Result<Vec<u64>, AllocError> {
    let mut load = Vec::from_elem(alloc, 0u64, count as usize)?;
    for piece in 0..pieces.count {
        let work = work_at(pieces.work.as_slice(), piece);
        add_work(load.as_mut_slice(), number_at(group_of, piece), work);
    }
    Ok(load)
}

// The group of each node: that of its piece.
fn node_numbers(
    alloc: Global,
    nodes: u32,
    piece_of: &[u32],
    group_of: &[u32],
) -> Result<Vec<u32>, AllocError> {
    let mut numbers = Vec::new(alloc);
    for node in 0..nodes {
        numbers.push(number_at(group_of, number_at(piece_of, node)))?;
    }
    Ok(numbers)
}

// Each number's remainder, so that it is below the count.
fn node_groups(
    alloc: Global,
    nodes: u32,
    numbers: &[u32],
    count: u32,
) -> Result<List<u32>, AllocError>
    requires { 0 < count }
    ensures { IfOk result (λ group. (length group ≡ nodes) × AreBelow count nodes group) }
{
    let mut group = List::new(alloc);
    for node in 0..nodes {
        group.push(number_at(numbers, node) % count)?;
    }
    Ok(group)
}
