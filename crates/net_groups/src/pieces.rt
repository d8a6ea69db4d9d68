//! Components are cut into pieces.
use crate::numbers::{add_work, number_at, part_of, set_number, total, work_at};
use crate::order::{Order, find_order};
use hume_net::Plan;
use std::alloc::{AllocError, Global};

// So many instructions are worth a piece of their own: some five microseconds.
const PIECE: u64 = 4_000;

/// The piece of each node, and the work of each piece. A piece is a run of one component in depth-first order.
#[derive(Drop)]
pub(crate) struct Pieces {
    pub of: Vec<u32>,
    pub count: u32,
    pub work: Vec<u64>,
}

// Where the cutting stands: in which part of which component, and what the component has before.
#[derive(Clone, Copy)]
struct Cut {
    component: u32,
    part: u32,
    before: u64,
}

/// Cuts the components of a plan that are more than 1.05 shares of the work for so many workers.
pub(crate) fn find_pieces(
    alloc: Global,
    plan: &Plan,
    work: &[u64],
    workers: u32,
) -> Result<Pieces, AllocError> {
    let order = find_order(alloc, plan)?;
    let whole = component_work(alloc, &order, work)?;
    let share = total(work) / workers.max(1) as u64;
    let mut pieces = Pieces {
        of: Vec::from_elem(alloc, 0u32, plan.nodes as usize)?,
        count: 0,
        work: Vec::from_elem(alloc, 0u64, plan.nodes as usize)?,
    };
    let mut cut = Cut {
        component: 0,
        part: 0,
        before: 0,
    };
    for place in 0..order.count {
        let node = number_at(order.nodes.as_slice(), place);
        cut = add_node(
            &order,
            whole.as_slice(),
            share,
            node,
            work_at(work, node),
            cut,
            &mut pieces,
        );
    }
    Ok(pieces)
}

// Adds a node to the last piece, or to a new one where another component or part begins.
fn add_node(
    order: &Order,
    whole: &[u64],
    share: u64,
    node: u32,
    weight: u64,
    cut: Cut,
    pieces: &mut Pieces,
) -> Cut {
    let component = number_at(order.component.as_slice(), node);
    let before = if component == cut.component {
        cut.before
    } else {
        0
    };
    let all = work_at(whole, component.saturating_sub(1));
    let part = part_of(before, weight, all, parts_of(all, share));
    if component != cut.component || part != cut.part {
        pieces.count = pieces.count.saturating_add(1);
    }
    let piece = pieces.count.saturating_sub(1);
    set_number(pieces.of.as_mut_slice(), node, piece);
    add_work(pieces.work.as_mut_slice(), piece, weight);
    Cut {
        component,
        part,
        before: before.saturating_add(weight),
    }
}

// How many pieces a component makes: one where it is at most 1.05 of a share, else one to four for each share, as their work is worth.
fn parts_of(whole: u64, share: u64) -> u32 {
    if share == 0 || whole <= share.saturating_add(share / 20) {
        return 1;
    }
    let each = (share / PIECE).clamp(1, 4);
    let parts = whole.saturating_mul(each).saturating_add(share / 2) / share;
    parts.clamp(1, 1 << 20) as u32
}

fn component_work(alloc: Global, order: &Order, work: &[u64]) -> Result<Vec<u64>, AllocError> {
    let mut whole = Vec::from_elem(alloc, 0u64, work.len())?;
    for place in 0..order.count {
        let node = number_at(order.nodes.as_slice(), place);
        let component = number_at(order.component.as_slice(), node).saturating_sub(1);
        add_work(whole.as_mut_slice(), component, work_at(work, node));
    }
    Ok(whole)
}
