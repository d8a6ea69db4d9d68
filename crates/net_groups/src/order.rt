//! The nodes of a plan in depth-first order.
use crate::numbers::{count_of, number_at, set_number};
use hume_net::Plan;
use std::alloc::{AllocError, Global};

/// The nodes in depth-first order along wires in both directions, so that each component stands in a row.
#[derive(Drop)]
pub(crate) struct Order {
    pub nodes: Vec<u32>,
    // how many nodes stand in it
    pub count: u32,
    // for each node the number of its component, from 1 on, and 0 of a node that was not visited
    pub component: Vec<u32>,
}

/// Finds the order of a plan's nodes.
pub(crate) fn find_order(alloc: Global, plan: &Plan) -> Result<Order, AllocError> {
    let room = plan.producer.len().saturating_mul(2).saturating_add(1);
    let mut order = Order {
        nodes: Vec::from_elem(alloc, 0u32, plan.nodes as usize)?,
        count: 0,
        component: Vec::from_elem(alloc, 0u32, plan.nodes as usize)?,
    };
    let mut stack = Vec::from_elem(alloc, 0u32, room)?;
    for root in 0..plan.nodes {
        visit_from(plan, root, stack.as_mut_slice(), &mut order);
    }
    Ok(order)
}

// Visits the component of a root that was not visited. Each node is put onto the stack by a wire, so there is room for twice the wires.
fn visit_from(plan: &Plan, root: u32, stack: &mut [u32], order: &mut Order) {
    if number_at(order.component.as_slice(), root) != 0 {
        return;
    }
    set_number(stack, 0, root);
    let mut top = 1u32;
    for _ in 0..stack.len() {
        if top == 0 {
            return;
        }
        top -= 1;
        let node = number_at(stack, top);
        if number_at(order.component.as_slice(), node) == 0 {
            visit(node, root.saturating_add(1), order);
            top = push_neighbours(plan, node, stack, top);
        }
    }
}

fn visit(node: u32, component: u32, order: &mut Order) {
    set_number(order.component.as_mut_slice(), node, component);
    set_number(order.nodes.as_mut_slice(), order.count, node);
    order.count = order.count.saturating_add(1);
}

// Puts the other ends of a node's wires onto the stack, and gives the stack's new height.
fn push_neighbours(plan: &Plan, node: u32, stack: &mut [u32], height: u32) -> u32 {
    let producer = plan.producer.as_slice();
    let consumer = plan.consumer.as_slice();
    let mut top = height;
    for wire in 0..count_of(producer.len()) {
        let from = number_at(producer, wire);
        let to = number_at(consumer, wire);
        if from == node || to == node {
            set_number(stack, top, if from == node { to } else { from });
            top = top.saturating_add(1);
        }
    }
    top
}
