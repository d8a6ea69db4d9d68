//! The types of numbers as trees, which share their parts.
ghost use Rattle.std.specs.Prelude.{◌≡◌, ◌<◌, ◌≤◌, ◌+◌, length, map, OnOk, IfOk};
ghost use Rattle.check_scopes.specs.types.Nodes.{type_at, ty_of, types_of, all_below, IsTable, IsWithin, Grows};

use crate::types::node::Node;
use hume_base::{List, Shared, Ty};
use std::alloc::{AllocError, Global};

/// Makes the trees of the first nodes, as many as are asked for at least.
pub(crate) fn make_trees(
    alloc: Global,
    nodes: &[Node],
    trees: &mut Vec<Shared<Ty>>,
    count: usize,
) -> Result<(), AllocError>
    requires table { IsTable nodes.now (types_of nodes.now) }
    requires first { Grows trees.old.items (types_of nodes.now) }
    ensures first { Grows trees.new.items (types_of nodes.now) }
    ensures long { OnOk result (count ≤ length trees.new.items) }
{
    for _made in trees.len()..count {
        add_tree(alloc, nodes, trees)?;
    }
    Ok(())
}

// The tree of the first node that has none.
fn add_tree(alloc: Global, nodes: &[Node], trees: &mut Vec<Shared<Ty>>) -> Result<(), AllocError>
    requires table { IsTable nodes.now (types_of nodes.now) }
    requires first { Grows trees.old.items (types_of nodes.now) }
    ensures first { Grows trees.new.items (types_of nodes.now) }
    ensures more { OnOk result (length trees.new.items ≡ length trees.old.items + 1) }
{
    let Some(node) = nodes.get(trees.len()) else {
        return Err(AllocError);
    };
    let tree = tree_of(alloc, trees.as_slice(), node)?;
    trees.push(tree)?;
    Ok(())
}

// The type of a node whose parts are among the trees. Any other is answered with want of memory.
fn tree_of(alloc: Global, trees: &[Shared<Ty>], node: &Node) -> Result<Shared<Ty>, AllocError>
    ensures is { IfOk result (λ tree. tree ≡ ty_of trees.now node.now) }
    ensures within { OnOk result (IsWithin (length trees.now) node.now) }
{
    match node {
        Node::Bool => Shared::new(alloc, Ty::Bool),
        Node::Char => Shared::new(alloc, Ty::Char),
        Node::Int(bits) => Shared::new(alloc, Ty::Int(*bits)),
        Node::Nat(bits) => Shared::new(alloc, Ty::Nat(*bits)),
        Node::Tuple(parts) => {
            let parts = parts_of(alloc, trees, parts.as_slice())?;
            Shared::new(alloc, Ty::Tuple(parts))
        }
        Node::Vector(count, item) => {
            let item = part_of(trees, *item)?;
            Shared::new(alloc, Ty::Vector(*count, item))
        }
        Node::Named(number) => Shared::new(alloc, Ty::Named(*number)),
    }
}

fn parts_of(
    alloc: Global,
    trees: &[Shared<Ty>],
    numbers: &[u32],
) -> Result<List<Shared<Ty>>, AllocError>
    ensures is { IfOk result (λ parts. parts ≡ map (type_at trees.now) numbers.now) }
    ensures within { OnOk result (all_below (length trees.now) numbers.now) }
{
    let mut parts = List::new(alloc);
    for number in numbers {
        parts.push(part_of(trees, *number)?)?;
    }
    Ok(parts)
}

fn part_of(trees: &[Shared<Ty>], number: u32) -> Result<Shared<Ty>, AllocError>
    ensures is { IfOk result (λ part. part ≡ type_at trees.now number) }
    ensures within { OnOk result (number < length trees.now) }
{
    if number as usize >= trees.len() {
        return Err(AllocError);
    }
    trees[number as usize].share()
}
