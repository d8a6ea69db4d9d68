//! The functions of the boxes.
ghost use Rattle.std.specs.Prelude.{◌≡◌, ◌≤◌, ◌++◌, IfOk, OnOk, slice_get};
ghost use Rattle.hume_exceptions.specs.Sets.{IsRaisesOf};
ghost use Rattle.c_analysis.specs.Targets.{target};
ghost use Rattle.c_of.specs.File.{box_comment, box_part, boxes_parts};
ghost use Rattle.c_of.specs.inner.Nodes.{box_given, boxes_in, node_part};

use crate::file::part;
use c_analysis::Setting;
use c_boxes::box_functions;
use c_forms::{joined, numbered};
use c_tree::CItem;
use hume_base::{List, Text};
use hume_exceptions::Raises;
use hume_model::{BoxC, NodeC};
use std::alloc::{AllocError, Global};
use typed_core::BoxTrees;

/// The functions of the boxes among the nodes, whose trees stand in the same order.
#[tactic(auto, using(crate::proofs::PartSteps::part_steps))]
pub(crate) fn boxes_parts(
    s: Setting,
    raised: &Raises,
    nodes: &[NodeC],
    trees: &[BoxTrees],
) -> Result<List<CItem>, AllocError>
    requires { IsRaisesOf s.core.now raised.now }
    ensures { IfOk result (λ items. items ≡ boxes_parts (target s.entry) 0 nodes.now trees.now) }
{
    let mut items = List::new(s.alloc);
    let mut place = 0;
    for (number, node) in nodes.iter().enumerate() {
        add_node(s, raised, &mut items, number, node, trees, place)?;
        place += boxes_in(node);
    }
    Ok(items)
}

// The functions of a node behind those before it. Its trees, if it is a box, stand at the place.
fn add_node(
    s: Setting,
    raised: &Raises,
    items: &mut List<CItem>,
    number: usize,
    node: &NodeC,
    trees: &[BoxTrees],
    place: usize,
) -> Result<(), AllocError>
    requires { IsRaisesOf s.core.now raised.now }
    ensures { OnOk result (items.new ≡ items.old ++ node_part (target s.entry) number node.now (slice_get trees.now place)) }
{
    match node {
        NodeC::Rules(b) => add_box(s, raised, items, number, b, trees, place),
        NodeC::From(_) | NodeC::To(_) => Ok(()),
    }
}

fn add_box(
    s: Setting,
    raised: &Raises,
    items: &mut List<CItem>,
    number: usize,
    b: &BoxC,
    trees: &[BoxTrees],
    place: usize,
) -> Result<(), AllocError>
    requires { IsRaisesOf s.core.now raised.now }
    ensures { OnOk result (items.new ≡ items.old ++ box_given (target s.entry) number b.now (slice_get trees.now place)) }
{
    match trees.get(place) {
        None => Ok(()),
        Some(one) => {
            let declared = box_part(s, raised, number, b, one)?;
            items.append(declared)?;
            Ok(())
        }
    }
}

fn boxes_in(node: &NodeC) -> usize
    ensures count { result ≡ boxes_in node.now }
    ensures most { result ≤ 1 }
{
    match node {
        NodeC::Rules(_) => 1,
        NodeC::From(_) | NodeC::To(_) => 0,
    }
}

fn box_part(
    s: Setting,
    raised: &Raises,
    number: usize,
    b: &BoxC,
    trees: &BoxTrees,
) -> Result<List<CItem>, AllocError>
    requires { IsRaisesOf s.core.now raised.now }
    ensures { IfOk result (λ items. items ≡ box_part (target s.entry) number b.now trees.now) }
{
    let comment = box_comment(s.alloc, b)?;
    let declared = box_functions(s, number, b, raised, trees)?;
    part(s.alloc, comment.bytes(), declared)
}

fn box_comment(alloc: Global, b: &BoxC) -> Result<Text, AllocError>
    ensures { IfOk result (λ comment. comment ≡ box_comment b.now) }
{
    let front = joined(alloc, &[b"box ", b.name.bytes(), b", line "])?;
    numbered(alloc, front.bytes(), u64::from(b.line))
}
