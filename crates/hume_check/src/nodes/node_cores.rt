//! The boxes and streams of a core.
ghost use Rattle.std.specs.Prelude.{◌≡◌, ◌<◌, ◌^◌, length, IfOk};
ghost use Rattle.hume_ast.specs.declared.tree.Decl.{Decl as Declaration};
ghost use Rattle.check_typing.specs.Declarations.{HasTrees};
ghost use Rattle.check_rules.specs.CoreOf.{stream_core as stream_core_of};
ghost use Rattle.hume_check.specs.inner.Parts.{AreNodes};
ghost use Rattle.hume_check.specs.inner.Trees.{HaveTrees};
ghost use Rattle.hume_check.specs.nodes.inner.Parts.{numbered, way, IsNodeIfOne};

use crate::nodes::boxes::box_core;
use crate::nodes::declared::{BoxParts, box_trees};
use check_scopes::signatures::SignatureTable;
use hume_ast::Decl;
use hume_base::lines::LineTable;
use hume_base::{List, Text};
use hume_model::{NodeC, StreamC};
use std::alloc::{AllocError, Global};
use typed_core::TypedDeclaration;

/// The boxes and streams of the declarations in their order, by the signatures of the table.
#[tactic(auto, using(crate::proofs::nodes_lemmas::NodeLaws::nodes_steps))]
pub(crate) fn nodes(
    alloc: Global,
    lines: &LineTable,
    decls: &[(u32, Decl)],
    trees: &[TypedDeclaration],
    table: &SignatureTable,
) -> Result<List<NodeC>, AllocError>
    requires few { length decls.now < 2 ^ 32 }
    requires trees { HaveTrees table.now decls.now trees.now }
    ensures { IfOk result (AreNodes lines.now table.now decls.now) }
{
    let mut nodes = List::new(alloc);
    for (i, d) in decls.iter().enumerate() {
        if let Some(node) = node_core(alloc, lines, table, i as u32, d, &trees[i])? {
            nodes.push(node)?;
        }
    }
    Ok(nodes)
}

// The box or stream of a declaration of a number, if it is of one.
fn node_core(
    alloc: Global,
    lines: &LineTable,
    table: &SignatureTable,
    number: u32,
    d: &(u32, Decl),
    trees: &TypedDeclaration,
) -> Result<Option<NodeC>, AllocError>
    requires { HasTrees table.now d.now.1 trees.now }
    ensures { IfOk result (IsNodeIfOne lines.now table.now (numbered number d.now)) }
{
    match &d.1 {
        Decl::BoxD(name, inputs, outputs, is_fair, _, _) => {
            let (rules, handlers) = box_trees(trees);
            let parts = BoxParts {
                name,
                inputs: inputs.as_slice(),
                outputs: outputs.as_slice(),
                is_fair: *is_fair,
                rules,
                handlers,
            };
            let core = box_core(alloc, lines, table, number, d.0, parts)?;
            Ok(Some(NodeC::Rules(core)))
        }
        Decl::Stream(name, comes_in, port) => {
            let core = stream_core(lines, number, d.0, name, port)?;
            Ok(Some(stream_node(*comes_in, core)))
        }
        _ => Ok(None),
    }
}

fn stream_node(comes_in: bool, core: StreamC) -> NodeC
    ensures { result ≡ way comes_in core }
{
    if comes_in {
        return NodeC::From(core);
    }
    NodeC::To(core)
}

fn stream_core(
    lines: &LineTable,
    number: u32,
    place: u32,
    name: &Text,
    port: &Text,
) -> Result<StreamC, AllocError>
    ensures { IfOk result (λ stream. (decl : Declaration)
        → stream ≡ stream_core_of lines.now (numbered number (place, decl)) name.now port.now) }
{
    Ok(StreamC {
        name: name.copy()?,
        line: lines.line(place),
        declaration: number,
        port: port.copy()?,
    })
}
