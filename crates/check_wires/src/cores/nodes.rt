//! The nodes of a core by their names.
ghost use Rattle.std.specs.Prelude.{◌≡◌, ◌<◌, ◌^◌, length, option_map, IfOk};
ghost use Rattle.check_typing.specs.Signatures.{first_named};
ghost use Rattle.check_scopes.specs.signatures.inner.Tables.{table_of, numbered_item};
ghost use Rattle.check_rules.specs.CoreOf.{node_name};

use check_tables::names::NameTable;
use hume_base::Text;
use hume_model::NodeC;
use std::alloc::{AllocError, Global};
use std::marker::Model;

/// The boxes and streams of a core, found by their names.
#[derive(Drop)]
pub(crate) struct NodeTable<'a> {
    names: NameTable<'a>,
    nodes: &'a [NodeC],
}

impl<'a> Model for NodeTable<'a> {
    ghost use Rattle.std.specs.Prelude.{List};
    ghost use Rattle.std.specs.Coded.{coded_list};
    ghost use Rattle.hume_model.specs.declared.core_tree.NodeC.{NodeC};
    ghost use Rattle.hume_model.specs.contracts.core_tree.NodeC as node;
    ghost use Rattle.check_wires.specs.cores.inner.NamedNodes.{AreNamed};

    ghost Value = { List NodeC };

    ghost coded = { coded_list node.the_row.coded };

    ghost view = { λ table. table.nodes.now };

    ghost invariant = { λ table. AreNamed table.nodes.now table.names };
}

impl<'a> NodeTable<'a> {
    /// The table of the nodes. Memory is wanted where a number of one has more than 32 bits.
    pub(crate) fn make(alloc: Global, nodes: &'a [NodeC]) -> Result<NodeTable<'a>, AllocError>
        ensures { IfOk result (λ table. table ≡ nodes.now) }
    {
        if nodes.len() > u32::MAX as usize {
            return Err(AllocError);
        }
        let names = node_names(alloc, nodes)?;
        Ok(NodeTable { names, nodes })
    }

    /// The node of the name with its number, the first where there are several.
    pub(crate) fn find(&self, name: &Text) -> Option<(u32, &'a NodeC)>
        ensures { option_map (λ found. (found.0, found.1.now)) result ≡ first_named node_name name.now self.now }
    {
        node_at(self.nodes, self.names.find(name.bytes()))
    }
}

#[tactic(auto, using(crate::proofs::cores_lemmas::Steps::name_steps))]
fn node_names<'a>(alloc: Global, nodes: &'a [NodeC]) -> Result<NameTable<'a>, AllocError>
    ensures { IfOk result (λ names. names ≡ table_of node_name nodes.now) }
{
    let mut names = NameTable::new(alloc);
    for (number, node) in nodes.iter().enumerate() {
        let _is_new = names.add(name_of(node).bytes(), number)?;
    }
    Ok(names)
}

fn name_of(node: &NodeC) -> &Text
    ensures { result.now ≡ node_name node.now }
{
    match node {
        NodeC::Rules(rules) => &rules.name,
        NodeC::From(stream) => &stream.name,
        NodeC::To(stream) => &stream.name,
    }
}

// The node that has the number, with it.
fn node_at(nodes: &[NodeC], number: Option<usize>) -> Option<(u32, &NodeC)>
    requires { length nodes.now < 2 ^ 32 }
    ensures { option_map (λ found. (found.0, found.1.now)) result ≡ numbered_item nodes.now number }
{
    match number {
        None => None,
        Some(number) => match nodes.get(number) {
            None => None,
            Some(node) => Some((number as u32, node)),
        },
    }
}
