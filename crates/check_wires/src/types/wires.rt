//! The types of wires, by the names at their ends.
ghost use Rattle.std.specs.Prelude.{◌≡◌, option_map, IfOk, OnOk};
ghost use Rattle.check_wires.specs.types.NodeTypes.{node_types, node_at, output_at, input_at, type_between};
ghost use Rattle.check_wires.specs.types.inner.Adding.{none_yet, with_node, with_declaration};

use crate::types::ports::Ports;
use check_scopes::signatures::SignatureTable;
use check_tables::names::NameTable;
use hume_ast::Decl;
use hume_base::{List, Text, Ty};
use std::alloc::{AllocError, Global};

/// The inputs and outputs of a box with their types; a stream has none.
#[derive(Drop)]
pub struct NodeTypes<'a> {
    pub inputs: Ports<'a>,
    pub outputs: Ports<'a>,
}

/// The names of boxes and streams with their places, and the types of inputs and outputs in each place.
#[derive(Drop)]
pub struct WireTypes<'a> {
    pub names: NameTable<'a>,
    pub nodes: List<NodeTypes<'a>>,
}

impl<'a> WireTypes<'a> {
    /// The types that are written for all inputs and outputs of the declarations.
    #[tactic(auto, using(crate::proofs::types_lemmas::Steps::node_steps))]
    pub fn make(
        alloc: Global,
        table: &SignatureTable,
        decls: &'a [(u32, Decl)],
    ) -> Result<WireTypes<'a>, AllocError>
        ensures { IfOk result (λ found. found ≡ node_types table.now.types decls.now) }
    {
        let mut found = WireTypes::none(alloc);
        for decl in decls {
            found.add(alloc, table, &decl.1)?;
        }
        Ok(found)
    }

    fn none(alloc: Global) -> WireTypes<'a>
        ensures { result ≡ none_yet }
    {
        WireTypes {
            names: NameTable::new(alloc),
            nodes: List::new(alloc),
        }
    }

    fn add(
        &mut self,
        alloc: Global,
        table: &SignatureTable,
        decl: &'a Decl,
    ) -> Result<(), AllocError>
        ensures { OnOk result (self.new ≡ with_declaration table.now.types self.old decl.now) }
    {
        match decl {
            Decl::BoxD(name, inputs, outputs, _, _, _) => {
                let inputs = Ports::of(alloc, table, inputs.as_slice())?;
                let outputs = Ports::of(alloc, table, outputs.as_slice())?;
                self.add_node(name, NodeTypes { inputs, outputs })
            }
            Decl::Stream(name, _, _) => {
                let inputs = Ports::none(alloc);
                let outputs = Ports::none(alloc);
                self.add_node(name, NodeTypes { inputs, outputs })
            }
            _ => Ok(()),
        }
    }

    fn add_node(&mut self, name: &'a Text, node: NodeTypes<'a>) -> Result<(), AllocError>
        ensures { OnOk result (self.new ≡ with_node self.old name.now node.entry) }
    {
        let _is_new = self.names.add(name.bytes(), self.nodes.len())?;
        self.nodes.push(node)
    }

    /// The type of a wire between two ends: that of the first or, if it has none, of the second.
    pub fn between(&self, from: &(Text, Option<Text>), to: &(Text, Option<Text>)) -> Option<&Ty>
        ensures { option_map (λ ty. ty.now) result ≡ type_between self.now from.now to.now }
    {
        match self.output(from) {
            Some(ty) => Some(ty),
            None => self.input(to),
        }
    }

    fn output(&self, end: &(Text, Option<Text>)) -> Option<&Ty>
        ensures { option_map (λ ty. ty.now) result ≡ output_at self.now end.now }
    {
        match self.node(&end.0) {
            None => None,
            Some(node) => node.outputs.find(&end.1),
        }
    }

    fn input(&self, end: &(Text, Option<Text>)) -> Option<&Ty>
        ensures { option_map (λ ty. ty.now) result ≡ input_at self.now end.now }
    {
        match self.node(&end.0) {
            None => None,
            Some(node) => node.inputs.find(&end.1),
        }
    }

    fn node(&self, name: &Text) -> Option<&NodeTypes<'a>>
        ensures { option_map (λ node. node.now) result ≡ node_at self.now name.now }
    {
        match self.names.find(name.bytes()) {
            None => None,
            Some(number) => self.nodes.get(number),
        }
    }
}
