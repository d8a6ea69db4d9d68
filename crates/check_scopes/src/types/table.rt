ghost use Rattle.std.specs.Prelude.{◌≡◌, ◌<◌, [], length, IfOk, IfSome, OnOk, IsTrue, ◌↔◌};
ghost use Rattle.check_scopes.specs.types.Nodes.{type_at, ty_of, IsWithin, Grows};

use crate::types::node::Node;
use crate::types::tree_table::make_trees;
use hume_base::{Shared, Ty};
use indexmap::IndexSet;
use std::alloc::{AllocError, Global};
use std::marker::Model;

/// Types, seen as the list of them: a number is a place in it, and no type stands in two places. Trees are made of the first
/// ones, as far as they were asked for.
#[derive(Drop)]
pub struct TypeTable {
    nodes: IndexSet<Node>,
    trees: Vec<Shared<Ty>>,
}

impl Model for TypeTable {
    ghost use Rattle.std.specs.Prelude.{List};
    ghost use Rattle.std.specs.Coded.{coded_list};
    ghost use Rattle.hume_base.specs.declared.types.Ty.{Ty};
    ghost use Rattle.hume_base.specs.contracts.types.Ty as ty;
    ghost use Rattle.check_scopes.specs.types.Nodes.{types_of, Grows, IsTable};

    ghost Value = { List Ty };

    ghost coded = { coded_list ty.the_row.coded };

    ghost view = { λ t. types_of t.nodes.keys };

    ghost invariant = { λ t. IsTable t.nodes.keys (types_of t.nodes.keys) × Grows t.trees.items (types_of t.nodes.keys) };
}

impl TypeTable {
    pub fn new(alloc: Global) -> TypeTable
        ensures { result ≡ [] }
    {
        TypeTable {
            nodes: IndexSet::new(alloc),
            trees: Vec::new(alloc),
        }
    }

    /// The number of a type of which one level is known.
    pub fn number(&mut self, node: Node) -> Result<u32, AllocError>
        requires { IsWithin (length self.old) node }
        ensures grows { Grows self.old self.new }
        ensures within { IfOk result (λ n. n < length self.new) }
        ensures is { IfOk result (λ n. type_at self.new n ≡ ty_of self.old node) }
    {
        if self.nodes.len() >= 4294967295 {
            return Err(AllocError);
        }
        let (at, _) = self.nodes.insert_full(node)?;
        Ok(at as u32)
    }

    /// One level of the type of a number.
    pub fn node(&self, number: u32) -> &Node
        requires { number < length self.now }
        ensures is { type_at self.now number ≡ ty_of self.now result.now }
        ensures within { IsWithin (length self.now) result.now }
    {
        &self.nodes.as_slice()[number as usize]
    }

    /// One level of the type of a number, if it is one.
    pub fn get(&self, number: u32) -> Option<&Node>
        ensures { IfSome result (λ node. type_at self.now number ≡ ty_of self.now node.now) }
    {
        if number as usize >= self.nodes.len() {
            return None;
        }
        Some(&self.nodes.as_slice()[number as usize])
    }

    /// The type of a number as a tree, which is made once.
    pub fn tree(&mut self, alloc: Global, number: u32) -> Result<Shared<Ty>, AllocError>
        requires { number < length self.old }
        ensures is { IfOk result (λ tree. tree ≡ type_at self.old number) }
        ensures keeps { self.new ≡ self.old }
    {
        let place = number as usize;
        make_trees(alloc, self.nodes.as_slice(), &mut self.trees, place + 1)?;
        self.trees[place].share()
    }

    /// Whether two numbers are of one type.
    pub fn is_same(&self, a: u32, b: u32) -> bool
        requires first { a < length self.now }
        requires second { b < length self.now }
        ensures { IsTrue result ↔ (type_at self.now a ≡ type_at self.now b) }
    {
        let _nodes = &self.nodes;
        a == b
    }
}
