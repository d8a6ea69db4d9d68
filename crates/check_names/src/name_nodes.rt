//! Nodes of names, in a graph whose first nodes are declarations.
ghost use Rattle.std.specs.Prelude.{◌≡◌, ℕ, ◌+◌, ◌<◌, ◌^◌, [], length, take, OnOk, IfOk};
ghost use Rattle.check_names.specs.inner.NameNodes.{AreNodes, IsOneMore};

use crate::owner_index::OwnerIndex;
use crate::owners::Owners;
use check_tables::names::NameTable;
use hume_base::List;
use std::alloc::{AllocError, Global};

/// Names, each once, with the numbers of their nodes, and for each the numbers of its declarations.
#[derive(Drop)]
pub(crate) struct NameNodes<'a> {
    pub(crate) index: OwnerIndex<'a>,
    pub(crate) rows: List<List<u32>>,
}

/// A node for each name. The numbers of nodes go on from `first`.
pub(crate) fn name_nodes<'a>(
    alloc: Global,
    first: usize,
    owners: &Owners<'a>,
) -> Result<NameNodes<'a>, AllocError>
    requires { first < 2 ^ 32 }
    ensures { IfOk result (AreNodes first owners.now) }
{
    let mut nodes = NameNodes::new(alloc);
    for at in 0..owners.len() {
        nodes.add_owner(alloc, first, owners, at)?;
    }
    Ok(nodes)
}

impl<'a> NameNodes<'a> {
    fn new(alloc: Global) -> NameNodes<'a>
        ensures { (first : ℕ) → first < 2 ^ 32 → AreNodes first [] result }
    {
        let index = OwnerIndex {
            owners: Owners::new(alloc),
            table: NameTable::new(alloc),
            distinct: true,
        };
        NameNodes {
            index,
            rows: List::new(alloc),
        }
    }

    // Lets the node of a name lead to one more of its declarations.
    fn add_owner(
        &mut self,
        alloc: Global,
        first: usize,
        owners: &Owners<'a>,
        at: usize,
    ) -> Result<(), AllocError>
        requires at { at < length owners.now }
        requires nodes { AreNodes first (take at owners.now) self.old }
        ensures { OnOk result (AreNodes first (take (at + 1) owners.now) self.new) }
    {
        let (name, number) = owners.get(at);
        match self.index.table.find(name) {
            Some(node) => self.rows.push_at(node - first, number),
            None => self.add_name(alloc, first, name, number),
        }
    }

    // Numbers of nodes are below 2 ^ 32: for more there is no memory.
    fn add_name(
        &mut self,
        alloc: Global,
        first: usize,
        name: &'a [u8],
        number: u32,
    ) -> Result<(), AllocError>
        requires { first + length self.old.rows < 2 ^ 32 }
        ensures { OnOk result (IsOneMore first name.now number self.old self.new) }
    {
        let node = first + self.rows.len();
        if node >= u32::MAX as usize {
            return Err(AllocError);
        }
        self.index.table.add(name, node)?;
        self.index.owners.push(name, node as u32)?;
        let row = List::of_one(alloc, number)?;
        self.rows.push(row)
    }
}
