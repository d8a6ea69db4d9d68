ghost use Rattle.std.specs.Prelude.{◌≡◌, ◌<◌, ◌^◌, [], ◌++◌, length, OnOk, IfOk, IsTrue};
ghost use Rattle.check_names.specs.Leading.{owners_from, numbers_of};
ghost use Rattle.check_names.specs.inner.Indexed.{IsIndexed, IsIndex, listed};

use crate::mention_list::NameKind;
use crate::owners::{Owners, owners_of};
use check_tables::names::NameTable;
use hume_ast::Decl;
use hume_base::List;
use std::alloc::{AllocError, Global};

/// Names with the numbers of their declarations, and a table of them. Where a name is there again the table isn't asked.
#[derive(Drop)]
pub(crate) struct OwnerIndex<'a> {
    pub(crate) owners: Owners<'a>,
    pub(crate) table: NameTable<'a>,
    pub(crate) distinct: bool,
}

/// The names of a kind that declarations declare, with their numbers.
pub(crate) fn index_of<'a>(
    alloc: Global,
    kind: NameKind,
    decls: &'a [(u32, Decl)],
) -> Result<OwnerIndex<'a>, AllocError>
    requires { length decls.now < 2 ^ 32 }
    ensures owners { IfOk result (λ index. index.owners ≡ owners_from kind 0 decls.now) }
    ensures indexed { IfOk result IsIndexed }
{
    let owners = owners_of(alloc, kind, decls)?;
    let mut table = NameTable::new(alloc);
    let distinct = add_owners(&mut table, &owners)?;
    Ok(OwnerIndex {
        owners,
        table,
        distinct,
    })
}

// Adds names to an empty table, and says whether each is there once.
fn add_owners<'a>(table: &mut NameTable<'a>, owners: &Owners<'a>) -> Result<bool, AllocError>
    requires { table.old ≡ [] }
    ensures { IfOk result (λ distinct. IsTrue distinct → IsIndex table.new owners.now) }
{
    let mut distinct = true;
    for at in 0..owners.len() {
        let (name, number) = owners.get(at);
        let is_new = table.add(name, number as usize)?;
        distinct = distinct & is_new;
    }
    Ok(distinct)
}

impl<'a> OwnerIndex<'a> {
    /// Adds the numbers of the declarations of a name to a row.
    pub(crate) fn push_numbers(&self, name: &[u8], row: &mut List<u32>) -> Result<(), AllocError>
        requires { IsIndexed self.now }
        ensures { OnOk result (row.new ≡ row.old ++ numbers_of name.now self.now.owners) }
    {
        if !self.distinct {
            return self.owners.push_numbers(name, row);
        }
        push_found(self.table.find(name), row)
    }
}

// A number in a table is that of a declaration, so it is never too large.
fn push_found(number: Option<usize>, row: &mut List<u32>) -> Result<(), AllocError>
    ensures { OnOk result (row.new ≡ row.old ++ listed number) }
{
    match number {
        None => Ok(()),
        Some(number) => match u32::try_from(number) {
            Ok(number) => row.push(number),
            Err(_) => Err(AllocError),
        },
    }
}
