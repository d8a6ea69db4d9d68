//! Names of a kind, with the numbers of their declarations.
ghost use Rattle.std.specs.Prelude.{◌≡◌, ◌<◌, ◌^◌, ◌∷◌, [], ◌++◌, map, length, slice_get, Some, OnOk, IfOk};
ghost use Rattle.check_names.specs.Leading.{owners_from, numbers_of};

use crate::declared::names_declared;
use crate::mention_list::NameKind;
use crate::name_list::NameList;
use hume_ast::Decl;
use hume_base::List;
use std::alloc::{AllocError, Global};
use std::marker::Model;

/// Names with the numbers of their declarations. A name that is declared again is there again.
#[derive(Drop)]
pub(crate) struct Owners<'a> {
    owners: Vec<(&'a [u8], u32)>,
}

impl<'a> Model for Owners<'a> {
    ghost use Rattle.std.specs.Prelude.{List, ℕ, map};

    ghost Value = { List (List ℕ × ℕ) };

    ghost view = { λ list. map (λ owner. (owner.0.now, owner.1)) list.owners.items };
}

impl<'a> Owners<'a> {
    pub(crate) fn new(alloc: Global) -> Owners<'a>
        ensures { result ≡ [] }
    {
        Owners {
            owners: Vec::new(alloc),
        }
    }

    pub(crate) fn push(&mut self, name: &'a [u8], number: u32) -> Result<(), AllocError>
        ensures { OnOk result (self.new ≡ self.old ++ (name.now, number) ∷ []) }
    {
        self.owners.push((name, number))?;
        Ok(())
    }

    pub(crate) fn len(&self) -> usize
        ensures { result ≡ length self.now }
    {
        self.owners.len()
    }

    pub(crate) fn get(&self, at: usize) -> (&'a [u8], u32)
        requires { at < length self.now }
        ensures { slice_get self.now at ≡ Some (result.0.now, result.1) }
    {
        self.owners[at]
    }

    /// Adds the numbers of the declarations of a name to a row.
    pub(crate) fn push_numbers(&self, name: &[u8], row: &mut List<u32>) -> Result<(), AllocError>
        ensures { OnOk result (row.new ≡ row.old ++ numbers_of name.now self.now) }
    {
        push_numbers_in(self.owners.as_slice(), name, row)
    }
}

fn push_numbers_in(
    owners: &[(&[u8], u32)],
    name: &[u8],
    row: &mut List<u32>,
) -> Result<(), AllocError>
    ensures { OnOk result (row.new ≡ row.old ++ numbers_of name.now (map (λ owner. (owner.0.now, owner.1)) owners.now)) }
{
    for owner in owners {
        if name == owner.0 {
            row.push(owner.1)?;
        }
    }
    Ok(())
}

/// The names of a kind that declarations declare, with their numbers.
pub(crate) fn owners_of<'a>(
    alloc: Global,
    kind: NameKind,
    decls: &'a [(u32, Decl)],
) -> Result<Owners<'a>, AllocError>
    requires { length decls.now < 2 ^ 32 }
    ensures { IfOk result (λ owners. owners ≡ owners_from kind 0 decls.now) }
{
    let mut owners = Owners::new(alloc);
    for (i, d) in decls.iter().enumerate() {
        let names = names_declared(alloc, kind, &d.1)?;
        push_all(&mut owners, &names, i as u32)?;
    }
    Ok(owners)
}

fn push_all<'a>(
    owners: &mut Owners<'a>,
    names: &NameList<'a>,
    number: u32,
) -> Result<(), AllocError>
    ensures { OnOk result (owners.new ≡ owners.old ++ map (λ name. (name, number)) names.now) }
{
    for at in 0..names.len() {
        owners.push(names.get(at), number)?;
    }
    Ok(())
}
