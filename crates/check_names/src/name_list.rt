ghost use Rattle.std.specs.Prelude.{◌≡◌, ◌<◌, ◌∷◌, [], ◌++◌, take, map, length, slice_index_or, OnOk, IfOk};
ghost use Rattle.check_tables.specs.names.Names.{among};

use hume_base::Text;
use std::alloc::{AllocError, Global};
use std::marker::Model;

/// Names that stand in a tree.
#[derive(Drop)]
pub(crate) struct NameList<'a> {
    names: Vec<&'a [u8]>,
}

impl<'a> Model for NameList<'a> {
    ghost use Rattle.std.specs.Prelude.{List, ℕ, map};

    ghost Value = { List (List ℕ) };

    ghost view = { λ list. map (λ name. name.now) list.names.items };
}

impl<'a> NameList<'a> {
    pub(crate) fn new(alloc: Global) -> NameList<'a>
        ensures { result ≡ [] }
    {
        NameList {
            names: Vec::new(alloc),
        }
    }

    pub(crate) fn of_one(alloc: Global, name: &'a Text) -> Result<NameList<'a>, AllocError>
        ensures { IfOk result (λ list. list ≡ name.now ∷ []) }
    {
        let mut list = NameList::new(alloc);
        list.push(name)?;
        Ok(list)
    }

    pub(crate) fn len(&self) -> usize
        ensures { result ≡ length self.now }
    {
        self.names.len()
    }

    pub(crate) fn push(&mut self, name: &'a Text) -> Result<(), AllocError>
        ensures { OnOk result (self.new ≡ self.old ++ name.now ∷ []) }
    {
        self.names.push(name.bytes())?;
        Ok(())
    }

    /// Keeps the first names alone.
    pub(crate) fn leave(&mut self, count: usize)
        ensures { self.new ≡ take count self.old }
    {
        self.names.truncate(count);
    }

    pub(crate) fn get(&self, at: usize) -> &'a [u8]
        requires { at < length self.now }
        ensures { result.now ≡ slice_index_or self.now at [] }
    {
        self.names[at]
    }

    pub(crate) fn has(&self, name: &[u8]) -> bool
        ensures { result ≡ among name.now self.now }
    {
        is_one_of(self.names.as_slice(), name)
    }
}

fn is_one_of(names: &[&[u8]], name: &[u8]) -> bool
    ensures { result ≡ among name.now (map (λ other. other.now) names.now) }
{
    for other in names {
        if name == *other {
            return true;
        }
    }
    false
}
