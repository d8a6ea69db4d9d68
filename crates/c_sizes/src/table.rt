//! Names with what is known of them.
ghost use Rattle.std.specs.Prelude.{◌≡◌, [], OnOk};
ghost use Rattle.c_sizes.specs.Names.{known, with_name};

use indexmap::IndexMap;
use std::alloc::{AllocError, Global};
use std::marker::Model;

/// Names in the order in which they were added, each with a value. A name is found by its hash.
#[derive(Drop)]
pub(crate) struct Table<'a, V> {
    entries: IndexMap<&'a [u8], V>,
}

impl<'a, V> Model for Table<'a, V> {
    ghost use Rattle.std.specs.Prelude.{List, ℕ, map};

    ghost Value = { List (List ℕ × V) };

    ghost view = { λ table. map (λ entry. (entry.0.now, entry.1)) table.entries.entries };
}

impl<'a, V: Copy> Table<'a, V> {
    pub(crate) fn new(alloc: Global) -> Table<'a, V>
        ensures { result ≡ [] }
    {
        Table {
            entries: IndexMap::new(alloc),
        }
    }

    /// What is known of a name.
    pub(crate) fn find(&self, name: &[u8]) -> Option<V>
        ensures { result ≡ known name.now self.now }
    {
        self.entries.get(name).copied()
    }

    /// Adds a name, unless it is there.
    pub(crate) fn add(&mut self, name: &'a [u8], value: V) -> Result<(), AllocError>
        ensures { OnOk result (self.new ≡ with_name self.old name.now value) }
    {
        if self.entries.contains_key(name) {
            return Ok(());
        }
        self.entries.insert(name, value)?;
        Ok(())
    }
}
