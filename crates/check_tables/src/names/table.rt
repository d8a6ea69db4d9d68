ghost use Rattle.std.specs.Prelude.{◌≡◌, [], not, IfOk, OnOk};
ghost use Rattle.check_tables.specs.names.Names.{among, names_of, number_of, with_name};

use indexmap::IndexMap;
use std::alloc::{AllocError, Global};
use std::marker::Model;

/// Names in the order in which they were added, each with a number. A name is found by its hash.
#[derive(Drop)]
pub struct NameTable<'a> {
    entries: IndexMap<&'a [u8], usize>,
}

impl<'a> Model for NameTable<'a> {
    ghost use Rattle.std.specs.Prelude.{List, ℕ, map};

    ghost Value = { List (List ℕ × ℕ) };

    ghost view = { λ table. map (λ entry. (entry.0.now, entry.1)) table.entries.entries };
}

impl<'a> NameTable<'a> {
    pub fn new(alloc: Global) -> NameTable<'a>
        ensures { result ≡ [] }
    {
        NameTable {
            entries: IndexMap::new(alloc),
        }
    }

    /// The number of a name.
    pub fn find(&self, name: &[u8]) -> Option<usize>
        ensures { result ≡ number_of name.now self.now }
    {
        self.entries.get(name).copied()
    }

    pub fn has(&self, name: &[u8]) -> bool
        ensures { result ≡ among name.now (names_of self.now) }
    {
        self.entries.contains_key(name)
    }

    /// Adds a name, unless it is there, and says whether it is new.
    pub fn add(&mut self, name: &'a [u8], number: usize) -> Result<bool, AllocError>
        ensures is_new { IfOk result (λ is_new. is_new ≡ not (among name.now (names_of self.old))) }
        ensures added { OnOk result (self.new ≡ with_name self.old name.now number) }
    {
        if self.has(name) {
            return Ok(false);
        }
        self.entries.insert(name, number)?;
        Ok(true)
    }
}
