//! Sets of names.
ghost use Rattle.std.specs.Prelude.{◌≡◌, [], OnOk};
ghost use Rattle.c_used.specs.Kept.{is_among};
ghost use Rattle.c_used.specs.inner.Names.{with_name};

use indexmap::IndexSet;
use std::alloc::{AllocError, Global};
use std::marker::Model;

/// A set of names. A name is found by its hash.
#[derive(Drop)]
pub(crate) struct Names {
    entries: IndexSet<Vec<u8>>,
    alloc: Global,
}

impl Model for Names {
    ghost use Rattle.std.specs.Prelude.{ℕ, List, map};

    ghost Value = { List (List ℕ) };

    ghost view = { λ names. map (λ key. key.items) names.entries.keys };
}

impl Names {
    pub fn new(alloc: Global) -> Names
        ensures { result ≡ [] }
    {
        Names {
            entries: IndexSet::new(alloc),
            alloc,
        }
    }

    pub fn has(&self, name: &[u8]) -> bool
        ensures { result ≡ is_among self.now name.now }
    {
        self.entries.contains(name)
    }

    pub fn add(&mut self, name: &[u8]) -> Result<(), AllocError>
        ensures { OnOk result (self.new ≡ with_name self.old name.now) }
    {
        if !self.has(name) {
            let key = Vec::from_slice(self.alloc, name)?;
            self.entries.insert(key)?;
        }
        Ok(())
    }
}
