ghost use Rattle.std.specs.Prelude.{◌≡◌, [], ◌∷◌, ◌++◌, length, take, slice_get, slice_set, slice_index_or, ◌<◌, ◌↔◌, IsTrue, IfOk, OnOk, OnErr, MatchOption, Some, None};

use std::alloc::{AllocError, Global};
use std::marker::Model;

/// A `Vec` that contracts see as the list of its elements, so that a tree of lists equals its copy.
#[derive(Debug, Drop)]
pub struct List<T> {
    items: Vec<T>,
}

impl<T> Model for List<T> {
    ghost use Rattle.std.specs.Prelude.{List};
    ghost use Rattle.std.specs.Coded.{coded_list};

    ghost Value = { List T };

    ghost coded = { coded_list T.code };

    ghost view = { λ list. list.items.items };
}

impl<T> List<T> {
    pub fn new(alloc: Global) -> List<T>
        ensures { result ≡ [] }
    {
        List {
            items: Vec::new(alloc),
        }
    }

    /// The list of the elements of `items`. It takes no memory.
    pub fn from_vec(items: Vec<T>) -> List<T>
        ensures { result ≡ items.items }
    {
        List { items }
    }

    /// The elements as a `Vec`. It takes no memory.
    pub fn into_vec(self) -> Vec<T>
        ensures { result.items ≡ self }
    {
        let List { items } = self;
        items
    }

    pub fn as_slice(&self) -> &[T]
        ensures { result.now ≡ self.now }
    {
        self.items.as_slice()
    }

    pub fn len(&self) -> usize
        ensures { result ≡ length self.now }
    {
        self.items.len()
    }

    pub fn is_empty(&self) -> bool
        ensures { IsTrue result ↔ (self.now ≡ []) }
    {
        self.items.is_empty()
    }

    pub fn get(&self, at: usize) -> Option<&T>
        ensures { MatchOption result (slice_get self.now at ≡ None) (λ item. slice_get self.now at ≡ Some item.now) }
    {
        self.items.get(at)
    }
}

impl<T: Drop> List<T> {
    /// The list of one element.
    pub fn of_one(alloc: Global, item: T) -> Result<List<T>, AllocError>
        ensures { IfOk result (λ list. list ≡ item ∷ []) }
    {
        let mut list = List::new(alloc);
        list.push(item)?;
        Ok(list)
    }

    pub fn push(&mut self, item: T) -> Result<(), AllocError>
        ensures ok { OnOk result (self.new ≡ self.old ++ item ∷ []) }
        ensures err { OnErr result (self.new ≡ self.old) }
    {
        self.items.push(item)?;
        Ok(())
    }

    /// Moves the elements of `more` to the end.
    pub fn append(&mut self, more: List<T>) -> Result<(), AllocError>
        ensures { OnOk result (self.new ≡ self.old ++ more) }
    {
        let List { mut items } = more;
        self.items.append(&mut items)
    }

    pub fn set(&mut self, at: usize, item: T)
        requires { at < length self.old }
        ensures { self.new ≡ slice_set self.old at item }
    {
        self.items[at] = item;
    }

    /// Takes the first element out, if there is one. The others move up: it takes time for each of them.
    pub fn take_first(&mut self) -> Option<T>
        ensures { MatchOption result ((self.old ≡ []) × (self.new ≡ [])) (λ first. self.old ≡ first ∷ self.new) }
    {
        if self.items.is_empty() {
            return None;
        }
        Some(self.items.remove(0))
    }

    pub fn truncate(&mut self, count: usize)
        ensures { self.new ≡ take count self.old }
    {
        self.items.truncate(count);
    }

    pub fn clear(&mut self)
        ensures { self.new ≡ [] }
    {
        self.items.clear();
    }
}

impl<T: Drop> List<List<T>> {
    /// Adds an element to the list at a place.
    pub fn push_at(&mut self, at: usize, item: T) -> Result<(), AllocError>
        requires { at < length self.old }
        ensures ok { OnOk result (self.new ≡ slice_set self.old at (slice_index_or self.old at [] ++ item ∷ [])) }
        ensures err { OnErr result (self.new ≡ self.old) }
    {
        self.items[at].push(item)
    }

    /// Empties the list at a place.
    pub fn clear_at(&mut self, at: usize)
        requires { at < length self.old }
        ensures { self.new ≡ slice_set self.old at [] }
    {
        self.items[at].clear();
    }
}
