ghost use Rattle.std.specs.Prelude.{◌≡◌, IfOk};

use std::alloc::{AllocError, Global};
use std::boxed;
use std::marker::Model;
use std::ops::Deref;

/// An owned value behind a pointer, which contracts see as the value alone: with std's `Box` a tree would hold its
/// pointers, and no copy would equal its original. Import it by name, in modules of trees only.
#[derive(Debug, Drop)]
pub struct Box<T> {
    inner: boxed::Box<T>,
}

impl<T> Model for Box<T> {
    ghost Value = { T };

    ghost coded = { T.code };

    ghost view = { λ owner. owner.inner.value };
}

impl<T> Box<T> {
    pub fn get(&self) -> &T
        ensures { result.now ≡ self.now }
    {
        &self.inner
    }

    pub fn into_inner(self) -> T
        ensures { result ≡ self }
    {
        let Box { inner } = self;
        boxed::Box::into_inner(inner)
    }
}

impl<T> Box<T> {
    ghost use Rattle.std.specs.Borrow.{Lends, sem};
    ghost use Rattle.hume_base.specs.contracts.boxed.Box.{the_row};

    /// Lends the value, to be changed where it is.
    pub fn as_mut(&mut self) -> &mut T
        ensures* writes_back { sem 𝓛 (Lends (the_row T.row) T.row self.entry result (λ value. value)) }
        ensures value { result.now ≡ self.old }
    {
        self.inner.as_mut()
    }
}

impl<T: Drop> Box<T> {
    pub fn new(alloc: Global, value: T) -> Result<Box<T>, AllocError>
        ensures { IfOk result (λ owner. owner ≡ value) }
    {
        Ok(Box {
            inner: boxed::Box::new(alloc, value)?,
        })
    }
}

impl<T> Deref for Box<T> {
    type Target = T;

    ghost deref_gives = { λ owner value. value ≡ owner };

    fn deref(&self) -> &T {
        &self.inner
    }
}

impl<T: PartialEq> PartialEq for Box<T> {
    ghost eq = { λ x y. T.eq x y };

    ghost laws = { T.laws };

    fn eq(&self, other: &Self) -> bool {
        self.get() == other.get()
    }
}

impl<T: Eq> Eq for Box<T> {
    ghost laws = { T.Eq.laws };
}
