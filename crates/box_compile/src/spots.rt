//! The tests of a pattern and where its variables are found, as data.
ghost use Rattle.std.specs.Prelude.{◌≡◌, ◌++◌, ◌∷◌, [], IfOk};
ghost use Rattle.box_code.specs.Paths.{WordIs, TagIs, root as root_at, field_of_spot};
ghost use Rattle.box_code.specs.Represents.{spot_of};
ghost use Rattle.box_compile.specs.inner.Tests.{test_of};

use hume_base::List;
use std::alloc::{AllocError, Global};
use std::marker::Model;

/// Where a word is found: from the word at a place, counted from the bottom of the frame, by a path of field numbers.
#[derive(Drop)]
pub(crate) struct Spot {
    place: u32,
    path: List<u32>,
}

impl Model for Spot {
    ghost use Rattle.box_code.specs.Paths.{Spot};

    ghost Value = { Spot };

    ghost view = { λ spot. record { place = spot.place; path = spot.path } };
}

impl Spot {
    /// The word at the place itself.
    pub(crate) fn root(alloc: Global, place: u32) -> Spot
        ensures { result ≡ root_at place }
    {
        Spot {
            place,
            path: List::new(alloc),
        }
    }

    pub(crate) fn copy(&self, alloc: Global) -> Result<Spot, AllocError>
        ensures { IfOk result (λ spot. spot ≡ self.now) }
    {
        let path = copy_numbers(alloc, self.path.as_slice())?;
        Ok(Spot {
            place: self.place,
            path,
        })
    }

    /// The field of that number of the object there.
    pub(crate) fn field(&self, alloc: Global, number: u32) -> Result<Spot, AllocError>
        ensures { IfOk result (λ spot. spot ≡ field_of_spot self.now number) }
    {
        let mut path = copy_numbers(alloc, self.path.as_slice())?;
        path.push(number)?;
        Ok(Spot {
            place: self.place,
            path,
        })
    }

    pub(crate) fn place(&self) -> u32
        ensures { result ≡ self.now.place }
    {
        self.place
    }

    pub(crate) fn path(&self) -> &[u32]
        ensures { result.now ≡ self.now.path }
    {
        self.path.as_slice()
    }
}

fn copy_numbers(alloc: Global, numbers: &[u32]) -> Result<List<u32>, AllocError>
    ensures { IfOk result (λ copy. copy ≡ numbers.now) }
{
    Ok(List::from_vec(numbers.to_vec(alloc)?))
}

/// What a word or an object must be, or which tag.
#[derive(Clone, Copy)]
pub(crate) enum Wanted {
    Word(u64),
    Tag(u32),
}

/// A test of the word at a spot.
#[derive(Drop)]
pub(crate) struct Test {
    spot: Spot,
    wanted: Wanted,
}

impl Model for Test {
    ghost use Rattle.box_code.specs.Paths.{Test};
    ghost use Rattle.box_compile.specs.inner.Tests.{test_of};

    ghost Value = { Test };

    ghost view = { λ test. test_of test.spot test.wanted };
}

impl Test {
    pub(crate) fn word(spot: Spot, word: u64) -> Test
        ensures { result ≡ WordIs spot word }
    {
        Test {
            spot,
            wanted: Wanted::Word(word),
        }
    }

    pub(crate) fn tag(spot: Spot, tag: u32) -> Test
        ensures { result ≡ TagIs spot tag }
    {
        Test {
            spot,
            wanted: Wanted::Tag(tag),
        }
    }

    pub(crate) fn spot(&self) -> &Spot
        ensures { result.now ≡ spot_of self.now }
    {
        &self.spot
    }

    pub(crate) fn wanted(&self) -> Wanted
        ensures { test_of (spot_of self.now) result ≡ self.now }
    {
        self.wanted
    }
}
