//! The types of a file, and those of them that have a function.
ghost use Rattle.std.specs.Prelude.{◌≡◌, IfOk, OnOk};
ghost use Rattle.std.specs.List.{list_any};
ghost use Rattle.c_types.specs.Gathered.{gathered};
ghost use Rattle.c_types.specs.inner.SameTypes.{is_same};
ghost use Rattle.c_valid.specs.Tests.{function_of};
ghost use Rattle.c_valid.specs.inner.Known.{known};
ghost use Rattle.c_valid.specs.Functions.{none_known, with_one};

use c_tree::CType;
use c_types::CTypes;
use hume_base::{List, Text, Ty, copy_ty, same_ty};
use std::alloc::{AllocError, Global};

/// The types of a file, and those of them of which a function tells whether an object holds a value.
#[derive(Drop)]
pub struct Tested<'a> {
    pub types: &'a CTypes<'a>,
    with_function: List<Ty>,
}

impl<'a> Tested<'a> {
    /// None of the types has a function yet.
    pub fn none(alloc: Global, types: &'a CTypes<'a>) -> Tested<'a>
        ensures { known result ≡ none_known (gathered types.now) }
    {
        Tested {
            types,
            with_function: List::new(alloc),
        }
    }

    /// The type has a function.
    pub fn add(&mut self, alloc: Global, ty: &Ty) -> Result<(), AllocError>
        ensures { OnOk result (known self.new ≡ with_one (known self.old) ty.now) }
    {
        self.with_function.push(copy_ty(alloc, ty)?)
    }

    /// The name of the type's function, if it has one.
    pub fn function_of(&self, alloc: Global, ty: &Ty) -> Result<Option<Text>, AllocError>
        ensures { IfOk result (λ name. name ≡ function_of (known self.now) ty.now) }
    {
        if !is_among(self.with_function.as_slice(), ty) {
            return Ok(None);
        }
        match self.types.c_type(alloc, ty)? {
            CType::Named(name) => {
                Ok(Some(self.types.names().inner(alloc, b"valid_", name.bytes())?))
            }
            CType::Bool | CType::Signed(_) | CType::Unsigned(_) => Ok(None),
        }
    }
}

fn is_among(tys: &[Ty], ty: &Ty) -> bool
    ensures { result ≡ list_any (λ other. is_same other ty.now) tys.now }
{
    for other in tys {
        if is_same(other, ty) {
            return true;
        }
    }
    false
}

fn is_same(left: &Ty, right: &Ty) -> bool
    ensures { result ≡ is_same left.now right.now }
{
    same_ty(left, right)
}
