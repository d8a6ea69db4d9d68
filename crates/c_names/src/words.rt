//! The names of members, parameters and variables.
ghost use Rattle.std.specs.Prelude.{◌≡◌, ◌++◌, codes, IfOk};
ghost use Rattle.c_forms.specs.Expressions.{numbered as numbered_text};

use c_forms::{joined, numbered};
use hume_base::Text;
use std::alloc::{AllocError, Global};

/// The member of a field of a struct.
pub fn field(alloc: Global, number: u64) -> Result<Text, AllocError>
    ensures { IfOk result (λ name. name ≡ numbered_text (codes "f") number) }
{
    numbered(alloc, b"f", number)
}

/// The member of a union that has the fields of a constructor.
pub fn constructor_member(alloc: Global, name: &[u8]) -> Result<Text, AllocError>
    ensures { IfOk result (λ member. member ≡ codes "c_" ++ name.now) }
{
    joined(alloc, &[b"c_", name])
}

pub fn input(alloc: Global, name: &[u8]) -> Result<Text, AllocError>
    ensures { IfOk result (λ member. member ≡ codes "i_" ++ name.now) }
{
    joined(alloc, &[b"i_", name])
}

pub fn output(alloc: Global, name: &[u8]) -> Result<Text, AllocError>
    ensures { IfOk result (λ member. member ≡ codes "o_" ++ name.now) }
{
    joined(alloc, &[b"o_", name])
}

/// A parameter of a function, from 1 on.
pub fn argument(alloc: Global, number: u64) -> Result<Text, AllocError>
    ensures { IfOk result (λ name. name ≡ numbered_text (codes "p") number) }
{
    numbered(alloc, b"p", number)
}

/// A variable of a function.
pub fn variable(alloc: Global, number: u32) -> Result<Text, AllocError>
    ensures { IfOk result (λ name. name ≡ numbered_text (codes "v") number) }
{
    numbered(alloc, b"v", u64::from(number))
}
