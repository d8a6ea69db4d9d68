//! The names of types of C, and of what they hold.
ghost use Rattle.std.specs.Prelude.{◌≡◌, IfOk};
ghost use Rattle.c_tree.specs.Words.{bits, type_text};
ghost use Rattle.c_types.specs.Shapes.{seen};
ghost use Rattle.c_types.specs.Gathered.{c_type, gathered};
ghost use Rattle.c_main.specs.Streams.{field_word};

use c_forms::{joined, numbered, text};
use c_tree::{CType, Width};
use c_types::{CTypes, Shape};
use hume_base::{Text, Ty};
use std::alloc::{AllocError, Global};

/// The name of the type of C that the type is.
pub(crate) fn type_text(alloc: Global, types: &CTypes, ty: &Ty) -> Result<Text, AllocError>
    ensures { IfOk result (λ text. text ≡ type_text (c_type (gathered types.now) ty.now)) }
{
    match types.c_type(alloc, ty)? {
        CType::Bool => text(alloc, b"bool"),
        CType::Signed(width) => {
            let name = numbered(alloc, b"int", u64::from(bits_of(width)))?;
            joined(alloc, &[name.bytes(), b"_t"])
        }
        CType::Unsigned(width) => {
            let name = numbered(alloc, b"uint", u64::from(bits_of(width)))?;
            joined(alloc, &[name.bytes(), b"_t"])
        }
        CType::Named(name) => Ok(name),
    }
}

fn bits_of(width: Width) -> u8
    ensures { result ≡ bits width }
{
    match width {
        Width::W8 => 8,
        Width::W16 => 16,
        Width::W32 => 32,
        Width::W64 => 64,
    }
}

/// Where the fields of a constructor are, up to their numbers.
pub(crate) fn field_word(alloc: Global, shape: Shape, name: &[u8]) -> Result<Text, AllocError>
    ensures { IfOk result (λ text. text ≡ field_word (seen shape.entry) name.now) }
{
    match shape {
        Shape::Tagged(_) => joined(alloc, &[b"v->u.c_", name, b".f"]),
        _ => text(alloc, b"v->f"),
    }
}
