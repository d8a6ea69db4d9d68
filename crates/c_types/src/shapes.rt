//! Which forms the types of C have.
ghost use Rattle.std.specs.Prelude.{◌≡◌, ◌≤◌, ◌^◌};
ghost use Rattle.c_forms.specs.Gives.{Gives};
ghost use Rattle.c_types.specs.Shapes.{seen, form_of, form_of_data, some_have_fields as some_told, is_scalar as scalar_told};
ghost use Rattle.c_types.specs.Widths.{width_of as width_told};
ghost use Rattle.c_types.specs.Shapes.{tag_width as tag_told, scalar_type, signed_literal as signed_told, literal as literal_told};

use c_forms::{signed, truth, unsigned};
use c_tree::{CExp, CType, Width};
use hume_base::{Box, ConDef, SumDef, Ty, Types};
use std::alloc::Global;

/// The form of a type of C.
#[derive(Clone, Copy)]
pub enum Shape<'a> {
    Bool,
    Signed(u8),
    Unsigned(u8),
    /// A data type without fields.
    Enumeration(&'a SumDef),
    /// A data type of one constructor, with fields.
    Record(&'a SumDef),
    /// A data type of several constructors, some with fields.
    Tagged(&'a SumDef),
    Tuple,
    Vector(u32),
}

/// The form of the type of C that the type is. Of a data type that isn't there it is that of truth values.
pub fn shape_of<'a>(types: &'a Types, ty: &Ty) -> Shape<'a>
    ensures { seen result ≡ form_of types.now ty.now }
{
    match ty {
        Ty::Bool => Shape::Bool,
        Ty::Char => Shape::Unsigned(8),
        Ty::Int(bits) => Shape::Signed(*bits),
        Ty::Nat(bits) => Shape::Unsigned(*bits),
        Ty::Tuple(_) => Shape::Tuple,
        Ty::Vector(count, _) => Shape::Vector(*count),
        Ty::Named(number) => match types.sums.get(*number as usize) {
            None => Shape::Bool,
            Some(sum) => data_shape(sum),
        },
    }
}

fn data_shape<'a>(sum: &'a SumDef) -> Shape<'a>
    ensures { seen result ≡ form_of_data sum.now }
{
    if some_have_fields(sum.cons.as_slice()) {
        if sum.cons.len() == 1 {
            Shape::Record(sum)
        } else {
            Shape::Tagged(sum)
        }
    } else {
        Shape::Enumeration(sum)
    }
}

fn some_have_fields(cons: &[ConDef]) -> bool
    ensures { result ≡ some_told cons.now }
{
    for con in cons {
        if !con.fields.is_empty() {
            return true;
        }
    }
    false
}

/// Whether the type is a scalar of C.
pub fn is_scalar(types: &Types, ty: &Ty) -> bool
    ensures { result ≡ scalar_told types.now ty.now }
{
    match shape_of(types, ty) {
        Shape::Bool | Shape::Signed(_) | Shape::Unsigned(_) | Shape::Enumeration(_) => true,
        Shape::Record(_) | Shape::Tagged(_) | Shape::Tuple | Shape::Vector(_) => false,
    }
}

/// The width of numbers of that many bits.
pub fn width_of(bits: u8) -> Width
    ensures { result ≡ width_told bits }
{
    if bits <= 8 {
        return Width::W8;
    }
    if bits <= 16 {
        return Width::W16;
    }
    if bits <= 32 {
        return Width::W32;
    }
    Width::W64
}

/// The width of the tags of that many constructors.
pub fn tag_width(count: usize) -> Width
    ensures { result ≡ tag_told count }
{
    if count <= 256 { Width::W8 } else { Width::W16 }
}

/// The type of C of a scalar that isn't one of a data type.
pub fn scalar_width(ty: &Ty) -> CType
    ensures { result ≡ scalar_type ty.now }
{
    match ty {
        Ty::Int(bits) => CType::Signed(width_of(*bits)),
        Ty::Nat(bits) => CType::Unsigned(width_of(*bits)),
        Ty::Char => CType::Unsigned(Width::W8),
        Ty::Bool => CType::Bool,
        Ty::Tuple(_) => CType::Bool,
        Ty::Vector(_, _) => CType::Bool,
        Ty::Named(_) => CType::Bool,
    }
}

/// The word of a scalar type as a constant.
pub fn literal(alloc: Global, ty: &Ty, word: u64) -> Option<Box<CExp>>
    ensures { Gives result (literal_told ty.now word) }
{
    match ty {
        Ty::Int(bits) => signed_literal(alloc, *bits, word),
        Ty::Nat(bits) => unsigned(alloc, width_of(*bits), word),
        Ty::Char => unsigned(alloc, Width::W8, word),
        Ty::Bool => truth(alloc, word != 0),
        Ty::Tuple(_) => truth(alloc, word != 0),
        Ty::Vector(_, _) => truth(alloc, word != 0),
        Ty::Named(_) => truth(alloc, word != 0),
    }
}

fn signed_literal(alloc: Global, bits: u8, word: u64) -> Option<Box<CExp>>
    ensures { Gives result (signed_told bits word) }
{
    if word < 1 << 63 {
        return signed(alloc, width_of(bits), false, word);
    }
    signed(alloc, width_of(bits), true, u64::MAX - word + 1)
}
