//! Conversions between numbers.
ghost use Rattle.std.specs.Prelude.{◌≡◌, ◌==◌, [], ◌∷◌};
ghost use Rattle.c_tree.specs.declared.tree.CType.TheVariants as type;
ghost use Rattle.c_tree.specs.declared.tree.CExp.TheVariants as exp;
ghost use Rattle.c_tree.specs.Words.{bits};
ghost use Rattle.c_forms.specs.Gives.{Gives};
ghost use Rattle.c_arithmetic.specs.declared.functions.Helper.TheVariants as helper;
ghost use Rattle.c_arithmetic.specs.Widths.{is_within, numbers_of, work};
ghost use Rattle.c_arithmetic.specs.Bodies.{helper_name};
ghost use Rattle.c_arithmetic.specs.Operations.{conversion, converted, same_c_type, same_sign};

use crate::functions::{Helper, Numbers, helper_name};
use c_forms::{called, cast, of_one};
use c_names::Names;
use c_tree::{CExp, CType, Width};
use c_types::width_of;
use hume_base::{Box, Ty};
use std::alloc::Global;

/// A number of the first type as one of the second.
pub fn conversion(
    alloc: Global,
    names: &Names,
    from: &Ty,
    to: &Ty,
    part: Option<Box<CExp>>,
) -> Option<Box<CExp>>
    ensures { (p : CExp) → Gives part p → Gives result (conversion names.now from.now to.now p) }
{
    match (numbers_of(from), numbers_of(to)) {
        (Some(from), Some(to)) => converted(alloc, names, from, to, part),
        _ => part,
    }
}

fn converted(
    alloc: Global,
    names: &Names,
    from: Numbers,
    to: Numbers,
    part: Option<Box<CExp>>,
) -> Option<Box<CExp>>
    ensures { (p : CExp) → Gives part p → Gives result (converted names.now from to p) }
{
    if !is_within(from, to) {
        return brought_to(alloc, names, to, part);
    }
    if same_c_type(from, to) {
        return part;
    }
    cast(alloc, to.c_type(), part)
}

// A function brings a number to the bits of the type.
fn brought_to(
    alloc: Global,
    names: &Names,
    to: Numbers,
    part: Option<Box<CExp>>,
) -> Option<Box<CExp>>
    ensures { (p : CExp) → Gives part p → Gives result (exp.Call (helper_name names.now helper.To to) (exp.Cast (type.Unsigned (work to)) p ∷ [])) }
{
    let plain = cast(alloc, CType::Unsigned(to.work()), part);
    let name = helper_name(alloc, names, Helper::To, to);
    called(alloc, name, of_one(alloc, plain))
}

pub(crate) fn numbers_of(ty: &Ty) -> Option<Numbers>
    ensures { result ≡ numbers_of ty.now }
{
    match ty {
        Ty::Int(bits) => Some(Numbers {
            signed: true,
            bits: *bits,
        }),
        Ty::Nat(bits) => Some(Numbers {
            signed: false,
            bits: *bits,
        }),
        Ty::Char => Some(Numbers {
            signed: false,
            bits: 8,
        }),
        _ => None,
    }
}

// Whether each number of the one is one of the other.
fn is_within(from: Numbers, to: Numbers) -> bool
    ensures { result ≡ is_within from to }
{
    if from.signed {
        return to.signed && from.bits <= to.bits;
    }
    if to.signed {
        return from.bits < to.bits;
    }
    from.bits <= to.bits
}

fn same_c_type(from: Numbers, to: Numbers) -> bool
    ensures { result ≡ same_c_type from to }
{
    same_sign(from, to) && same_width(width_of(from.bits), width_of(to.bits))
}

fn same_sign(from: Numbers, to: Numbers) -> bool
    ensures { result ≡ same_sign from to }
{
    if from.signed { to.signed } else { !to.signed }
}

fn same_width(left: Width, right: Width) -> bool
    ensures { result ≡ (bits left == bits right) }
{
    match (left, right) {
        (Width::W8, Width::W8) => true,
        (Width::W16, Width::W16) => true,
        (Width::W32, Width::W32) => true,
        (Width::W64, Width::W64) => true,
        _ => false,
    }
}
