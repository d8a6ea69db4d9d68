//! Tests of objects.
ghost use Rattle.std.specs.Prelude.{◌≡◌, ◌∷◌, [], ◌<◌, ◌≤◌, ◌^◌, Some, IfOk, IsTrue};
ghost use Rattle.hume_base.specs.declared.types.Ty.{out-Ty};
ghost use Rattle.c_tree.specs.declared.tree.CExp.TheVariants as exp;
ghost use Rattle.c_tree.specs.Words.{bits};
ghost use Rattle.c_forms.specs.Expressions.{read_of as read_told};
ghost use Rattle.c_forms.specs.Gives.{Gives};
ghost use Rattle.c_valid.specs.Tests.{call_test, compared, function_of, is_narrow as narrow_told, letter_test, number_test};
ghost use Rattle.c_valid.specs.inner.Known.{known};
ghost use Rattle.c_valid.specs.Tests.{signed_range, signed_test, tag_test, test_of, unsigned_test};

use crate::tested::Tested;
use c_forms::{
    all, any, before, binary, called, copy_exp, of_one, of_two, read_of, signed, unsigned,
};
use c_tree::{CExp, COp, Width};
use c_types::{Shape, tag_width, width_of};
use hume_base::{Box, Text, Ty};
use std::alloc::{AllocError, Global};

/// The test whether an object holds a value of the type; none where it always does.
#[tactic(auto, unfolding(crate::specs::Tests::test_of))]
pub(crate) fn test_of(
    alloc: Global,
    tested: &Tested,
    ty: &Ty,
    object: &CExp,
) -> Result<Option<Box<CExp>>, AllocError>
    ensures { IfOk result (λ test. test ≡ test_of (known tested.now) ty.now object.now) }
{
    match tested.types.shape(ty) {
        Shape::Bool => Ok(None),
        Shape::Signed(bits) => signed_test(alloc, bits, object),
        Shape::Unsigned(bits) => unsigned_test(alloc, ty, bits, object),
        Shape::Enumeration(sum) => tag_test(alloc, sum.cons.len(), object),
        Shape::Record(_) | Shape::Tagged(_) => call_test(alloc, tested, ty, object),
        Shape::Tuple | Shape::Vector(_) => call_test(alloc, tested, ty, object),
    }
}

// There is a test, if memory was enough.
fn some(test: Option<Box<CExp>>) -> Result<Option<Box<CExp>>, AllocError>
    ensures { (t : CExp) → Gives test t → IfOk result (λ it. it ≡ Some t) }
{
    match test {
        Some(test) => Ok(Some(test)),
        None => Err(AllocError),
    }
}

// How many bits the numbers of the width have.
fn bits_of(width: Width) -> u8
    ensures all { result ≡ bits width }
    ensures few { result ≤ 64 }
{
    match width {
        Width::W8 => 8,
        Width::W16 => 16,
        Width::W32 => 32,
        Width::W64 => 64,
    }
}

fn is_narrow(bits: u8) -> bool
    ensures told { result ≡ narrow_told bits }
    ensures few { IsTrue result → bits < 64 }
{
    bits < bits_of(width_of(bits))
}

fn signed_test(alloc: Global, bits: u8, object: &CExp) -> Result<Option<Box<CExp>>, AllocError>
    ensures { IfOk result (λ test. test ≡ signed_test bits object.now) }
{
    if bits == 0 || !is_narrow(bits) {
        return Ok(None);
    }
    some(signed_range(alloc, bits, object))
}

// From the least number of so many bits, one of which is the sign, to the greatest.
fn signed_range(alloc: Global, bits: u8, object: &CExp) -> Option<Box<CExp>>
    requires { (1 ≤ bits) × (bits ≤ 64) }
    ensures { Gives result (signed_range bits object.now) }
{
    let width = width_of(bits);
    let half = power(bits - 1);
    let least = signed(alloc, width, true, half);
    let greatest = signed(alloc, width, false, half - 1);
    let from = bounded(alloc, object, COp::GreaterEqual, least);
    let up_to = bounded(alloc, object, COp::LessEqual, greatest);
    all(alloc, of_two(alloc, from, up_to))
}

fn bounded(
    alloc: Global,
    object: &CExp,
    operator: COp,
    bound: Option<Box<CExp>>,
) -> Option<Box<CExp>>
    ensures { (b : CExp) → Gives bound b → Gives result (exp.Binary operator object.now b) }
{
    binary(alloc, operator, copy_exp(alloc, object), bound)
}

// How many numbers of so many bits there are.
fn power(bits: u8) -> u64
    requires { bits < 64 }
    ensures all { result ≡ 2 ^ bits }
    ensures some { 1 ≤ result }
{
    1u64 << bits
}

fn unsigned_test(
    alloc: Global,
    ty: &Ty,
    bits: u8,
    object: &CExp,
) -> Result<Option<Box<CExp>>, AllocError>
    ensures { IfOk result (λ test. test ≡ unsigned_test (out-Ty ty.now) bits object.now) }
{
    match ty {
        Ty::Char => some(letter_test(alloc, object)),
        Ty::Bool | Ty::Int(_) | Ty::Nat(_) => number_test(alloc, bits, object),
        Ty::Tuple(_) | Ty::Vector(_, _) | Ty::Named(_) => number_test(alloc, bits, object),
    }
}

fn number_test(alloc: Global, bits: u8, object: &CExp) -> Result<Option<Box<CExp>>, AllocError>
    ensures { IfOk result (λ test. test ≡ number_test bits object.now) }
{
    if !is_narrow(bits) {
        return Ok(None);
    }
    let greatest = unsigned(alloc, width_of(bits), power(bits) - 1);
    some(bounded(alloc, object, COp::LessEqual, greatest))
}

// A letter is a printed sign of ASCII, a tab or a newline.
fn letter_test(alloc: Global, object: &CExp) -> Option<Box<CExp>>
    ensures { Gives result (letter_test object.now) }
{
    let from = compared(alloc, object, COp::GreaterEqual, 32);
    let up_to = compared(alloc, object, COp::LessEqual, 126);
    let printed = all(alloc, of_two(alloc, from, up_to));
    let tab = compared(alloc, object, COp::Equal, 9);
    let newline = compared(alloc, object, COp::Equal, 10);
    any(alloc, before(alloc, printed, of_two(alloc, tab, newline)))
}

fn compared(alloc: Global, object: &CExp, operator: COp, code: u64) -> Option<Box<CExp>>
    ensures { Gives result (compared object.now operator code) }
{
    bounded(alloc, object, operator, unsigned(alloc, Width::W8, code))
}

/// Whether the tag is one of so many constructors; none where each tag is.
pub(crate) fn tag_test(
    alloc: Global,
    count: usize,
    object: &CExp,
) -> Result<Option<Box<CExp>>, AllocError>
    ensures { IfOk result (λ test. test ≡ tag_test count object.now) }
{
    if count == 256 || count >= 65_536 {
        return Ok(None);
    }
    let count_of = unsigned(alloc, tag_width(count), count as u64);
    some(bounded(alloc, object, COp::Less, count_of))
}

// The call of the type's function, if it has one.
fn call_test(
    alloc: Global,
    tested: &Tested,
    ty: &Ty,
    object: &CExp,
) -> Result<Option<Box<CExp>>, AllocError>
    ensures { IfOk result (λ test. test ≡ call_test (function_of (known tested.now) ty.now) object.now) }
{
    match tested.function_of(alloc, ty)? {
        None => Ok(None),
        Some(name) => some(call_of(alloc, name, object)),
    }
}

fn call_of(alloc: Global, name: Text, object: &CExp) -> Option<Box<CExp>>
    ensures { Gives result (exp.Call name (read_told object.now ∷ [])) }
{
    let place = read_of(alloc, copy_exp(alloc, object));
    called(alloc, Some(name), of_one(alloc, place))
}
