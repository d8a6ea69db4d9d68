//! Expressions from their parts. Where a part is lacking, as memory ran out, so is the whole.
ghost use Rattle.std.specs.Prelude.{◌≡◌, ℕ, List};
ghost use Rattle.c_tree.specs.declared.tree.COp.TheVariants as op;
ghost use Rattle.c_tree.specs.declared.tree.CExp.TheVariants as exp;
ghost use Rattle.c_tree.specs.declared.tree.Width.TheVariants.{W8};
ghost use Rattle.c_forms.specs.Expressions.{choice, read_of};
ghost use Rattle.c_forms.specs.Gives.{Gives};

use crate::texts::text;
use c_tree::{CExp, COp, CType, Width};
use hume_base::{Box, List, Text};
use std::alloc::Global;

pub fn name(alloc: Global, bytes: &[u8]) -> Option<Box<CExp>>
    ensures { Gives result (exp.Name bytes.now) }
{
    named(alloc, text(alloc, bytes).ok())
}

/// The object of that name.
pub fn named(alloc: Global, name: Option<Text>) -> Option<Box<CExp>>
    ensures { (n : List ℕ) → Gives name n → Gives result (exp.Name n) }
{
    match name {
        Some(name) => Box::new(alloc, CExp::Name(name)).ok(),
        None => None,
    }
}

pub fn truth(alloc: Global, holds: bool) -> Option<Box<CExp>>
    ensures { Gives result (exp.Truth holds) }
{
    Box::new(alloc, CExp::Truth(holds)).ok()
}

pub fn unsigned(alloc: Global, width: Width, amount: u64) -> Option<Box<CExp>>
    ensures { Gives result (exp.Unsigned width amount) }
{
    Box::new(alloc, CExp::Unsigned(width, amount)).ok()
}

/// A number of a signed type: whether it is negative, and its amount.
pub fn signed(alloc: Global, width: Width, negative: bool, amount: u64) -> Option<Box<CExp>>
    ensures { Gives result (exp.Signed width negative amount) }
{
    Box::new(alloc, CExp::Signed(width, negative, amount)).ok()
}

/// A number of at most 8 bits.
pub fn number(alloc: Global, amount: u64) -> Option<Box<CExp>>
    ensures { Gives result (exp.Unsigned W8 amount) }
{
    unsigned(alloc, Width::W8, amount)
}

pub fn member(alloc: Global, object: Option<Box<CExp>>, name: &[u8]) -> Option<Box<CExp>>
    ensures { (o : CExp) → Gives object o → Gives result (exp.Member o name.now) }
{
    member_named(alloc, object, text(alloc, name).ok())
}

/// The member of that name.
pub fn member_named(
    alloc: Global,
    object: Option<Box<CExp>>,
    name: Option<Text>,
) -> Option<Box<CExp>>
    ensures { (o : CExp) (n : List ℕ) → Gives object o → Gives name n → Gives result (exp.Member o n) }
{
    match (object, name) {
        (Some(object), Some(name)) => Box::new(alloc, CExp::Member(object, name)).ok(),
        _ => None,
    }
}

pub fn element(
    alloc: Global,
    array: Option<Box<CExp>>,
    index: Option<Box<CExp>>,
) -> Option<Box<CExp>>
    ensures { (a i : CExp) → Gives array a → Gives index i → Gives result (exp.Element a i) }
{
    match (array, index) {
        (Some(array), Some(index)) => Box::new(alloc, CExp::Element(array, index)).ok(),
        _ => None,
    }
}

pub fn cast(alloc: Global, ty: CType, part: Option<Box<CExp>>) -> Option<Box<CExp>>
    ensures { (p : CExp) → Gives part p → Gives result (exp.Cast ty p) }
{
    match part {
        Some(part) => Box::new(alloc, CExp::Cast(ty, part)).ok(),
        None => None,
    }
}

pub fn negate(alloc: Global, part: Option<Box<CExp>>) -> Option<Box<CExp>>
    ensures { (p : CExp) → Gives part p → Gives result (exp.Negate p) }
{
    match part {
        Some(part) => Box::new(alloc, CExp::Negate(part)).ok(),
        None => None,
    }
}

pub fn not(alloc: Global, part: Option<Box<CExp>>) -> Option<Box<CExp>>
    ensures { (p : CExp) → Gives part p → Gives result (exp.Not p) }
{
    match part {
        Some(part) => Box::new(alloc, CExp::Not(part)).ok(),
        None => None,
    }
}

pub fn address(alloc: Global, part: Option<Box<CExp>>) -> Option<Box<CExp>>
    ensures { (p : CExp) → Gives part p → Gives result (exp.Address p) }
{
    match part {
        Some(part) => Box::new(alloc, CExp::Address(part)).ok(),
        None => None,
    }
}

/// How an object is passed to a parameter that is read through a pointer: what a pointer points to by that pointer.
pub fn read_of(alloc: Global, place: Option<Box<CExp>>) -> Option<Box<CExp>>
    ensures { (p : CExp) → Gives place p → Gives result (read_of p) }
{
    match place {
        Some(place) => read_of_made(alloc, place),
        None => None,
    }
}

#[tactic(auto, using(crate::proofs::OpenedForms::opened_forms))]
fn read_of_made(alloc: Global, place: Box<CExp>) -> Option<Box<CExp>>
    ensures { Gives result (read_of place) }
{
    match place.get() {
        CExp::Pointed(pointer) => name(alloc, pointer.bytes()),
        _ => address(alloc, Some(place)),
    }
}

pub fn binary(
    alloc: Global,
    operator: COp,
    left: Option<Box<CExp>>,
    right: Option<Box<CExp>>,
) -> Option<Box<CExp>>
    ensures { (l r : CExp) → Gives left l → Gives right r → Gives result (exp.Binary operator l r) }
{
    match (left, right) {
        (Some(left), Some(right)) => Box::new(alloc, CExp::Binary(operator, left, right)).ok(),
        _ => None,
    }
}

pub fn equal(alloc: Global, left: Option<Box<CExp>>, right: Option<Box<CExp>>) -> Option<Box<CExp>>
    ensures { (l r : CExp) → Gives left l → Gives right r → Gives result (exp.Binary op.Equal l r) }
{
    binary(alloc, COp::Equal, left, right)
}

/// `test ? (ty)first : (ty)second`, as one of the type.
pub fn choice(
    alloc: Global,
    ty: CType,
    inner: (CType, CType),
    test: Option<Box<CExp>>,
    first: Option<Box<CExp>>,
    second: Option<Box<CExp>>,
) -> Option<Box<CExp>>
    ensures { (t f s : CExp) → Gives test t → Gives first f → Gives second s → Gives result (choice ty inner t f s) }
{
    let (first_ty, second_ty) = inner;
    let first = cast(alloc, first_ty, first);
    let second = cast(alloc, second_ty, second);
    cast(alloc, ty, chosen(alloc, test, first, second))
}

/// `test ? first : second`.
pub(crate) fn chosen(
    alloc: Global,
    test: Option<Box<CExp>>,
    first: Option<Box<CExp>>,
    second: Option<Box<CExp>>,
) -> Option<Box<CExp>>
    ensures { (t f s : CExp) → Gives test t → Gives first f → Gives second s → Gives result (exp.Choice t f s) }
{
    match (test, first, second) {
        (Some(test), Some(first), Some(second)) => {
            Box::new(alloc, CExp::Choice(test, first, second)).ok()
        }
        _ => None,
    }
}

pub fn call(alloc: Global, name: &[u8], arguments: Option<List<CExp>>) -> Option<Box<CExp>>
    ensures { (a : List CExp) → Gives arguments a → Gives result (exp.Call name.now a) }
{
    called(alloc, text(alloc, name).ok(), arguments)
}

/// A call of the function of that name.
pub fn called(alloc: Global, name: Option<Text>, arguments: Option<List<CExp>>) -> Option<Box<CExp>>
    ensures { (n : List ℕ) (a : List CExp) → Gives name n → Gives arguments a → Gives result (exp.Call n a) }
{
    match (name, arguments) {
        (Some(name), Some(arguments)) => Box::new(alloc, CExp::Call(name, arguments)).ok(),
        _ => None,
    }
}

pub fn all(alloc: Global, tests: Option<List<CExp>>) -> Option<Box<CExp>>
    ensures { (t : List CExp) → Gives tests t → Gives result (exp.All t) }
{
    match tests {
        Some(tests) => Box::new(alloc, CExp::All(tests)).ok(),
        None => None,
    }
}

pub fn any(alloc: Global, tests: Option<List<CExp>>) -> Option<Box<CExp>>
    ensures { (t : List CExp) → Gives tests t → Gives result (exp.Any t) }
{
    match tests {
        Some(tests) => Box::new(alloc, CExp::Any(tests)).ok(),
        None => None,
    }
}
