//! Functions that read values.
ghost use Rattle.std.specs.Prelude.{◌≡◌, IfOk};
ghost use Rattle.hume_base.specs.declared.types.Ty.{out-Ty};
ghost use Rattle.c_types.specs.Shapes.{Elements, Parts, seen};
ghost use Rattle.c_types.specs.Gathered.{gathered};
ghost use Rattle.c_main.specs.Take.{body, body_in, call, constructor, constructors, data_body, field, fields, given_back};
ghost use Rattle.c_main.specs.Take.{number_body, part, parts, tag_written, take_function, unsigned_body, whole};

use crate::gathered::number_text;
use crate::lines::{filled, string};
use crate::type_names::{field_word, type_text};
use c_forms::{joined, numbered, text};
use c_types::{CTypes, Shape};
use hume_base::{ConDef, Shared, Text, Ty};
use std::alloc::{AllocError, Global};

const FUNCTION: [&[u8]; 4] = [b"static bool take@0(@1 *v, bool inner)", b"{", b"@2}", b""];

/// The function that reads a value of a type, the one of that number among the types.
pub(crate) fn take_function(
    alloc: Global,
    types: &CTypes,
    found: &[Ty],
    number: usize,
    ty: &Ty,
) -> Result<Text, AllocError>
    ensures { IfOk result (λ text. text ≡ take_function (gathered types.now) found.now number ty.now) }
{
    let number = numbered(alloc, b"", number as u64)?;
    let name = type_text(alloc, types, ty)?;
    let body = body(alloc, types, found, ty)?;
    filled(
        alloc,
        &FUNCTION,
        &[number.bytes(), name.bytes(), body.bytes()],
    )
}

const TRUTH: [&[u8]; 3] = [
    b"    (void)inner;",
    b"    *v = takeName(\"true\");",
    b"    return *v || takeName(\"false\");",
];

// The statements that read a value.
#[tactic(auto, unfolding(crate::specs::Take::body))]
fn body(alloc: Global, types: &CTypes, found: &[Ty], ty: &Ty) -> Result<Text, AllocError>
    ensures { IfOk result (λ text. text ≡ body (gathered types.now) found.now ty.now) }
{
    let shape = types.shape(ty);
    match shape {
        Shape::Bool => filled(alloc, &TRUTH, &[]),
        Shape::Signed(bits) => number_body(alloc, types, ty, b"int64_t", b"takeInt", bits),
        Shape::Unsigned(bits) => unsigned_body(alloc, types, ty, bits),
        Shape::Tuple => tuple_body(alloc, types, found, ty),
        Shape::Vector(count) => vector_body(alloc, types, found, ty, count),
        Shape::Enumeration(sum) => data_body(alloc, found, shape, sum.cons.as_slice()),
        Shape::Record(sum) => data_body(alloc, found, shape, sum.cons.as_slice()),
        Shape::Tagged(sum) => data_body(alloc, found, shape, sum.cons.as_slice()),
    }
}

const LETTER: [&[u8]; 2] = [b"    (void)inner;", b"    return takeLetter(v);"];

fn unsigned_body(alloc: Global, types: &CTypes, ty: &Ty, bits: u8) -> Result<Text, AllocError>
    ensures { IfOk result (λ text. text ≡ unsigned_body (gathered types.now) ty.now bits (out-Ty ty.now)) }
{
    if let Ty::Char = ty {
        return filled(alloc, &LETTER, &[]);
    }
    number_body(alloc, types, ty, b"uint64_t", b"takeNat", bits)
}

fn number_body(
    alloc: Global,
    types: &CTypes,
    ty: &Ty,
    wide: &[u8],
    read: &[u8],
    bits: u8,
) -> Result<Text, AllocError>
    ensures { IfOk result (λ text. text ≡ number_body (gathered types.now) ty.now wide.now read.now bits) }
{
    let name = type_text(alloc, types, ty)?;
    whole(alloc, wide, read, bits, name.bytes())
}

const WHOLE: [&[u8]; 7] = [
    b"    @0 number;",
    b"    (void)inner;",
    b"    if (!@1(@2, &number)) {",
    b"        return false;",
    b"    }",
    b"    *v = (@3)number;",
    b"    return true;",
];

fn whole(alloc: Global, wide: &[u8], read: &[u8], bits: u8, name: &[u8]) -> Result<Text, AllocError>
    ensures { IfOk result (λ text. text ≡ whole wide.now read.now bits name.now) }
{
    let wide = text(alloc, wide)?;
    let read = text(alloc, read)?;
    let bits = numbered(alloc, b"", u64::from(bits))?;
    let name = text(alloc, name)?;
    filled(
        alloc,
        &WHOLE,
        &[wide.bytes(), read.bytes(), bits.bytes(), name.bytes()],
    )
}

// The call that reads a part.
#[tactic(auto, unfolding(crate::specs::Take::call))]
fn call(
    alloc: Global,
    found: &[Ty],
    ty: &Ty,
    place: &[u8],
    inner: &[u8],
) -> Result<Text, AllocError>
    ensures { IfOk result (λ text. text ≡ call found.now ty.now place.now inner.now) }
{
    let number = number_text(alloc, found, ty)?;
    joined(
        alloc,
        &[b"take", number.bytes(), b"(&", place, b", ", inner, b")"],
    )
}

const PARTS: [&[u8]; 2] = [
    b"    (void)inner;",
    b"    return takeSign(\"(\")@0 && takeSign(\")\");",
];

fn tuple_body(alloc: Global, types: &CTypes, found: &[Ty], ty: &Ty) -> Result<Text, AllocError>
    ensures { IfOk result (λ text. text ≡ body_in (gathered types.now) found.now ty.now (out-Ty ty.now) Parts) }
{
    match ty {
        Ty::Tuple(tys) => {
            let parts = parts(alloc, found, tys.as_slice())?;
            filled(alloc, &PARTS, &[parts.bytes()])
        }
        Ty::Bool | Ty::Char | Ty::Int(_) | Ty::Nat(_) => text(alloc, b""),
        Ty::Vector(_, _) | Ty::Named(_) => text(alloc, b""),
    }
}

#[tactic(auto, using(crate::proofs::Steps::text_steps))]
fn parts(alloc: Global, found: &[Ty], tys: &[Shared<Ty>]) -> Result<Text, AllocError>
    ensures { IfOk result (λ text. text ≡ parts found.now tys.now) }
{
    let mut text = Vec::new(alloc);
    for (place, ty) in tys.iter().enumerate() {
        let one = part(alloc, found, place, ty)?;
        text.extend_from_slice(one.bytes())?;
    }
    Text::from_bytes(alloc, text.as_slice())
}

fn part(alloc: Global, found: &[Ty], place: usize, ty: &Ty) -> Result<Text, AllocError>
    ensures { IfOk result (λ text. text ≡ part found.now place ty.now) }
{
    let own = numbered(alloc, b"v->f", place as u64)?;
    let read = call(alloc, found, ty, own.bytes(), b"false")?;
    if place == 0 {
        joined(alloc, &[b" && ", read.bytes()])
    } else {
        joined(alloc, &[b" && takeSign(\",\") && ", read.bytes()])
    }
}

const ELEMENTS: [&[u8]; 11] = [
    b"    int i;",
    b"    (void)inner;",
    b"    if (!takeSign(\"<<\")) {",
    b"        return false;",
    b"    }",
    b"    for (i = 0; i < @0; i++) {",
    b"        if ((i > 0 && !takeSign(\",\")) || !@1) {",
    b"            return false;",
    b"        }",
    b"    }",
    b"    return takeSign(\">>\");",
];

fn vector_body(
    alloc: Global,
    types: &CTypes,
    found: &[Ty],
    ty: &Ty,
    count: u32,
) -> Result<Text, AllocError>
    ensures { IfOk result (λ text. text ≡ body_in (gathered types.now) found.now ty.now (out-Ty ty.now) (Elements count)) }
{
    match ty {
        Ty::Vector(_, item) => {
            let count = numbered(alloc, b"", u64::from(count))?;
            let read = call(alloc, found, item, b"v->e[i]", b"false")?;
            filled(alloc, &ELEMENTS, &[count.bytes(), read.bytes()])
        }
        Ty::Bool | Ty::Char | Ty::Int(_) | Ty::Nat(_) => text(alloc, b""),
        Ty::Tuple(_) | Ty::Named(_) => text(alloc, b""),
    }
}

const DATA: [&[u8]; 2] = [
    b"    const bool opened = inner && takeSign(\"(\");",
    b"@0    return false;",
];

fn data_body(alloc: Global, found: &[Ty], shape: Shape, cons: &[ConDef]) -> Result<Text, AllocError>
    ensures { IfOk result (λ text. text ≡ data_body found.now (seen shape.entry) cons.now) }
{
    let those = constructors(alloc, found, shape, cons)?;
    filled(alloc, &DATA, &[those.bytes()])
}

#[tactic(auto, using(crate::proofs::Steps::text_steps))]
fn constructors(
    alloc: Global,
    found: &[Ty],
    shape: Shape,
    cons: &[ConDef],
) -> Result<Text, AllocError>
    ensures { IfOk result (λ text. text ≡ constructors found.now (seen shape.entry) cons.now) }
{
    let mut text = Vec::new(alloc);
    for (place, con) in cons.iter().enumerate() {
        let one = constructor(alloc, found, shape, place, con)?;
        text.extend_from_slice(one.bytes())?;
    }
    Text::from_bytes(alloc, text.as_slice())
}

const CONSTRUCTOR: [&[u8]; 2] = [b"    if (takeName(@0)) {", b"@1@2    }"];

fn constructor(
    alloc: Global,
    found: &[Ty],
    shape: Shape,
    place: usize,
    con: &ConDef,
) -> Result<Text, AllocError>
    ensures { IfOk result (λ text. text ≡ constructor found.now (seen shape.entry) place con.now) }
{
    let name = string(alloc, con.name.bytes())?;
    let tag = tag_written(alloc, shape, place)?;
    let word = field_word(alloc, shape, con.name.bytes())?;
    let given = given_back(alloc, found, word.bytes(), con.fields.as_slice())?;
    filled(
        alloc,
        &CONSTRUCTOR,
        &[name.bytes(), tag.bytes(), given.bytes()],
    )
}

const WHOLE_TAG: [&[u8]; 1] = [b"        *v = @0u;"];

const OWN_TAG: [&[u8]; 1] = [b"        v->tag = @0u;"];

fn tag_written(alloc: Global, shape: Shape, place: usize) -> Result<Text, AllocError>
    ensures { IfOk result (λ text. text ≡ tag_written (seen shape.entry) place) }
{
    let place = numbered(alloc, b"", place as u64)?;
    match shape {
        Shape::Enumeration(_) => filled(alloc, &WHOLE_TAG, &[place.bytes()]),
        Shape::Tagged(_) => filled(alloc, &OWN_TAG, &[place.bytes()]),
        _ => text(alloc, b""),
    }
}

const WITHOUT_FIELDS: [&[u8]; 1] = [b"        return !opened;"];

const WITH_FIELDS: [&[u8]; 1] = [
    b"        return opened == inner@0 && (!opened || takeSign(\")\"));",
];

// What follows the name of a constructor. One with fields stands in parentheses within another one.
fn given_back(
    alloc: Global,
    found: &[Ty],
    word: &[u8],
    tys: &[Shared<Ty>],
) -> Result<Text, AllocError>
    ensures { IfOk result (λ text. text ≡ given_back found.now word.now tys.now) }
{
    if tys.is_empty() {
        return filled(alloc, &WITHOUT_FIELDS, &[]);
    }
    let fields = fields(alloc, found, word, tys)?;
    filled(alloc, &WITH_FIELDS, &[fields.bytes()])
}

#[tactic(auto, using(crate::proofs::Steps::text_steps))]
fn fields(alloc: Global, found: &[Ty], word: &[u8], tys: &[Shared<Ty>]) -> Result<Text, AllocError>
    ensures { IfOk result (λ text. text ≡ fields found.now word.now tys.now) }
{
    let mut text = Vec::new(alloc);
    for (place, ty) in tys.iter().enumerate() {
        let one = field(alloc, found, word, place, ty)?;
        text.extend_from_slice(one.bytes())?;
    }
    Text::from_bytes(alloc, text.as_slice())
}

fn field(
    alloc: Global,
    found: &[Ty],
    word: &[u8],
    place: usize,
    ty: &Ty,
) -> Result<Text, AllocError>
    ensures { IfOk result (λ text. text ≡ field found.now word.now place ty.now) }
{
    let own = numbered(alloc, word, place as u64)?;
    let read = call(alloc, found, ty, own.bytes(), b"true")?;
    joined(alloc, &[b" && ", read.bytes()])
}
