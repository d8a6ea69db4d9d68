//! Functions that write values.
ghost use Rattle.std.specs.Prelude.{◌≡◌, IfOk};
ghost use Rattle.hume_base.specs.declared.types.Ty.{out-Ty};
ghost use Rattle.c_types.specs.Shapes.{Elements, Parts, seen};
ghost use Rattle.c_types.specs.Gathered.{gathered};
ghost use Rattle.c_main.specs.Show.{body, body_in, call, constructor, constructors, data_body, field, fields, named};
ghost use Rattle.c_main.specs.Show.{part, parts, show_function, tested, unsigned_body};

use crate::gathered::number_text;
use crate::lines::{filled, string};
use crate::type_names::{field_word, type_text};
use c_forms::{joined, numbered, text};
use c_types::{CTypes, Shape};
use hume_base::{ConDef, Shared, Text, Ty};
use std::alloc::{AllocError, Global};

const FUNCTION: [&[u8]; 4] = [
    b"static void show@0(FILE *file, const @1 *v, bool inner)",
    b"{",
    b"@2}",
    b"",
];

/// The function that writes a value of a type, the one of that number among the types.
pub(crate) fn show_function(
    alloc: Global,
    types: &CTypes,
    found: &[Ty],
    number: usize,
    ty: &Ty,
) -> Result<Text, AllocError>
    ensures { IfOk result (λ text. text ≡ show_function (gathered types.now) found.now number ty.now) }
{
    let number = numbered(alloc, b"", number as u64)?;
    let name = type_text(alloc, types, ty)?;
    let body = body(alloc, types, found, ty)?;
    filled(
        alloc,
        &FUNCTION,
        &[number.bytes(), name.bytes(), body.bytes()],
    )
}

const TRUTH: [&[u8]; 2] = [
    b"    (void)inner;",
    b"    fputs(*v ? \"true\" : \"false\", file);",
];

const SIGNED: [&[u8]; 2] = [
    b"    (void)inner;",
    b"    fprintf(file, \"%lld\", (long long)*v);",
];

// The statements that write a value.
#[tactic(auto, unfolding(crate::specs::Show::body))]
fn body(alloc: Global, types: &CTypes, found: &[Ty], ty: &Ty) -> Result<Text, AllocError>
    ensures { IfOk result (λ text. text ≡ body (gathered types.now).types found.now ty.now) }
{
    let shape = types.shape(ty);
    match shape {
        Shape::Bool => filled(alloc, &TRUTH, &[]),
        Shape::Signed(_) => filled(alloc, &SIGNED, &[]),
        Shape::Unsigned(_) => unsigned_body(alloc, ty),
        Shape::Tuple => tuple_body(alloc, found, ty),
        Shape::Vector(count) => vector_body(alloc, found, ty, count),
        Shape::Enumeration(sum) => data_body(alloc, found, shape, sum.cons.as_slice()),
        Shape::Record(sum) => data_body(alloc, found, shape, sum.cons.as_slice()),
        Shape::Tagged(sum) => data_body(alloc, found, shape, sum.cons.as_slice()),
    }
}

const UNSIGNED: [&[u8]; 2] = [
    b"    (void)inner;",
    b"    fprintf(file, \"%llu\", (unsigned long long)*v);",
];

const LETTER: [&[u8]; 2] = [b"    (void)inner;", b"    showLetter(file, *v);"];

fn unsigned_body(alloc: Global, ty: &Ty) -> Result<Text, AllocError>
    ensures { IfOk result (λ text. text ≡ unsigned_body (out-Ty ty.now)) }
{
    if let Ty::Char = ty {
        return filled(alloc, &LETTER, &[]);
    }
    filled(alloc, &UNSIGNED, &[])
}

// The call that writes a part.
#[tactic(auto, unfolding(crate::specs::Show::call))]
fn call(
    alloc: Global,
    found: &[Ty],
    ty: &Ty,
    place: &[u8],
    inner: &[u8],
) -> Result<Text, AllocError>
    ensures { IfOk result (λ text. text ≡ call found.now ty.now place.now inner.now) }
{
    let number = number_text(alloc, found, ty)?;
    joined(
        alloc,
        &[
            b"show",
            number.bytes(),
            b"(file, &",
            place,
            b", ",
            inner,
            b");",
        ],
    )
}

const PARTS: [&[u8]; 3] = [
    b"    (void)inner;",
    b"    fputs(\"(\", file);",
    b"@0    fputs(\")\", file);",
];

fn tuple_body(alloc: Global, found: &[Ty], ty: &Ty) -> Result<Text, AllocError>
    ensures { IfOk result (λ text. text ≡ body_in found.now (out-Ty ty.now) Parts) }
{
    match ty {
        Ty::Tuple(tys) => {
            let parts = parts(alloc, found, tys.as_slice())?;
            filled(alloc, &PARTS, &[parts.bytes()])
        }
        Ty::Bool | Ty::Char | Ty::Int(_) | Ty::Nat(_) => text(alloc, b""),
        Ty::Vector(_, _) | Ty::Named(_) => text(alloc, b""),
    }
}

#[tactic(auto, using(crate::proofs::Steps::text_steps))]
fn parts(alloc: Global, found: &[Ty], tys: &[Shared<Ty>]) -> Result<Text, AllocError>
    ensures { IfOk result (λ text. text ≡ parts found.now tys.now) }
{
    let mut text = Vec::new(alloc);
    for (place, ty) in tys.iter().enumerate() {
        let one = part(alloc, found, place, ty)?;
        text.extend_from_slice(one.bytes())?;
    }
    Text::from_bytes(alloc, text.as_slice())
}

const FIRST_PART: [&[u8]; 1] = [b"    @0"];

const NEXT_PART: [&[u8]; 2] = [b"    fputs(\", \", file);", b"    @0"];

fn part(alloc: Global, found: &[Ty], place: usize, ty: &Ty) -> Result<Text, AllocError>
    ensures { IfOk result (λ text. text ≡ part found.now place ty.now) }
{
    let own = numbered(alloc, b"v->f", place as u64)?;
    let write = call(alloc, found, ty, own.bytes(), b"false")?;
    if place == 0 {
        filled(alloc, &FIRST_PART, &[write.bytes()])
    } else {
        filled(alloc, &NEXT_PART, &[write.bytes()])
    }
}

const ELEMENTS: [&[u8]; 7] = [
    b"    int i;",
    b"    (void)inner;",
    b"    for (i = 0; i < @0; i++) {",
    b"        fputs(i > 0 ? \", \" : \"<<\", file);",
    b"        @1",
    b"    }",
    b"    fputs(\">>\", file);",
];

fn vector_body(alloc: Global, found: &[Ty], ty: &Ty, count: u32) -> Result<Text, AllocError>
    ensures { IfOk result (λ text. text ≡ body_in found.now (out-Ty ty.now) (Elements count)) }
{
    match ty {
        Ty::Vector(_, item) => {
            let count = numbered(alloc, b"", u64::from(count))?;
            let write = call(alloc, found, item, b"v->e[i]", b"false")?;
            filled(alloc, &ELEMENTS, &[count.bytes(), write.bytes()])
        }
        Ty::Bool | Ty::Char | Ty::Int(_) | Ty::Nat(_) => text(alloc, b""),
        Ty::Tuple(_) | Ty::Named(_) => text(alloc, b""),
    }
}

const DATA: [&[u8]; 1] = [b"    (void)inner;"];

fn data_body(alloc: Global, found: &[Ty], shape: Shape, cons: &[ConDef]) -> Result<Text, AllocError>
    ensures { IfOk result (λ text. text ≡ data_body found.now (seen shape.entry) cons.now) }
{
    let first = filled(alloc, &DATA, &[])?;
    let those = constructors(alloc, found, shape, cons)?;
    joined(alloc, &[first.bytes(), those.bytes()])
}

#[tactic(auto, using(crate::proofs::Steps::text_steps))]
fn constructors(
    alloc: Global,
    found: &[Ty],
    shape: Shape,
    cons: &[ConDef],
) -> Result<Text, AllocError>
    ensures { IfOk result (λ text. text ≡ constructors found.now (seen shape.entry) cons.now) }
{
    let mut text = Vec::new(alloc);
    for (place, con) in cons.iter().enumerate() {
        let one = constructor(alloc, found, shape, place, con)?;
        text.extend_from_slice(one.bytes())?;
    }
    Text::from_bytes(alloc, text.as_slice())
}

const CONSTRUCTOR: [&[u8]; 2] = [b"    @0{", b"@1    }"];

fn constructor(
    alloc: Global,
    found: &[Ty],
    shape: Shape,
    place: usize,
    con: &ConDef,
) -> Result<Text, AllocError>
    ensures { IfOk result (λ text. text ≡ constructor found.now (seen shape.entry) place con.now) }
{
    let test = tested(alloc, shape, place)?;
    let word = field_word(alloc, shape, con.name.bytes())?;
    let fields = fields(alloc, found, word.bytes(), con.fields.as_slice())?;
    let name = named(
        alloc,
        con.name.bytes(),
        fields.bytes(),
        con.fields.is_empty(),
    )?;
    filled(alloc, &CONSTRUCTOR, &[test.bytes(), name.bytes()])
}

fn tested(alloc: Global, shape: Shape, place: usize) -> Result<Text, AllocError>
    ensures { IfOk result (λ text. text ≡ tested (seen shape.entry) place) }
{
    let place = numbered(alloc, b"", place as u64)?;
    match shape {
        Shape::Enumeration(_) => joined(alloc, &[b"if (*v == ", place.bytes(), b"u) "]),
        Shape::Tagged(_) => joined(alloc, &[b"if (v->tag == ", place.bytes(), b"u) "]),
        _ => text(alloc, b""),
    }
}

const WITHOUT_FIELDS: [&[u8]; 1] = [b"        fputs(@0, file);"];

const WITH_FIELDS: [&[u8]; 3] = [
    b"        fputs(inner ? \"(\" : \"\", file);",
    b"        fputs(@0, file);",
    b"@1        fputs(inner ? \")\" : \"\", file);",
];

// The name of a constructor with its fields. One with fields stands in parentheses within another one.
fn named(alloc: Global, name: &[u8], fields: &[u8], is_alone: bool) -> Result<Text, AllocError>
    ensures { IfOk result (λ text. text ≡ named name.now fields.now is_alone) }
{
    let name = string(alloc, name)?;
    if is_alone {
        filled(alloc, &WITHOUT_FIELDS, &[name.bytes()])
    } else {
        filled(alloc, &WITH_FIELDS, &[name.bytes(), fields])
    }
}

const FIELD: [&[u8]; 2] = [b"        fputs(\" \", file);", b"        @0"];

#[tactic(auto, using(crate::proofs::Steps::text_steps))]
fn fields(alloc: Global, found: &[Ty], word: &[u8], tys: &[Shared<Ty>]) -> Result<Text, AllocError>
    ensures { IfOk result (λ text. text ≡ fields found.now word.now tys.now) }
{
    let mut text = Vec::new(alloc);
    for (place, ty) in tys.iter().enumerate() {
        let one = field(alloc, found, word, place, ty)?;
        text.extend_from_slice(one.bytes())?;
    }
    Text::from_bytes(alloc, text.as_slice())
}

fn field(
    alloc: Global,
    found: &[Ty],
    word: &[u8],
    place: usize,
    ty: &Ty,
) -> Result<Text, AllocError>
    ensures { IfOk result (λ text. text ≡ field found.now word.now place ty.now) }
{
    let own = numbered(alloc, word, place as u64)?;
    let write = call(alloc, found, ty, own.bytes(), b"true")?;
    filled(alloc, &FIELD, &[write.bytes()])
}
