//! Types and values as a source spells them.
#![tactic(auto, using(look_sources::proofs::Growing::growing))]

ghost use Rattle.look_sources.specs.Pages.{Grows};

use hume_base::{ConDef, Shared, SumDef, Ty, Types, Value, int_of_word};
use look_sources::Page;

/// Puts the type.
#[cycle(put_type)]
pub fn put_type(page: &mut Page, types: &Types, ty: &Ty)
    ensures { Grows page.old page.new }
{
    match ty {
        Ty::Bool => page.put(b"bool"),
        Ty::Char => page.put(b"char"),
        Ty::Int(bits) => {
            page.put(b"int ");
            page.number(u64::from(*bits));
        }
        Ty::Nat(bits) => {
            page.put(b"nat ");
            page.number(u64::from(*bits));
        }
        Ty::Tuple(parts) => put_types(page, types, parts.as_slice()),
        Ty::Vector(count, item) => {
            page.put(b"vector ");
            page.number(u64::from(*count));
            page.put(b" of ");
            put_type(page, types, item);
        }
        Ty::Named(number) => {
            if let Some(sum) = types.sums.get(*number as usize) {
                page.put(sum.name.bytes());
            }
        }
    }
}

#[cycle(put_type)]
fn put_types(page: &mut Page, types: &Types, parts: &[Shared<Ty>])
    ensures { Grows page.old page.new }
{
    page.put(b"(");
    for i in 0..parts.len() {
        page.put(if i > 0 { b", ".as_slice() } else { b"" });
        put_type(page, types, &parts[i]);
    }
    page.put(b")");
}

/// Puts the value of the type.
#[cycle(put_value)]
pub(crate) fn put_value(page: &mut Page, types: &Types, ty: &Ty, value: &Value)
    ensures { Grows page.old page.new }
{
    match value {
        Value::Word(word) => put_word(page, ty, *word),
        Value::Tuple(parts) => {
            page.put(b"(");
            put_values(page, types, tuple_types(ty), parts.as_slice());
            page.put(b")");
        }
        Value::Vector(items) => {
            page.put(b"<<");
            put_items(page, types, item_type(ty), items.as_slice());
            page.put(b">>");
        }
        Value::Con(place, fields) => {
            if let Some(con) = constructor_of(types, ty, *place) {
                page.put(con.name.bytes());
                put_fields(page, types, con.fields.as_slice(), fields.as_slice());
            }
        }
    }
}

#[cycle(put_value)]
fn put_values(page: &mut Page, types: &Types, tys: &[Shared<Ty>], values: &[Value])
    ensures { Grows page.old page.new }
{
    for i in 0..tys.len().min(values.len()) {
        page.put(if i > 0 { b", ".as_slice() } else { b"" });
        put_value(page, types, &tys[i], &values[i]);
    }
}

#[cycle(put_value)]
fn put_items(page: &mut Page, types: &Types, ty: &Ty, values: &[Value])
    ensures { Grows page.old page.new }
{
    for i in 0..values.len() {
        page.put(if i > 0 { b", ".as_slice() } else { b"" });
        put_value(page, types, ty, &values[i]);
    }
}

#[cycle(put_value)]
fn put_fields(page: &mut Page, types: &Types, tys: &[Shared<Ty>], values: &[Value])
    ensures { Grows page.old page.new }
{
    for i in 0..tys.len().min(values.len()) {
        let nested = has_fields(&values[i]);
        page.put(if nested { b" (".as_slice() } else { b" " });
        put_value(page, types, &tys[i], &values[i]);
        page.put(if nested { b")".as_slice() } else { b"" });
    }
}

fn has_fields(value: &Value) -> bool {
    match value {
        Value::Con(_, fields) => !fields.is_empty(),
        _ => false,
    }
}

/// Puts the word of the type.
pub(crate) fn put_word(page: &mut Page, ty: &Ty, word: u64)
    ensures { Grows page.old page.new }
{
    match ty {
        Ty::Bool => page.put(if word == 0 { b"false" } else { b"true" }),
        Ty::Char => put_letter(page, (word % 256) as u8),
        Ty::Int(_) => put_int(page, int_of_word(word)),
        _ => page.number(word),
    }
}

fn put_int(page: &mut Page, number: i64)
    ensures { Grows page.old page.new }
{
    page.put(if number < 0 { b"-".as_slice() } else { b"" });
    page.number(number.unsigned_abs());
}

fn put_letter(page: &mut Page, byte: u8)
    ensures { Grows page.old page.new }
{
    page.put(b"'");
    put_inner(page, byte);
    page.put(b"'");
}

// Puts what stands between the quotes.
fn put_inner(page: &mut Page, byte: u8)
    ensures { Grows page.old page.new }
{
    match byte {
        b'\n' => page.put(b"\\n"),
        b'\t' => page.put(b"\\t"),
        b'\\' => page.put(b"\\\\"),
        b'\'' => page.put(b"\\'"),
        _ => page.put(&[byte]),
    }
}

fn tuple_types(ty: &Ty) -> &[Shared<Ty>] {
    match ty {
        Ty::Tuple(parts) => parts.as_slice(),
        _ => &[],
    }
}

fn item_type(ty: &Ty) -> &Ty {
    match ty {
        Ty::Vector(_, item) => item,
        _ => ty,
    }
}

fn sum_of<'a>(types: &'a Types, ty: &Ty) -> Option<&'a SumDef> {
    match ty {
        Ty::Named(number) => types.sums.get(*number as usize),
        _ => None,
    }
}

fn constructor_of<'a>(types: &'a Types, ty: &Ty, place: u32) -> Option<&'a ConDef> {
    match sum_of(types, ty) {
        None => None,
        Some(sum) => sum.cons.get(place as usize),
    }
}
