ghost use Rattle.std.specs.Prelude.{◌≡◌, ◌&&◌, map, Some, IfOk};
ghost use Rattle.hume_base.specs.declared.types.Ty.{out-Ty};
ghost use Rattle.hume_base.specs.declared.types.Value.{Word as WordValue};
ghost use Rattle.hume_base.specs.Values.{is_char_word as is_word_of_char};
ghost use Rattle.check_typing.specs.Partial.{when};
ghost use Rattle.check_typing.specs.Patterns.{literal_number, literal_word as word_of_literal, is_number_of, word_of_truth, is_bool as is_bool_type, is_char as is_char_type};
ghost use Rattle.check_typing.specs.Signatures.{con_named};
ghost use Rattle.check_rules.specs.Constants as constants;

use crate::constants::literals::{
    is_bool, is_char, is_char_word, is_literal_of, is_named, literal_word,
};
use check_scopes::signatures::SignatureTable;
use hume_ast::Exp;
use hume_base::{List, Shared, Ty, Value};
use std::alloc::{AllocError, Global};

/// The value of the type that the expression writes down, if it is one.
#[cycle(constant)]
#[tactic(auto, using(crate::proofs::constants_lemmas::Steps::value_steps))]
pub fn constant(
    alloc: Global,
    table: &SignatureTable,
    e: &Exp,
    ty: &Ty,
) -> Result<Option<Value>, AllocError>
    ensures { IfOk result (λ value. value ≡ constants.constant table.now e.now ty.now) }
{
    match e {
        Exp::Num(negative, amount) => Ok(number(*negative, *amount, ty)),
        Exp::Letter(byte) => Ok(letter(*byte, ty)),
        Exp::Truth(truth) => Ok(truth_value(*truth, ty)),
        Exp::Con(name, parts) => constructor(alloc, table, name.bytes(), parts.as_slice(), ty),
        Exp::Paren(part) => constant(alloc, table, part, ty),
        Exp::Tuple(parts) => tuple(alloc, table, parts.as_slice(), ty),
        Exp::Vect(parts) => vector(alloc, table, parts.as_slice(), ty),
        _ => Ok(None),
    }
}

fn number(negative: bool, amount: u64, ty: &Ty) -> Option<Value>
    ensures { result ≡ when (is_number_of (literal_number negative amount) (out-Ty ty.now)) (Some (WordValue (word_of_literal negative amount))) }
{
    if !is_literal_of(ty, negative, amount) {
        return None;
    }
    Some(Value::Word(literal_word(negative, amount)))
}

fn letter(byte: u8, ty: &Ty) -> Option<Value>
    ensures { result ≡ when (is_char_type (out-Ty ty.now) && is_word_of_char byte) (Some (WordValue byte)) }
{
    if !(is_char(ty) && is_char_word(byte)) {
        return None;
    }
    Some(Value::Word(u64::from(byte)))
}

fn truth_value(truth: bool, ty: &Ty) -> Option<Value>
    ensures { result ≡ when (is_bool_type (out-Ty ty.now)) (Some (WordValue (word_of_truth truth))) }
{
    if !is_bool(ty) {
        return None;
    }
    Some(Value::Word(u64::from(truth)))
}

#[cycle(constant)]
#[tactic(auto, using(crate::proofs::constants_lemmas::Steps::value_steps))]
fn constructor(
    alloc: Global,
    table: &SignatureTable,
    name: &[u8],
    parts: &[Exp],
    ty: &Ty,
) -> Result<Option<Value>, AllocError>
    ensures { IfOk result (λ value. value
        ≡ constants.con_value (con_named name.now table.now) (map (constants.constant table.now) parts.now) ty.now) }
{
    let Some(found) = table.constructor(name) else {
        return Ok(None);
    };
    if !is_named(found.data_type, ty) {
        return Ok(None);
    }
    match values(alloc, table, parts, found.fields.as_slice())? {
        None => Ok(None),
        Some(values) => Ok(Some(Value::Con(found.place, values))),
    }
}

#[cycle(constant)]
#[tactic(auto, using(crate::proofs::constants_lemmas::Steps::value_steps))]
fn tuple(
    alloc: Global,
    table: &SignatureTable,
    parts: &[Exp],
    ty: &Ty,
) -> Result<Option<Value>, AllocError>
    ensures { IfOk result (λ value. value ≡ constants.tuple_value (map (constants.constant table.now) parts.now) (out-Ty ty.now)) }
{
    let Ty::Tuple(tys) = ty else {
        return Ok(None);
    };
    match values(alloc, table, parts, tys.as_slice())? {
        None => Ok(None),
        Some(values) => Ok(Some(Value::Tuple(values))),
    }
}

#[cycle(constant)]
#[tactic(auto, using(crate::proofs::constants_lemmas::Steps::value_steps))]
fn vector(
    alloc: Global,
    table: &SignatureTable,
    parts: &[Exp],
    ty: &Ty,
) -> Result<Option<Value>, AllocError>
    ensures { IfOk result (λ value. value ≡ constants.vector_value (map (constants.constant table.now) parts.now) (out-Ty ty.now)) }
{
    let Ty::Vector(count, item) = ty else {
        return Ok(None);
    };
    if parts.len() != *count as usize {
        return Ok(None);
    }
    match values_alike(alloc, table, parts, item)? {
        None => Ok(None),
        Some(values) => Ok(Some(Value::Vector(values))),
    }
}

// The values of parts, each of the type in its place.
#[cycle(constant)]
#[tactic(auto, using(crate::proofs::constants_lemmas::Steps::value_steps))]
fn values(
    alloc: Global,
    table: &SignatureTable,
    parts: &[Exp],
    tys: &[Shared<Ty>],
) -> Result<Option<List<Value>>, AllocError>
    ensures { IfOk result (λ found. found ≡ constants.values_of (map (constants.constant table.now) parts.now) tys.now) }
{
    if parts.len() != tys.len() {
        return Ok(None);
    }
    let mut found = List::new(alloc);
    for (at, part) in parts.iter().enumerate() {
        match constant(alloc, table, part, &tys[at])? {
            None => return Ok(None),
            Some(value) => found.push(value)?,
        }
    }
    Ok(Some(found))
}

// The values of parts, all of one type.
#[cycle(constant)]
#[tactic(auto, using(crate::proofs::constants_lemmas::Steps::value_steps))]
fn values_alike(
    alloc: Global,
    table: &SignatureTable,
    parts: &[Exp],
    ty: &Ty,
) -> Result<Option<List<Value>>, AllocError>
    ensures { IfOk result (λ found. found ≡ constants.values_alike (map (constants.constant table.now) parts.now) ty.now) }
{
    let mut found = List::new(alloc);
    for part in parts {
        match constant(alloc, table, part, ty)? {
            None => return Ok(None),
            Some(value) => found.push(value)?,
        }
    }
    Ok(Some(found))
}
