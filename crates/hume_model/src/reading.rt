//! The value that has the given words.
ghost use Rattle.std.specs.Prelude.{◌≡◌, IfOk, map, replicate, Some};
ghost use Rattle.hume_base.specs.declared.types.Value.{Value, Tuple, Vector};
ghost use Rattle.hume_base.specs.Sizes.{HaveTheirSizes};
ghost use Rattle.hume_model.specs.Reading.{AreWordsOf, HaveReadableSizes};
ghost use Rattle.hume_model.specs.Readers.{Reader, read_with, read_named, read_several, read_con, read_word};

use hume_base::{List, Shared, SumDef, Ty, Types, Value};
use std::alloc::{AllocError, Global};

/// The value of a type with these flat words.
pub fn value_of(alloc: Global, types: &Types, ty: &Ty, words: &[u64]) -> Result<Value, AllocError>
    requires sizes { HaveTheirSizes types.now }
    requires readable { HaveReadableSizes types.now }
    requires words { (value : Value) × AreWordsOf types.now ty.now words.now value }
    ensures { IfOk result (λ value. AreWordsOf types.now ty.now words.now value) }
{
    let (value, _) = read_front(alloc, types, types.sums.len(), ty, words)?;
    Ok(value)
}

/// The value of a type at the front of the words, and the words after it, where only data types of numbers below the
/// bound are read.
#[cycle(read)]
#[tactic(auto, using(crate::proofs::WordReading::reading_steps))]
pub fn read_front<'a>(
    alloc: Global,
    types: &Types,
    bound: usize,
    ty: &Ty,
    words: &'a [u64],
) -> Result<(Value, &'a [u64]), AllocError>
    ensures { IfOk result (λ read. (read.0, read.1.now) ≡ read_with (read_named types.now bound) ty.now words.now) }
{
    match ty {
        Ty::Bool => Ok(first_word(words)),
        Ty::Char => Ok(first_word(words)),
        Ty::Int(_) => Ok(first_word(words)),
        Ty::Nat(_) => Ok(first_word(words)),
        Ty::Tuple(parts) => {
            let (values, rest) = read_parts(alloc, types, bound, parts.as_slice(), words)?;
            Ok((Value::Tuple(values), rest))
        }
        Ty::Vector(count, item) => {
            let (values, rest) = read_items(alloc, types, bound, *count, item, words)?;
            Ok((Value::Vector(values), rest))
        }
        Ty::Named(number) => read_data(alloc, types, bound, *number, words),
    }
}

#[cycle(read)]
#[tactic(auto, using(crate::proofs::WordReading::reading_steps))]
fn read_parts<'a>(
    alloc: Global,
    types: &Types,
    bound: usize,
    tys: &[Shared<Ty>],
    words: &'a [u64],
) -> Result<(List<Value>, &'a [u64]), AllocError>
    ensures { IfOk result (λ read. (read.0, read.1.now) ≡ read_several (map (read_with (read_named types.now bound)) tys.now) words.now) }
{
    let mut values = List::new(alloc);
    let mut rest = words;
    for ty in tys {
        let (value, others) = read_front(alloc, types, bound, ty, rest)?;
        values.push(value)?;
        rest = others;
    }
    Ok((values, rest))
}

#[cycle(read)]
#[tactic(auto, using(crate::proofs::WordReading::reading_steps))]
fn read_items<'a>(
    alloc: Global,
    types: &Types,
    bound: usize,
    count: u32,
    item: &Ty,
    words: &'a [u64],
) -> Result<(List<Value>, &'a [u64]), AllocError>
    ensures { IfOk result (λ read. (read.0, read.1.now)
        ≡ read_several (replicate {A = Reader} count (read_with (read_named types.now bound) item.now)) words.now) }
{
    let mut values = List::new(alloc);
    let mut rest = words;
    for _place in 0..count {
        let (value, others) = read_front(alloc, types, bound, item, rest)?;
        values.push(value)?;
        rest = others;
    }
    Ok((values, rest))
}

#[cycle(read)]
#[tactic(auto, using(crate::proofs::WordReading::reading_steps))]
fn read_data<'a>(
    alloc: Global,
    types: &Types,
    bound: usize,
    number: u32,
    words: &'a [u64],
) -> Result<(Value, &'a [u64]), AllocError>
    ensures { IfOk result (λ read. (read.0, read.1.now) ≡ read_named types.now bound number words.now) }
{
    let number = number as usize;
    if number >= bound {
        return Ok((Value::Word(0), words));
    }
    match types.sums.get(number) {
        None => Ok((Value::Word(0), words)),
        Some(sum) => {
            let (value, rest) = read_constructor(alloc, types, number, sum, words)?;
            let filled = words.len().saturating_sub(rest.len());
            let zeros = (sum.words as usize).saturating_sub(filled);
            Ok((value, &rest[zeros.min(rest.len())..]))
        }
    }
}

#[cycle(read)]
#[tactic(auto, using(crate::proofs::WordReading::reading_steps))]
fn read_constructor<'a>(
    alloc: Global,
    types: &Types,
    bound: usize,
    sum: &SumDef,
    words: &'a [u64],
) -> Result<(Value, &'a [u64]), AllocError>
    ensures { IfOk result (λ read. (read.0, read.1.now) ≡ read_con (read_with (read_named types.now bound)) sum.now words.now) }
{
    let Some((place, fields)) = words.split_first() else {
        return Ok((Value::Word(0), words));
    };
    match u32::try_from(*place) {
        Ok(place) => match sum.cons.get(place as usize) {
            None => Ok((Value::Con(place, List::new(alloc)), fields)),
            Some(con) => {
                let (values, rest) = read_parts(
                    alloc,
                    types,
                    bound,
                    con.fields.as_slice(),
                    fields,
                )?;
                Ok((Value::Con(place, values), rest))
            }
        },
        Err(_) => Ok((Value::Word(0), fields)),
    }
}

fn first_word(words: &[u64]) -> (Value, &[u64])
    ensures { (result.0, result.1.now) ≡ read_word words.now }
{
    match words.split_first() {
        None => (Value::Word(0), words),
        Some((word, rest)) => (Value::Word(*word), rest),
    }
}
