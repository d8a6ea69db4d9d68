//! The text of the value that has the given words.
ghost use Rattle.std.specs.Prelude.{◌≡◌, ◌+◌, ◌*◌, ◌≤◌, ◌++◌, length, take, map, replicate, codes};
ghost use Rattle.hume_base.specs.declared.types.Ty.{out-Ty};
ghost use Rattle.hume_base.specs.declared.types.Value.{Value};
ghost use Rattle.hume_base.specs.Sizes.{size_of, HaveTheirSizes};
ghost use Rattle.hume_text.specs.Chunks.{bytes_in, room_of};
ghost use Rattle.hume_text.specs.Printed.{texts, AreWordsOf};
ghost use Rattle.hume_text.specs.Bounds.{IsPrintable};
ghost use Rattle.hume_text.specs.inner.Printers.{Printer, print_with, print_named, print_in, print_con, print_fields, print_field, is_compound};

use crate::chunk::Chunk;
use crate::scalars::{print_bool, print_int, print_letter, print_nat};
use hume_base::{Shared, SumDef, Ty, Types};

/// Appends the text of the value of a type that has these flat words. It takes no memory.
pub fn print_value(types: &Types, ty: &Ty, words: &[u64], chunk: &mut Chunk)
    requires sizes { HaveTheirSizes types.now }
    requires printable { IsPrintable types.now ty.now }
    requires spare { length (bytes_in chunk.old) + 512 * size_of types.now ty.now ≤ room_of chunk.old }
    ensures text { (value : Value) → AreWordsOf types.now ty.now words.now value → bytes_in chunk.new ≡ bytes_in chunk.old ++ texts types.now ty.now value }
    ensures room { room_of chunk.new ≡ room_of chunk.old }
{
    print_front(types, types.sums.len(), ty, words, chunk);
}

/// Prints the value of a type at the front of the words, and answers the words after it, where only data types of numbers
/// below the bound are printed.
#[cycle(print)]
#[tactic(auto, using(crate::proofs::Printing::printing_steps))]
pub(crate) fn print_front<'a>(
    types: &Types,
    bound: usize,
    ty: &Ty,
    words: &'a [u64],
    chunk: &mut Chunk,
) -> &'a [u64]
    ensures text { bytes_in chunk.new
        ≡ take (room_of chunk.old) (bytes_in chunk.old ++ (print_with (print_named types.now bound) ty.now words.now).0) }
    ensures room { room_of chunk.new ≡ room_of chunk.old }
    ensures rest { result.now ≡ (print_with (print_named types.now bound) ty.now words.now).1 }
{
    match ty {
        Ty::Bool => print_bool(words, chunk),
        Ty::Char => print_letter(words, chunk),
        Ty::Int(_) => print_int(words, chunk),
        Ty::Nat(_) => print_nat(words, chunk),
        Ty::Tuple(parts) => print_tuple(types, bound, parts.as_slice(), words, chunk),
        Ty::Vector(count, item) => print_vector(types, bound, *count, item, words, chunk),
        Ty::Named(number) => print_data(types, bound, *number, words, chunk),
    }
}

#[cycle(print)]
#[tactic(auto, using(crate::proofs::Printing::printing_steps))]
fn print_tuple<'a>(
    types: &Types,
    bound: usize,
    tys: &[Shared<Ty>],
    words: &'a [u64],
    chunk: &mut Chunk,
) -> &'a [u64]
    ensures text { bytes_in chunk.new ≡ take (room_of chunk.old)
        (bytes_in chunk.old ++ (print_in (codes "(") (codes ")") (map (print_with (print_named types.now bound)) tys.now) words.now).0) }
    ensures room { room_of chunk.new ≡ room_of chunk.old }
    ensures rest { result.now ≡ (print_in (codes "(") (codes ")") (map (print_with (print_named types.now bound)) tys.now) words.now).1 }
{
    chunk.add(b"(");
    let mut before: &[u8] = b"";
    let mut rest = words;
    for ty in tys {
        chunk.add(before);
        rest = print_front(types, bound, ty, rest, chunk);
        before = b", ";
    }
    chunk.add(b")");
    rest
}

#[cycle(print)]
#[tactic(auto, using(crate::proofs::Printing::printing_steps))]
fn print_vector<'a>(
    types: &Types,
    bound: usize,
    count: u32,
    item: &Ty,
    words: &'a [u64],
    chunk: &mut Chunk,
) -> &'a [u64]
    ensures text { bytes_in chunk.new ≡ take (room_of chunk.old) (bytes_in chunk.old
        ++ (print_in (codes "<<") (codes ">>") (replicate {A = Printer} count (print_with (print_named types.now bound) item.now)) words.now).0) }
    ensures room { room_of chunk.new ≡ room_of chunk.old }
    ensures rest { result.now
        ≡ (print_in (codes "<<") (codes ">>") (replicate {A = Printer} count (print_with (print_named types.now bound) item.now)) words.now).1 }
{
    chunk.add(b"<<");
    let mut before: &[u8] = b"";
    let mut rest = words;
    for _place in 0..count {
        chunk.add(before);
        rest = print_front(types, bound, item, rest, chunk);
        before = b", ";
    }
    chunk.add(b">>");
    rest
}

#[cycle(print)]
#[tactic(auto, using(crate::proofs::Printing::printing_steps))]
fn print_data<'a>(
    types: &Types,
    bound: usize,
    number: u32,
    words: &'a [u64],
    chunk: &mut Chunk,
) -> &'a [u64]
    ensures text { bytes_in chunk.new ≡ take (room_of chunk.old) (bytes_in chunk.old ++ (print_named types.now bound number words.now).0) }
    ensures room { room_of chunk.new ≡ room_of chunk.old }
    ensures rest { result.now ≡ (print_named types.now bound number words.now).1 }
{
    let number = number as usize;
    if number >= bound {
        return words;
    }
    match types.sums.get(number) {
        None => words,
        Some(sum) => {
            let rest = print_constructor(types, number, sum, words, chunk);
            let printed = words.len().saturating_sub(rest.len());
            let zeros = (sum.words as usize).saturating_sub(printed);
            &rest[zeros.min(rest.len())..]
        }
    }
}

#[cycle(print)]
#[tactic(auto, using(crate::proofs::Printing::printing_steps))]
fn print_constructor<'a>(
    types: &Types,
    bound: usize,
    sum: &SumDef,
    words: &'a [u64],
    chunk: &mut Chunk,
) -> &'a [u64]
    ensures text { bytes_in chunk.new
        ≡ take (room_of chunk.old) (bytes_in chunk.old ++ (print_con types.now (print_with (print_named types.now bound)) sum.now words.now).0) }
    ensures room { room_of chunk.new ≡ room_of chunk.old }
    ensures rest { result.now ≡ (print_con types.now (print_with (print_named types.now bound)) sum.now words.now).1 }
{
    let Some((place, fields)) = words.split_first() else {
        return words;
    };
    match sum.cons.get(*place as usize) {
        None => fields,
        Some(con) => {
            chunk.add(con.name.bytes());
            print_fields(types, bound, con.fields.as_slice(), fields, chunk)
        }
    }
}

#[cycle(print)]
#[tactic(auto, using(crate::proofs::Printing::printing_steps))]
fn print_fields<'a>(
    types: &Types,
    bound: usize,
    tys: &[Shared<Ty>],
    words: &'a [u64],
    chunk: &mut Chunk,
) -> &'a [u64]
    ensures text { bytes_in chunk.new
        ≡ take (room_of chunk.old) (bytes_in chunk.old ++ (print_fields types.now (print_with (print_named types.now bound)) tys.now words.now).0) }
    ensures room { room_of chunk.new ≡ room_of chunk.old }
    ensures rest { result.now ≡ (print_fields types.now (print_with (print_named types.now bound)) tys.now words.now).1 }
{
    let mut rest = words;
    for ty in tys {
        rest = print_field(types, bound, ty, rest, chunk);
    }
    rest
}

#[cycle(print)]
#[tactic(auto, using(crate::proofs::Printing::printing_steps))]
fn print_field<'a>(
    types: &Types,
    bound: usize,
    ty: &Ty,
    words: &'a [u64],
    chunk: &mut Chunk,
) -> &'a [u64]
    ensures text { bytes_in chunk.new ≡ take (room_of chunk.old) (bytes_in chunk.old
        ++ (print_field (is_compound types.now (out-Ty ty.now) words.now) (print_with (print_named types.now bound) ty.now) words.now).0) }
    ensures room { room_of chunk.new ≡ room_of chunk.old }
    ensures rest { result.now
        ≡ (print_field (is_compound types.now (out-Ty ty.now) words.now) (print_with (print_named types.now bound) ty.now) words.now).1 }
{
    let compound = is_compound(types, ty, words);
    if compound {
        chunk.add(b" (");
    } else {
        chunk.add(b" ");
    }
    let rest = print_front(types, bound, ty, words, chunk);
    if compound {
        chunk.add(b")");
    }
    rest
}

// Whether a value of the type with these words is a constructor with fields.
pub(crate) fn is_compound(types: &Types, ty: &Ty, words: &[u64]) -> bool
    ensures { result ≡ is_compound types.now (out-Ty ty.now) words.now }
{
    let Ty::Named(number) = ty else {
        return false;
    };
    let Some(sum) = types.sums.get(*number as usize) else {
        return false;
    };
    let Some(place) = words.first() else {
        return false;
    };
    match sum.cons.get(*place as usize) {
        None => false,
        Some(con) => !con.fields.is_empty(),
    }
}
