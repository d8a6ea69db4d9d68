//! Values built in a heap from their flat words.
ghost use Rattle.std.specs.Prelude.{◌≡◌, ◌+◌, ◌≤◌, length, map};
ghost use Rattle.match_rules.specs.inner.Builders.{build_word, build_object, build_vector, build_con, build_with, build_named, grown};

use box_heap::BoxHeap;
use hume_base::{Shared, SumDef, Ty, Types};

/// Builds the value of a type at the front of the words, and answers the word that stands for it, where only data types of numbers
/// below the bound are built. A value of one word is read without a call.
#[inline(always)]
#[tactic(auto, using(crate::proofs::Objects::building_steps))]
pub(crate) fn build_value(
    types: &Types,
    bound: usize,
    ty: &Ty,
    words: &[u64],
    heap: &mut BoxHeap,
) -> u64
    requires { length heap.old.words + length (build_with (build_named types.now bound) ty.now (length heap.old.words) words.now).put ≤ heap.old.room }
    ensures heap { heap.new ≡ grown heap.old (build_with (build_named types.now bound) ty.now (length heap.old.words) words.now).put }
    ensures word { result ≡ (build_with (build_named types.now bound) ty.now (length heap.old.words) words.now).word }
{
    match ty {
        Ty::Bool | Ty::Char | Ty::Int(_) | Ty::Nat(_) => first_of(words),
        _ => build_whole(types, bound, ty, words, heap),
    }
}

#[inline(never)]
#[tactic(auto, using(crate::proofs::Objects::building_steps))]
fn build_whole(types: &Types, bound: usize, ty: &Ty, words: &[u64], heap: &mut BoxHeap) -> u64
    requires { length heap.old.words + length (build_with (build_named types.now bound) ty.now (length heap.old.words) words.now).put ≤ heap.old.room }
    ensures heap { heap.new ≡ grown heap.old (build_with (build_named types.now bound) ty.now (length heap.old.words) words.now).put }
    ensures word { result ≡ (build_with (build_named types.now bound) ty.now (length heap.old.words) words.now).word }
{
    let (word, _) = build_front(types, bound, ty, words, heap);
    word
}

#[inline(always)]
fn first_of(words: &[u64]) -> u64
    ensures { result ≡ (build_word 0 words.now).word }
{
    match words.first() {
        None => 0,
        Some(word) => *word,
    }
}

/// Builds the value of a type at the front of the words, and answers the word that stands for it and the words behind it, where only
/// data types of numbers below the bound are built.
#[cycle(build)]
#[tactic(auto, using(crate::proofs::Objects::building_steps))]
pub(crate) fn build_front<'a>(
    types: &Types,
    bound: usize,
    ty: &Ty,
    words: &'a [u64],
    heap: &mut BoxHeap,
) -> (u64, &'a [u64])
    requires { length heap.old.words + length (build_with (build_named types.now bound) ty.now (length heap.old.words) words.now).put ≤ heap.old.room }
    ensures heap { heap.new ≡ grown heap.old (build_with (build_named types.now bound) ty.now (length heap.old.words) words.now).put }
    ensures word { result.0 ≡ (build_with (build_named types.now bound) ty.now (length heap.old.words) words.now).word }
    ensures rest { result.1.now ≡ (build_with (build_named types.now bound) ty.now (length heap.old.words) words.now).rest }
{
    match ty {
        Ty::Bool => first_word(words),
        Ty::Char => first_word(words),
        Ty::Int(_) => first_word(words),
        Ty::Nat(_) => first_word(words),
        Ty::Tuple(parts) => build_parts(types, bound, 0, parts.as_slice(), words, heap),
        Ty::Vector(count, item) => build_items(types, bound, *count, item, words, heap),
        Ty::Named(number) => build_data(types, bound, *number, words, heap),
    }
}

// An object of a tag with a field for each type.
#[cycle(build)]
#[tactic(auto, using(crate::proofs::Objects::building_steps))]
fn build_parts<'a>(
    types: &Types,
    bound: usize,
    tag: u32,
    tys: &[Shared<Ty>],
    words: &'a [u64],
    heap: &mut BoxHeap,
) -> (u64, &'a [u64])
    requires { length heap.old.words
        + length (build_object tag (map (build_with (build_named types.now bound)) tys.now) (length heap.old.words) words.now).put ≤ heap.old.room }
    ensures heap { heap.new ≡ grown heap.old (build_object tag (map (build_with (build_named types.now bound)) tys.now) (length heap.old.words) words.now).put }
    ensures word { result.0 ≡ length heap.old.words }
    ensures rest { result.1.now ≡ (build_object tag (map (build_with (build_named types.now bound)) tys.now) (length heap.old.words) words.now).rest }
{
    let place = heap.put_zeros(tag, tys.len());
    let mut rest = words;
    for i in 0..tys.len() {
        let (word, others) = build_front(types, bound, &tys[i], rest, heap);
        heap.set_field(place, i, word);
        rest = others;
    }
    (place, rest)
}

// A vector.
#[cycle(build)]
#[tactic(auto, using(crate::proofs::Objects::building_steps))]
fn build_items<'a>(
    types: &Types,
    bound: usize,
    count: u32,
    item: &Ty,
    words: &'a [u64],
    heap: &mut BoxHeap,
) -> (u64, &'a [u64])
    requires { length heap.old.words
        + length (build_vector count (build_with (build_named types.now bound) item.now) (length heap.old.words) words.now).put ≤ heap.old.room }
    ensures heap { heap.new ≡ grown heap.old (build_vector count (build_with (build_named types.now bound) item.now) (length heap.old.words) words.now).put }
    ensures word { result.0 ≡ length heap.old.words }
    ensures rest { result.1.now ≡ (build_vector count (build_with (build_named types.now bound) item.now) (length heap.old.words) words.now).rest }
{
    let place = heap.put_zeros(0, count as usize);
    let mut rest = words;
    for i in 0..count as usize {
        let (word, others) = build_front(types, bound, item, rest, heap);
        heap.set_field(place, i, word);
        rest = others;
    }
    (place, rest)
}

#[cycle(build)]
#[tactic(auto, using(crate::proofs::Objects::building_steps))]
fn build_data<'a>(
    types: &Types,
    bound: usize,
    number: u32,
    words: &'a [u64],
    heap: &mut BoxHeap,
) -> (u64, &'a [u64])
    requires { length heap.old.words + length (build_named types.now bound number (length heap.old.words) words.now).put ≤ heap.old.room }
    ensures heap { heap.new ≡ grown heap.old (build_named types.now bound number (length heap.old.words) words.now).put }
    ensures word { result.0 ≡ (build_named types.now bound number (length heap.old.words) words.now).word }
    ensures rest { result.1.now ≡ (build_named types.now bound number (length heap.old.words) words.now).rest }
{
    let number = number as usize;
    if number >= bound {
        return (0, words);
    }
    match types.sums.get(number) {
        None => (0, words),
        Some(sum) => {
            let (word, rest) = build_constructor(types, number, sum, words, heap);
            let read = words.len().saturating_sub(rest.len());
            let zeros = (sum.words as usize).saturating_sub(read);
            (word, &rest[zeros.min(rest.len())..])
        }
    }
}

#[cycle(build)]
#[tactic(auto, using(crate::proofs::Objects::building_steps))]
fn build_constructor<'a>(
    types: &Types,
    bound: usize,
    sum: &SumDef,
    words: &'a [u64],
    heap: &mut BoxHeap,
) -> (u64, &'a [u64])
    requires { length heap.old.words
        + length (build_con (build_with (build_named types.now bound)) sum.now (length heap.old.words) words.now).put ≤ heap.old.room }
    ensures heap { heap.new ≡ grown heap.old (build_con (build_with (build_named types.now bound)) sum.now (length heap.old.words) words.now).put }
    ensures word { result.0 ≡ (build_con (build_with (build_named types.now bound)) sum.now (length heap.old.words) words.now).word }
    ensures rest { result.1.now ≡ (build_con (build_with (build_named types.now bound)) sum.now (length heap.old.words) words.now).rest }
{
    let Some((number, fields)) = words.split_first() else {
        return (0, words);
    };
    match u32::try_from(*number) {
        Ok(number) => match sum.cons.get(number as usize) {
            None => (0, fields),
            Some(con) => build_parts(types, bound, number, con.fields.as_slice(), fields, heap),
        },
        Err(_) => (0, fields),
    }
}

fn first_word(words: &[u64]) -> (u64, &[u64])
    ensures word { result.0 ≡ (build_word 0 words.now).word }
    ensures rest { result.1.now ≡ (build_word 0 words.now).rest }
{
    match words.split_first() {
        None => (0, words),
        Some((word, rest)) => (*word, rest),
    }
}
