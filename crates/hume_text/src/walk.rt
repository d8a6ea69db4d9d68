//! The walk along a type that reads the value at the front of a line into flat words.
ghost use Rattle.std.specs.Prelude.{◌≡◌, ◌≤◌, MatchOption, Some, None, IfSome, length, take, map, replicate};
ghost use Rattle.hume_base.specs.declared.types.Ty.{out-Ty};
ghost use Rattle.hume_text.specs.inner.Readers.{Reader, is_open, is_close, is_open_vector, is_close_vector, put_word, put_zeros};
ghost use Rattle.hume_text.specs.inner.Readers.{read_part, read_in, read_with, read_named, read_fields, read_field, read_con, opens, field_start, closed_field, part_start};

use crate::found::{
    take_bool, take_char, take_close, take_close_vector, take_comma, take_int, take_nat, take_open,
    take_open_vector, take_place,
};
use crate::print::is_compound;
use hume_base::{Shared, SumDef, Ty, Types};

/// A word, if there is room for it.
pub(crate) fn put_word<'a>(
    word: u64,
    rest: &'a [u8],
    into: &mut [u64],
    at: usize,
) -> Option<(usize, &'a [u8])>
    requires { at ≤ length into.old }
    ensures read { MatchOption result (put_word (length into.old) word (take at into.old) rest.now ≡ None)
        (λ read. put_word (length into.old) word (take at into.old) rest.now ≡ Some (take read.0 into.new, read.1.now)) }
    ensures room { length into.new ≡ length into.old }
    ensures within { IfSome result (λ read. read.0 ≤ length into.old) }
    ensures onward { IfSome result (λ read. at ≤ read.0) }
{
    if at >= into.len() {
        return None;
    }
    into[at] = word;
    Some((at + 1, rest))
}

/// Zeros up to so many words, if there is room for them.
pub(crate) fn put_zeros<'a>(
    count: usize,
    rest: &'a [u8],
    into: &mut [u64],
    at: usize,
) -> Option<(usize, &'a [u8])>
    requires { at ≤ length into.old }
    ensures read { MatchOption result (put_zeros (length into.old) count (take at into.old) rest.now ≡ None)
        (λ read. put_zeros (length into.old) count (take at into.old) rest.now ≡ Some (take read.0 into.new, read.1.now)) }
    ensures room { length into.new ≡ length into.old }
    ensures within { IfSome result (λ read. read.0 ≤ length into.old) }
    ensures onward { IfSome result (λ read. at ≤ read.0) }
{
    let mut end = at;
    let mut later = rest;
    for _place in 0..count {
        match put_word(0, later, into, end) {
            None => return None,
            Some((next, behind)) => {
                end = next;
                later = behind;
            }
        }
    }
    Some((end, later))
}

/// The word that was found on a line, if there is one and room for it.
fn put_found<'a>(
    found: Option<(u64, &'a [u8])>,
    into: &mut [u64],
    at: usize,
) -> Option<(usize, &'a [u8])>
    requires { at ≤ length into.old }
    ensures read { MatchOption found.entry (result ≡ None) (λ word. MatchOption result (put_word (length into.old) word.0 (take at into.old) word.1.now ≡ None)
        (λ read. put_word (length into.old) word.0 (take at into.old) word.1.now ≡ Some (take read.0 into.new, read.1.now))) }
    ensures room { length into.new ≡ length into.old }
    ensures within { IfSome result (λ read. read.0 ≤ length into.old) }
    ensures onward { IfSome result (λ read. at ≤ read.0) }
{
    match found {
        None => None,
        Some((word, rest)) => put_word(word, rest, into, at),
    }
}

/// Reads the value of a type at the front of a line, puts its words from a place on, and answers the place behind them and the
/// rest of the line, where only data types of numbers below the bound are read.
#[cycle(read)]
#[tactic(auto, using(crate::proofs::Reading::reading_steps))]
pub(crate) fn read_front<'a>(
    types: &Types,
    bound: usize,
    ty: &Ty,
    line: &'a [u8],
    into: &mut [u64],
    at: usize,
) -> Option<(usize, &'a [u8])>
    requires { at ≤ length into.old }
    ensures read { MatchOption result (read_with (length into.old) (read_named types.now (length into.old) bound) ty.now (take at into.old) line.now ≡ None)
        (λ read. read_with (length into.old) (read_named types.now (length into.old) bound) ty.now (take at into.old) line.now
        ≡ Some (take read.0 into.new, read.1.now)) }
    ensures room { length into.new ≡ length into.old }
    ensures within { IfSome result (λ read. read.0 ≤ length into.old) }
    ensures onward { IfSome result (λ read. at ≤ read.0) }
{
    match ty {
        Ty::Bool => put_found(take_bool(line), into, at),
        Ty::Char => put_found(take_char(line), into, at),
        Ty::Int(bits) => put_found(take_int(*bits, line), into, at),
        Ty::Nat(bits) => put_found(take_nat(*bits, line), into, at),
        Ty::Tuple(parts) => read_tuple(types, bound, parts.as_slice(), line, into, at),
        Ty::Vector(count, item) => read_vector(types, bound, *count, item, line, into, at),
        Ty::Named(number) => read_data(types, bound, *number, line, into, at),
    }
}

#[cycle(read)]
#[tactic(auto, using(crate::proofs::Reading::reading_steps))]
fn read_tuple<'a>(
    types: &Types,
    bound: usize,
    tys: &[Shared<Ty>],
    line: &'a [u8],
    into: &mut [u64],
    at: usize,
) -> Option<(usize, &'a [u8])>
    requires { at ≤ length into.old }
    ensures read { MatchOption result
        (read_in is_open is_close (map (read_with (length into.old) (read_named types.now (length into.old) bound)) tys.now) (take at into.old) line.now ≡ None)
        (λ read. read_in is_open is_close (map (read_with (length into.old) (read_named types.now (length into.old) bound)) tys.now) (take at into.old) line.now
        ≡ Some (take read.0 into.new, read.1.now)) }
    ensures room { length into.new ≡ length into.old }
    ensures within { IfSome result (λ read. read.0 ≤ length into.old) }
    ensures onward { IfSome result (λ read. at ≤ read.0) }
{
    let Some(inner) = take_open(line) else {
        return None;
    };
    let mut rest = inner;
    let mut end = at;
    let mut first = true;
    for ty in tys {
        match read_part(types, bound, first, ty, rest, into, end) {
            None => return None,
            Some((behind, later)) => {
                end = behind;
                rest = later;
            }
        }
        first = false;
    }
    match take_close(rest) {
        None => None,
        Some(later) => Some((end, later)),
    }
}

#[cycle(read)]
#[tactic(auto, using(crate::proofs::Reading::reading_steps))]
fn read_vector<'a>(
    types: &Types,
    bound: usize,
    count: u32,
    item: &Ty,
    line: &'a [u8],
    into: &mut [u64],
    at: usize,
) -> Option<(usize, &'a [u8])>
    requires { at ≤ length into.old }
    ensures read { MatchOption result
        (read_in is_open_vector is_close_vector (replicate {A = Reader} count
        (read_with (length into.old) (read_named types.now (length into.old) bound) item.now))
        (take at into.old) line.now ≡ None)
        (λ read. read_in is_open_vector is_close_vector
        (replicate {A = Reader} count (read_with (length into.old) (read_named types.now (length into.old) bound) item.now)) (take at into.old) line.now
        ≡ Some (take read.0 into.new, read.1.now)) }
    ensures room { length into.new ≡ length into.old }
    ensures within { IfSome result (λ read. read.0 ≤ length into.old) }
    ensures onward { IfSome result (λ read. at ≤ read.0) }
{
    let Some(inner) = take_open_vector(line) else {
        return None;
    };
    let mut rest = inner;
    let mut end = at;
    let mut first = true;
    for _place in 0..count {
        match read_part(types, bound, first, item, rest, into, end) {
            None => return None,
            Some((behind, later)) => {
                end = behind;
                rest = later;
            }
        }
        first = false;
    }
    match take_close_vector(rest) {
        None => None,
        Some(later) => Some((end, later)),
    }
}

// One of several, behind a comma if it isn't the first.
#[cycle(read)]
#[tactic(auto, using(crate::proofs::Reading::reading_steps))]
fn read_part<'a>(
    types: &Types,
    bound: usize,
    first: bool,
    ty: &Ty,
    line: &'a [u8],
    into: &mut [u64],
    at: usize,
) -> Option<(usize, &'a [u8])>
    requires { at ≤ length into.old }
    ensures read { MatchOption result
        (read_part first (read_with (length into.old) (read_named types.now (length into.old) bound) ty.now) (take at into.old) line.now ≡ None)
        (λ read. read_part first (read_with (length into.old) (read_named types.now (length into.old) bound) ty.now) (take at into.old) line.now
        ≡ Some (take read.0 into.new, read.1.now)) }
    ensures room { length into.new ≡ length into.old }
    ensures within { IfSome result (λ read. read.0 ≤ length into.old) }
    ensures onward { IfSome result (λ read. at ≤ read.0) }
{
    match part_start(first, line) {
        None => None,
        Some(rest) => read_front(types, bound, ty, rest, into, at),
    }
}

fn part_start(first: bool, line: &[u8]) -> Option<&[u8]>
    ensures { MatchOption result (part_start first line.now ≡ None) (λ rest. part_start first line.now ≡ Some rest.now) }
{
    if first { Some(line) } else { take_comma(line) }
}

#[cycle(read)]
#[tactic(auto, using(crate::proofs::Reading::reading_steps))]
fn read_data<'a>(
    types: &Types,
    bound: usize,
    number: u32,
    line: &'a [u8],
    into: &mut [u64],
    at: usize,
) -> Option<(usize, &'a [u8])>
    requires { at ≤ length into.old }
    ensures read { MatchOption result (read_named types.now (length into.old) bound number (take at into.old) line.now ≡ None)
        (λ read. read_named types.now (length into.old) bound number (take at into.old) line.now ≡ Some (take read.0 into.new, read.1.now)) }
    ensures room { length into.new ≡ length into.old }
    ensures within { IfSome result (λ read. read.0 ≤ length into.old) }
    ensures onward { IfSome result (λ read. at ≤ read.0) }
{
    let number = number as usize;
    if number >= bound {
        return None;
    }
    let Some(sum) = types.sums.get(number) else {
        return None;
    };
    match read_constructor(types, number, sum, line, into, at) {
        None => None,
        Some((end, rest)) => {
            let zeros = (sum.words as usize).saturating_sub(end.saturating_sub(at));
            put_zeros(zeros, rest, into, end)
        }
    }
}

#[cycle(read)]
#[tactic(auto, using(crate::proofs::Reading::reading_steps))]
fn read_constructor<'a>(
    types: &Types,
    bound: usize,
    sum: &SumDef,
    line: &'a [u8],
    into: &mut [u64],
    at: usize,
) -> Option<(usize, &'a [u8])>
    requires { at ≤ length into.old }
    ensures read { MatchOption result
        (read_con types.now (length into.old) (read_with (length into.old) (read_named types.now (length into.old) bound)) sum.now
        (take at into.old) line.now ≡ None)
        (λ read. read_con types.now (length into.old) (read_with (length into.old) (read_named types.now (length into.old) bound)) sum.now
        (take at into.old) line.now
        ≡ Some (take read.0 into.new, read.1.now)) }
    ensures room { length into.new ≡ length into.old }
    ensures within { IfSome result (λ read. read.0 ≤ length into.old) }
    ensures onward { IfSome result (λ read. at ≤ read.0) }
{
    let Some((place, rest)) = take_place(sum, line) else {
        return None;
    };
    match put_word(place, rest, into, at) {
        None => None,
        Some((end, later)) => match sum.cons.get(place as usize) {
            None => Some((end, later)),
            Some(con) => read_fields(types, bound, con.fields.as_slice(), later, into, end),
        },
    }
}

#[cycle(read)]
#[tactic(auto, using(crate::proofs::Reading::reading_steps))]
fn read_fields<'a>(
    types: &Types,
    bound: usize,
    tys: &[Shared<Ty>],
    line: &'a [u8],
    into: &mut [u64],
    at: usize,
) -> Option<(usize, &'a [u8])>
    requires { at ≤ length into.old }
    ensures read { MatchOption result
        (read_fields types.now (read_with (length into.old) (read_named types.now (length into.old) bound)) tys.now (take at into.old) line.now ≡ None)
        (λ read. read_fields types.now (read_with (length into.old) (read_named types.now (length into.old) bound)) tys.now (take at into.old) line.now
        ≡ Some (take read.0 into.new, read.1.now)) }
    ensures room { length into.new ≡ length into.old }
    ensures within { IfSome result (λ read. read.0 ≤ length into.old) }
    ensures onward { IfSome result (λ read. at ≤ read.0) }
{
    let mut rest = line;
    let mut end = at;
    for ty in tys {
        match read_field(types, bound, ty, rest, into, end) {
            None => return None,
            Some((behind, later)) => {
                end = behind;
                rest = later;
            }
        }
    }
    Some((end, rest))
}

#[cycle(read)]
#[tactic(auto, using(crate::proofs::Reading::reading_steps))]
fn read_field<'a>(
    types: &Types,
    bound: usize,
    ty: &Ty,
    line: &'a [u8],
    into: &mut [u64],
    at: usize,
) -> Option<(usize, &'a [u8])>
    requires { at ≤ length into.old }
    ensures read { MatchOption result
        (read_field types.now ty.now (read_with (length into.old) (read_named types.now (length into.old) bound) ty.now) (take at into.old) line.now ≡ None)
        (λ read. read_field types.now ty.now (read_with (length into.old) (read_named types.now (length into.old) bound) ty.now) (take at into.old) line.now
        ≡ Some (take read.0 into.new, read.1.now)) }
    ensures room { length into.new ≡ length into.old }
    ensures within { IfSome result (λ read. read.0 ≤ length into.old) }
    ensures onward { IfSome result (λ read. at ≤ read.0) }
{
    let (opened, start) = field_start(ty, line);
    match read_front(types, bound, ty, start, into, at) {
        None => None,
        Some((end, rest)) => {
            let compound = is_compound(types, ty, &into[at..end]);
            match closed_field(opened, compound, rest) {
                None => None,
                Some(later) => Some((end, later)),
            }
        }
    }
}

fn field_start<'a>(ty: &Ty, line: &'a [u8]) -> (bool, &'a [u8])
    ensures { field_start (opens (out-Ty ty.now) line.now) line.now ≡ (result.0, result.1.now) }
{
    match opened(ty, line) {
        None => (false, line),
        Some(inner) => (true, inner),
    }
}

fn opened<'a>(ty: &Ty, line: &'a [u8]) -> Option<&'a [u8]>
    ensures { MatchOption result (opens (out-Ty ty.now) line.now ≡ None) (λ rest. opens (out-Ty ty.now) line.now ≡ Some rest.now) }
{
    match ty {
        Ty::Named(_) => take_open(line),
        _ => None,
    }
}

fn closed_field(opened: bool, compound: bool, line: &[u8]) -> Option<&[u8]>
    ensures { MatchOption result (closed_field opened compound line.now ≡ None) (λ rest. closed_field opened compound line.now ≡ Some rest.now) }
{
    if opened != compound {
        return None;
    }
    if opened { take_close(line) } else { Some(line) }
}
