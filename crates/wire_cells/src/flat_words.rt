//! The flat words of a value, written one behind another.
ghost use Rattle.std.specs.Prelude.{◌≡◌, ◌+◌, ◌-◌, ◌<◌, ◌≤◌, [], ◌∷◌, true, length, map, replicate};
ghost use Rattle.std.specs.List.{flat_map};
ghost use Rattle.hume_base.specs.declared.types.Value.{out-Value};
ghost use Rattle.hume_base.specs.Sizes.{size_of, HaveTheirSizes};
ghost use Rattle.hume_base.specs.Values.{is_value};
ghost use Rattle.hume_base.specs.Flat.{flat, named_words, joined, con_words, parts_in};
ghost use Rattle.hume_model.specs.Reading.{HaveReadableSizes};
ghost use Rattle.wire_cells.specs.inner.Written.{flat_below, IsWritten, HaveExactSizes};

use hume_base::{Shared, SumDef, Ty, Types, Value};

/// Writes the flat words of a value. It takes no memory.
pub fn flatten(types: &Types, ty: &Ty, value: &Value, into: &mut [u64])
    requires sizes { HaveTheirSizes types.now }
    requires readable { HaveReadableSizes types.now }
    requires value { is_value types.now ty.now value.now ≡ true }
    requires room { length into.old ≡ size_of types.now ty.now }
    ensures { into.new ≡ flat types.now ty.now value.now }
{
    write_value(types, types.sums.len(), ty, value, into, 0);
}

/// Writes the words of a value from a place on, and answers the place behind them. Values of data types of numbers from
/// the bound on have none: the type of a value holds no such data types.
#[cycle(write)]
#[tactic(auto, using(crate::proofs::Writing::writing_steps))]
fn write_value(
    types: &Types,
    bound: usize,
    ty: &Ty,
    value: &Value,
    into: &mut [u64],
    at: usize,
) -> usize
    requires sizes { HaveExactSizes types.now }
    requires room { at + length (flat_below types.now bound ty.now value.now) ≤ length into.old }
    ensures { IsWritten into.old at (flat_below types.now bound ty.now value.now) into.new result }
{
    match ty {
        Ty::Bool | Ty::Char | Ty::Int(_) | Ty::Nat(_) => write_word(value.word(), into, at),
        Ty::Tuple(tys) => write_parts(types, bound, tys.as_slice(), parts(value), into, at),
        Ty::Vector(_, item) => write_items(types, bound, item, parts(value), into, at),
        Ty::Named(number) => write_data(types, bound, *number, value, into, at),
    }
}

#[cycle(write)]
#[tactic(auto, using(crate::proofs::Writing::writing_steps))]
fn write_parts(
    types: &Types,
    bound: usize,
    tys: &[Shared<Ty>],
    values: &[Value],
    into: &mut [u64],
    at: usize,
) -> usize
    requires sizes { HaveExactSizes types.now }
    requires room { at + length (joined (map (flat_below types.now bound) tys.now) values.now) ≤ length into.old }
    ensures { IsWritten into.old at (joined (map (flat_below types.now bound) tys.now) values.now) into.new result }
{
    let mut end = at;
    for i in 0..tys.len().min(values.len()) {
        end = write_value(types, bound, &tys[i], &values[i], into, end);
    }
    end
}

#[cycle(write)]
#[tactic(auto, using(crate::proofs::Writing::writing_steps))]
fn write_items(
    types: &Types,
    bound: usize,
    item: &Ty,
    values: &[Value],
    into: &mut [u64],
    at: usize,
) -> usize
    requires sizes { HaveExactSizes types.now }
    requires room { at + length (flat_map (flat_below types.now bound item.now) values.now) ≤ length into.old }
    ensures { IsWritten into.old at (flat_map (flat_below types.now bound item.now) values.now) into.new result }
{
    let mut end = at;
    for i in 0..values.len() {
        end = write_value(types, bound, item, &values[i], into, end);
    }
    end
}

#[cycle(write)]
#[tactic(auto, using(crate::proofs::Writing::writing_steps))]
fn write_data(
    types: &Types,
    bound: usize,
    number: u32,
    value: &Value,
    into: &mut [u64],
    at: usize,
) -> usize
    requires sizes { HaveExactSizes types.now }
    requires room { at + length (named_words types.now bound number value.now) ≤ length into.old }
    ensures { IsWritten into.old at (named_words types.now bound number value.now) into.new result }
{
    let number = number as usize;
    if number >= bound {
        return at;
    }
    match types.sums.get(number) {
        None => at,
        Some(sum) => {
            let end = write_constructor(types, number, sum, value, into, at);
            write_zeros(into, end, at + sum.words as usize)
        }
    }
}

#[cycle(write)]
#[tactic(auto, using(crate::proofs::Writing::writing_steps))]
fn write_constructor(
    types: &Types,
    bound: usize,
    sum: &SumDef,
    value: &Value,
    into: &mut [u64],
    at: usize,
) -> usize
    requires sizes { HaveExactSizes types.now }
    requires room { at + length (con_words (flat_below types.now bound) sum.now (out-Value value.now))
        ≤ length into.old }
    ensures { IsWritten into.old at (con_words (flat_below types.now bound) sum.now (out-Value value.now)) into.new
        result }
{
    let place = value.word();
    let fields = write_word(place, into, at);
    match sum.cons.get(place as usize) {
        None => fields,
        Some(con) => {
            write_parts(
                types,
                bound,
                con.fields.as_slice(),
                parts(value),
                into,
                fields,
            )
        }
    }
}

fn write_word(word: u64, into: &mut [u64], at: usize) -> usize
    requires { at < length into.old }
    ensures { IsWritten into.old at (word ∷ []) into.new result }
{
    into[at] = word;
    at + 1
}

/// Writes zeros from a place up to another.
fn write_zeros(into: &mut [u64], from: usize, to: usize) -> usize
    requires { from + (to - from) ≤ length into.old }
    ensures { IsWritten into.old from (replicate (to - from) 0) into.new result }
{
    for place in from..to {
        into[place] = 0;
    }
    from.max(to)
}

/// The fields of a constructor, or the parts of a tuple or a vector.
fn parts(value: &Value) -> &[Value]
    ensures { result.now ≡ parts_in (out-Value value.now) }
{
    match value {
        Value::Word(_) => &[],
        Value::Con(_, parts) => parts.as_slice(),
        Value::Tuple(parts) => parts.as_slice(),
        Value::Vector(parts) => parts.as_slice(),
    }
}
