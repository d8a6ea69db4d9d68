//! A wire at its input: whether it has a value and room, and what is put in and taken out.
//!
//! A wire that holds one value has the value, and whether it is there. One that holds more has them in a ring: the place of the
//! oldest, and how many there are.
ghost use Rattle.std.specs.Prelude.{◌≡◌};
ghost use Rattle.c_tree.specs.declared.tree.CExp.TheVariants as exp;
ghost use Rattle.c_tree.specs.declared.tree.CMember.TheVariants as member_form;
ghost use Rattle.c_forms.specs.Gives.{Gives};
ghost use Rattle.c_types.specs.Gathered.{gathered};
ghost use Rattle.c_nets.specs.Objects.{start};
ghost use Rattle.c_nets.specs.Inlets.{at_first, byte as byte_type, first_value, grown, grown_if, head_moved, holds_one, how_many, is_last};
ghost use Rattle.c_nets.specs.Inlets.{inlet_members, is_there, next_value, no_room, noted, noted_in_ring, oldest, place_behind, put_in, started, state_members, take_out, value_at, value_member};

use crate::values::value_written;
use c_forms::{
    appended, array_member, assign, binary, cast, copy_exp, decrement, define, either, element,
    equal, increment, member, named, number, of_one, of_two, one_if, plain_member, set, text, with,
};
use c_names::variable;
use c_tree::{CExp, CMember, COp, CStm, CType, Width};
use c_types::CTypes;
use hume_base::{Box, List, Ty, Value};
use std::alloc::Global;

/// A wire at its input.
#[derive(Drop)]
pub struct Inlet {
    pub object: Box<CExp>,
    pub depth: u32,
}

pub fn holds_one(depth: u32) -> bool
    ensures { result ≡ holds_one depth }
{
    depth == 1
}

fn part(alloc: Global, inlet: &Inlet, name: &[u8]) -> Option<Box<CExp>>
    ensures { Gives result (exp.Member inlet.now.object name.now) }
{
    member(alloc, copy_exp(alloc, &inlet.object), name)
}

pub fn byte() -> CType
    ensures { result ≡ byte_type }
{
    CType::Unsigned(Width::W8)
}

/// What the object of a wire of that depth consists of, whose values have the type.
pub fn inlet_members(alloc: Global, ty: Option<CType>, depth: u32) -> Option<List<CMember>>
    ensures { (t : CType) → Gives ty t → Gives result (inlet_members t depth) }
{
    with(state_members(alloc, depth), value_member(alloc, ty, depth))
}

fn value_member(alloc: Global, ty: Option<CType>, depth: u32) -> Option<Box<CMember>>
    ensures { (t : CType) → Gives ty t → Gives result (value_member t depth) }
{
    let name = text(alloc, b"v").ok();
    if holds_one(depth) {
        return plain_member(alloc, ty, name);
    }
    array_member(alloc, ty, name, u64::from(depth))
}

// What says which values are there.
fn state_members(alloc: Global, depth: u32) -> Option<List<CMember>>
    ensures { Gives result (state_members depth) }
{
    if holds_one(depth) {
        return of_one(alloc, member_of(alloc, CType::Bool, b"full"));
    }
    let head = member_of(alloc, byte(), b"head");
    of_two(alloc, head, member_of(alloc, byte(), b"count"))
}

fn member_of(alloc: Global, ty: CType, name: &[u8]) -> Option<Box<CMember>>
    ensures { Gives result (member_form.Plain ty name.now) }
{
    plain_member(alloc, Some(ty), text(alloc, name).ok())
}

/// Whether a value is on the wire.
pub fn is_there(alloc: Global, inlet: &Inlet) -> Option<Box<CExp>>
    ensures { Gives result (is_there inlet.now) }
{
    if holds_one(inlet.depth) {
        return part(alloc, inlet, b"full");
    }
    let count = part(alloc, inlet, b"count");
    binary(alloc, COp::NotEqual, count, number(alloc, 0))
}

/// Whether the wire has no room.
pub fn no_room(alloc: Global, inlet: &Inlet) -> Option<Box<CExp>>
    ensures { Gives result (no_room inlet.now) }
{
    if holds_one(inlet.depth) {
        return part(alloc, inlet, b"full");
    }
    let count = part(alloc, inlet, b"count");
    equal(alloc, count, number(alloc, u64::from(inlet.depth)))
}

/// The oldest value.
pub fn oldest(alloc: Global, inlet: &Inlet) -> Option<Box<CExp>>
    ensures { Gives result (oldest inlet.now) }
{
    if holds_one(inlet.depth) {
        return part(alloc, inlet, b"v");
    }
    value_at(alloc, inlet, part(alloc, inlet, b"head"))
}

// The value of a ring at a place.
fn value_at(alloc: Global, inlet: &Inlet, place: Option<Box<CExp>>) -> Option<Box<CExp>>
    ensures { (p : CExp) → Gives place p → Gives result (value_at inlet.now p) }
{
    element(alloc, part(alloc, inlet, b"v"), place)
}

/// Where the next value goes.
pub fn next_value(alloc: Global, inlet: &Inlet) -> Option<Box<CExp>>
    ensures { Gives result (next_value inlet.now) }
{
    if holds_one(inlet.depth) {
        return part(alloc, inlet, b"v");
    }
    value_at(alloc, inlet, place_behind(alloc, inlet))
}

fn place_behind(alloc: Global, inlet: &Inlet) -> Option<Box<CExp>>
    ensures { Gives result (place_behind inlet.now) }
{
    let head = part(alloc, inlet, b"head");
    let sum = binary(alloc, COp::Add, head, part(alloc, inlet, b"count"));
    let depth = number(alloc, u64::from(inlet.depth));
    binary(alloc, COp::Remainder, cast(alloc, byte(), sum), depth)
}

// Where the first value goes.
fn first_value(alloc: Global, inlet: &Inlet) -> Option<Box<CExp>>
    ensures { Gives result (first_value inlet.now) }
{
    if holds_one(inlet.depth) {
        return part(alloc, inlet, b"v");
    }
    value_at(alloc, inlet, number(alloc, 0))
}

// There is one value more.
fn grown(alloc: Global, inlet: &Inlet) -> Option<Box<CStm>>
    ensures { Gives result (grown inlet.now) }
{
    if holds_one(inlet.depth) {
        return set(alloc, part(alloc, inlet, b"full"), true);
    }
    increment(alloc, part(alloc, inlet, b"count"))
}

/// A value goes onto the wire, where it has room.
pub fn put_in(alloc: Global, inlet: &Inlet, value: Option<Box<CExp>>) -> Option<List<CStm>>
    ensures { (v : CExp) → Gives value v → Gives result (put_in inlet.now v) }
{
    let place = next_value(alloc, inlet);
    of_two(alloc, assign(alloc, place, value), grown(alloc, inlet))
}

/// A hook has written the next value, if it gives true, and this is noted. For a ring it takes a variable of the number.
pub fn note_read(
    alloc: Global,
    inlet: &Inlet,
    hook: Option<Box<CExp>>,
    next: u32,
) -> Option<List<CStm>>
    ensures { (h : CExp) → Gives hook h → Gives result (noted inlet.now h next) }
{
    if holds_one(inlet.depth) {
        let full = part(alloc, inlet, b"full");
        return of_one(alloc, assign(alloc, full, hook));
    }
    note_in_ring(alloc, inlet, hook, next)
}

fn note_in_ring(
    alloc: Global,
    inlet: &Inlet,
    hook: Option<Box<CExp>>,
    next: u32,
) -> Option<List<CStm>>
    ensures { (h : CExp) → Gives hook h → Gives result (noted_in_ring inlet.now h next) }
{
    let noted = define(alloc, CType::Bool, variable(alloc, next).ok(), hook);
    let test = named(alloc, variable(alloc, next).ok());
    of_two(alloc, noted, grown_if(alloc, inlet, test))
}

fn grown_if(alloc: Global, inlet: &Inlet, test: Option<Box<CExp>>) -> Option<Box<CStm>>
    ensures { (t : CExp) → Gives test t → Gives result (grown_if inlet.now t) }
{
    one_if(alloc, test, of_one(alloc, grown(alloc, inlet)))
}

/// The oldest value leaves the wire.
pub fn take_out(alloc: Global, inlet: &Inlet) -> Option<List<CStm>>
    ensures { Gives result (take_out inlet.now) }
{
    if holds_one(inlet.depth) {
        return of_one(alloc, set(alloc, part(alloc, inlet, b"full"), false));
    }
    let fewer = decrement(alloc, part(alloc, inlet, b"count"));
    of_two(alloc, head_moved(alloc, inlet), fewer)
}

fn head_moved(alloc: Global, inlet: &Inlet) -> Option<Box<CStm>>
    ensures { Gives result (head_moved inlet.now) }
{
    let first = of_one(alloc, at_first(alloc, inlet));
    let next = of_one(alloc, increment(alloc, part(alloc, inlet, b"head")));
    either(alloc, is_last(alloc, inlet), first, next)
}

// The oldest place is the first one.
fn at_first(alloc: Global, inlet: &Inlet) -> Option<Box<CStm>>
    ensures { Gives result (at_first inlet.now) }
{
    assign(alloc, part(alloc, inlet, b"head"), number(alloc, 0))
}

fn is_last(alloc: Global, inlet: &Inlet) -> Option<Box<CExp>>
    ensures { Gives result (is_last inlet.now) }
{
    let end = u64::from(inlet.depth).saturating_sub(1);
    equal(alloc, part(alloc, inlet, b"head"), number(alloc, end))
}

/// The wire as it is at first.
pub fn start(
    alloc: Global,
    types: &CTypes,
    inlet: &Inlet,
    ty: &Ty,
    initial: &Option<Value>,
) -> Option<List<CStm>>
    ensures { Gives result (start (gathered types.now) inlet.now ty.now initial.now) }
{
    match initial {
        None => started(alloc, inlet, false),
        Some(first) => {
            let place = first_value(alloc, inlet)?;
            let written = value_written(alloc, types, &place, ty, first);
            appended(started(alloc, inlet, true), written)
        }
    }
}

// The wire without values, or as one with a value that is still to be written.
fn started(alloc: Global, inlet: &Inlet, there: bool) -> Option<List<CStm>>
    ensures { Gives result (started inlet.now there) }
{
    if holds_one(inlet.depth) {
        return of_one(alloc, set(alloc, part(alloc, inlet, b"full"), there));
    }
    let count = part(alloc, inlet, b"count");
    let counted = assign(alloc, count, how_many(alloc, there));
    of_two(alloc, at_first(alloc, inlet), counted)
}

fn how_many(alloc: Global, there: bool) -> Option<Box<CExp>>
    ensures { Gives result (how_many there) }
{
    if there {
        number(alloc, 1)
    } else {
        number(alloc, 0)
    }
}
