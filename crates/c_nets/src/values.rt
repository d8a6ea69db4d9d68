//! Values that are written part by part.
ghost use Rattle.std.specs.Prelude.{◌≡◌, option_copied, slice_get};
ghost use Rattle.hume_base.specs.declared.types.Ty.{out-Ty};
ghost use Rattle.c_forms.specs.Gives.{Gives};
ghost use Rattle.c_types.specs.Shapes.{seen};
ghost use Rattle.c_types.specs.Gathered.{gathered, tag};
ghost use Rattle.c_tree.specs.declared.tree.CStm.TheVariants as stm;
ghost use Rattle.c_nets.specs.Values.{assigned, constructor_fields, element_of, elements_written, field_of, field_written};
ghost use Rattle.c_nets.specs.inner.Several.{all_write, constructor_by};
ghost use Rattle.c_nets.specs.Values.{fields_written, tag_of, tag_written, tagged_written, tuple_written, union_fields, union_member, vector_written};
ghost use Rattle.c_nets.specs.Values.{word_written, writes};

use c_forms::{
    append, assign, before, copy_exp, element, member, member_named, numbered, of_one, unsigned,
};
use c_names::constructor_member;
use c_tree::{CExp, CStm, Width};
use c_types::{CTypes, Shape, literal};
use hume_base::{Box, ConDef, List, Shared, SumDef, Ty, Value};
use std::alloc::Global;

/// The statements that write a value to an object.
#[cycle(value_written)]
#[tactic(auto, using(crate::proofs::ValueForms::value_forms))]
pub fn value_written(
    alloc: Global,
    types: &CTypes,
    object: &CExp,
    ty: &Ty,
    value: &Value,
) -> Option<List<CStm>>
    ensures { Gives result (writes (gathered types.now) value.now object.now ty.now) }
{
    match value {
        Value::Word(word) => word_written(alloc, object, ty, *word),
        Value::Tuple(parts) => tuple_written(alloc, types, object, ty, parts.as_slice()),
        Value::Vector(parts) => vector_written(alloc, types, object, ty, parts.as_slice()),
        Value::Con(place, parts) => {
            let shape = types.shape(ty);
            constructor_written(alloc, types, object, *place, parts.as_slice(), shape)
        }
    }
}

fn word_written(alloc: Global, object: &CExp, ty: &Ty, word: u64) -> Option<List<CStm>>
    ensures { Gives result (word_written object.now ty.now word) }
{
    assigned(alloc, object, literal(alloc, ty, word))
}

fn assigned(alloc: Global, object: &CExp, value: Option<Box<CExp>>) -> Option<List<CStm>>
    ensures { (v : CExp) → Gives value v → Gives result (assigned object.now v) }
{
    of_one(alloc, assign(alloc, copy_exp(alloc, object), value))
}

#[cycle(value_written)]
#[tactic(auto, using(crate::proofs::ValueForms::value_forms))]
fn tuple_written(
    alloc: Global,
    types: &CTypes,
    object: &CExp,
    ty: &Ty,
    parts: &[Value],
) -> Option<List<CStm>>
    ensures { Gives result (tuple_written object.now (all_write (gathered types.now) parts.now) (out-Ty ty.now)) }
{
    match ty {
        Ty::Tuple(tys) => fields_written(alloc, types, object, tys.as_slice(), parts),
        _ => Some(List::new(alloc)),
    }
}

#[cycle(value_written)]
#[tactic(auto, using(crate::proofs::ValueForms::value_forms))]
fn vector_written(
    alloc: Global,
    types: &CTypes,
    object: &CExp,
    ty: &Ty,
    parts: &[Value],
) -> Option<List<CStm>>
    ensures { Gives result (vector_written object.now (all_write (gathered types.now) parts.now) (out-Ty ty.now)) }
{
    match ty {
        Ty::Vector(_, item) => elements_written(alloc, types, object, item, parts),
        _ => Some(List::new(alloc)),
    }
}

#[cycle(value_written)]
#[tactic(auto, using(crate::proofs::ValueForms::value_forms))]
fn fields_written(
    alloc: Global,
    types: &CTypes,
    object: &CExp,
    tys: &[Shared<Ty>],
    parts: &[Value],
) -> Option<List<CStm>>
    ensures { Gives result (fields_written object.now tys.now 0 (all_write (gathered types.now) parts.now)) }
{
    let mut statements = List::new(alloc);
    for (place, part) in parts.iter().enumerate() {
        append(
            &mut statements,
            field_written(alloc, types, object, place, tys, part),
        )?;
    }
    Some(statements)
}

#[cycle(value_written)]
#[tactic(auto, using(crate::proofs::ValueForms::value_forms))]
fn field_written(
    alloc: Global,
    types: &CTypes,
    object: &CExp,
    place: usize,
    tys: &[Shared<Ty>],
    part: &Value,
) -> Option<List<CStm>>
    ensures { Gives result (field_written object.now place (writes (gathered types.now) part.now) (slice_get tys.now place)) }
{
    match tys.get(place) {
        None => Some(List::new(alloc)),
        Some(ty) => {
            let field = field_of(alloc, object, place)?;
            value_written(alloc, types, &field, ty, part)
        }
    }
}

fn field_of(alloc: Global, object: &CExp, place: usize) -> Option<Box<CExp>>
    ensures { Gives result (field_of object.now place) }
{
    let name = numbered(alloc, b"f", place as u64).ok();
    member_named(alloc, copy_exp(alloc, object), name)
}

#[cycle(value_written)]
#[tactic(auto, using(crate::proofs::ValueForms::value_forms))]
fn elements_written(
    alloc: Global,
    types: &CTypes,
    object: &CExp,
    item: &Ty,
    parts: &[Value],
) -> Option<List<CStm>>
    ensures { Gives result (elements_written object.now item.now 0 (all_write (gathered types.now) parts.now)) }
{
    let mut statements = List::new(alloc);
    for (place, part) in parts.iter().enumerate() {
        append(
            &mut statements,
            element_written(alloc, types, object, place, item, part),
        )?;
    }
    Some(statements)
}

#[cycle(value_written)]
#[tactic(auto, using(crate::proofs::ValueForms::value_forms))]
fn element_written(
    alloc: Global,
    types: &CTypes,
    object: &CExp,
    place: usize,
    item: &Ty,
    part: &Value,
) -> Option<List<CStm>>
    ensures { Gives result (writes (gathered types.now) part.now (element_of object.now place) item.now) }
{
    let one = element_of(alloc, object, place)?;
    value_written(alloc, types, &one, item, part)
}

fn element_of(alloc: Global, object: &CExp, place: usize) -> Option<Box<CExp>>
    ensures { Gives result (element_of object.now place) }
{
    let elements = member(alloc, copy_exp(alloc, object), b"e");
    element(alloc, elements, unsigned(alloc, Width::W16, place as u64))
}

#[cycle(value_written)]
#[tactic(auto, using(crate::proofs::ValueForms::value_forms))]
fn constructor_written(
    alloc: Global,
    types: &CTypes,
    object: &CExp,
    place: u32,
    parts: &[Value],
    shape: Shape,
) -> Option<List<CStm>>
    ensures { Gives result (constructor_by (gathered types.now) object.now place parts.now (seen shape.entry)) }
{
    match shape {
        Shape::Enumeration(sum) => tag_written(alloc, types, object, sum, place),
        Shape::Record(sum) => constructor_fields(alloc, types, object, parts, sum.cons.get(0)),
        Shape::Tagged(sum) => tagged_written(alloc, types, object, place, parts, sum),
        _ => Some(List::new(alloc)),
    }
}

fn tag_written(
    alloc: Global,
    types: &CTypes,
    object: &CExp,
    sum: &SumDef,
    place: u32,
) -> Option<List<CStm>>
    ensures { Gives result (tag_written (gathered types.now).names object.now sum.now place) }
{
    assigned(alloc, object, types.tag(alloc, sum, place))
}

#[cycle(value_written)]
#[tactic(auto, using(crate::proofs::ValueForms::value_forms))]
fn tagged_written(
    alloc: Global,
    types: &CTypes,
    object: &CExp,
    place: u32,
    parts: &[Value],
    sum: &SumDef,
) -> Option<List<CStm>>
    ensures { Gives result (tagged_written (gathered types.now).names object.now place (all_write (gathered types.now) parts.now) sum.now) }
{
    let tag = own_tag_written(alloc, types, object, sum, place);
    let con = sum.cons.get(place as usize);
    before(alloc, tag, union_fields(alloc, types, object, parts, con))
}

fn own_tag_written(
    alloc: Global,
    types: &CTypes,
    object: &CExp,
    sum: &SumDef,
    place: u32,
) -> Option<Box<CStm>>
    ensures { Gives result (stm.Assign (tag_of object.now) (tag (gathered types.now).names sum.now place)) }
{
    assign(alloc, tag_of(alloc, object), types.tag(alloc, sum, place))
}

fn tag_of(alloc: Global, object: &CExp) -> Option<Box<CExp>>
    ensures { Gives result (tag_of object.now) }
{
    member(alloc, copy_exp(alloc, object), b"tag")
}

#[cycle(value_written)]
#[tactic(auto, using(crate::proofs::ValueForms::value_forms))]
fn constructor_fields(
    alloc: Global,
    types: &CTypes,
    object: &CExp,
    parts: &[Value],
    con: Option<&ConDef>,
) -> Option<List<CStm>>
    ensures { Gives result (constructor_fields object.now (all_write (gathered types.now) parts.now) (option_copied con.entry)) }
{
    match con {
        None => Some(List::new(alloc)),
        Some(con) => fields_written(alloc, types, object, con.fields.as_slice(), parts),
    }
}

#[cycle(value_written)]
#[tactic(auto, using(crate::proofs::ValueForms::value_forms))]
fn union_fields(
    alloc: Global,
    types: &CTypes,
    object: &CExp,
    parts: &[Value],
    con: Option<&ConDef>,
) -> Option<List<CStm>>
    ensures { Gives result (union_fields object.now (all_write (gathered types.now) parts.now) (option_copied con.entry)) }
{
    match con {
        None => Some(List::new(alloc)),
        Some(con) => {
            let fields = union_member(alloc, object, con)?;
            fields_written(alloc, types, &fields, con.fields.as_slice(), parts)
        }
    }
}

fn union_member(alloc: Global, object: &CExp, con: &ConDef) -> Option<Box<CExp>>
    ensures { Gives result (union_member object.now con.now) }
{
    let name = constructor_member(alloc, con.name.bytes()).ok();
    let union = member(alloc, copy_exp(alloc, object), b"u");
    member_named(alloc, union, name)
}
