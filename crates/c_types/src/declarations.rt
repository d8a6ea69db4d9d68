//! The declarations of types.
ghost use Rattle.std.specs.Prelude.{◌≡◌, ◌∷◌, [], codes, IfOk};
ghost use Rattle.std.specs.List.{flat_map};
ghost use Rattle.hume_base.specs.declared.types.Ty.{out-Ty};
ghost use Rattle.c_tree.specs.declared.tree.CMember.TheVariants as member;
ghost use Rattle.c_tree.specs.declared.tree.CItem.TheVariants as item;
ghost use Rattle.c_types.specs.Shapes.{seen};
ghost use Rattle.c_types.specs.Gathered.{gathered, c_type};
ghost use Rattle.c_types.specs.Declarations.{fields, constant, constants, constants_from, tag_type, first_fields, constructor_members, tagged_members};
ghost use Rattle.c_types.specs.Declarations.{data_items, items_in, items_of};

use crate::gathered::CTypes;
use crate::shapes::{Shape, tag_width};
use c_forms::text;
use c_names::{Names, constructor_member, field};
use c_tree::{CConstant, CItem, CMember, CType};
use hume_base::{ConDef, List, Shared, SumDef, Text, Ty};
use std::alloc::{AllocError, Global};

/// The declarations of a type.
pub(crate) fn items_of(alloc: Global, types: &CTypes, ty: &Ty) -> Result<List<CItem>, AllocError>
    ensures { IfOk result (λ items. items ≡ items_of (gathered types.now) ty.now) }
{
    match types.c_type(alloc, ty)? {
        CType::Named(name) => items_named(alloc, types, ty, name),
        CType::Bool | CType::Signed(_) | CType::Unsigned(_) => Ok(List::new(alloc)),
    }
}

fn items_named(
    alloc: Global,
    types: &CTypes,
    ty: &Ty,
    name: Text,
) -> Result<List<CItem>, AllocError>
    ensures { IfOk result (λ items. items ≡ items_in (gathered types.now) ty.now name (out-Ty ty.now)) }
{
    match ty {
        Ty::Tuple(parts) => {
            let members = fields(alloc, types, parts.as_slice())?;
            List::of_one(alloc, CItem::Struct(members, name))
        }
        Ty::Vector(count, element) => {
            let members = List::of_one(alloc, array(alloc, types, element, *count)?)?;
            List::of_one(alloc, CItem::Struct(members, name))
        }
        Ty::Named(_) => data_items(alloc, types, types.shape(ty), name),
        Ty::Bool | Ty::Char | Ty::Int(_) | Ty::Nat(_) => Ok(List::new(alloc)),
    }
}

// The elements of a vector.
fn array(alloc: Global, types: &CTypes, element: &Ty, count: u32) -> Result<CMember, AllocError>
    ensures { IfOk result (λ made. made ≡ member.Array (c_type (gathered types.now) element.now) (codes "e") count) }
{
    let ty = types.c_type(alloc, element)?;
    Ok(CMember::Array(ty, text(alloc, b"e")?, u64::from(count)))
}

fn data_items(
    alloc: Global,
    types: &CTypes,
    shape: Shape,
    name: Text,
) -> Result<List<CItem>, AllocError>
    ensures { IfOk result (λ items. items ≡ data_items (gathered types.now) name (seen shape.entry)) }
{
    match shape {
        Shape::Enumeration(sum) => enumeration_items(alloc, types, sum, name),
        Shape::Record(sum) => {
            let members = first_fields(alloc, types, sum.cons.as_slice())?;
            List::of_one(alloc, CItem::Struct(members, name))
        }
        Shape::Tagged(sum) => tagged_items(alloc, types, sum, name),
        Shape::Bool | Shape::Signed(_) | Shape::Unsigned(_) => Ok(List::new(alloc)),
        Shape::Tuple | Shape::Vector(_) => Ok(List::new(alloc)),
    }
}

fn enumeration_items(
    alloc: Global,
    types: &CTypes,
    sum: &SumDef,
    name: Text,
) -> Result<List<CItem>, AllocError>
    ensures { IfOk result (λ items. items ≡ item.Alias (tag_type sum.now) name ∷ constants types.now.names.now sum.now ∷ []) }
{
    let mut items = List::of_one(alloc, CItem::Alias(tag_type(sum), name))?;
    items.push(constants(alloc, types.names(), sum)?)?;
    Ok(items)
}

fn tagged_items(
    alloc: Global,
    types: &CTypes,
    sum: &SumDef,
    name: Text,
) -> Result<List<CItem>, AllocError>
    ensures { IfOk result (λ items. items
        ≡ constants types.now.names.now sum.now ∷ item.Struct (tagged_members (gathered types.now) sum.now) name ∷ []) }
{
    let mut items = List::of_one(alloc, constants(alloc, types.names(), sum)?)?;
    items.push(CItem::Struct(tagged_members(alloc, types, sum)?, name))?;
    Ok(items)
}

fn tag_type(sum: &SumDef) -> CType
    ensures { result ≡ tag_type sum.now }
{
    CType::Unsigned(tag_width(sum.cons.len()))
}

// The constants of the constructors whose places every `int` holds.
fn constants(alloc: Global, names: &Names, sum: &SumDef) -> Result<CItem, AllocError>
    ensures { IfOk result (λ made. made ≡ constants names.now sum.now) }
{
    Ok(CItem::Enum(constants_of(alloc, names, sum.cons.as_slice())?))
}

fn constants_of(
    alloc: Global,
    names: &Names,
    cons: &[ConDef],
) -> Result<List<CConstant>, AllocError>
    ensures { IfOk result (λ made. made ≡ constants_from names.now 0 cons.now) }
{
    let mut constants = List::new(alloc);
    for (place, con) in cons.iter().enumerate() {
        if place < 32_768 {
            constants.push(constant(alloc, names, con, place as u64)?)?;
        }
    }
    Ok(constants)
}

fn constant(alloc: Global, names: &Names, con: &ConDef, place: u64) -> Result<CConstant, AllocError>
    ensures { IfOk result (λ made. made ≡ constant names.now place con.now) }
{
    Ok(CConstant {
        name: names.constructor(alloc, con.name.bytes())?,
        value: place,
    })
}

fn first_fields(alloc: Global, types: &CTypes, cons: &[ConDef]) -> Result<List<CMember>, AllocError>
    ensures { IfOk result (λ members. members ≡ first_fields (gathered types.now) cons.now) }
{
    match cons.first() {
        None => Ok(List::new(alloc)),
        Some(con) => fields(alloc, types, con.fields.as_slice()),
    }
}

fn fields(alloc: Global, types: &CTypes, tys: &[Shared<Ty>]) -> Result<List<CMember>, AllocError>
    ensures { IfOk result (λ members. members ≡ fields (gathered types.now) tys.now) }
{
    let mut members = List::new(alloc);
    for (place, ty) in tys.iter().enumerate() {
        let ty = types.c_type(alloc, ty)?;
        members.push(CMember::Plain(ty, field(alloc, place as u64)?))?;
    }
    Ok(members)
}

fn tagged_members(alloc: Global, types: &CTypes, sum: &SumDef) -> Result<List<CMember>, AllocError>
    ensures { IfOk result (λ members. members ≡ tagged_members (gathered types.now) sum.now) }
{
    let mut members = List::of_one(alloc, tag_member(alloc, sum)?)?;
    members.push(union_member(alloc, types, sum.cons.as_slice())?)?;
    Ok(members)
}

fn tag_member(alloc: Global, sum: &SumDef) -> Result<CMember, AllocError>
    ensures { IfOk result (λ made. made ≡ member.Plain (tag_type sum.now) (codes "tag")) }
{
    let name = text(alloc, b"tag")?;
    Ok(CMember::Plain(tag_type(sum), name))
}

fn union_member(alloc: Global, types: &CTypes, cons: &[ConDef]) -> Result<CMember, AllocError>
    ensures { IfOk result (λ made. made
        ≡ member.Union (flat_map (constructor_members (gathered types.now)) cons.now) (codes "u")) }
{
    let parts = union_members(alloc, types, cons)?;
    Ok(CMember::Union(parts, text(alloc, b"u")?))
}

fn union_members(
    alloc: Global,
    types: &CTypes,
    cons: &[ConDef],
) -> Result<List<CMember>, AllocError>
    ensures { IfOk result (λ members. members ≡ flat_map (constructor_members (gathered types.now)) cons.now) }
{
    let mut members = List::new(alloc);
    for con in cons {
        members.append(constructor_members(alloc, types, con)?)?;
    }
    Ok(members)
}

// The fields of a constructor as one member, if it has some.
fn constructor_members(
    alloc: Global,
    types: &CTypes,
    con: &ConDef,
) -> Result<List<CMember>, AllocError>
    ensures { IfOk result (λ members. members ≡ constructor_members (gathered types.now) con.now) }
{
    if con.fields.is_empty() {
        return Ok(List::new(alloc));
    }
    let parts = fields(alloc, types, con.fields.as_slice())?;
    let name = constructor_member(alloc, con.name.bytes())?;
    List::of_one(alloc, CMember::Struct(parts, name))
}
