//! Functions, members and objects. Where a part is lacking, as memory ran out, so is the whole.
ghost use Rattle.std.specs.Prelude.{◌≡◌, ℕ, List};
ghost use Rattle.c_tree.specs.declared.tree.CItem.TheVariants as item;
ghost use Rattle.c_tree.specs.declared.tree.CMember.TheVariants as member;
ghost use Rattle.c_forms.specs.Gives.{Gives};
ghost use Rattle.c_forms.specs.Items.{function, parameter};

use crate::texts::text;
use c_tree::{CConstant, CFunction, CHead, CItem, CMember, CParameter, CStm, CType, Passing};
use hume_base::{Box, List, Text};
use std::alloc::Global;

/// A function without a comment.
pub fn function(
    alloc: Global,
    head: Option<Box<CHead>>,
    body: Option<List<CStm>>,
) -> Option<Box<CItem>>
    ensures { (h : CHead) (b : List CStm) → Gives head h → Gives body b → Gives result (item.Function (function h b)) }
{
    match (head, body) {
        (Some(head), Some(body)) => {
            let function = CFunction {
                comment: None,
                head: head.into_inner(),
                body,
            };
            Box::new(alloc, CItem::Function(function)).ok()
        }
        _ => None,
    }
}

pub fn parameter(
    alloc: Global,
    ty: CType,
    passing: Passing,
    name: Option<Text>,
) -> Option<Box<CParameter>>
    ensures { (n : List ℕ) → Gives name n → Gives result (parameter ty passing n) }
{
    match name {
        Some(name) => Box::new(alloc, CParameter { ty, passing, name }).ok(),
        None => None,
    }
}

pub fn prototype(alloc: Global, head: Option<Box<CHead>>) -> Option<Box<CItem>>
    ensures { (h : CHead) → Gives head h → Gives result (item.Prototype h) }
{
    match head {
        Some(head) => Box::new(alloc, CItem::Prototype(head.into_inner())).ok(),
        None => None,
    }
}

pub fn enumeration(alloc: Global, constants: Option<List<CConstant>>) -> Option<Box<CItem>>
    ensures { (c : List CConstant) → Gives constants c → Gives result (item.Enum c) }
{
    match constants {
        Some(constants) => Box::new(alloc, CItem::Enum(constants)).ok(),
        None => None,
    }
}

/// A static object of the type.
pub fn object(alloc: Global, ty: Option<CType>, name: Option<Text>) -> Option<Box<CItem>>
    ensures { (t : CType) (n : List ℕ) → Gives ty t → Gives name n → Gives result (item.Object t n) }
{
    match (ty, name) {
        (Some(ty), Some(name)) => Box::new(alloc, CItem::Object(ty, name)).ok(),
        _ => None,
    }
}

/// A static object that is a struct.
pub fn struct_object(
    alloc: Global,
    members: Option<List<CMember>>,
    name: Option<Text>,
) -> Option<Box<CItem>>
    ensures { (m : List CMember) (n : List ℕ) → Gives members m → Gives name n → Gives result (item.StructObject m n) }
{
    match (members, name) {
        (Some(members), Some(name)) => { Box::new(alloc, CItem::StructObject(members, name)).ok() }
        _ => None,
    }
}

pub fn member_comment(alloc: Global, bytes: &[u8]) -> Option<Box<CMember>>
    ensures { Gives result (member.Comment bytes.now) }
{
    match text(alloc, bytes) {
        Ok(text) => Box::new(alloc, CMember::Comment(text)).ok(),
        Err(_) => None,
    }
}

pub fn plain_member(alloc: Global, ty: Option<CType>, name: Option<Text>) -> Option<Box<CMember>>
    ensures { (t : CType) (n : List ℕ) → Gives ty t → Gives name n → Gives result (member.Plain t n) }
{
    match (ty, name) {
        (Some(ty), Some(name)) => Box::new(alloc, CMember::Plain(ty, name)).ok(),
        _ => None,
    }
}

/// An array of so many elements.
pub fn array_member(
    alloc: Global,
    ty: Option<CType>,
    name: Option<Text>,
    count: u64,
) -> Option<Box<CMember>>
    ensures { (t : CType) (n : List ℕ) → Gives ty t → Gives name n → Gives result (member.Array t n count) }
{
    match (ty, name) {
        (Some(ty), Some(name)) => Box::new(alloc, CMember::Array(ty, name, count)).ok(),
        _ => None,
    }
}

/// A member that is a struct.
pub fn struct_member(
    alloc: Global,
    parts: Option<List<CMember>>,
    name: Option<Text>,
) -> Option<Box<CMember>>
    ensures { (p : List CMember) (n : List ℕ) → Gives parts p → Gives name n → Gives result (member.Struct p n) }
{
    match (parts, name) {
        (Some(parts), Some(name)) => Box::new(alloc, CMember::Struct(parts, name)).ok(),
        _ => None,
    }
}
