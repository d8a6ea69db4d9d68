//! How types lie in memory.
ghost use Rattle.std.specs.Prelude.{◌≡◌, OnOk, map};
ghost use Rattle.c_sizes.specs.Layout.{array, behind, beside, bytes_of, declared, empty, ended, member_layout, number, struct_layout};
ghost use Rattle.c_sizes.specs.Layout.{type_layout, union_of};

use crate::bytes::Bytes;
use crate::table::Table;
use c_tree::{CItem, CMember, CType, Width};
use std::alloc::AllocError;

/// The size of a type, and at whose multiples it lies.
#[derive(Clone, Copy)]
pub(crate) struct Layout {
    pub(crate) size: Bytes,
    pub(crate) align: Bytes,
}

/// The types that a file has declared so far.
pub(crate) type Types<'a> = Table<'a, Layout>;

impl Layout {
    pub(crate) fn empty() -> Layout
        ensures { result ≡ empty }
    {
        Layout {
            size: Bytes::same(0),
            align: Bytes::same(1),
        }
    }

    fn number(bytes: u64) -> Layout
        ensures { result ≡ number bytes }
    {
        Layout {
            size: Bytes::same(bytes),
            align: Bytes::up_to(bytes),
        }
    }

    fn array(self, count: u64) -> Layout
        ensures { result ≡ array count self }
    {
        Layout {
            size: self.size.times(count),
            align: self.align,
        }
    }

    /// With a member of a struct behind it.
    fn behind(self, member: Layout) -> Layout
        ensures { result ≡ behind self member }
    {
        Layout {
            size: self.size.padded(member.align).plus(member.size),
            align: self.align.greatest(member.align),
        }
    }

    /// With a member of a union beside it.
    fn beside(self, member: Layout) -> Layout
        ensures { result ≡ beside self member }
    {
        Layout {
            size: self.size.greatest(member.size),
            align: self.align.greatest(member.align),
        }
    }

    fn ended(self) -> Layout
        ensures { result ≡ ended self }
    {
        Layout {
            size: self.size.padded(self.align),
            align: self.align,
        }
    }
}

fn bytes_of(width: Width) -> u64
    ensures { result ≡ bytes_of width }
{
    match width {
        Width::W8 => 1,
        Width::W16 => 2,
        Width::W32 => 4,
        Width::W64 => 8,
    }
}

pub(crate) fn type_layout(types: &Types, ty: &CType) -> Layout
    ensures { result ≡ type_layout types.now ty.now }
{
    match ty {
        CType::Bool => Layout::number(1),
        CType::Signed(width) => Layout::number(bytes_of(*width)),
        CType::Unsigned(width) => Layout::number(bytes_of(*width)),
        CType::Named(name) => types.find(name.bytes()).unwrap_or(Layout::empty()),
    }
}

#[cycle(member_layout)]
#[tactic(auto, using(crate::proofs::MemberForms::member_forms))]
fn member_layout(types: &Types, member: &CMember) -> Layout
    ensures { result ≡ member_layout types.now member.now }
{
    match member {
        CMember::Comment(_) => Layout::empty(),
        CMember::Plain(ty, _) => type_layout(types, ty),
        CMember::Array(ty, _, count) => type_layout(types, ty).array(*count),
        CMember::Struct(members, _) => struct_layout(types, members.as_slice()),
        CMember::Union(members, _) => union_layout(types, members.as_slice()),
    }
}

#[cycle(member_layout)]
pub(crate) fn struct_layout(types: &Types, members: &[CMember]) -> Layout
    ensures { result ≡ struct_layout types.now members.now }
{
    let mut others = Layout::empty();
    for member in members {
        others = others.behind(member_layout(types, member));
    }
    others.ended()
}

#[cycle(member_layout)]
fn union_layout(types: &Types, members: &[CMember]) -> Layout
    ensures { result ≡ union_of (map (member_layout types.now) members.now) }
{
    let mut others = Layout::empty();
    for member in members {
        others = others.beside(member_layout(types, member));
    }
    others.ended()
}

/// Adds the type that an item declares, if it declares one.
pub(crate) fn declare<'a>(types: &mut Types<'a>, item: &'a CItem) -> Result<(), AllocError>
    ensures { OnOk result (types.new ≡ declared types.old item.now) }
{
    match item {
        CItem::Alias(ty, name) => {
            let layout = type_layout(types, ty);
            types.add(name.bytes(), layout)
        }
        CItem::Struct(members, name) => {
            let layout = struct_layout(types, members.as_slice());
            types.add(name.bytes(), layout)
        }
        CItem::Part(_) => Ok(()),
        CItem::Comment(_) => Ok(()),
        CItem::Enum(_) => Ok(()),
        CItem::Object(_, _) => Ok(()),
        CItem::StructObject(_, _) => Ok(()),
        CItem::Prototype(_) => Ok(()),
        CItem::Function(_) => Ok(()),
    }
}
