//! The static memory of a file.
ghost use Rattle.std.specs.Prelude.{◌≡◌, ◌++◌, OnOk, IfOk};
ghost use Rattle.std.specs.List.{flat_map};
ghost use Rattle.c_sizes.specs.Memory.{item_rows, member_row, memory_rows, row_of, together};

use crate::bytes::Bytes;
use crate::layout::{Types, declare, struct_layout, type_layout};
use c_tree::{CItem, CMember, CProgram};
use hume_base::{List, Text};
use std::alloc::{AllocError, Global};

/// An object of a file, or a struct within one, and its bytes.
#[derive(Drop)]
pub struct Row {
    pub name: Text,
    /// Whether it lies within the object before it.
    pub inner: bool,
    pub bytes: Bytes,
}

/// The objects of a file with their bytes, each followed by the structs within it.
pub fn static_memory(alloc: Global, program: &CProgram) -> Result<List<Row>, AllocError>
    ensures { IfOk result (λ rows. rows ≡ memory_rows program.now.items) }
{
    let mut types = Types::new(alloc);
    let mut rows = List::new(alloc);
    for item in program.items.as_slice() {
        put_item(&mut rows, &types, item)?;
        declare(&mut types, item)?;
    }
    Ok(rows)
}

/// The bytes of all objects.
pub fn together(rows: &[Row]) -> Bytes
    ensures { result ≡ together rows.now }
{
    let mut sum = Bytes::same(0);
    for row in rows {
        if !row.inner {
            sum = sum.plus(row.bytes);
        }
    }
    sum
}

fn put_item(rows: &mut List<Row>, types: &Types, item: &CItem) -> Result<(), AllocError>
    ensures { OnOk result (rows.new ≡ rows.old ++ item_rows types.now item.now) }
{
    match item {
        CItem::Object(ty, name) => rows.push(row_of(name, false, type_layout(types, ty).size)?),
        CItem::StructObject(members, name) => {
            let members = members.as_slice();
            rows.push(row_of(name, false, struct_layout(types, members).size)?)?;
            put_members(rows, types, members)
        }
        CItem::Part(_) => Ok(()),
        CItem::Comment(_) => Ok(()),
        CItem::Enum(_) => Ok(()),
        CItem::Alias(_, _) => Ok(()),
        CItem::Struct(_, _) => Ok(()),
        CItem::Prototype(_) => Ok(()),
        CItem::Function(_) => Ok(()),
    }
}

fn put_members(rows: &mut List<Row>, types: &Types, members: &[CMember]) -> Result<(), AllocError>
    ensures { OnOk result (rows.new ≡ rows.old ++ flat_map (member_row types.now) members.now) }
{
    for member in members {
        put_member(rows, types, member)?;
    }
    Ok(())
}

#[tactic(auto, using(crate::proofs::MemberForms::row_forms))]
fn put_member(rows: &mut List<Row>, types: &Types, member: &CMember) -> Result<(), AllocError>
    ensures { OnOk result (rows.new ≡ rows.old ++ member_row types.now member.now) }
{
    match member {
        CMember::Struct(members, name) => {
            rows.push(row_of(name, true, struct_layout(types, members.as_slice()).size)?)
        }
        CMember::Comment(_) => Ok(()),
        CMember::Plain(_, _) => Ok(()),
        CMember::Array(_, _, _) => Ok(()),
        CMember::Union(_, _) => Ok(()),
    }
}

fn row_of(name: &Text, inner: bool, bytes: Bytes) -> Result<Row, AllocError>
    ensures { IfOk result (λ row. row ≡ row_of name.now inner bytes) }
{
    Ok(Row {
        name: name.copy()?,
        inner,
        bytes,
    })
}
