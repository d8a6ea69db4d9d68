//! The text of members of structs and unions, and of objects.
ghost use Rattle.std.specs.Prelude.{◌≡◌, ◌++◌, [], OnOk, map, codes};
ghost use Rattle.c_tree.specs.Statements.{block_text, each_behind};
ghost use Rattle.c_tree.specs.Program.{aggregate_text, array_text, member_line, name_line, object_text, struct_text};

use crate::put_words::{deeper, put_comment, put_number, put_type};
use crate::tree::{CMember, CType};
use std::alloc::AllocError;

/// Adds the text of a member behind a margin.
#[cycle(put_members)]
#[tactic(auto, using(crate::proofs::StatementForms::member_forms))]
fn put_member(text: &mut Vec<u8>, margin: &[u8], member: &CMember) -> Result<(), AllocError>
    ensures { OnOk result (text.new.items ≡ text.old.items ++ member_line member.now margin.now) }
{
    match member {
        CMember::Comment(comment) => put_comment(text, margin, comment.bytes()),
        CMember::Plain(ty, name) => {
            text.extend_from_slice(margin)?;
            put_object(text, ty, name.bytes())
        }
        CMember::Array(ty, name, count) => {
            text.extend_from_slice(margin)?;
            put_array(text, ty, name.bytes(), *count)
        }
        CMember::Struct(members, name) => {
            text.extend_from_slice(margin)?;
            put_aggregate(text, margin, b"struct", members.as_slice(), name.bytes())
        }
        CMember::Union(members, name) => {
            text.extend_from_slice(margin)?;
            put_aggregate(text, margin, b"union", members.as_slice(), name.bytes())
        }
    }
}

/// Adds a struct or a union, as the keyword says, and what it declares. Its last line has the margin.
#[cycle(put_members)]
#[tactic(auto, using(crate::proofs::Steps::text_steps))]
fn put_aggregate(
    text: &mut Vec<u8>,
    margin: &[u8],
    keyword: &[u8],
    members: &[CMember],
    name: &[u8],
) -> Result<(), AllocError>
    ensures { OnOk result (text.new.items ≡ text.old.items ++ aggregate_text keyword.now (map member_line members.now) name.now margin.now) }
{
    text.extend_from_slice(keyword)?;
    text.extend_from_slice(b" {\n")?;
    put_member_block(text, margin, members)?;
    put_name_line(text, margin, name)
}

#[cycle(put_members)]
#[tactic(auto, using(crate::proofs::Steps::text_steps))]
fn put_member_block(
    text: &mut Vec<u8>,
    margin: &[u8],
    members: &[CMember],
) -> Result<(), AllocError>
    ensures { OnOk result (text.new.items ≡ text.old.items ++ block_text margin.now (map member_line members.now)) }
{
    let inner = deeper(*text.allocator(), margin)?;
    put_members(text, inner.as_slice(), members)
}

#[cycle(put_members)]
#[tactic(auto, using(crate::proofs::Steps::text_steps))]
fn put_members(text: &mut Vec<u8>, margin: &[u8], members: &[CMember]) -> Result<(), AllocError>
    ensures { OnOk result (text.new.items ≡ text.old.items ++ each_behind margin.now (map member_line members.now)) }
{
    for member in members {
        put_member(text, margin, member)?;
    }
    Ok(())
}

/// Adds the last line of a struct or a union: the name that it declares.
#[tactic(auto, using(crate::proofs::Steps::text_steps))]
fn put_name_line(text: &mut Vec<u8>, margin: &[u8], name: &[u8]) -> Result<(), AllocError>
    ensures { OnOk result (text.new.items ≡ text.old.items ++ name_line name.now margin.now) }
{
    text.extend_from_slice(margin)?;
    text.extend_from_slice(b"} ")?;
    text.extend_from_slice(name)?;
    text.extend_from_slice(b";\n")
}

/// Adds a struct that isn't a member, and what it declares.
#[tactic(auto, using(crate::proofs::Steps::text_steps))]
pub fn put_struct(text: &mut Vec<u8>, members: &[CMember], name: &[u8]) -> Result<(), AllocError>
    ensures { OnOk result (text.new.items ≡ text.old.items ++ struct_text members.now name.now) }
{
    put_aggregate(text, b"", b"struct", members, name)
}

/// Adds the declaration of an object.
#[tactic(auto, using(crate::proofs::Steps::text_steps))]
pub fn put_object(text: &mut Vec<u8>, ty: &CType, name: &[u8]) -> Result<(), AllocError>
    ensures { OnOk result (text.new.items ≡ text.old.items ++ object_text ty.now name.now) }
{
    put_type(text, ty)?;
    text.extend_from_slice(b" ")?;
    text.extend_from_slice(name)?;
    text.extend_from_slice(b";\n")
}

#[tactic(auto, using(crate::proofs::Steps::text_steps))]
fn put_array(text: &mut Vec<u8>, ty: &CType, name: &[u8], count: u64) -> Result<(), AllocError>
    ensures { OnOk result (text.new.items ≡ text.old.items ++ array_text ty.now name.now count) }
{
    put_type(text, ty)?;
    text.extend_from_slice(b" ")?;
    text.extend_from_slice(name)?;
    text.extend_from_slice(b"[")?;
    put_number(text, count)?;
    text.extend_from_slice(b"];\n")
}
