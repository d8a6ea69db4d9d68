//! The text of declarations and of a whole file.
ghost use Rattle.std.specs.Prelude.{◌≡◌, ◌++◌, [], OnOk, map, codes};
ghost use Rattle.std.specs.List.{flat_map};
ghost use Rattle.c_tree.specs.Words.{newline, separated};
ghost use Rattle.c_tree.specs.Program.{comment_above, constant_text, declared_text, enum_text};
ghost use Rattle.c_tree.specs.Program.{function_text, head_text, include_text, item_text, linkage_text};
ghost use Rattle.c_tree.specs.Program.{object_text, parameter_text, parameters_text, passing_text, program_text, result_text, struct_text};

use crate::put_members::{put_object, put_struct};
use crate::put_statements::put_block;
use crate::put_words::{put_comment, put_number, put_type};
use crate::tree::{
    CConstant, CFunction, CHead, CItem, CParameter, CProgram, CType, Linkage, Passing,
};
use hume_base::Text;
use std::alloc::AllocError;

/// Adds the text of a file.
#[tactic(auto, using(crate::proofs::Steps::text_steps))]
pub fn put_program(text: &mut Vec<u8>, program: &CProgram) -> Result<(), AllocError>
    ensures { OnOk result (text.new.items ≡ text.old.items ++ program_text program.now) }
{
    put_comment(text, b"", program.comment.bytes())?;
    put_includes(text, program.headers.as_slice())?;
    put_items(text, program.items.as_slice())
}

fn put_includes(text: &mut Vec<u8>, headers: &[Text]) -> Result<(), AllocError>
    ensures { OnOk result (text.new.items ≡ text.old.items ++ flat_map include_text headers.now) }
{
    for header in headers {
        put_include(text, header.bytes())?;
    }
    Ok(())
}

#[tactic(auto, using(crate::proofs::Steps::text_steps))]
fn put_include(text: &mut Vec<u8>, header: &[u8]) -> Result<(), AllocError>
    ensures { OnOk result (text.new.items ≡ text.old.items ++ include_text header.now) }
{
    text.extend_from_slice(b"#include <")?;
    text.extend_from_slice(header)?;
    text.extend_from_slice(b">\n")
}

fn put_items(text: &mut Vec<u8>, items: &[CItem]) -> Result<(), AllocError>
    ensures { OnOk result (text.new.items ≡ text.old.items ++ flat_map item_text items.now) }
{
    for item in items {
        put_item(text, item)?;
    }
    Ok(())
}

#[tactic(auto, using(crate::proofs::Steps::text_steps))]
fn put_item(text: &mut Vec<u8>, item: &CItem) -> Result<(), AllocError>
    ensures { OnOk result (text.new.items ≡ text.old.items ++ item_text item.now) }
{
    match item {
        CItem::Part(comment) => {
            text.extend_from_slice(b"\n")?;
            put_comment(text, b"", comment.bytes())
        }
        CItem::Comment(comment) => put_comment(text, b"", comment.bytes()),
        CItem::Enum(constants) => put_enum(text, constants.as_slice()),
        CItem::Alias(ty, name) => {
            text.extend_from_slice(b"typedef ")?;
            put_object(text, ty, name.bytes())
        }
        CItem::Struct(members, name) => {
            text.extend_from_slice(b"typedef ")?;
            put_struct(text, members.as_slice(), name.bytes())
        }
        CItem::Object(ty, name) => {
            text.extend_from_slice(b"static ")?;
            put_object(text, ty, name.bytes())
        }
        CItem::StructObject(members, name) => {
            text.extend_from_slice(b"static ")?;
            put_struct(text, members.as_slice(), name.bytes())
        }
        CItem::Prototype(head) => {
            put_head(text, head)?;
            text.extend_from_slice(b";\n")
        }
        CItem::Function(function) => put_function(text, function),
    }
}

#[tactic(auto, using(crate::proofs::Steps::text_steps))]
fn put_enum(text: &mut Vec<u8>, constants: &[CConstant]) -> Result<(), AllocError>
    ensures { OnOk result (text.new.items ≡ text.old.items ++ enum_text constants.now) }
{
    text.extend_from_slice(b"enum { ")?;
    put_constants(text, constants)?;
    text.extend_from_slice(b" };\n")
}

#[tactic(auto, using(crate::proofs::Steps::text_steps))]
fn put_constants(text: &mut Vec<u8>, constants: &[CConstant]) -> Result<(), AllocError>
    ensures { OnOk result (text.new.items ≡ text.old.items ++ separated (codes ", ") (map constant_text constants.now)) }
{
    match constants.split_first() {
        None => Ok(()),
        Some((first, others)) => {
            put_constant(text, first)?;
            put_other_constants(text, others)
        }
    }
}

#[tactic(auto, using(crate::proofs::Steps::text_steps))]
fn put_other_constants(text: &mut Vec<u8>, others: &[CConstant]) -> Result<(), AllocError>
    ensures { OnOk result (text.new.items ≡ text.old.items ++ flat_map (λ part. codes ", " ++ part) (map constant_text others.now)) }
{
    for constant in others {
        text.extend_from_slice(b", ")?;
        put_constant(text, constant)?;
    }
    Ok(())
}

#[tactic(auto, using(crate::proofs::Steps::text_steps))]
fn put_constant(text: &mut Vec<u8>, constant: &CConstant) -> Result<(), AllocError>
    ensures { OnOk result (text.new.items ≡ text.old.items ++ constant_text constant.now) }
{
    text.extend_from_slice(constant.name.bytes())?;
    text.extend_from_slice(b" = ")?;
    put_number(text, constant.value)
}

#[tactic(auto, using(crate::proofs::Steps::text_steps))]
fn put_function(text: &mut Vec<u8>, function: &CFunction) -> Result<(), AllocError>
    ensures { OnOk result (text.new.items ≡ text.old.items ++ function_text function.now) }
{
    text.extend_from_slice(b"\n")?;
    put_comment_above(text, &function.comment)?;
    put_head(text, &function.head)?;
    text.extend_from_slice(b"\n{\n")?;
    put_block(text, b"", function.body.as_slice())?;
    text.extend_from_slice(b"}\n")
}

fn put_comment_above(text: &mut Vec<u8>, comment: &Option<Text>) -> Result<(), AllocError>
    ensures { OnOk result (text.new.items ≡ text.old.items ++ comment_above comment.now) }
{
    match comment {
        None => Ok(()),
        Some(comment) => put_comment(text, b"", comment.bytes()),
    }
}

#[tactic(auto, using(crate::proofs::Steps::text_steps))]
fn put_head(text: &mut Vec<u8>, head: &CHead) -> Result<(), AllocError>
    ensures { OnOk result (text.new.items ≡ text.old.items ++ head_text head.now) }
{
    put_declared(text, head)?;
    text.extend_from_slice(b"(")?;
    put_parameters(text, head.parameters.as_slice())?;
    text.extend_from_slice(b")")
}

/// Adds what stands before the parameters.
#[tactic(auto, using(crate::proofs::Steps::text_steps))]
fn put_declared(text: &mut Vec<u8>, head: &CHead) -> Result<(), AllocError>
    ensures { OnOk result (text.new.items ≡ text.old.items ++ declared_text head.now) }
{
    put_linkage(text, head.linkage)?;
    put_result(text, &head.result)?;
    text.extend_from_slice(b" ")?;
    text.extend_from_slice(head.name.bytes())
}

fn put_linkage(text: &mut Vec<u8>, linkage: Linkage) -> Result<(), AllocError>
    ensures { OnOk result (text.new.items ≡ text.old.items ++ linkage_text linkage) }
{
    match linkage {
        Linkage::External => Ok(()),
        Linkage::Static => text.extend_from_slice(b"static "),
        Linkage::StaticInline => text.extend_from_slice(b"static inline "),
    }
}

fn put_result(text: &mut Vec<u8>, ty: &Option<CType>) -> Result<(), AllocError>
    ensures { OnOk result (text.new.items ≡ text.old.items ++ result_text ty.now) }
{
    match ty {
        None => text.extend_from_slice(b"void"),
        Some(ty) => put_type(text, ty),
    }
}

#[tactic(auto, using(crate::proofs::Steps::text_steps))]
fn put_parameters(text: &mut Vec<u8>, parameters: &[CParameter]) -> Result<(), AllocError>
    ensures { OnOk result (text.new.items ≡ text.old.items ++ parameters_text parameters.now) }
{
    match parameters.split_first() {
        None => text.extend_from_slice(b"void"),
        Some((first, others)) => {
            put_parameter(text, first)?;
            put_other_parameters(text, others)
        }
    }
}

#[tactic(auto, using(crate::proofs::Steps::text_steps))]
fn put_other_parameters(text: &mut Vec<u8>, others: &[CParameter]) -> Result<(), AllocError>
    ensures { OnOk result (text.new.items ≡ text.old.items ++ flat_map (λ part. codes ", " ++ part) (map parameter_text others.now)) }
{
    for parameter in others {
        text.extend_from_slice(b", ")?;
        put_parameter(text, parameter)?;
    }
    Ok(())
}

#[tactic(auto, using(crate::proofs::Steps::text_steps))]
fn put_parameter(text: &mut Vec<u8>, parameter: &CParameter) -> Result<(), AllocError>
    ensures { OnOk result (text.new.items ≡ text.old.items ++ parameter_text parameter.now) }
{
    put_passed(text, parameter.passing, &parameter.ty)?;
    text.extend_from_slice(parameter.name.bytes())
}

#[tactic(auto, using(crate::proofs::Steps::text_steps))]
fn put_passed(text: &mut Vec<u8>, passing: Passing, ty: &CType) -> Result<(), AllocError>
    ensures { OnOk result (text.new.items ≡ text.old.items ++ passing_text passing ty.now) }
{
    match passing {
        Passing::Value => {
            put_type(text, ty)?;
            text.extend_from_slice(b" ")
        }
        Passing::Read => {
            text.extend_from_slice(b"const ")?;
            put_type(text, ty)?;
            text.extend_from_slice(b" *")
        }
        Passing::Written => {
            put_type(text, ty)?;
            text.extend_from_slice(b" *")
        }
    }
}
