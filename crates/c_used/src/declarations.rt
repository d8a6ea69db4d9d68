//! Which declarations are used, and what they use.
ghost use Rattle.std.specs.Prelude.{◌≡◌, map, OnOk};
ghost use Rattle.std.specs.List.{list_any};
ghost use Rattle.c_used.specs.Uses.{head_uses, item_uses, member_uses, members_use, parameters_use, result_uses};
ghost use Rattle.c_used.specs.Kept.{is_among, is_external};
ghost use Rattle.c_used.specs.inner.Names.{with_names};
ghost use Rattle.c_used.specs.inner.Kept.{is_kept_by};

use crate::names::Names;
use crate::statements::{add_statements, add_type};
use c_tree::{CConstant, CHead, CItem, CMember, CParameter, CType, Linkage};
use std::alloc::AllocError;

/// Whether this is kept: a declaration, if another file sees it or a name that it declares is used.
#[tactic(auto, using(crate::proofs::ItemForms::item_forms))]
pub(crate) fn is_kept_by(names: &Names, some: bool, item: &CItem) -> bool
    ensures { result ≡ is_kept_by names.now some item.now }
{
    match item {
        CItem::Part(_) => some,
        CItem::Comment(_) => true,
        CItem::Enum(constants) => some_is_used(names, constants.as_slice()),
        CItem::Alias(_, name) | CItem::Struct(_, name) => names.has(name.bytes()),
        CItem::Object(_, name) | CItem::StructObject(_, name) => names.has(name.bytes()),
        CItem::Prototype(_) => true,
        CItem::Function(function) => {
            is_external(function.head.linkage) || names.has(function.head.name.bytes())
        }
    }
}

fn is_external(linkage: Linkage) -> bool
    ensures { result ≡ is_external linkage }
{
    match linkage {
        Linkage::External => true,
        Linkage::Static | Linkage::StaticInline => false,
    }
}

#[tactic(auto, using(crate::proofs::ItemForms::item_forms))]
fn some_is_used(names: &Names, constants: &[CConstant]) -> bool
    ensures { result ≡ list_any (is_among names.now) (map (λ constant. constant.name) constants.now) }
{
    for constant in constants {
        if names.has(constant.name.bytes()) {
            return true;
        }
    }
    false
}

/// The names that the declaration uses.
#[tactic(auto, using(crate::proofs::ItemForms::item_forms))]
pub(crate) fn add_item(names: &mut Names, item: &CItem) -> Result<(), AllocError>
    ensures { OnOk result (names.new ≡ with_names names.old (item_uses item.now)) }
{
    match item {
        CItem::Part(_) | CItem::Comment(_) | CItem::Enum(_) => Ok(()),
        CItem::Alias(ty, _) | CItem::Object(ty, _) => add_type(names, ty),
        CItem::Struct(members, _) | CItem::StructObject(members, _) => {
            add_members(names, members.as_slice())
        }
        CItem::Prototype(head) => add_head(names, head),
        CItem::Function(function) => {
            add_head(names, &function.head)?;
            add_statements(names, function.body.as_slice())
        }
    }
}

#[tactic(auto, using(crate::proofs::ItemForms::item_forms))]
fn add_head(names: &mut Names, head: &CHead) -> Result<(), AllocError>
    ensures { OnOk result (names.new ≡ with_names names.old (head_uses head.now)) }
{
    add_result(names, &head.result)?;
    add_parameters(names, head.parameters.as_slice())
}

#[tactic(auto, using(crate::proofs::ItemForms::item_forms))]
fn add_result(names: &mut Names, ty: &Option<CType>) -> Result<(), AllocError>
    ensures { OnOk result (names.new ≡ with_names names.old (result_uses ty.now)) }
{
    match ty {
        None => Ok(()),
        Some(ty) => add_type(names, ty),
    }
}

#[tactic(auto, using(crate::proofs::ItemForms::item_forms))]
fn add_parameters(names: &mut Names, parameters: &[CParameter]) -> Result<(), AllocError>
    ensures { OnOk result (names.new ≡ with_names names.old (parameters_use parameters.now)) }
{
    for parameter in parameters {
        add_type(names, &parameter.ty)?;
    }
    Ok(())
}

#[cycle(add_members)]
#[tactic(auto, using(crate::proofs::ItemForms::item_forms))]
fn add_members(names: &mut Names, members: &[CMember]) -> Result<(), AllocError>
    ensures { OnOk result (names.new ≡ with_names names.old (members_use members.now)) }
{
    for member in members {
        add_member(names, member)?;
    }
    Ok(())
}

#[cycle(add_members)]
#[tactic(auto, using(crate::proofs::ItemForms::item_forms))]
fn add_member(names: &mut Names, member: &CMember) -> Result<(), AllocError>
    ensures { OnOk result (names.new ≡ with_names names.old (member_uses member.now)) }
{
    match member {
        CMember::Comment(_) => Ok(()),
        CMember::Plain(ty, _) | CMember::Array(ty, _, _) => add_type(names, ty),
        CMember::Struct(members, _) | CMember::Union(members, _) => {
            add_members(names, members.as_slice())
        }
    }
}
