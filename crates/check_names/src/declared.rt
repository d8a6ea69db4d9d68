//! The names that a declaration declares.
ghost use Rattle.std.specs.Prelude.{◌≡◌, ◌++◌, map, IfOk, OnOk};
ghost use Rattle.check_names.specs.DeclaredNames as declared;
ghost use Rattle.check_names.specs.Repeated.{capitals_of};
ghost use Rattle.check_names.specs.Leading.{names_of_kind};

use crate::mention_list::NameKind;
use crate::name_list::NameList;
use hume_ast::{Decl, Exp, Pat, TyExp};
use hume_base::{List, Text};
use std::alloc::{AllocError, Global};

pub(crate) fn names_declared<'a>(
    alloc: Global,
    kind: NameKind,
    decl: &'a Decl,
) -> Result<NameList<'a>, AllocError>
    ensures { IfOk result (λ names. names ≡ names_of_kind kind decl.now) }
{
    match (kind, decl) {
        (NameKind::DataType, Decl::Sum(name, _)) => NameList::of_one(alloc, name),
        (NameKind::Constructor, _) => constructors_of(alloc, decl),
        (NameKind::Exception, Decl::Exn(name, _)) => NameList::of_one(alloc, name),
        (NameKind::Function, Decl::Fun(name, _, _)) => NameList::of_one(alloc, name),
        _ => Ok(NameList::new(alloc)),
    }
}

fn constructors_of<'a>(alloc: Global, decl: &'a Decl) -> Result<NameList<'a>, AllocError>
    ensures { IfOk result (λ names. names ≡ declared.constructors_of decl.now) }
{
    let mut names = NameList::new(alloc);
    if let Decl::Sum(_, constructors) = decl {
        push_constructors(&mut names, constructors.as_slice())?;
    }
    Ok(names)
}

fn push_constructors<'a>(
    names: &mut NameList<'a>,
    constructors: &'a [(Text, List<TyExp>)],
) -> Result<(), AllocError>
    ensures { OnOk result (names.new ≡ names.old ++ map (λ constructor. constructor.0) constructors.now) }
{
    for constructor in constructors {
        names.push(&constructor.0)?;
    }
    Ok(())
}

/// Of its constructors, or of its exception.
pub(crate) fn capitals_of<'a>(alloc: Global, decl: &'a Decl) -> Result<NameList<'a>, AllocError>
    ensures { IfOk result (λ names. names ≡ capitals_of decl.now) }
{
    let mut names = constructors_of(alloc, decl)?;
    if let Decl::Exn(name, _) = decl {
        names.push(name)?;
    }
    Ok(names)
}

pub(crate) fn nodes_of<'a>(alloc: Global, decl: &'a Decl) -> Result<NameList<'a>, AllocError>
    ensures { IfOk result (λ names. names ≡ declared.nodes_of decl.now) }
{
    match decl {
        Decl::BoxD(name, _, _, _, _, _) => NameList::of_one(alloc, name),
        Decl::Stream(name, _, _) => NameList::of_one(alloc, name),
        _ => Ok(NameList::new(alloc)),
    }
}

pub(crate) fn ports_of<'a>(alloc: Global, decl: &'a Decl) -> Result<NameList<'a>, AllocError>
    ensures { IfOk result (λ names. names ≡ declared.ports_of decl.now) }
{
    let mut names = NameList::new(alloc);
    if let Decl::BoxD(_, inputs, outputs, _, _, _) = decl {
        push_ports(&mut names, inputs.as_slice())?;
        push_ports(&mut names, outputs.as_slice())?;
    }
    Ok(names)
}

fn push_ports<'a>(names: &mut NameList<'a>, ports: &'a [(Text, TyExp)]) -> Result<(), AllocError>
    ensures { OnOk result (names.new ≡ names.old ++ map (λ port. port.0) ports.now) }
{
    for port in ports {
        names.push(&port.0)?;
    }
    Ok(())
}

pub(crate) fn handled_of<'a>(alloc: Global, decl: &'a Decl) -> Result<NameList<'a>, AllocError>
    ensures { IfOk result (λ names. names ≡ declared.handled_of decl.now) }
{
    let mut names = NameList::new(alloc);
    if let Decl::BoxD(_, _, _, _, _, handlers) = decl {
        push_handled(&mut names, handlers.as_slice())?;
    }
    Ok(names)
}

fn push_handled<'a>(
    names: &mut NameList<'a>,
    handlers: &'a [(Text, Option<Pat>, Exp)],
) -> Result<(), AllocError>
    ensures { OnOk result (names.new ≡ names.old ++ map (λ handler. handler.0) handlers.now) }
{
    for handler in handlers {
        names.push(&handler.0)?;
    }
    Ok(())
}
