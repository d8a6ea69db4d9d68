//! The text that belongs to a core.
ghost use Rattle.std.specs.Prelude.{◌≡◌, IfOk};
ghost use Rattle.c_types.specs.Gathered.{gathered};
ghost use Rattle.c_told.specs.Told.{types_of as types_told};
ghost use Rattle.c_calls.specs.Headers.{header_items, headers};
ghost use Rattle.c_main.specs.Main.{header_text as header_told, main_text as main_told};
ghost use Rattle.hume_c.specs.Texts.{text_of};

use crate::words::Kind;
use c_calls::{header_items, headers};
use c_main::{put_header, put_main};
use c_names::Names;
use c_of::c_of;
use c_told::types_of;
use c_tree::put_program;
use c_types::CTypes;
use hume_model::Core;
use std::alloc::{AllocError, Global};
use typed_core::Trees;

/// The text of that kind, for a program of the name.
pub(crate) fn text_of(
    alloc: Global,
    kind: Kind,
    name: &[u8],
    core: &Core,
    trees: &Trees,
) -> Result<Vec<u8>, AllocError>
    ensures { IfOk result (λ text. text.items ≡ text_of kind name.now core.now trees.now) }
{
    match kind {
        Kind::File => file_text(alloc, name, core, trees),
        Kind::Header => header_text(alloc, name, core, trees),
        Kind::Main => main_text(alloc, name, core, trees),
    }
}

fn file_text(alloc: Global, name: &[u8], core: &Core, trees: &Trees) -> Result<Vec<u8>, AllocError>
    ensures { IfOk result (λ text. text.items ≡ text_of Kind.File name.now core.now trees.now) }
{
    let program = c_of(alloc, core, trees, name)?;
    let mut text = Vec::new(alloc);
    put_program(&mut text, &program)?;
    Ok(text)
}

fn header_text(
    alloc: Global,
    name: &[u8],
    core: &Core,
    trees: &Trees,
) -> Result<Vec<u8>, AllocError>
    ensures { IfOk result (λ text. text.items ≡ text_of Kind.Header name.now core.now trees.now) }
{
    let names = Names::of(alloc, name)?;
    let types = types_in(alloc, core, &names, trees)?;
    header_of(alloc, name, core, &types)
}

fn header_of(alloc: Global, name: &[u8], core: &Core, types: &CTypes) -> Result<Vec<u8>, AllocError>
    ensures { IfOk result (λ text. text.items ≡ header_told (header_items (gathered types.now) core.now) headers name.now) }
{
    let items = header_items(alloc, core, types)?;
    let included = headers(alloc)?;
    let mut text = Vec::new(alloc);
    put_header(alloc, &mut text, items, included, name)?;
    Ok(text)
}

fn main_text(alloc: Global, name: &[u8], core: &Core, trees: &Trees) -> Result<Vec<u8>, AllocError>
    ensures { IfOk result (λ text. text.items ≡ text_of Kind.Main name.now core.now trees.now) }
{
    let names = Names::of(alloc, name)?;
    let types = types_in(alloc, core, &names, trees)?;
    main_of(alloc, core, &types)
}

fn main_of(alloc: Global, core: &Core, types: &CTypes) -> Result<Vec<u8>, AllocError>
    ensures { IfOk result (λ text. text.items ≡ main_told (gathered types.now) core.now) }
{
    let mut text = Vec::new(alloc);
    put_main(alloc, &mut text, core, types)?;
    Ok(text)
}

fn types_in<'a>(
    alloc: Global,
    core: &'a Core,
    names: &'a Names,
    trees: &Trees,
) -> Result<CTypes<'a>, AllocError>
    ensures { IfOk result (λ all. gathered all ≡ types_told core.now names.now trees.now.functions trees.now.boxes) }
{
    types_of(
        alloc,
        core,
        names,
        trees.functions.as_slice(),
        trees.boxes.as_slice(),
    )
}
