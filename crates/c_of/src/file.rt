//! The whole file.
ghost use Rattle.std.specs.Prelude.{◌≡◌, ◌++◌, ◌∷◌, [], IfOk};
ghost use Rattle.hume_exceptions.specs.Sets.{IsRaisesOf};
ghost use Rattle.c_types.specs.Gathered.{gathered};
ghost use Rattle.c_arithmetic.specs.Helpers.{helpers};
ghost use Rattle.c_calls.specs.Exceptions.{exception_items};
ghost use Rattle.c_calls.specs.Headers.{outer_items};
ghost use Rattle.c_calls.specs.Steps.{step_function};
ghost use Rattle.c_calls.specs.Streams.{init_function, object_items};
ghost use Rattle.c_sizes.specs.Table.{table_text};
ghost use Rattle.c_told.specs.Told.{types_of};
ghost use Rattle.c_of.specs.File.{behind_streams, c_of, code_of, declared_items, items_of, last_parts, net, part, used_items};
ghost use Rattle.c_valid.specs.Streams.{valid_functions};

use crate::boxes::boxes_parts;
use c_analysis::Setting;
use c_arithmetic::helpers;
use c_calls::{
    exception_items, head_comment, headers, init_function, object_items, outer_items, step_function,
};
use c_forms::{of_two, text, whole};
use c_functions::{Functions, functions_of, functions_raise};
use c_names::Names;
use c_sizes::put_table;
use c_told::types_of;
use c_tree::{CItem, CProgram};
use c_types::CTypes;
use c_used::used_items;
use c_valid::valid_functions;
use hume_base::{List, Text};
use hume_exceptions::{Raises, raises};
use hume_model::{Core, ExnDef};
use std::alloc::{AllocError, Global};
use typed_core::{BoxTrees, Trees};

/// The C file of the core, for a program of the name.
pub fn c_of(
    alloc: Global,
    core: &Core,
    trees: &Trees,
    program: &[u8],
) -> Result<CProgram, AllocError>
    ensures { IfOk result (λ file. file ≡ c_of core.now trees.now program.now) }
{
    let mut file = CProgram {
        comment: head_comment(alloc, program)?,
        headers: headers(alloc)?,
        items: used_items_of(alloc, core, trees, program)?,
    };
    file.comment = with_table(alloc, &file)?;
    Ok(file)
}

// The file's comment, and the table of its static memory and of its deepest calls.
fn with_table(alloc: Global, file: &CProgram) -> Result<Text, AllocError>
    ensures { IfOk result (λ comment. comment ≡ file.now.comment ++ table_text file.now.items) }
{
    let mut comment = Vec::from_slice(alloc, file.comment.bytes())?;
    put_table(alloc, &mut comment, file)?;
    Text::from_bytes(alloc, comment.as_slice())
}

// The declarations of the file.
fn used_items_of(
    alloc: Global,
    core: &Core,
    trees: &Trees,
    program: &[u8],
) -> Result<List<CItem>, AllocError>
    ensures { IfOk result (λ items. items ≡ used_items core.now trees.now program.now) }
{
    let names = Names::of(alloc, program)?;
    let types = types_in(alloc, core, &names, trees)?;
    used_items(alloc, items_of(alloc, core, &types, trees)?)
}

// The types of the file.
fn types_in<'a>(
    alloc: Global,
    core: &'a Core,
    names: &'a Names,
    trees: &Trees,
) -> Result<CTypes<'a>, AllocError>
    ensures { IfOk result (λ all. gathered all ≡ types_of core.now names.now trees.now.functions trees.now.boxes) }
{
    let functions = trees.functions.as_slice();
    types_of(alloc, core, names, functions, trees.boxes.as_slice())
}

// All declarations of the file, used or not.
fn items_of(
    alloc: Global,
    core: &Core,
    types: &CTypes,
    trees: &Trees,
) -> Result<List<CItem>, AllocError>
    ensures { IfOk result (λ items. items ≡ items_of core.now (gathered types.now) trees.now) }
{
    let raised = raises(alloc, core)?;
    let may = functions_raise(alloc, core, &raised)?;
    let equations = trees.functions.as_slice();
    let written = functions_of(alloc, core, types, may.as_slice(), equations)?;
    let mut items = declared_items(alloc, core, types)?;
    items.append(code_of(alloc, core, types, &raised, trees.boxes.as_slice(), written)?)?;
    Ok(items)
}

// What stands before the functions of the core.
fn declared_items(alloc: Global, core: &Core, types: &CTypes) -> Result<List<CItem>, AllocError>
    ensures { IfOk result (λ items. items ≡ declared_items core.now (gathered types.now)) }
{
    let mut items = part(alloc, b"types", types.items(alloc)?)?;
    let streams = streams(alloc, core, types)?;
    items.append(part(alloc, b"streams: yours to define", streams)?)?;
    items.append(behind_streams(alloc, core, types)?)?;
    Ok(items)
}

// What stands between the hooks of streams and the functions of the core.
fn behind_streams(alloc: Global, core: &Core, types: &CTypes) -> Result<List<CItem>, AllocError>
    ensures { IfOk result (λ items. items ≡ behind_streams core.now (gathered types.now)) }
{
    let exceptions = exceptions(alloc, types, core.exns.as_slice())?;
    let mut items = part(alloc, b"exceptions; 0 is none", exceptions)?;
    let arithmetic = arithmetic(alloc, types.names())?;
    items.append(part(alloc, b"arithmetic that wraps around", arithmetic)?)?;
    let objects = objects(alloc, core, types)?;
    let comment = b"boxes, with the wires that lead to them";
    items.append(part(alloc, comment, objects)?)?;
    Ok(items)
}

// The hooks of streams.
fn streams(alloc: Global, core: &Core, types: &CTypes) -> Result<List<CItem>, AllocError>
    ensures { IfOk result (λ items. items ≡ outer_items (gathered types.now) core.now) }
{
    whole(outer_items(alloc, core, types))
}

// The numbers of exceptions, and what they carry.
fn exceptions(alloc: Global, types: &CTypes, exns: &[ExnDef]) -> Result<List<CItem>, AllocError>
    ensures { IfOk result (λ items. items ≡ exception_items (gathered types.now) exns.now) }
{
    whole(exception_items(alloc, types, exns))
}

// The functions for arithmetic that wraps around.
fn arithmetic(alloc: Global, names: &Names) -> Result<List<CItem>, AllocError>
    ensures { IfOk result (λ items. items ≡ helpers names.now) }
{
    whole(helpers(alloc, names))
}

// The objects of boxes and streams.
fn objects(alloc: Global, core: &Core, types: &CTypes) -> Result<List<CItem>, AllocError>
    ensures { IfOk result (λ items. items ≡ object_items (gathered types.now) core.now) }
{
    whole(object_items(alloc, core, types))
}

/// Declarations of the file below a comment.
pub(crate) fn part(
    alloc: Global,
    comment: &[u8],
    declared: List<CItem>,
) -> Result<List<CItem>, AllocError>
    ensures { IfOk result (λ items. items ≡ part comment.now declared) }
{
    let mut items = List::of_one(alloc, CItem::Part(text(alloc, comment)?))?;
    items.append(declared)?;
    Ok(items)
}

// The functions of the core, those of its boxes, and what stands behind them.
fn code_of(
    alloc: Global,
    core: &Core,
    types: &CTypes,
    raised: &Raises,
    trees: &[BoxTrees],
    written: Functions,
) -> Result<List<CItem>, AllocError>
    requires { IsRaisesOf core.now raised.now }
    ensures { IfOk result (λ items. items ≡ code_of core.now (gathered types.now) trees.now written) }
{
    let Functions {
        items: declared,
        called,
    } = written;
    let s = Setting {
        alloc,
        core,
        types,
        called: called.as_slice(),
    };
    let mut items = part(alloc, b"functions", declared)?;
    items.append(boxes_parts(s, raised, core.nodes.as_slice(), trees)?)?;
    items.append(last_parts(alloc, core, types)?)?;
    Ok(items)
}

// What stands behind the functions of the boxes.
fn last_parts(alloc: Global, core: &Core, types: &CTypes) -> Result<List<CItem>, AllocError>
    ensures { IfOk result (λ items. items ≡ last_parts core.now (gathered types.now)) }
{
    let valid = valid(alloc, core, types)?;
    let mut items = part(alloc, b"whether objects hold values of their types", valid)?;
    items.append(net(alloc, core, types)?)?;
    Ok(items)
}

// The functions that tell whether objects hold values.
fn valid(alloc: Global, core: &Core, types: &CTypes) -> Result<List<CItem>, AllocError>
    ensures { IfOk result (λ items. items ≡ valid_functions (gathered types.now) core.now) }
{
    whole(valid_functions(alloc, core, types))
}

// The two calls.
fn net(alloc: Global, core: &Core, types: &CTypes) -> Result<List<CItem>, AllocError>
    ensures { IfOk result (λ items. items ≡ net core.now (gathered types.now)) }
{
    part(
        alloc,
        b"the net",
        two_calls(alloc, core, types, types.names())?,
    )
}

fn two_calls(
    alloc: Global,
    core: &Core,
    types: &CTypes,
    names: &Names,
) -> Result<List<CItem>, AllocError>
    ensures { IfOk result (λ items. items ≡ init_function (gathered types.now) core.now ∷ step_function core.now names.now ∷ []) }
{
    let start = init_function(alloc, core, types);
    whole(of_two(alloc, start, step_function(alloc, core, names)))
}
