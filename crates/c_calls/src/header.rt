//! What other files see, and what a file says at its head.
ghost use Rattle.std.specs.Prelude.{◌≡◌, IfOk};
ghost use Rattle.c_tree.specs.declared.tree.CItem.TheVariants as item;
ghost use Rattle.c_forms.specs.Gives.{Gives};
ghost use Rattle.c_types.specs.Gathered.{gathered};
ghost use Rattle.c_calls.specs.Headers.{head_comment as comment_told, header_items as items_told, headers as headers_told, outer_items as outer_told, valid_part};

use crate::hooks::{call_head, hooks};
use c_forms::{appended, before, joined, prototype, text};
use c_tree::CItem;
use c_types::CTypes;
use c_used::used_items;
use c_valid::valid_prototypes;
use hume_base::{Box, List, Text};
use hume_model::Core;
use std::alloc::{AllocError, Global};

/// The headers that a file needs.
pub fn headers(alloc: Global) -> Result<List<Text>, AllocError>
    ensures { IfOk result (λ headers. headers ≡ headers_told) }
{
    let mut headers = List::of_one(alloc, text(alloc, b"stdbool.h")?)?;
    headers.push(text(alloc, b"stdint.h")?)?;
    Ok(headers)
}

#[tactic(auto, using(crate::proofs::ListSteps::list_steps))]
pub fn head_comment(alloc: Global, program: &[u8]) -> Result<Text, AllocError>
    ensures { IfOk result (λ comment. comment ≡ comment_told program.now) }
{
    joined(
        alloc,
        &[
            program,
            b": made by hume. Call ",
            program,
            b"_init once, then ",
            program,
            b"_step for each superstep.",
        ],
    )
}

/// The declarations of the hooks, of the two calls, and of the functions that tell whether an object holds a value.
#[tactic(auto, using(crate::proofs::ListSteps::list_steps))]
pub fn outer_items(alloc: Global, core: &Core, types: &CTypes) -> Option<List<CItem>>
    ensures { Gives result (outer_told (gathered types.now) core.now) }
{
    let names = types.names();
    let init = prototype(alloc, call_head(alloc, names, b"_init"));
    let step = prototype(alloc, call_head(alloc, names, b"_step"));
    let calls = before(alloc, step, valid_part(alloc, core, types));
    let hooks = hooks(alloc, core, types, core.nodes.as_slice());
    appended(hooks, before(alloc, init, calls))
}

// The declarations of the functions that tell whether an object holds a value.
fn valid_part(alloc: Global, core: &Core, types: &CTypes) -> Option<List<CItem>>
    ensures { Gives result (valid_part (gathered types.now) core.now) }
{
    let comment = part_comment(
        alloc,
        b"whether an object holds a value of its stream's type",
    );
    before(alloc, comment, valid_prototypes(alloc, core, types))
}

fn part_comment(alloc: Global, comment: &[u8]) -> Option<Box<CItem>>
    ensures { Gives result (item.Part comment.now) }
{
    match text(alloc, comment) {
        Ok(text) => Box::new(alloc, CItem::Part(text)).ok(),
        Err(_) => None,
    }
}

/// The same with the types that they need.
pub fn header_items(alloc: Global, core: &Core, types: &CTypes) -> Result<List<CItem>, AllocError>
    ensures { IfOk result (λ items. items ≡ items_told (gathered types.now) core.now) }
{
    let mut items = types.items(alloc)?;
    items.append(outer_items(alloc, core, types).ok_or(AllocError)?)?;
    used_items(alloc, items)
}
