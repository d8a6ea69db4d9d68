//! The boxes of a core.
ghost use Rattle.std.specs.Prelude.{IfOk};
ghost use Rattle.hume_check.specs.nodes.inner.Parts.{HaveTypes, IsBoxFrom};

use crate::nodes::declared::BoxParts;
use crate::nodes::ports::port_cores;
use check_scopes::signatures::SignatureTable;
use hume_base::lines::LineTable;
use hume_model::BoxC;
use std::alloc::{AllocError, Global};
use typed_core::{erase_handlers, erase_rules};

/// A box with its inputs and outputs and what the trees of its rules and handlers erase to. The declaration has the
/// number, and its first token the place.
pub(crate) fn box_core(
    alloc: Global,
    lines: &LineTable,
    table: &SignatureTable,
    number: u32,
    place: u32,
    parts: BoxParts,
) -> Result<BoxC, AllocError>
    requires inputs { HaveTypes table.now.types parts.inputs.now }
    requires outputs { HaveTypes table.now.types parts.outputs.now }
    ensures { IfOk result (IsBoxFrom lines.now table.now.types number place parts.entry) }
{
    Ok(BoxC {
        name: parts.name.copy()?,
        line: lines.line(place),
        declaration: number,
        ins: port_cores(alloc, table, parts.inputs)?,
        outs: port_cores(alloc, table, parts.outputs)?,
        fair: parts.is_fair,
        rules: erase_rules(alloc, parts.rules)?,
        handlers: erase_handlers(alloc, parts.handlers)?,
    })
}
