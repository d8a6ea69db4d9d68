//! The code of functions.
ghost use Rattle.std.specs.Prelude.{◌≡◌, ◌+◌, ◌∷◌, [], length, IfOk, OnOk};
ghost use Rattle.box_code.specs.Represents.{counted, EquationsStand, FunctionsStand, Represents};
ghost use Rattle.box_compile.specs.inner.Emitted.{Emitted};
ghost use Rattle.box_compile.specs.inner.Entries.{entry_in, EquationsBegin, FunctionStands};

use crate::counts::{count, plus};
use crate::expressions::emit_expression;
use crate::needed::Needed;
use crate::pattern_code::emit_patterns;
use crate::places::counted_places;
use crate::sizes::equation_words;
use crate::writer::Writer;
use box_code::Instr;
use hume_base::List;
use hume_model::{Core, EqC, Expr, FunC, NO_CASE};
use std::alloc::{AllocError, Global};

/// The code of the functions that are needed, in the order of their numbers, and where each of them begins.
pub(crate) fn emit_functions(
    alloc: Global,
    writer: &mut Writer,
    core: &Core,
    needed: &Needed,
) -> Result<List<Option<u32>>, AllocError>
    ensures { IfOk result (λ entries. Emitted writer.old writer.new (λ code from to. FunctionsStand code (entry_in entries) core.now)) }
{
    let mut entries = List::new(alloc);
    for (i, function) in core.funs.as_slice().iter().enumerate() {
        let entry = emit_if_needed(alloc, writer, entries.as_slice(), function, needed.has(i))?;
        entries.push(entry)?;
    }
    Ok(entries)
}

fn emit_if_needed(
    alloc: Global,
    writer: &mut Writer,
    entries: &[Option<u32>],
    function: &FunC,
    is_needed: bool,
) -> Result<Option<u32>, AllocError>
    ensures { IfOk result (λ entry. Emitted writer.old writer.new (λ code from to. FunctionStands code (entry_in entries.now) entry function.now)) }
{
    if is_needed {
        let place = writer.len();
        match emit_function(alloc, writer, entries, function) {
            Err(error) => Err(error),
            Ok(()) => Ok(Some(place)),
        }
    } else {
        Ok(None)
    }
}

// The equations of a function, and what raises where none matches.
fn emit_function(
    alloc: Global,
    writer: &mut Writer,
    entries: &[Option<u32>],
    function: &FunC,
) -> Result<(), AllocError>
    ensures { OnOk result (Emitted writer.old writer.new
        (λ code from to. EquationsStand code (entry_in entries.now) (length function.now.params) from function.now.equations)) }
{
    let count = count(function.params.len())?;
    emit_equations(alloc, writer, entries, count, function.equations.as_slice())
}

fn emit_equations(
    alloc: Global,
    writer: &mut Writer,
    entries: &[Option<u32>],
    count: u32,
    equations: &[EqC],
) -> Result<(), AllocError>
    ensures { OnOk result (Emitted writer.old writer.new (λ code from to. EquationsStand code (entry_in entries.now) count from equations.now)) }
{
    for equation in equations {
        emit_equation(alloc, writer, entries, count, equation)?;
    }
    writer.emit(Instr::Raise {
        exn: NO_CASE,
        carried: false,
    })
}

fn emit_equation(
    alloc: Global,
    writer: &mut Writer,
    entries: &[Option<u32>],
    arguments: u32,
    equation: &EqC,
) -> Result<(), AllocError>
    ensures { OnOk result (Emitted writer.old writer.new
        (λ code from to. EquationsBegin code (entry_in entries.now) arguments from to (equation.now ∷ []))) }
{
    let top = plus(arguments, 2)?;
    let other = plus(writer.len(), equation_words(equation))?;
    let variables = emit_patterns(alloc, writer, top, other, equation.pats.as_slice())?;
    emit_body(alloc, writer, entries, top, variables, &equation.body)?;
    writer.emit(Instr::Return {
        count: arguments,
        variables,
    })?;
    writer.reach(other)
}

// The code of an expression with so many variables, on a stack of so many words without them.
fn emit_body(
    alloc: Global,
    writer: &mut Writer,
    entries: &[Option<u32>],
    top: u32,
    variables: u32,
    body: &Expr,
) -> Result<(), AllocError>
    ensures { OnOk result (Emitted writer.old writer.new
        (λ code from to. Represents code (entry_in entries.now) (counted top variables) (top + variables) from to body.now)) }
{
    let places = counted_places(alloc, top, variables)?;
    let high = plus(top, variables)?;
    emit_expression(alloc, writer, entries, &places, high, body)
}
