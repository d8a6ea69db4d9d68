//! The code of expressions. The functions of the forms are never inlined, so that a level of depth takes little of the stack.
ghost use Rattle.std.specs.Prelude.{◌≡◌, ◌++◌, ◌+◌, ◌∷◌, [], length, None, Some, IfOk, OnOk};
ghost use Rattle.hume_model.specs.declared.core_tree.Expr.TheVariants as expr;
ghost use Rattle.box_code.specs.declared.instr.Instr.TheVariants.{Make};
ghost use Rattle.box_code.specs.Represents.{AllRepresent, ArmsStand, Represents};
ghost use Rattle.box_code.specs.Words.{path_of};
ghost use Rattle.box_compile.specs.inner.Arms.{ArmsBegin};
ghost use Rattle.box_compile.specs.inner.Emitted.{Emitted};
ghost use Rattle.box_compile.specs.inner.Entries.{entry_in};
ghost use Rattle.box_compile.specs.inner.Parts.{PartsThen};

use crate::counts::{count, plus};
use crate::leaves::{operation, scalar};
use crate::pattern_code::{depth, emit_pattern};
use crate::places::with_places;
use crate::sizes::{arm_words, arms_words, expression_words, pattern_words};
use crate::writer::Writer;
use box_code::Instr;
use hume_base::{Box, List, Ty};
use hume_model::{Expr, Forms, NO_CASE, Op, PatC};
use std::alloc::{AllocError, Global};

/// The code of an expression whose variables have these places on a stack of so many words. `entries` has where functions begin.
#[cycle(expression)]
pub(crate) fn emit_expression(
    alloc: Global,
    writer: &mut Writer,
    entries: &[Option<u32>],
    places: &List<u32>,
    high: u32,
    e: &Expr,
) -> Result<(), AllocError>
    ensures { OnOk result (Emitted writer.old writer.new (λ code from to. Represents code (entry_in entries.now) places.now high from to e.now)) }
{
    match e {
        Expr::Word(word) => writer.emit(Instr::Push { word: *word }),
        Expr::Var(number) => emit_variable(writer, entries, places, high, *number),
        Expr::Con(tag, parts) => emit_object(
            alloc,
            writer,
            entries,
            places,
            high,
            *tag,
            parts.as_slice(),
        ),
        Expr::Tuple(parts) => emit_object(
            alloc,
            writer,
            entries,
            places,
            high,
            0,
            parts.as_slice(),
        ),
        Expr::Vect(parts) => emit_object(alloc, writer, entries, places, high, 0, parts.as_slice()),
        Expr::Prim(op, ty, parts) => {
            emit_operation(
                alloc,
                writer,
                entries,
                places,
                high,
                *op,
                ty,
                parts.as_slice(),
            )
        }
        Expr::Index(count, vector, place) => {
            emit_index(alloc, writer, entries, places, high, *count, vector, place)
        }
        Expr::Update(count, vector, place, item) => {
            emit_update(
                alloc, writer, entries, places, high, *count, vector, place, item,
            )
        }
        Expr::If(test, when_true, when_false) => {
            emit_choice(
                alloc, writer, entries, places, high, test, when_true, when_false,
            )
        }
        Expr::Case(part, forms, arms) => {
            emit_case(alloc, writer, entries, places, high, part, *forms, arms)
        }
        Expr::Let(part, body) => emit_binding(alloc, writer, entries, places, high, part, body),
        Expr::Call(number, parts) => {
            emit_call(
                alloc,
                writer,
                entries,
                places,
                high,
                *number,
                parts.as_slice(),
            )
        }
        Expr::Raise(exn, part) => emit_raise(alloc, writer, entries, places, high, *exn, part),
    }
}

fn emit_variable(
    writer: &mut Writer,
    entries: &[Option<u32>],
    places: &List<u32>,
    high: u32,
    number: u32,
) -> Result<(), AllocError>
    ensures { OnOk result (Emitted writer.old writer.new
        (λ code from to. Represents code (entry_in entries.now) places.now high from to (expr.Var number))) }
{
    match places.get(number as usize) {
        None => Err(AllocError),
        Some(place) => {
            let depth = depth(high, *place)?;
            writer.emit(Instr::Load { depth })
        }
    }
}

#[cycle(expression)]
#[inline(never)]
fn emit_object(
    alloc: Global,
    writer: &mut Writer,
    entries: &[Option<u32>],
    places: &List<u32>,
    high: u32,
    tag: u32,
    parts: &[Expr],
) -> Result<(), AllocError>
    ensures { OnOk result (Emitted writer.old writer.new
        (λ code from to. PartsThen code (entry_in entries.now) places.now high from to parts.now (Make tag (length parts.now)))) }
{
    let count = count(parts.len())?;
    emit_parts_then(
        alloc,
        writer,
        entries,
        places,
        high,
        parts,
        Instr::Make { tag, count },
    )
}

#[cycle(expression)]
#[inline(never)]
fn emit_operation(
    alloc: Global,
    writer: &mut Writer,
    entries: &[Option<u32>],
    places: &List<u32>,
    high: u32,
    op: Op,
    ty: &Ty,
    parts: &[Expr],
) -> Result<(), AllocError>
    ensures { OnOk result (Emitted writer.old writer.new
        (λ code from to. Represents code (entry_in entries.now) places.now high from to (expr.Prim op ty.now parts.now))) }
{
    let scalar = scalar(ty)?;
    emit_parts_then(
        alloc,
        writer,
        entries,
        places,
        high,
        parts,
        operation(op, scalar),
    )
}

#[cycle(expression)]
#[inline(never)]
fn emit_call(
    alloc: Global,
    writer: &mut Writer,
    entries: &[Option<u32>],
    places: &List<u32>,
    high: u32,
    number: u32,
    parts: &[Expr],
) -> Result<(), AllocError>
    ensures { OnOk result (Emitted writer.old writer.new
        (λ code from to. Represents code (entry_in entries.now) places.now high from to (expr.Call number parts.now))) }
{
    let to = entry(entries, number)?;
    let count = count(parts.len())?;
    emit_parts_then(
        alloc,
        writer,
        entries,
        places,
        high,
        parts,
        Instr::Call { to, count },
    )
}

// Where the function begins, if it stands in the code.
fn entry(entries: &[Option<u32>], number: u32) -> Result<u32, AllocError>
    ensures { IfOk result (λ place. entry_in entries.now number ≡ Some place) }
{
    match entries.get(number as usize) {
        None => Err(AllocError),
        Some(entry) => match entry {
            None => Err(AllocError),
            Some(place) => Ok(*place),
        },
    }
}

// The parts, and an instruction behind them.
#[cycle(expression)]
fn emit_parts_then(
    alloc: Global,
    writer: &mut Writer,
    entries: &[Option<u32>],
    places: &List<u32>,
    high: u32,
    parts: &[Expr],
    instr: Instr,
) -> Result<(), AllocError>
    requires { path_of instr ≡ None }
    ensures { OnOk result (Emitted writer.old writer.new
        (λ code from to. PartsThen code (entry_in entries.now) places.now high from to parts.now instr)) }
{
    emit_parts(alloc, writer, entries, places, high, parts)?;
    writer.emit(instr)
}

/// Parts, each above the words of those before it.
#[cycle(expression)]
pub(crate) fn emit_parts(
    alloc: Global,
    writer: &mut Writer,
    entries: &[Option<u32>],
    places: &List<u32>,
    high: u32,
    parts: &[Expr],
) -> Result<(), AllocError>
    ensures { OnOk result (Emitted writer.old writer.new
        (λ code from to. AllRepresent code (entry_in entries.now) places.now high from to parts.now)) }
{
    let count = count(parts.len())?;
    for i in 0..count {
        emit_expression(
            alloc,
            writer,
            entries,
            places,
            plus(high, i)?,
            &parts[i as usize],
        )?;
    }
    Ok(())
}

#[cycle(expression)]
#[inline(never)]
fn emit_index(
    alloc: Global,
    writer: &mut Writer,
    entries: &[Option<u32>],
    places: &List<u32>,
    high: u32,
    count: u32,
    vector: &Expr,
    place: &Expr,
) -> Result<(), AllocError>
    ensures { OnOk result (Emitted writer.old writer.new
        (λ code from to. Represents code (entry_in entries.now) places.now high from to (expr.Index count vector.now place.now))) }
{
    emit_expression(alloc, writer, entries, places, high, vector)?;
    emit_expression(alloc, writer, entries, places, plus(high, 1)?, place)?;
    writer.emit(Instr::Index { count })
}

#[cycle(expression)]
#[inline(never)]
fn emit_update(
    alloc: Global,
    writer: &mut Writer,
    entries: &[Option<u32>],
    places: &List<u32>,
    high: u32,
    count: u32,
    vector: &Expr,
    place: &Expr,
    item: &Expr,
) -> Result<(), AllocError>
    ensures { OnOk result (Emitted writer.old writer.new
        (λ code from to. Represents code (entry_in entries.now) places.now high from to (expr.Update count vector.now place.now item.now))) }
{
    emit_expression(alloc, writer, entries, places, high, vector)?;
    emit_expression(alloc, writer, entries, places, plus(high, 1)?, place)?;
    emit_expression(alloc, writer, entries, places, plus(high, 2)?, item)?;
    writer.emit(Instr::Update { count })
}

#[cycle(expression)]
#[inline(never)]
fn emit_choice(
    alloc: Global,
    writer: &mut Writer,
    entries: &[Option<u32>],
    places: &List<u32>,
    high: u32,
    test: &Expr,
    when_true: &Expr,
    when_false: &Expr,
) -> Result<(), AllocError>
    ensures { OnOk result (Emitted writer.old writer.new
        (λ code from to. Represents code (entry_in entries.now) places.now high from to (expr.If test.now when_true.now when_false.now))) }
{
    emit_expression(alloc, writer, entries, places, high, test)?;
    let first = plus(writer.len(), 1)?;
    let second = plus(first, plus(expression_words(when_true), 1)?)?;
    let to = plus(second, expression_words(when_false))?;
    writer.emit(Instr::JumpFalse { to: second })?;
    emit_expression(alloc, writer, entries, places, high, when_true)?;
    writer.emit(Instr::Jump { to })?;
    writer.reach(second)?;
    emit_expression(alloc, writer, entries, places, high, when_false)?;
    writer.reach(to)
}

#[cycle(expression)]
#[inline(never)]
fn emit_binding(
    alloc: Global,
    writer: &mut Writer,
    entries: &[Option<u32>],
    places: &List<u32>,
    high: u32,
    part: &Expr,
    body: &Expr,
) -> Result<(), AllocError>
    ensures { OnOk result (Emitted writer.old writer.new
        (λ code from to. Represents code (entry_in entries.now) places.now high from to (expr.Let part.now body.now))) }
{
    emit_expression(alloc, writer, entries, places, high, part)?;
    let inner = with_places(alloc, places, high, 1)?;
    emit_expression(alloc, writer, entries, &inner, plus(high, 1)?, body)?;
    writer.emit(Instr::Slide { count: 1 })
}

#[cycle(expression)]
#[inline(never)]
fn emit_raise(
    alloc: Global,
    writer: &mut Writer,
    entries: &[Option<u32>],
    places: &List<u32>,
    high: u32,
    exn: u32,
    part: &Option<Box<Expr>>,
) -> Result<(), AllocError>
    ensures { OnOk result (Emitted writer.old writer.new
        (λ code from to. Represents code (entry_in entries.now) places.now high from to (expr.Raise exn part.now))) }
{
    match part {
        None => {
            writer.emit(Instr::Push { word: 0 })?;
            writer.emit(Instr::Raise {
                exn,
                carried: false,
            })
        }
        Some(part) => {
            emit_expression(alloc, writer, entries, places, high, part)?;
            writer.emit(Instr::Raise { exn, carried: true })
        }
    }
}

// The part, and behind it the alternatives; what forms its values have doesn't matter.
#[cycle(expression)]
#[inline(never)]
fn emit_case(
    alloc: Global,
    writer: &mut Writer,
    entries: &[Option<u32>],
    places: &List<u32>,
    high: u32,
    part: &Expr,
    forms: Forms,
    arms: &List<(PatC, Expr)>,
) -> Result<(), AllocError>
    ensures { OnOk result (Emitted writer.old writer.new
        (λ code from to. Represents code (entry_in entries.now) places.now high from to (expr.Case part.now forms arms.now))) }
{
    emit_expression(alloc, writer, entries, places, high, part)?;
    emit_arms(alloc, writer, entries, places, high, arms.as_slice())
}

// The alternatives for the word that stands above so many others.
#[cycle(expression)]
#[inline(never)]
fn emit_arms(
    alloc: Global,
    writer: &mut Writer,
    entries: &[Option<u32>],
    places: &List<u32>,
    high: u32,
    arms: &[(PatC, Expr)],
) -> Result<(), AllocError>
    ensures { OnOk result (Emitted writer.old writer.new
        (λ code from to. ArmsStand code (entry_in entries.now) places.now high from to arms.now)) }
{
    let end = plus(writer.len(), arms_words(arms))?;
    for arm in arms {
        emit_arm(alloc, writer, entries, places, high, end, arm)?;
    }
    writer.emit(Instr::Raise {
        exn: NO_CASE,
        carried: false,
    })?;
    writer.reach(end)
}

// An alternative, which ends at a place.
#[cycle(expression)]
#[inline(never)]
fn emit_arm(
    alloc: Global,
    writer: &mut Writer,
    entries: &[Option<u32>],
    places: &List<u32>,
    high: u32,
    end: u32,
    arm: &(PatC, Expr),
) -> Result<(), AllocError>
    ensures { OnOk result (Emitted writer.old writer.new
        (λ code from to. ArmsBegin code (entry_in entries.now) places.now high end from to (arm.now ∷ []))) }
{
    let top = plus(high, 1)?;
    let words = arm_words(pattern_words(&arm.0, 0), expression_words(&arm.1));
    let other = plus(writer.len(), words)?;
    let variables = emit_pattern(alloc, writer, high, top, other, &arm.0)?;
    let inner = with_places(alloc, places, top, variables)?;
    emit_expression(
        alloc,
        writer,
        entries,
        &inner,
        plus(top, variables)?,
        &arm.1,
    )?;
    writer.emit(Instr::Slide {
        count: plus(1, variables)?,
    })?;
    writer.emit(Instr::Jump { to: end })?;
    writer.reach(other)
}
