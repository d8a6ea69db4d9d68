//! The code of results.
ghost use Rattle.std.specs.Prelude.{◌≡◌, ◌+◌, ◌∷◌, [], length, ◌*◌, ◌<◌, if◌then◌else◌, option_to_list, IfOk, OnOk};
ghost use Rattle.hume_model.specs.declared.core_tree.Res.TheVariants as res;
ghost use Rattle.box_costs.specs.Bounds.{given_outs};
ghost use Rattle.box_code.specs.Represents.{AllRepresent, ResultArmsStand, ResultStands, mask_of};
ghost use Rattle.box_compile.specs.inner.Emitted.{Emitted};
ghost use Rattle.box_compile.specs.inner.Entries.{entry_in};
ghost use Rattle.box_compile.specs.inner.ResultArms.{ResultArmsBegin};

use crate::counts::{count, plus};
use crate::expressions::emit_expression;
use crate::pattern_code::emit_pattern;
use crate::places::with_places;
use crate::sizes::{pattern_words, result_words};
use crate::writer::Writer;
use box_code::Instr;
use hume_base::List;
use hume_model::{Expr, Forms, NO_CASE, PatC, Res};
use std::alloc::{AllocError, Global};

/// The code of a result whose variables have these places on a stack of so many words.
#[cycle(result)]
pub(crate) fn emit_result(
    alloc: Global,
    writer: &mut Writer,
    entries: &[Option<u32>],
    places: &List<u32>,
    high: u32,
    res: &Res,
) -> Result<(), AllocError>
    ensures { OnOk result (Emitted writer.old writer.new
        (λ code from to. ResultStands code (entry_in entries.now) places.now high from to res.now)) }
{
    match res {
        Res::Outs(outs) => emit_outputs(alloc, writer, entries, places, high, outs),
        Res::If(test, when_true, when_false) => {
            emit_choice(
                alloc, writer, entries, places, high, test, when_true, when_false,
            )
        }
        Res::Case(part, forms, arms) => {
            emit_case(alloc, writer, entries, places, high, part, *forms, arms)
        }
        Res::Let(part, body) => emit_binding(alloc, writer, entries, places, high, part, body),
        Res::Raise(exn, part) => emit_raise(alloc, writer, entries, places, high, *exn, part),
    }
}

fn emit_outputs(
    alloc: Global,
    writer: &mut Writer,
    entries: &[Option<u32>],
    places: &List<u32>,
    high: u32,
    outs: &List<Option<Expr>>,
) -> Result<(), AllocError>
    ensures { OnOk result (Emitted writer.old writer.new
        (λ code from to. ResultStands code (entry_in entries.now) places.now high from to (res.Outs outs.now))) }
{
    let mask = mask(outs.as_slice())?;
    emit_given(alloc, writer, entries, places, high, outs.as_slice())?;
    writer.emit(Instr::Finish { mask })
}

// Which outputs are there: bit 0 is that of the first.
fn mask(outs: &[Option<Expr>]) -> Result<u32, AllocError>
    ensures { IfOk result (λ mask. mask ≡ mask_of outs.now) }
{
    let mut mask: u32 = 0;
    for i in (0..outs.len()).rev() {
        if mask >= 0x4000_0000 {
            return Err(AllocError);
        }
        mask = with_bit(outs[i].is_some(), mask);
    }
    Ok(mask)
}

fn with_bit(is_there: bool, mask: u32) -> u32
    requires { mask < 1073741824 }
    ensures { result ≡ (if is_there then 1 else 0) + 2 * mask }
{
    if is_there { 1 + 2 * mask } else { 2 * mask }
}

// The outputs that are there, each above the words of those before it.
fn emit_given(
    alloc: Global,
    writer: &mut Writer,
    entries: &[Option<u32>],
    places: &List<u32>,
    high: u32,
    outs: &[Option<Expr>],
) -> Result<(), AllocError>
    ensures { OnOk result (Emitted writer.old writer.new
        (λ code from to. AllRepresent code (entry_in entries.now) places.now high from to (given_outs outs.now))) }
{
    let mut top = high;
    for out in outs {
        top = emit_out(alloc, writer, entries, places, top, out)?;
    }
    Ok(())
}

// An output, if it is there, and how many words are on the stack then.
fn emit_out(
    alloc: Global,
    writer: &mut Writer,
    entries: &[Option<u32>],
    places: &List<u32>,
    high: u32,
    out: &Option<Expr>,
) -> Result<u32, AllocError>
    ensures { IfOk result (λ top. (top ≡ high + length (option_to_list out.now)) × Emitted writer.old writer.new
        (λ code from to. AllRepresent code (entry_in entries.now) places.now high from to (option_to_list out.now))) }
{
    match out {
        None => Ok(high),
        Some(e) => {
            let top = plus(high, 1)?;
            match emit_expression(alloc, writer, entries, places, high, e) {
                Err(error) => Err(error),
                Ok(()) => Ok(top),
            }
        }
    }
}

fn emit_raise(
    alloc: Global,
    writer: &mut Writer,
    entries: &[Option<u32>],
    places: &List<u32>,
    high: u32,
    exn: u32,
    part: &Option<Expr>,
) -> Result<(), AllocError>
    ensures { OnOk result (Emitted writer.old writer.new
        (λ code from to. ResultStands code (entry_in entries.now) places.now high from to (res.Raise exn part.now))) }
{
    match part {
        None => {
            writer.emit(Instr::Push { word: 0 })?;
            writer.emit(Instr::Raise {
                exn,
                carried: false,
            })
        }
        Some(part) => {
            emit_expression(alloc, writer, entries, places, high, part)?;
            writer.emit(Instr::Raise { exn, carried: true })
        }
    }
}

#[cycle(result)]
#[inline(never)]
fn emit_choice(
    alloc: Global,
    writer: &mut Writer,
    entries: &[Option<u32>],
    places: &List<u32>,
    high: u32,
    test: &Expr,
    when_true: &Res,
    when_false: &Res,
) -> Result<(), AllocError>
    ensures { OnOk result (Emitted writer.old writer.new
        (λ code from to. ResultStands code (entry_in entries.now) places.now high from to (res.If test.now when_true.now when_false.now))) }
{
    emit_expression(alloc, writer, entries, places, high, test)?;
    let first = plus(writer.len(), 1)?;
    let second = plus(first, result_words(when_true))?;
    writer.emit(Instr::JumpFalse { to: second })?;
    emit_result(alloc, writer, entries, places, high, when_true)?;
    writer.reach(second)?;
    emit_result(alloc, writer, entries, places, high, when_false)
}

#[cycle(result)]
#[inline(never)]
fn emit_binding(
    alloc: Global,
    writer: &mut Writer,
    entries: &[Option<u32>],
    places: &List<u32>,
    high: u32,
    part: &Expr,
    body: &Res,
) -> Result<(), AllocError>
    ensures { OnOk result (Emitted writer.old writer.new
        (λ code from to. ResultStands code (entry_in entries.now) places.now high from to (res.Let part.now body.now))) }
{
    emit_expression(alloc, writer, entries, places, high, part)?;
    let inner = with_places(alloc, places, high, 1)?;
    emit_result(alloc, writer, entries, &inner, plus(high, 1)?, body)
}

// The part, and behind it the alternatives; what forms its values have doesn't matter.
#[cycle(result)]
#[inline(never)]
fn emit_case(
    alloc: Global,
    writer: &mut Writer,
    entries: &[Option<u32>],
    places: &List<u32>,
    high: u32,
    part: &Expr,
    forms: Forms,
    arms: &List<(PatC, Res)>,
) -> Result<(), AllocError>
    ensures { OnOk result (Emitted writer.old writer.new
        (λ code from to. ResultStands code (entry_in entries.now) places.now high from to (res.Case part.now forms arms.now))) }
{
    emit_expression(alloc, writer, entries, places, high, part)?;
    emit_arms(alloc, writer, entries, places, high, arms.as_slice())
}

// The alternatives for the word that stands above so many others.
#[cycle(result)]
#[inline(never)]
fn emit_arms(
    alloc: Global,
    writer: &mut Writer,
    entries: &[Option<u32>],
    places: &List<u32>,
    high: u32,
    arms: &[(PatC, Res)],
) -> Result<(), AllocError>
    ensures { OnOk result (Emitted writer.old writer.new
        (λ code from to. ResultArmsStand code (entry_in entries.now) places.now high from to arms.now)) }
{
    for arm in arms {
        emit_arm(alloc, writer, entries, places, high, arm)?;
    }
    writer.emit(Instr::Raise {
        exn: NO_CASE,
        carried: false,
    })
}

#[cycle(result)]
#[inline(never)]
fn emit_arm(
    alloc: Global,
    writer: &mut Writer,
    entries: &[Option<u32>],
    places: &List<u32>,
    high: u32,
    arm: &(PatC, Res),
) -> Result<(), AllocError>
    ensures { OnOk result (Emitted writer.old writer.new
        (λ code from to. ResultArmsBegin code (entry_in entries.now) places.now high from to (arm.now ∷ []))) }
{
    let top = plus(high, 1)?;
    let words = pattern_words(&arm.0, 0).saturating_add(result_words(&arm.1));
    let other = plus(writer.len(), words)?;
    let variables = emit_pattern(alloc, writer, high, top, other, &arm.0)?;
    let inner = with_places(alloc, places, top, variables)?;
    emit_result(
        alloc,
        writer,
        entries,
        &inner,
        plus(top, variables)?,
        &arm.1,
    )?;
    writer.reach(other)
}
