//! The rule that is broken: by a source, by a line of a script, or by the port of a stream.
ghost use Rattle.std.specs.Prelude.{ℕ, List};
ghost use Rattle.hume_model.specs.WellFormed.{HasSoundFrame};
ghost use Rattle.hume_front.specs.Accepted.{IsSound};

use crate::failures::programs::{programs_of, text_of_source};
use crate::sources::refusal_of;
use crate::why::put_why;
use box_calculus::{MAX_SCRIPT_BYTES, ScriptError, run_script};
use calculus_laws::CalcError;
use hume_base::{Refusal, Rule};
use hume_exceptions::raises;
use hume_front::{FrontError, Sound, check_source};
use hume_model::Core;
use look_sources::Page;
use look_told::{Call, Disk, Kind, put_head, put_unfit_port, sentence_of_line, text_of_file};
use space_costs::{CostError, costs};
use std::alloc::{AllocError, Global};

/// Puts the first rule that a source of the call breaks, or its script, or one of its ports.
pub(crate) fn put_refusal<D: Disk>(
    disk: &D,
    alloc: Global,
    call: &Call,
    on_terminal: bool,
    page: &mut Page,
) -> Result<(), AllocError> {
    if call.is_look() {
        return put_reason_of_look(disk, alloc, call, on_terminal, page);
    }
    let found = if call.command() == "calc" {
        put_of_script(disk, alloc, call, on_terminal, page)?
    } else {
        put_of_sources(disk, alloc, call, on_terminal, page)?
    };
    if found {
        return Ok(());
    }
    let programs = programs_of(disk, alloc, call)?;
    if !put_unfit_port(call, programs.as_slice(), page) {
        page.put(b"hume: the call is refused, as the standard output says\n");
    }
    Ok(())
}

// The program `look` has told the rule on its standard output.
fn put_reason_of_look<D: Disk>(
    disk: &D,
    alloc: Global,
    call: &Call,
    on_terminal: bool,
    page: &mut Page,
) -> Result<(), AllocError> {
    let Some(source) = call.first(Kind::Source) else {
        return Ok(());
    };
    if !on_terminal || call.command() == "why" {
        return Ok(());
    }
    if let Some(text) = text_of_source(disk, alloc, source)? {
        if let Ok(Some(refusal)) = refusal_of(alloc, text.as_slice()) {
            put_first_of_why(alloc, source, text.as_slice(), refusal, page)?;
        }
    }
    Ok(())
}

// The first rule that one of the sources breaks.
fn put_of_sources<D: Disk>(
    disk: &D,
    alloc: Global,
    call: &Call,
    on_terminal: bool,
    page: &mut Page,
) -> Result<bool, AllocError> {
    for place in 0..call.kinds.len() {
        if let Some(source) = call.word_at(Kind::Source, place) {
            if put_of_source(disk, alloc, source, on_terminal, page)? {
                return Ok(true);
            }
        }
    }
    Ok(false)
}

fn put_of_source<D: Disk>(
    disk: &D,
    alloc: Global,
    source: &str,
    on_terminal: bool,
    page: &mut Page,
) -> Result<bool, AllocError> {
    let Some(text) = text_of_source(disk, alloc, source)? else {
        return Ok(false);
    };
    match refusal_of(alloc, text.as_slice())? {
        None => Ok(false),
        Some(refusal) => {
            put_line(source, refusal, page);
            if on_terminal {
                put_first_of_why(alloc, source, text.as_slice(), refusal, page)?;
            }
            Ok(true)
        }
    }
}

// The rule that the source of a script breaks, a line of the script, or the program that it makes.
fn put_of_script<D: Disk>(
    disk: &D,
    alloc: Global,
    call: &Call,
    on_terminal: bool,
    page: &mut Page,
) -> Result<bool, AllocError> {
    let (Some(source), Some(script)) = (call.first(Kind::Source), call.first(Kind::Script)) else {
        return Ok(false);
    };
    let Some(text) = text_of_source(disk, alloc, source)? else {
        return Ok(false);
    };
    match check_source(alloc, text.as_slice()) {
        Err(FrontError::NoMemory) => Err(AllocError),
        Err(FrontError::Refused(refusal)) => {
            put_line(source, refusal, page);
            if on_terminal {
                put_first_of_why(alloc, source, text.as_slice(), refusal, page)?;
            }
            Ok(true)
        }
        Ok(sound) => match text_of_file(disk, alloc, script, MAX_SCRIPT_BYTES + 1)? {
            None => Ok(false),
            Some(lines) => put_of_lines(alloc, source, script, sound, lines.as_slice(), page),
        },
    }
}

// The line of the script that is refused, or the rule that is broken by the program that it makes of the source.
fn put_of_lines(
    alloc: Global,
    source: &str,
    script: &str,
    sound: Sound,
    lines: &[u8],
    page: &mut Page,
) -> Result<bool, AllocError>
    requires sound { (text : List ℕ) × IsSound text sound }
{
    let Sound { core, .. } = sound;
    match run_script(alloc, core, lines) {
        Err(ScriptError::NoMemory) => Err(AllocError),
        Err(ScriptError::Bad { line }) => {
            put_line(
                script,
                Refusal {
                    rule: Rule::C90,
                    line,
                },
                page,
            );
            Ok(true)
        }
        Err(ScriptError::Refused { cause, line }) => {
            put_line(
                script,
                Refusal {
                    rule: rule_of(cause),
                    line,
                },
                page,
            );
            Ok(true)
        }
        Ok(made) => put_of_costs(alloc, source, &made, page),
    }
}

// The rule of a cause. Memory is none: `run_script` tells of it by itself.
fn rule_of(cause: CalcError) -> Rule {
    match cause {
        CalcError::CannotUnfold => Rule::C91,
        CalcError::CannotName => Rule::C92,
        CalcError::CannotSwap => Rule::C93,
        CalcError::NotApart => Rule::C94,
        CalcError::NoMemory => Rule::C90,
    }
}

fn put_of_costs(
    alloc: Global,
    source: &str,
    core: &Core,
    page: &mut Page,
) -> Result<bool, AllocError>
    requires { HasSoundFrame core.now }
{
    let raised = raises(alloc, core)?;
    match costs(alloc, core, &raised) {
        Ok(_) => Ok(false),
        Err(CostError::NoMemory) => Err(AllocError),
        Err(CostError::Refused(refusal)) => {
            put_line(source, refusal, page);
            Ok(true)
        }
    }
}

// Puts `FILE:LINE: refused CODE: SENTENCE`.
fn put_line(file: &str, refusal: Refusal, page: &mut Page) {
    put_head(file.as_bytes(), u64::from(refusal.line), page);
    page.put(b"refused ");
    page.number(u64::from(refusal.rule.code()));
    page.put(b": ");
    page.put(sentence_of_line(refusal.rule));
    page.put(b"\n");
}

// Puts the first line of what `why` tells, which has the column.
fn put_first_of_why(
    alloc: Global,
    source: &str,
    text: &[u8],
    refusal: Refusal,
    page: &mut Page,
) -> Result<(), AllocError> {
    let mut whole = Page::make(alloc);
    put_why(alloc, source.as_bytes(), text, refusal, &mut whole)?;
    for byte in whole.bytes() {
        page.put(&[*byte]);
        if *byte == b'\n' {
            break;
        }
    }
    Ok(())
}
