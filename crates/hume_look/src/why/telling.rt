//! Why a source is refused, from its tokens on.
ghost use Rattle.std.specs.Prelude.{◌≤◌, length};
ghost use Rattle.hume_base.specs.declared.limits.TheConstants.{MAX_SOURCE_BYTES as MOST_BYTES};

use crate::sources::core_of;
use crate::why::expected::expected_after;
use crate::why::large::put_of_limits;
use crate::why::message::{MAX_OTHERS, put_message, put_more};
use crate::why::parts::put_of_parts;
use crate::why::raising::raising_part;
use hume_ast::Program;
use hume_base::limits::MAX_SOURCE_BYTES;
use hume_base::{Refusal, Rule, Token};
use hume_lex::{LexError, lex};
use hume_model::Core;
use hume_parse::parse;
use look_cores::{Culprit, broken_in, tell_of_core};
use look_reasons::{Misfit, Reason, Site, tell_habit};
use look_sources::{Page, spans_of};
use parse_errors::ParseError;
use std::alloc::{AllocError, Global};

/// Puts why the source of that name and text is refused so.
pub(crate) fn put_why(
    alloc: Global,
    name: &[u8],
    text: &[u8],
    refusal: Refusal,
    page: &mut Page,
) -> Result<(), AllocError> {
    if text.len() > MAX_SOURCE_BYTES {
        put_message(name, text, refusal, &Reason::at(alloc, None), page);
        return Ok(());
    }
    match lex(alloc, text) {
        Err(LexError::NoMemory) => Err(AllocError),
        Err(
            LexError::BadChar(place)
            | LexError::BadNumber(place)
            | LexError::LongName(place)
            | LexError::TooManyTokens(place),
        ) => {
            let mut reason = Reason::at(alloc, Some(place as usize));
            if refusal.rule == Rule::C10 {
                tell_habit(text, place as usize, &mut reason);
            }
            put_message(name, text, refusal, &reason, page);
            Ok(())
        }
        Ok(tokens) => put_of_tokens(alloc, name, text, tokens, refusal, page),
    }
}

fn put_of_tokens(
    alloc: Global,
    name: &[u8],
    text: &[u8],
    tokens: Vec<Token>,
    refusal: Refusal,
    page: &mut Page,
) -> Result<(), AllocError>
    requires { length text.now ≤ MOST_BYTES }
{
    let end = text.len() as u32;
    let reason = match parse(alloc, tokens.as_slice(), end) {
        Err(ParseError::NoMemory) => return Err(AllocError),
        Err(ParseError::Deep(place)) => Reason::at(alloc, Some(place as usize)),
        Err(ParseError::Syntax(place)) => reason_of_syntax(alloc, text, tokens, place)?,
        Ok(program) => {
            return put_of_program(
                alloc,
                name,
                text,
                tokens.as_slice(),
                &program,
                refusal,
                page,
            );
        }
    };
    put_message(name, text, refusal, &reason, page);
    Ok(())
}

// The place at which no program goes on, and what would have been accepted there.
fn reason_of_syntax(
    alloc: Global,
    text: &[u8],
    tokens: Vec<Token>,
    place: u32,
) -> Result<Reason, AllocError>
    requires { length text.now ≤ MOST_BYTES }
{
    let mut reason = Reason::at(alloc, Some(place as usize));
    let mut tokens = tokens;
    let mut count: usize = 0;
    for token in &tokens {
        if token.place < place {
            count = count.saturating_add(1);
        }
    }
    if count == tokens.len() {
        reason.note.put(b"  the source ends too early\n");
    }
    let misfit = Misfit::of(tokens.get(count));
    tokens.truncate(count);
    let expected = expected_after(alloc, &mut tokens, text.len() as u32)?;
    reason.note.put(b"  expected: ");
    reason.note.append(&expected);
    reason.note.put(b"\n");
    misfit.tell(expected.bytes(), &mut reason);
    tell_habit(text, place as usize, &mut reason);
    Ok(reason)
}

fn put_of_program(
    alloc: Global,
    name: &[u8],
    text: &[u8],
    tokens: &[Token],
    program: &Program,
    refusal: Refusal,
    page: &mut Page,
) -> Result<(), AllocError> {
    let spans = spans_of(alloc, program)?;
    let site = Site::of(text, tokens, spans.as_slice(), refusal);
    match refusal.rule.phase() {
        4 | 5 | 6 => put_of_parts(alloc, name, &site, program, page),
        7 => put_of_limits(alloc, name, &site, program, page),
        _ => match core_of(alloc, text)? {
            Some(core) => put_of_core(alloc, name, &site, &core, page),
            None => {
                let reason = Reason::at(alloc, site.head());
                put_message(name, text, refusal, &reason, page);
                Ok(())
            }
        },
    }
}

// What breaks rules of the phase: the first, and those in later lines.
fn put_of_core(
    alloc: Global,
    name: &[u8],
    site: &Site,
    core: &Core,
    page: &mut Page,
) -> Result<(), AllocError> {
    put_one_of_core(alloc, name, site, core, page)?;
    let others = broken_in(alloc, core, site.refusal)?;
    for refusal in others.iter().take(MAX_OTHERS) {
        put_one_of_core(alloc, name, &site.other(*refusal), core, page)?;
    }
    put_more(others.len(), page);
    Ok(())
}

fn put_one_of_core(
    alloc: Global,
    name: &[u8],
    site: &Site,
    core: &Core,
    page: &mut Page,
) -> Result<(), AllocError> {
    let mut reason = Reason::at(alloc, site.head());
    let culprit = tell_of_core(alloc, core, site.refusal, &mut reason.note)?;
    reason.here = place_of_culprit(site, culprit);
    if let Some(culprit) = culprit {
        if site.refusal.rule.phase() == 9 {
            if let Some(raising) = raising_part(alloc, site, core, culprit)? {
                raising.tell(alloc, site, core, culprit, &mut reason)?;
            }
        }
    }
    put_message(name, site.text, site.refusal, &reason, page);
    Ok(())
}

// The place of the part that is told.
fn place_of_culprit(site: &Site, culprit: Option<Culprit>) -> Option<usize> {
    let culprit = culprit?;
    for span in site.spans {
        if site.is_here(span) && span.sort == culprit.sort && span.number == culprit.number {
            return Some(site.place(span.first));
        }
    }
    None
}
