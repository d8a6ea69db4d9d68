//! What equations and alternatives leave out, where a rule or a handler may raise `NoCase`.
use crate::why::raising::whole_of;
use hume_base::{Keyword, Kind};
use hume_model::{Core, FunC};
use look_cores::{Cause, Culprit, Gap, gaps_of};
use look_reasons::Site;
use look_sources::{Page, Sort, Span, Spot};
use std::alloc::{AllocError, Global};

/// Tells what may raise `NoCase` in the rule or handler, and whether the first of it meets every value.
pub(crate) fn tell_gaps(
    alloc: Global,
    site: &Site,
    core: &Core,
    culprit: Culprit,
    note: &mut Page,
) -> Result<bool, AllocError> {
    let gaps = gaps_of(alloc, core, site.refusal, culprit)?;
    for gap in gaps.as_slice() {
        let function = function_of(core, gap);
        note.put(b"  ");
        put_subject(site, culprit, gap, function, note);
        put_cause(gap, note);
        note.put(b"\n");
    }
    Ok(match gaps.get(0) {
        None => false,
        Some(gap) => matches!(&gap.cause, Cause::Together | Cause::ByOne(_)),
    })
}

fn function_of<'a>(core: &'a Core, gap: &Gap) -> Option<&'a FunC> {
    match gap.function {
        None => None,
        Some(number) => core.funs.get(number),
    }
}

// Puts the function, the `case`, or the equation, rule or handler that is meant.
fn put_subject(site: &Site, culprit: Culprit, gap: &Gap, function: Option<&FunC>, note: &mut Page) {
    if gap.case > 0 {
        note.put(b"the `case`");
        put_place_of_case(site, culprit, gap, function, note);
        note.put(if function.is_some() {
            b", in ".as_slice()
        } else {
            b""
        });
    }
    let Some(function) = function else {
        note.put(if gap.case == 0 {
            b"the result".as_slice()
        } else {
            b""
        });
        return;
    };
    if gap.equation > 0 {
        note.put(b"equation ");
        note.number(gap.equation as u64);
        note.put(b" of ");
    }
    note.put(b"`");
    note.put(function.name.bytes());
    note.put(b"`,");
    if gap.case == 0 {
        note.put(b" in line ");
        note.number(u64::from(function.line));
        note.put(b",");
    }
}

fn put_cause(gap: &Gap, note: &mut Page) {
    let what = if gap.case == 0 {
        b"equation".as_slice()
    } else {
        b"alternative"
    };
    match &gap.cause {
        Cause::LeavesOut(values) => {
            note.put(b" has no ");
            note.put(what);
            note.put(b" for `");
            note.append(values);
            note.put(b"`");
        }
        Cause::Together => {
            note.put(b" meets every value, but only by several ");
            note.put(what);
            note.put(b"s together");
        }
        Cause::ByOne(number) => {
            note.put(b" meets every value by ");
            note.put(what);
            note.put(b" ");
            note.number(*number as u64);
            note.put(b", but not by variables, `_` and tuples alone");
        }
        Cause::Unknown => {
            note.put(b" may have no ");
            note.put(what);
            note.put(b" that fits");
        }
        Cause::Raised => note.put(b" raises `NoCase` by its name"),
    }
}

fn put_place_of_case(
    site: &Site,
    culprit: Culprit,
    gap: &Gap,
    function: Option<&FunC>,
    note: &mut Page,
) {
    let holder = match function {
        None => whole_of(site, culprit),
        Some(function) => equation_of(site, function.name.bytes(), gap.equation),
    };
    if let Some(holder) = holder {
        if let Some(token) = token_of_case(site, holder, gap.case) {
            let spot = Spot::of(site.text, site.place(token));
            note.put(b" at ");
            note.number(u64::from(spot.line));
            note.put(b":");
            note.number(u64::from(spot.column));
        }
    }
}

// The equation of that number of the function of that name.
fn equation_of(site: &Site, name: &[u8], number: usize) -> Option<Span> {
    let mut declaration = None;
    for span in site.spans {
        if span.sort == Sort::FunctionName && site.name(span.first) == name {
            declaration = Some(span.declaration);
        }
        if span.sort == Sort::Equation
            && span.number == number
            && declaration == Some(span.declaration)
        {
            return Some(*span);
        }
    }
    None
}

// The token that begins the `case` of that number in the part.
fn token_of_case(site: &Site, holder: Span, number: usize) -> Option<usize> {
    let mut count: usize = 0;
    for token in holder.first..holder.after {
        if is_case(site, token) {
            count = count.saturating_add(1);
            if count == number {
                return Some(token);
            }
        }
    }
    None
}

fn is_case(site: &Site, token: usize) -> bool {
    match site.tokens.get(token) {
        None => false,
        Some(token) => matches!(&token.kind, Kind::Word(Keyword::Case)),
    }
}
