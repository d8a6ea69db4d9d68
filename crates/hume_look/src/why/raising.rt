//! Which expression of a rule or a handler may raise what isn't handled.
use crate::sources::core_of;
use crate::why::leaving::tell_gaps;
use crate::why::marks::{Mark, all_kept, keep, marked, put_away};
use hume_base::Rule;
use hume_model::Core;
use look_cores::{Culprit, first_raised, may_raise};
use look_reasons::{Reason, Site};
use look_sources::{Sort, Span};
use std::alloc::{AllocError, Global};

// How many bytes of sources are checked again at most.
const MAX_CHECKED_BYTES: usize = 8_000_000;

const NO_CASE_REMEDY: &[u8] =
    b"end a `case` or a function with a pattern for all the rest: of several parameters an equation of variables or `_`";

const MET_REMEDY: &[u8] = b"end with one that fits all: of variables, `_` and tuples of these";

/// An expression that raises an exception, by the number of that.
#[derive(Clone, Copy)]
pub(crate) struct Raising {
    pub(crate) span: Span,
    exn: u32,
}

impl Raising {
    /// Tells what raises the exception, and how that is mended.
    pub(crate) fn tell(
        &self,
        alloc: Global,
        site: &Site,
        core: &Core,
        culprit: Culprit,
        reason: &mut Reason,
    ) -> Result<(), AllocError> {
        reason.here = Some(site.place(self.span.first));
        if self.span.parts > 0 && !site.is_upper(self.span.first) {
            put_call(site.name(self.span.first), reason);
        }
        let is_met = tell_gaps(alloc, site, core, culprit, &mut reason.note)?;
        if let Some(raised) = core.exns.get(self.exn as usize) {
            if site.refusal.rule == Rule::C60 {
                reason.remedy = remedy_of_exception(raised.name.bytes(), is_met);
            }
        }
        Ok(())
    }
}

fn put_call(name: &[u8], reason: &mut Reason) {
    if !name.is_empty() {
        reason.note.put(b"  the call of `");
        reason.note.put(name);
        reason.note.put(b"` raises it\n");
    }
}

// The remedy of an exception. Of `NoCase` there is another one where every value is met.
fn remedy_of_exception(name: &[u8], is_met: bool) -> Option<&'static [u8]> {
    if name == b"NoCase".as_slice() {
        Some(if is_met { MET_REMEDY } else { NO_CASE_REMEDY })
    } else if name == b"DivZero".as_slice() {
        Some(b"add a handler `handle DivZero -> ..`, or divide by a literal")
    } else if name == b"Range".as_slice() {
        Some(b"add a handler `handle Range -> ..`, or write the place as a literal")
    } else {
        None
    }
}

/// The smallest expression without which the rule or handler doesn't raise the first exception that it may raise wrongly.
pub(crate) fn raising_part(
    alloc: Global,
    site: &Site,
    core: &Core,
    culprit: Culprit,
) -> Result<Option<Raising>, AllocError> {
    let Some(exn) = first_raised(alloc, core, site.refusal.line, culprit)? else {
        return Ok(None);
    };
    let mark = other_raise(core, exn);
    let mut marks = all_kept(alloc, site.tokens.len())?;
    let marks = marks.as_mut_slice();
    let mut best = whole_of(site, culprit);
    let mut left = MAX_CHECKED_BYTES;
    for i in (0..site.spans.len()).rev() {
        let span = site.spans[i];
        if left > 0 && span.sort == Sort::Expression && is_inside(best, span) {
            left = left.saturating_sub(site.text.len());
            put_away(marks, span.first, span.after, mark);
            let text = marked(alloc, site, marks)?;
            keep(marks, span.first, span.after);
            if !raises_still(alloc, text.as_slice(), site.refusal.line, culprit, exn)? {
                best = Some(span);
            }
        }
    }
    Ok(match best {
        None => None,
        Some(span) => Some(Raising { span, exn }),
    })
}

fn is_inside(best: Option<Span>, span: Span) -> bool {
    match best {
        None => false,
        Some(best) => best.holds(&span),
    }
}

/// The rule or handler itself.
pub(crate) fn whole_of(site: &Site, culprit: Culprit) -> Option<Span> {
    for span in site.spans {
        if site.is_here(span) && span.sort == culprit.sort && span.number == culprit.number {
            return Some(*span);
        }
    }
    None
}

// An expression that raises another exception.
fn other_raise(core: &Core, exn: u32) -> Mark {
    match core.exns.get(exn as usize) {
        Some(raised) if raised.name.bytes() == b"NoCase".as_slice() => Mark::RaiseRange,
        _ => Mark::Raise,
    }
}

fn raises_still(
    alloc: Global,
    text: &[u8],
    line: u32,
    culprit: Culprit,
    exn: u32,
) -> Result<bool, AllocError> {
    match core_of(alloc, text)? {
        None => Ok(true),
        Some(core) => may_raise(alloc, &core, line, culprit, exn),
    }
}
