//! Which parts of a declaration break a rule: the source is read up to the first token with which it is broken, and the smallest part
//! there that, put away, mends it is one of them. All that are told are needed: with any one of them back the rule is broken.
use crate::why::apart::{may_break, put_parts_away, set_apart};
use crate::why::trying::Trying;
use look_reasons::Site;
use look_sources::{Sort, Span};
use std::alloc::{AllocError, Global};

// How many parts of a declaration are looked for at most.
const MAX_WRONG: usize = 8;

/// The parts of the declarations in the line that break the rule there, in the order of the source; none where none is found. Those
/// that begin at the token `cut` or behind it were not looked at.
#[derive(Drop)]
pub(crate) struct Wrong {
    pub(crate) parts: Vec<Span>,
    cut: usize,
}

impl Wrong {
    /// Keeps the declarations of the line but for the wrong parts with other numbers, and what was not looked at.
    pub(crate) fn set_others_apart(&self, site: &Site, trying: &mut Trying, number: usize) {
        let marks = trying.marks.as_mut_slice();
        let after = number.saturating_add(1);
        set_apart(
            site,
            marks,
            self.parts.get(..number).unwrap_or(&[]),
            self.cut,
        );
        put_parts_away(site, marks, self.parts.get(after..).unwrap_or(&[]));
    }

    /// Keeps the declarations of the line.
    pub(crate) fn keep_all(&self, site: &Site, trying: &mut Trying) {
        set_apart(site, trying.marks.as_mut_slice(), &[], usize::MAX);
    }
}

/// Finds the wrong parts. The declarations of the line are kept again at the end.
pub(crate) fn wrong_parts(
    alloc: Global,
    site: &Site,
    trying: &mut Trying,
) -> Result<Wrong, AllocError> {
    let mut found: Vec<Span> = Vec::new(alloc);
    let mut cut: usize = 0;
    for _ in 0..MAX_WRONG {
        let Some(span) = first_wrong(alloc, site, trying, found.as_slice())? else {
            break;
        };
        cut = span.after;
        found.push(span)?;
        set_apart(
            site,
            trying.marks.as_mut_slice(),
            found.as_slice(),
            usize::MAX,
        );
        if trying.is_right(alloc, site)? {
            cut = usize::MAX;
            break;
        }
    }
    let parts = needed(alloc, site, trying, found.as_slice(), cut)?;
    let wrong = Wrong { parts, cut };
    wrong.keep_all(site, trying);
    Ok(wrong)
}

// The first part beside those found that breaks the rule.
fn first_wrong(
    alloc: Global,
    site: &Site,
    trying: &mut Trying,
    found: &[Span],
) -> Result<Option<Span>, AllocError> {
    let Some(token) = first_wrong_token(alloc, site, trying, found)? else {
        return Ok(None);
    };
    for span in site.spans {
        if is_tried(site, span, token) {
            let marks = trying.marks.as_mut_slice();
            set_apart(site, marks, found, token.saturating_add(1));
            put_parts_away(site, marks, &[*span]);
            if trying.is_right(alloc, site)? {
                return Ok(Some(*span));
            }
        }
    }
    Ok(None)
}

fn is_tried(site: &Site, span: &Span, token: usize) -> bool {
    site.is_here(span)
        && span.first <= token
        && token < span.after
        && may_break(span.sort, site.refusal.rule)
}

// The first token with which the rule is broken, where all parts that begin behind it are put away.
fn first_wrong_token(
    alloc: Global,
    site: &Site,
    trying: &mut Trying,
    found: &[Span],
) -> Result<Option<usize>, AllocError> {
    let (mut low, mut high) = tokens_here(site);
    set_apart(site, trying.marks.as_mut_slice(), found, low);
    if !trying.is_right(alloc, site)? {
        return Ok(None);
    }
    for _ in 0..usize::BITS {
        if high.saturating_sub(low) <= 1 {
            break;
        }
        let middle = low.saturating_add(high.saturating_sub(low) / 2);
        set_apart(site, trying.marks.as_mut_slice(), found, middle);
        if trying.is_right(alloc, site)? {
            low = middle;
        } else {
            high = middle;
        }
    }
    Ok(Some(low))
}

// The first token of the declarations in the line, and the one behind them.
fn tokens_here(site: &Site) -> (usize, usize) {
    let mut first: usize = usize::MAX;
    let mut after: usize = 0;
    for span in site.spans {
        if span.sort == Sort::Declaration && site.is_here(span) {
            first = first.min(span.first);
            after = after.max(span.after);
        }
    }
    (first, after)
}

// Those of the parts found without which the others don't mend the rule.
fn needed(
    alloc: Global,
    site: &Site,
    trying: &mut Trying,
    found: &[Span],
    cut: usize,
) -> Result<Vec<Span>, AllocError> {
    let mut parts: Vec<Span> = Vec::new(alloc);
    for i in 0..found.len() {
        let marks = trying.marks.as_mut_slice();
        set_apart(site, marks, parts.as_slice(), cut);
        put_parts_away(site, marks, found.get(i.saturating_add(1)..).unwrap_or(&[]));
        if !trying.is_right(alloc, site)? {
            parts.push(found[i])?;
        }
    }
    Ok(parts)
}
