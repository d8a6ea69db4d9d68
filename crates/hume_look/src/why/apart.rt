//! Parts of a declaration that are put away: an expression as a raise, a pattern as `_`, and a type as `bool`.
use crate::why::marks::{Mark, keep, mark_of, put_away};
use hume_base::Rule;
use look_reasons::Site;
use look_sources::{Sort, Span};

/// Keeps the declarations of the line but for these parts and all that begins at the token `cut` or behind it. A declaration that is
/// put away whole stays so.
pub(crate) fn set_apart(site: &Site, marks: &mut [Mark], parts: &[Span], cut: usize) {
    for span in site.spans {
        if span.sort == Sort::Declaration
            && site.is_here(span)
            && mark_of(marks, span.first) != Mark::Gone
        {
            keep(marks, span.first, span.after);
        }
    }
    put_parts_away(site, marks, parts);
    put_all_away(site, marks, cut, usize::MAX);
}

/// Puts these parts away, too.
pub(crate) fn put_parts_away(site: &Site, marks: &mut [Mark], parts: &[Span]) {
    for part in parts {
        put_all_away(site, marks, part.first, end_of(site, part));
    }
}

// Puts all away that lies between the tokens. A part stands behind its own parts, so the larger ones are put away last.
fn put_all_away(site: &Site, marks: &mut [Mark], from: usize, to: usize) {
    for span in site.spans {
        if site.is_here(span)
            && from <= span.first
            && span.after <= to
            && goes(span.sort, site.refusal.rule)
        {
            put_away(marks, span.first, span.after, in_its_place(span.sort));
        }
    }
}

// Where what goes with the part ends. With a pattern all goes that knows its variables.
fn end_of(site: &Site, part: &Span) -> usize {
    if part.sort == Sort::Pattern {
        for span in site.spans {
            if span.sort == Sort::Scope && span.holds(part) {
                return span.after;
            }
        }
    }
    part.after
}

// Whether a part of that sort is put away to find what breaks the rule.
fn goes(sort: Sort, rule: Rule) -> bool {
    match sort {
        Sort::Expression | Sort::Pattern => rule != Rule::C33,
        Sort::Type => rule.phase() < 6 && rule != Rule::C32 && rule != Rule::C43,
        _ => false,
    }
}

/// Whether a part of that sort may break the rule.
pub(crate) fn may_break(sort: Sort, rule: Rule) -> bool {
    goes(sort, rule)
        && match sort {
            Sort::Expression => rule != Rule::C43,
            Sort::Pattern => rule != Rule::C32,
            _ => true,
        }
}

fn in_its_place(sort: Sort) -> Mark {
    match sort {
        Sort::Expression => Mark::Raise,
        Sort::Type => Mark::Bool,
        _ => Mark::Any,
    }
}
