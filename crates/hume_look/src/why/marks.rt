//! A source with parts put away: what stands in the place of each token.
use look_reasons::Site;
use look_sources::Page;
use std::alloc::{AllocError, Global};

/// What stands in the place of a token.
#[derive(Clone, Copy, Debug, PartialEq, Eq)]
pub(crate) enum Mark {
    /// The token itself.
    Kept,
    Gone,
    /// An expression that fits everywhere.
    Raise,
    /// The same that raises another exception.
    RaiseRange,
    /// A type without names.
    Bool,
    /// A pattern without names.
    Any,
    /// A name that nothing else has.
    Fresh,
    /// A rule with so many patterns.
    Rule(usize),
    /// An equation of the function of that name, which is a token, with so many patterns.
    Equation(usize, usize),
}

/// Text before and behind the tokens from number `first` to before number `after`, and at the end of the source.
#[derive(Clone, Copy)]
pub(crate) struct Around<'a> {
    pub(crate) first: usize,
    pub(crate) after: usize,
    pub(crate) before: &'a [u8],
    pub(crate) behind: &'a [u8],
    pub(crate) ending: &'a [u8],
}

/// So many tokens that are kept.
pub(crate) fn all_kept(alloc: Global, count: usize) -> Result<Vec<Mark>, AllocError> {
    let mut marks = Vec::new(alloc);
    for _ in 0..count {
        marks.push(Mark::Kept)?;
    }
    Ok(marks)
}

/// Puts the mark in the place of these tokens.
pub(crate) fn put_away(marks: &mut [Mark], first: usize, after: usize, mark: Mark) {
    for token in first..after.min(marks.len()) {
        marks[token] = Mark::Gone;
    }
    if first < after && first < marks.len() {
        marks[first] = mark;
    }
}

/// Keeps these tokens.
pub(crate) fn keep(marks: &mut [Mark], first: usize, after: usize) {
    for token in first..after.min(marks.len()) {
        marks[token] = Mark::Kept;
    }
}

/// The source with these marks. The lines of all that is kept stay.
pub(crate) fn marked(alloc: Global, site: &Site, marks: &[Mark]) -> Result<Vec<u8>, AllocError> {
    let nothing = Around {
        first: 0,
        after: 0,
        before: b"",
        behind: b"",
        ending: b"",
    };
    marked_around(alloc, site, marks, nothing)
}

/// The same with text around a part.
pub(crate) fn marked_around(
    alloc: Global,
    site: &Site,
    marks: &[Mark],
    around: Around<'_>,
) -> Result<Vec<u8>, AllocError> {
    let mut page = Page::make(alloc);
    if let Some(front) = site.text.get(..site.place(0)) {
        page.put(front);
    }
    for token in 0..marks.len() {
        if token == around.first {
            page.put(around.before);
        }
        put_token(site, marks, token, &mut page);
        if token.saturating_add(1) == around.after {
            page.put(around.behind);
        }
    }
    page.put(around.ending);
    page.finish()
}

fn put_token(site: &Site, marks: &[Mark], token: usize, page: &mut Page) {
    let Some(text) = site
        .text
        .get(site.place(token)..site.place(token.saturating_add(1)))
    else {
        return;
    };
    let mark = mark_of(marks, token);
    if mark == Mark::Kept {
        page.put(text);
    } else {
        put_mark(site, marks, token, mark, page);
        put_lines(text, page);
    }
}

/// What stands in the place of the token.
pub(crate) fn mark_of(marks: &[Mark], token: usize) -> Mark {
    match marks.get(token) {
        None => Mark::Kept,
        Some(mark) => *mark,
    }
}

fn put_mark(site: &Site, marks: &[Mark], token: usize, mark: Mark, page: &mut Page) {
    match mark {
        Mark::Kept | Mark::Gone => page.put(b" "),
        Mark::Raise => page.put(b" (raise NoCase) "),
        Mark::RaiseRange => page.put(b" (raise Range) "),
        Mark::Bool => page.put(b" bool "),
        Mark::Any => page.put(b" _ "),
        Mark::Fresh => put_fresh(site, token, page),
        Mark::Rule(count) => {
            page.put(b"(_");
            for _ in 1..count {
                page.put(b", _");
            }
            page.put(b") -> raise NoCase ");
        }
        Mark::Equation(name, count) => {
            if mark_of(marks, name) == Mark::Fresh {
                put_fresh(site, name, page);
            } else {
                page.put(site.name(name));
            }
            for _ in 0..count {
                page.put(b" _");
            }
            page.put(b" = raise NoCase ; ");
        }
    }
}

fn put_fresh(site: &Site, token: usize, page: &mut Page) {
    page.put(if site.is_upper(token) {
        b"Look_"
    } else {
        b"look_"
    });
    page.number(token as u64);
    page.put(b" ");
}

/// Whether a name of the source may be one that is put for another.
pub(crate) fn has_fresh_names(site: &Site) -> bool {
    for token in 0..site.tokens.len() {
        let name = site.name(token);
        if name.starts_with(b"look_") || name.starts_with(b"Look_") {
            return true;
        }
    }
    false
}

// Puts the ends of lines of the text.
fn put_lines(text: &[u8], page: &mut Page) {
    for byte in text {
        if *byte == b'\n' {
            page.put(b"\n");
        }
    }
}
