//! Which type fits in the place of an expression, and which one it has by itself.
use crate::why::marks::{Around, Mark, keep, marked_around, put_away};
use crate::why::trying::Trying;
use hume_base::Rule;
use look_reasons::{Reason, Site, put_numbers, tell_comparison, types_of_source};
use look_sources::{Page, Span};
use std::alloc::{AllocError, Global};

/// Tells the type that is expected at the expression, if just one fits, and the one that it has by itself.
pub(crate) fn tell_types(
    alloc: Global,
    site: &Site,
    trying: &mut Trying,
    span: &Span,
    reason: &mut Reason,
) -> Result<(), AllocError> {
    let types = types_of_source(alloc, site)?;
    let types = types.as_slice();
    let wanted = only_fitting(alloc, site, trying, span, types, true)?;
    if let Some(ty) = type_at(types, wanted) {
        put_type(b"  here `", ty, b"` is expected\n", reason);
        if site.refusal.rule == Rule::C41 {
            put_numbers(ty, reason);
        }
    }
    if site.refusal.rule == Rule::C40 {
        let own = only_fitting(alloc, site, trying, span, types, false)?;
        if let Some(ty) = type_at(types, own) {
            put_type(b"  by itself this is of type `", ty, b"`\n", reason);
            tell_comparison(site, span, ty, reason);
        }
    }
    Ok(())
}

fn type_at(types: &[Page], number: Option<usize>) -> Option<&[u8]> {
    match types.get(number?) {
        None => None,
        Some(page) => Some(page.bytes()),
    }
}

fn put_type(before: &[u8], ty: &[u8], behind: &[u8], reason: &mut Reason) {
    reason.note.put(before);
    reason.note.put(ty);
    reason.note.put(behind);
}

// The number of the only type that fits: in the place of the expression, or the expression itself.
fn only_fitting(
    alloc: Global,
    site: &Site,
    trying: &mut Trying,
    span: &Span,
    types: &[Page],
    wanted: bool,
) -> Result<Option<usize>, AllocError> {
    let mut only = None;
    for i in 0..types.len() {
        let ty = types[i].bytes();
        let text = if wanted {
            with_place_of(alloc, site, trying, span, ty)?
        } else {
            with_use_of(alloc, site, trying, span, ty)?
        };
        if trying.is_mended(alloc, site, text.as_slice())? {
            if only.is_some() {
                return Ok(None);
            }
            only = Some(i);
        }
    }
    Ok(if trying.is_over() { None } else { only })
}

// The source with a value of the type in the place of the expression.
fn with_place_of(
    alloc: Global,
    site: &Site,
    trying: &mut Trying,
    span: &Span,
    ty: &[u8],
) -> Result<Vec<u8>, AllocError> {
    let mut ending = Page::make(alloc);
    ending.put(b"\nlook_given :: bool -> ");
    ending.put(ty);
    ending.put(b" ;\nlook_given _ = raise NoCase ;\n");
    put_away(
        trying.marks.as_mut_slice(),
        span.first,
        span.after,
        Mark::Gone,
    );
    let around = Around {
        first: span.first,
        after: span.after,
        before: b" (look_given true) ",
        behind: b" ",
        ending: ending.bytes(),
    };
    let text = marked_around(alloc, site, trying.marks.as_slice(), around);
    keep(trying.marks.as_mut_slice(), span.first, span.after);
    text
}

// The source with a use of the expression, where the type is expected, and nothing of it after that.
fn with_use_of(
    alloc: Global,
    site: &Site,
    trying: &Trying,
    span: &Span,
    ty: &[u8],
) -> Result<Vec<u8>, AllocError> {
    let mut ending = Page::make(alloc);
    ending.put(b"\nlook_taken :: ");
    ending.put(ty);
    ending.put(b" -> bool ;\nlook_taken _ = true ;\n");
    let around = Around {
        first: span.first,
        after: span.after,
        before: b" (let look_own = ",
        behind: b" in let look_use = look_taken look_own in raise NoCase) ",
        ending: ending.bytes(),
    };
    marked_around(alloc, site, trying.marks.as_slice(), around)
}
