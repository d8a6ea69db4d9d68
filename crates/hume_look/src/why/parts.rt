//! Which parts break rules on names, counts and types: of the first declaration that does, and of each later one that does so by
//! itself.
use crate::sources::refusal_of;
use crate::why::blank::blank;
use crate::why::fitting::tell_types;
use crate::why::marks::{has_fresh_names, marked};
use crate::why::message::{MAX_OTHERS, put_messages};
use crate::why::trying::Trying;
use crate::why::wrong::wrong_parts;
use hume_ast::Program;
use hume_base::{Refusal, Rule};
use look_reasons::{
    Reason, Resolved, Site, tell_counts, tell_miscounted, tell_repeated, tell_unknown,
};
use look_sources::{Page, Sort, Span};
use std::alloc::{AllocError, Global};

// How many bytes of sources are checked again at most to find the declarations behind the first one.
const MAX_FOUND_BYTES: usize = 32_000_000;

/// What is told: the name of the source, and its program, with what its names stand for.
#[derive(Clone, Copy)]
struct Told<'a> {
    name: &'a [u8],
    program: &'a Program,
    resolved: &'a Resolved,
}

/// Puts the messages.
pub(crate) fn put_of_parts(
    alloc: Global,
    name: &[u8],
    site: &Site,
    program: &Program,
    page: &mut Page,
) -> Result<(), AllocError> {
    let resolved = Resolved::of(alloc, site.tokens, site.spans)?;
    let told = Told {
        name,
        program,
        resolved: &resolved,
    };
    let mut trying = Trying::of(alloc, site.tokens.len())?;
    put_part(alloc, &told, site, &mut trying, page)?;
    if site.refusal.rule.phase() == 4 && has_fresh_names(site) {
        return Ok(());
    }
    trying.begin_again();
    put_other_parts(alloc, &told, site, &mut trying, page)
}

// Each declaration that is told is put away, so that the next one comes to light.
fn put_other_parts(
    alloc: Global,
    told: &Told,
    site: &Site,
    trying: &mut Trying,
    page: &mut Page,
) -> Result<(), AllocError> {
    let mut at = *site;
    let mut found: usize = 0;
    for others in 0..told.program.decls.len() {
        blank(&at, told.program, trying.marks.as_mut_slice());
        if found > MAX_FOUND_BYTES || others >= MAX_OTHERS {
            page.put(b"  further declarations were not looked at: that would take too long\n");
            return Ok(());
        }
        found = found.saturating_add(site.text.len());
        let text = marked(alloc, site, trying.marks.as_slice())?;
        match next_refusal(alloc, text.as_slice(), at.refusal)? {
            None => return Ok(()),
            Some(refusal) => {
                at = site.other(refusal);
                put_part(alloc, told, &at, trying, page)?;
            }
        }
    }
    Ok(())
}

// What the source is refused for, if that is in the same phase and a later line.
fn next_refusal(
    alloc: Global,
    text: &[u8],
    before: Refusal,
) -> Result<Option<Refusal>, AllocError> {
    match refusal_of(alloc, text)? {
        None => Ok(None),
        Some(refusal) => {
            let goes_on = refusal.rule.phase() == before.rule.phase() && refusal.line > before.line;
            Ok(if goes_on { Some(refusal) } else { None })
        }
    }
}

fn put_part(
    alloc: Global,
    told: &Told,
    site: &Site,
    trying: &mut Trying,
    page: &mut Page,
) -> Result<(), AllocError> {
    let reasons = match site.refusal.rule {
        Rule::C30 => reasons_of_repeated(alloc, site)?,
        Rule::C31 => reasons_of_unknown(alloc, told, site)?,
        Rule::C45 => reasons_of_first_value(alloc, site)?,
        _ => reasons_of_wrong(alloc, told, site, trying)?,
    };
    if reasons.is_empty() {
        let reasons = reasons_of_declaration(alloc, told, site)?;
        put_messages(told.name, site.text, site.refusal, reasons.as_slice(), page);
    } else {
        put_messages(told.name, site.text, site.refusal, reasons.as_slice(), page);
    }
    Ok(())
}

fn reasons_of_repeated(alloc: Global, site: &Site) -> Result<Vec<Reason>, AllocError> {
    let mut reason = Reason::at(alloc, site.head());
    tell_repeated(site, &mut reason);
    let mut reasons = Vec::new(alloc);
    reasons.push(reason)?;
    Ok(reasons)
}

// Each name of the line that nothing declares.
fn reasons_of_unknown(alloc: Global, told: &Told, site: &Site) -> Result<Vec<Reason>, AllocError> {
    let mut reasons = Vec::new(alloc);
    for span in told.resolved.unknown() {
        if site.is_here(span) {
            let mut reason = Reason::at(alloc, site.head());
            tell_unknown(site, told.resolved, span, &mut reason);
            reasons.push(reason)?;
        }
    }
    Ok(reasons)
}

// The place of the first value of a wire: the last of all expressions in the line.
fn reasons_of_first_value(alloc: Global, site: &Site) -> Result<Vec<Reason>, AllocError> {
    let mut reason = Reason::at(alloc, site.head());
    for span in site.spans {
        if site.is_here(span) && span.sort == Sort::Expression {
            reason.here = Some(site.place(span.first));
        }
    }
    let mut reasons = Vec::new(alloc);
    reasons.push(reason)?;
    Ok(reasons)
}

// Each part of the line that breaks the rule.
fn reasons_of_wrong(
    alloc: Global,
    told: &Told,
    site: &Site,
    trying: &mut Trying,
) -> Result<Vec<Reason>, AllocError> {
    let wrong = wrong_parts(alloc, site, trying)?;
    let mut reasons = Vec::new(alloc);
    for i in 0..wrong.parts.len() {
        let span = wrong.parts[i];
        let mut reason = Reason::at(alloc, site.head());
        reason.here = Some(site.place(span.first));
        wrong.set_others_apart(site, trying, i);
        tell_part(alloc, told, site, trying, &span, &mut reason)?;
        reasons.push(reason)?;
    }
    wrong.keep_all(site, trying);
    Ok(reasons)
}

fn tell_part(
    alloc: Global,
    told: &Told,
    site: &Site,
    trying: &mut Trying,
    span: &Span,
    reason: &mut Reason,
) -> Result<(), AllocError> {
    match site.refusal.rule {
        Rule::C42 => tell_counts(site, told.program, span, reason),
        Rule::C40 | Rule::C41 if span.sort == Sort::Expression => {
            tell_types(alloc, site, trying, span, reason)?;
        }
        _ => {}
    }
    Ok(())
}

// The declaration alone, where no part of it is found that breaks the rule.
fn reasons_of_declaration(
    alloc: Global,
    told: &Told,
    site: &Site,
) -> Result<Vec<Reason>, AllocError> {
    let mut reason = Reason::at(alloc, site.head());
    if site.refusal.rule == Rule::C42 {
        tell_miscounted(site, told.program, &mut reason);
    }
    if reason.here.is_none() {
        reason
            .note
            .put(b"  which part of the declaration is wrong isn't known\n");
    }
    let mut reasons = Vec::new(alloc);
    reasons.push(reason)?;
    Ok(reasons)
}
