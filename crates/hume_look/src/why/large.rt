//! Which declarations break rules on limits, with the figures.

use crate::why::message::{MAX_OTHERS, put_message, put_more};
use check_signatures::signatures_of;
use hume_ast::Program;
use hume_base::limits::MAX_TOKENS;
use look_reasons::{Reason, Site, Words, breaks_limits, tell_limits};
use look_sources::Page;
use std::alloc::{AllocError, Global};

/// Puts the messages: the first, and those of later lines.
pub(crate) fn put_of_limits(
    alloc: Global,
    name: &[u8],
    site: &Site,
    program: &Program,
    page: &mut Page,
) -> Result<(), AllocError> {
    if program.decls.len() > MAX_TOKENS {
        return put_without_figures(alloc, name, site, page);
    }
    match signatures_of(alloc, program.decls.as_slice())? {
        None => put_without_figures(alloc, name, site, page),
        Some(ordered) => {
            let words = Words::of(alloc, site, &ordered.signatures.types)?;
            put_limit(alloc, name, site, &words, page)?;
            let others = breaks_limits(alloc, site, &words)?;
            for refusal in others.iter().take(MAX_OTHERS) {
                put_limit(alloc, name, &site.other(*refusal), &words, page)?;
            }
            put_more(others.len(), page);
            Ok(())
        }
    }
}

fn put_without_figures(
    alloc: Global,
    name: &[u8],
    site: &Site,
    page: &mut Page,
) -> Result<(), AllocError> {
    put_message(
        name,
        site.text,
        site.refusal,
        &Reason::at(alloc, site.head()),
        page,
    );
    Ok(())
}

fn put_limit(
    alloc: Global,
    name: &[u8],
    site: &Site,
    words: &Words,
    page: &mut Page,
) -> Result<(), AllocError> {
    let mut reason = Reason::at(alloc, site.head());
    tell_limits(site, words, &mut reason);
    put_message(name, site.text, site.refusal, &reason, page);
    Ok(())
}
