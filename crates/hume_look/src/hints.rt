//! Hints on an accepted source.
use hume_base::limits::MAX_SOURCE_BYTES;
use hume_front::Accepted;
use hume_lex::{LexError, lex};
use look_reasons::hints::{Parts, put_all_hints};
use look_sources::{Page, spans_of};
use std::alloc::{AllocError, Global};

/// Puts the hints on the accepted source of that name and text.
pub(crate) fn put_hints(
    alloc: Global,
    name: &[u8],
    text: &[u8],
    accepted: &Accepted,
    page: &mut Page,
) -> Result<(), AllocError> {
    if text.len() > MAX_SOURCE_BYTES {
        return Ok(());
    }
    let tokens = match lex(alloc, text) {
        Ok(tokens) => tokens,
        Err(LexError::NoMemory) => return Err(AllocError),
        Err(_) => return Ok(()),
    };
    let spans = spans_of(alloc, &accepted.program)?;
    let parts = Parts {
        name,
        text,
        tokens: tokens.as_slice(),
        spans: spans.as_slice(),
    };
    put_all_hints(alloc, &parts, &accepted.core, page)
}
