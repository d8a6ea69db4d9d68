//! The types that a source writes down.
ghost use Rattle.std.specs.Prelude.{◌≤◌, IfOk, vec_len};

use crate::site::Site;
use hume_base::{Kind, Symbol, Token};
use look_sources::{Page, Sort, Span};
use std::alloc::{AllocError, Global};

// With more of them none is asked which one fits.
const MAX_TYPES: usize = 64;

/// Each type that the source writes down, once, and some that each source may have; none of them where there are too many.
pub fn types_of_source(alloc: Global, site: &Site) -> Result<Vec<Page>, AllocError>
    ensures { IfOk result (λ types. vec_len types ≤ MAX_TYPES) }
{
    let mut types: Vec<Page> = Vec::new(alloc);
    for name in [
        b"bool".as_slice(),
        b"char",
        b"int 8",
        b"int 32",
        b"nat 8",
        b"nat 32",
    ] {
        let mut page = Page::make(alloc);
        page.put(name);
        types.push(page)?;
    }
    for span in site.spans {
        if span.sort == Sort::Type && types.len() <= MAX_TYPES {
            add_type(alloc, site, span, &mut types)?;
        }
    }
    if types.len() > MAX_TYPES {
        return Ok(Vec::new(alloc));
    }
    Ok(types)
}

fn add_type(
    alloc: Global,
    site: &Site,
    span: &Span,
    types: &mut Vec<Page>,
) -> Result<(), AllocError> {
    let mut page = Page::make(alloc);
    let mut apart = false;
    for number in span.first..span.after {
        if let Some(token) = site.tokens.get(number) {
            if apart && !is_close(token) {
                page.put(b" ");
            }
            apart = !is_sign(token, Symbol::OpenParen);
            put_token(token, &mut page);
        }
    }
    for ty in types.as_slice() {
        if ty.bytes() == page.bytes() {
            return Ok(());
        }
    }
    types.push(page)?;
    Ok(())
}

// Whether no space stands before it.
fn is_close(token: &Token) -> bool {
    is_sign(token, Symbol::Comma) || is_sign(token, Symbol::CloseParen)
}

fn is_sign(token: &Token, wanted: Symbol) -> bool {
    match &token.kind {
        Kind::Sign(symbol) => *symbol == wanted,
        _ => false,
    }
}

fn put_token(token: &Token, page: &mut Page) {
    match &token.kind {
        Kind::Word(keyword) => page.put(keyword.text()),
        Kind::Sign(symbol) => page.put(symbol.text()),
        Kind::Number(number) => page.number(*number),
        Kind::Upper(name) => page.put(name.bytes()),
        _ => {}
    }
}
