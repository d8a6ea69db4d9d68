//! Functions, data types, exceptions and variables that nothing uses.
#![tactic(auto, using(look_sources::proofs::Growing::growing))]

ghost use Rattle.look_sources.specs.Pages.{Grows};

use crate::hints::names::Names;
use crate::hints::parts::Parts;
use crate::name_table::Meaning;
use crate::resolved::Resolved;
use look_sources::{Page, Sort, Span};
use std::alloc::{AllocError, Global};

/// Puts a hint on each name that nothing uses.
pub(crate) fn put_unused(alloc: Global, parts: &Parts, page: &mut Page) -> Result<(), AllocError>
    ensures { Grows page.old page.new }
{
    let names = Names::of(alloc, parts.tokens)?;
    let resolved = Resolved::of(alloc, parts.tokens, parts.spans)?;
    let mut begin: usize = 0;
    for i in 0..parts.spans.len() {
        let span = parts.spans[i];
        if span.sort == Sort::Variable {
            put_variable(alloc, parts, &resolved, &span, page);
            continue;
        }
        if span.sort != Sort::Declaration {
            continue;
        }
        put_declared(parts, &names, begin, i, page);
        begin = i;
    }
    Ok(())
}

// Puts a hint on the declaration whose parts have numbers up to its own, `last`, if none of its names is used outside of it. A data type
// of one constructor may be meant so.
fn put_declared(parts: &Parts, names: &Names, begin: usize, last: usize, page: &mut Page)
    ensures { Grows page.old page.new }
{
    let Some(declaration) = parts.spans.get(last) else {
        return;
    };
    let mut first: Option<Span> = None;
    let mut count: usize = 0;
    for i in begin..last.min(parts.spans.len()) {
        let span = parts.spans[i];
        if is_declared(span.sort) {
            let name = parts.name_at(span.first);
            if names.stands_outside(parts.tokens, name, declaration) {
                return;
            }
            if first.is_none() {
                first = Some(span);
            }
            count = count.saturating_add(1);
        }
    }
    if let Some(span) = first {
        if span.sort == Sort::TypeName && count <= 2 {
            return;
        }
        let name = parts.name_at(span.first);
        parts.put_hint(span.first, b"nothing uses `", name, b"`", page);
    }
}

fn is_declared(sort: Sort) -> bool {
    sort == Sort::FunctionName || sort == Sort::TypeName || sort == Sort::ConstructorName
}

// Puts a warning on the variable, if it isn't used where it is known. One of a `let` that only names a tuple may be meant so.
fn put_variable(alloc: Global, parts: &Parts, resolved: &Resolved, variable: &Span, page: &mut Page)
    ensures { Grows page.old page.new }
{
    let token = variable.first;
    let is_tuple = parts.is_of_let(token) && parts.is_tuple(token.saturating_add(2));
    if resolved.is_used(token) || is_tuple || parts.is_meant(token) {
        return;
    }
    let name = parts.name_at(token);
    let capital = with_capital(alloc, name);
    let constructor = resolved.declared(parts.tokens, capital.bytes(), Meaning::Constructor);
    if constructor.is_some() {
        parts.put_hint(
            token,
            b"this is a variable that is not used, and not the constructor `",
            capital.bytes(),
            b"`",
            page,
        );
    } else {
        parts.put_hint(token, b"the variable `", name, b"` is not used", page);
    }
}

// The name with a capital letter at its begin.
fn with_capital(alloc: Global, name: &[u8]) -> Page {
    let mut capital = Page::make(alloc);
    if let Some((first, rest)) = name.split_first() {
        capital.put(&[first.to_ascii_uppercase()]);
        capital.put(rest);
    }
    capital
}
