//! Counts that don't agree with a declaration.
#![tactic(auto, using(look_sources::proofs::Growing::growing))]

ghost use Rattle.std.specs.Prelude.{◌≡◌};
ghost use Rattle.look_sources.specs.Pages.{Grows};

use crate::names::is_given;
use crate::reason::Reason;
use crate::site::Site;
use crate::slices;
use hume_ast::{Decl, Program};
use hume_base::limits::{MAX_LENGTH, MAX_PARTS, MAX_WIDTH, MAX_WIRE_DEPTH};
use hume_base::{Keyword, Kind, Symbol, Text};
use look_sources::{Sort, Span};

/// Tells what the part gives and what is declared.
pub fn tell_counts(site: &Site, program: &Program, span: &Span, reason: &mut Reason)
    ensures head { reason.new.head ≡ reason.old.head }
    ensures note { Grows reason.old.note reason.new.note }
{
    if span.sort == Sort::Type {
        tell_type(site, span, reason);
        return;
    }
    if is_word(site, span.first, Keyword::Raise) {
        let _ = tell_arguments(site, program, span, span.first.saturating_add(1), reason);
        return;
    }
    if tell_arguments(site, program, span, span.first, reason) || is_vector(site, span.first) {
        return;
    }
    if let Some(outputs) = outputs_of(program, span.declaration) {
        put_outputs(outputs, span, reason);
    }
}

// Tells of a call, a constructor or a raise, whose name the token is, what it has and takes, if these differ; and whether they do.
fn tell_arguments(
    site: &Site,
    program: &Program,
    span: &Span,
    token: usize,
    reason: &mut Reason,
) -> bool
    ensures head { reason.new.head ≡ reason.old.head }
    ensures note { Grows reason.old.note reason.new.note }
{
    let name = site.name(token);
    match declared_parts(program, name) {
        Some(declared) if declared != span.parts => {
            put_counts(name, span.parts, declared, reason);
            true
        }
        _ => false,
    }
}

fn is_word(site: &Site, token: usize, keyword: Keyword) -> bool {
    match site.tokens.get(token) {
        None => false,
        Some(token) => match &token.kind {
            Kind::Word(word) => *word == keyword,
            _ => false,
        },
    }
}

fn is_vector(site: &Site, token: usize) -> bool {
    match site.tokens.get(token) {
        None => false,
        Some(token) => matches!(&token.kind, Kind::Sign(Symbol::OpenAngles)),
    }
}

// How many outputs the box has that the declaration declares.
fn outputs_of(program: &Program, declaration: usize) -> Option<usize> {
    match declared(program, declaration)? {
        Decl::BoxD(_, _, outputs, _, _, _) => Some(outputs.len()),
        _ => None,
    }
}

// The declaration of that number.
fn declared(program: &Program, number: usize) -> Option<&Decl> {
    let declarations = slices::declarations(program);
    if number < declarations.len() {
        Some(&declarations[number].1)
    } else {
        None
    }
}

fn put_outputs(outputs: usize, span: &Span, reason: &mut Reason)
    ensures head { reason.new.head ≡ reason.old.head }
    ensures note { Grows reason.old.note reason.new.note }
{
    let given = span.parts.max(1);
    if span.sort != Sort::Expression || outputs == given || given > MAX_PARTS {
        return;
    }
    put_wanted(b"  the box has ", outputs, b" output", reason);
    put_given(b", and this gives ", given, b" value", reason);
}

fn put_count(count: usize, what: &[u8], reason: &mut Reason)
    ensures head { reason.new.head ≡ reason.old.head }
    ensures note { Grows reason.old.note reason.new.note }
{
    reason.note.number(count as u64);
    reason.note.put(what);
    reason
        .note
        .put(if count == 1 { b"".as_slice() } else { b"s" });
}

/// Tells of the first equation, rule, handler or wire in the line what it has and what is declared, where these differ.
pub fn tell_miscounted(site: &Site, program: &Program, reason: &mut Reason)
    ensures head { reason.new.head ≡ reason.old.head }
    ensures note { Grows reason.old.note reason.new.note }
{
    for span in site.spans {
        if !site.is_here(span) {
            continue;
        }
        if span.sort == Sort::WireTo {
            tell_depth(site, program, span, reason);
            continue;
        }
        match wanted_parts(site, program, span) {
            Some(wanted) if wanted != span.parts => {
                reason.here = Some(site.place(span.first));
                put_miscounted(span, wanted, reason);
                return;
            }
            _ => {}
        }
    }
}

// Tells the depths that a wire may have, if it has another one.
fn tell_depth(site: &Site, program: &Program, to: &Span, reason: &mut Reason)
    ensures head { reason.new.head ≡ reason.old.head }
    ensures note { Grows reason.old.note reason.new.note }
{
    if let Some(depth) = depth_of(program, to.declaration) {
        if depth == 0 || depth > u64::from(MAX_WIRE_DEPTH) {
            reason.here = Some(site.place(to.after.saturating_add(1)));
            put_range(b"  a depth is 1 to ", u64::from(MAX_WIRE_DEPTH), reason);
        }
    }
}

// The depth that the declaration gives a wire.
fn depth_of(program: &Program, declaration: usize) -> Option<u64> {
    match declared(program, declaration)? {
        Decl::Wire(_, _, depth, _) => *depth,
        _ => None,
    }
}

// Tells the widths, lengths or parts that a type may have.
fn tell_type(site: &Site, span: &Span, reason: &mut Reason)
    ensures head { reason.new.head ≡ reason.old.head }
    ensures note { Grows reason.old.note reason.new.note }
{
    if is_word(site, span.first, Keyword::Vector) {
        put_range(b"  a length is 1 to ", u64::from(MAX_LENGTH), reason);
    } else if is_word(site, span.first, Keyword::Int) || is_word(site, span.first, Keyword::Nat) {
        put_range(b"  a width is 1 to ", u64::from(MAX_WIDTH), reason);
    } else {
        put_range(
            b"  the parts of a tuple are 2 to ",
            MAX_PARTS as u64,
            reason,
        );
    }
}

fn put_range(words: &[u8], most: u64, reason: &mut Reason)
    ensures head { reason.new.head ≡ reason.old.head }
    ensures note { Grows reason.old.note reason.new.note }
{
    reason.note.put(words);
    reason.note.number(most);
    reason.note.put(b"\n");
}

fn put_counts(name: &[u8], given: usize, declared: usize, reason: &mut Reason)
    ensures head { reason.new.head ≡ reason.old.head }
    ensures note { Grows reason.old.note reason.new.note }
{
    let note = &mut reason.note;
    note.put(b"  `");
    note.put(name);
    note.put(b"` takes ");
    note.number(declared as u64);
    note.put(b" by its declaration, and has ");
    note.number(given as u64);
    note.put(b" here\n");
}

fn put_miscounted(span: &Span, wanted: usize, reason: &mut Reason)
    ensures head { reason.new.head ≡ reason.old.head }
    ensures note { Grows reason.old.note reason.new.note }
{
    match span.sort {
        Sort::Rule => {
            put_wanted(b"  the box has ", wanted, b" input", reason);
            put_given(b", and this rule has ", span.parts, b" pattern", reason);
        }
        Sort::Handler => {
            put_wanted(b"  the exception carries ", wanted, b" value", reason);
            put_given(b", and this handler has ", span.parts, b" name", reason);
        }
        _ => {
            put_wanted(b"  the function has ", wanted, b" parameter", reason);
            put_given(b", and this equation has ", span.parts, b" pattern", reason);
        }
    }
}

fn put_wanted(before: &[u8], count: usize, what: &[u8], reason: &mut Reason)
    ensures head { reason.new.head ≡ reason.old.head }
    ensures note { Grows reason.old.note reason.new.note }
{
    reason.note.put(before);
    put_count(count, what, reason);
}

fn put_given(before: &[u8], count: usize, what: &[u8], reason: &mut Reason)
    ensures head { reason.new.head ≡ reason.old.head }
    ensures note { Grows reason.old.note reason.new.note }
{
    reason.note.put(before);
    put_count(count, what, reason);
    reason.note.put(b"\n");
}

// How many patterns a rule or an equation needs, and how many names a handler.
fn wanted_parts(site: &Site, program: &Program, span: &Span) -> Option<usize> {
    if span.sort == Sort::Handler {
        let name = site.name(span.first);
        return declared_parts(program, name).or(if is_given(name) { Some(0) } else { None });
    }
    match declared(program, span.declaration)? {
        Decl::BoxD(_, inputs, _, _, _, _) if span.sort == Sort::Rule => Some(inputs.len()),
        Decl::Fun(_, types, _) if span.sort == Sort::Equation => {
            Some(types.len().saturating_sub(1))
        }
        _ => None,
    }
}

// How many arguments the function, constructor or exception of that name takes.
fn declared_parts(program: &Program, name: &[u8]) -> Option<usize> {
    let declarations = slices::declarations(program);
    for i in 0..declarations.len() {
        let parts = parts_of(&declarations[i].1, name);
        if parts.is_some() {
            return parts;
        }
    }
    None
}

fn parts_of(decl: &Decl, name: &[u8]) -> Option<usize> {
    match decl {
        Decl::Fun(function, types, _) if is(function, name) => {
            Some(types.len().saturating_sub(1))
        }
        Decl::Exn(exception, carries) if is(exception, name) => {
            Some(if carries.is_some() { 1 } else { 0 })
        }
        Decl::Sum(_, constructors) => {
            for constructor in constructors.as_slice() {
                if is(&constructor.0, name) {
                    return Some(constructor.1.len());
                }
            }
            None
        }
        _ => None,
    }
}

fn is(text: &Text, name: &[u8]) -> bool {
    text.bytes() == name
}
