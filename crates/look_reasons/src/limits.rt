//! Which declarations are too many or have too many parts or words, with the figures.
#![tactic(auto, using(look_sources::proofs::Growing::growing))]

ghost use Rattle.std.specs.Prelude.{◌≡◌, IfOk};
ghost use Rattle.look_sources.specs.Lines.{AreInLaterLines};
ghost use Rattle.look_sources.specs.Pages.{Grows};

use crate::reason::Reason;
use crate::site::Site;
use crate::words::{Words, number_at};
use hume_base::limits::{
    MAX_DECLARED_EXCEPTIONS, MAX_FIELDS, MAX_FUNCTIONS, MAX_INPUTS, MAX_NODES, MAX_OUTPUTS,
    MAX_PARAMETERS, MAX_RULES, MAX_TYPE_WORDS, MAX_WIRE_WORDS, MAX_WIRES,
};
use hume_base::{Kind, Refusal, Rule, Symbol};
use look_sources::{Sort, Span};
use std::alloc::{AllocError, Global};

/// How many functions, exceptions, boxes with streams, and wires were declared so far.
#[derive(Clone, Copy)]
struct Declared {
    functions: u64,
    exceptions: u64,
    nodes: u64,
    wires: u64,
}

impl Declared {
    fn nothing() -> Declared {
        Declared {
            functions: 0,
            exceptions: 0,
            nodes: 0,
            wires: 0,
        }
    }

    /// Counts the declaration that the part is the name of.
    fn count(&mut self, span: &Span) {
        match span.sort {
            Sort::FunctionName => self.functions = self.functions.saturating_add(1),
            Sort::ConstructorName if span.number == 0 => {
                self.exceptions = self.exceptions.saturating_add(1);
            }
            Sort::NodeName => self.nodes = self.nodes.saturating_add(1),
            Sort::WireFrom => self.wires = self.wires.saturating_add(1),
            _ => {}
        }
    }
}

// What passes a limit: which number of what, and the limit.
#[derive(Clone, Copy)]
struct Excess {
    rule: Rule,
    what: &'static [u8],
    figure: u64,
    limit: u64,
}

// That so many of something pass the limit, if they do.
fn over(what: &'static [u8], figure: u64, limit: usize) -> Option<Excess> {
    let limit = limit as u64;
    if figure <= limit {
        return None;
    }
    Some(Excess {
        rule: Rule::C72,
        what,
        figure,
        limit,
    })
}

// That something is the first one too many, if it is.
fn one_over(what: &'static [u8], figure: u64, limit: usize) -> Option<Excess> {
    if figure != (limit as u64).saturating_add(1) {
        return None;
    }
    over(what, figure, limit)
}

// What of the part passes a limit, if it is counted among those declared.
fn excess_of(declared: Declared, span: &Span, words: u64) -> Option<Excess> {
    let number = span.number as u64;
    let parts = span.parts as u64;
    match span.sort {
        Sort::FunctionName => one_over(b"function", declared.functions, MAX_FUNCTIONS).or(over(
            b"parameters",
            parts,
            MAX_PARAMETERS,
        )),
        Sort::ConstructorName if span.number == 0 => {
            one_over(b"exception", declared.exceptions, MAX_DECLARED_EXCEPTIONS)
        }
        Sort::ConstructorName => over(b"parts", parts, MAX_FIELDS),
        Sort::NodeName => one_over(b"box or stream", declared.nodes, MAX_NODES),
        Sort::WireFrom => one_over(b"wire", declared.wires, MAX_WIRES),
        Sort::Input => over(b"input", number, MAX_INPUTS),
        Sort::Output => over(b"output", number, MAX_OUTPUTS),
        Sort::Rule => over(b"rule", number, MAX_RULES),
        Sort::Type | Sort::TypeName => over_words(words),
        _ => None,
    }
}

fn over_words(words: u64) -> Option<Excess> {
    let limit = u64::from(MAX_TYPE_WORDS);
    if words <= limit {
        return None;
    }
    Some(Excess {
        rule: Rule::C73,
        what: b"words",
        figure: words,
        limit,
    })
}

/// What is broken in lines behind that of the refusal, by the rules on numbers of parts and on sizes of types: of each line the least.
#[tactic(auto, using(look_sources::proofs::LaterLines::later_steps))]
pub fn breaks_limits(alloc: Global, site: &Site, words: &Words) -> Result<Vec<Refusal>, AllocError>
    ensures { IfOk result (λ others. AreInLaterLines site.now.refusal.line others.items) }
{
    let mut found = Vec::new(alloc);
    let mut declared = Declared::nothing();
    let mut broken: Option<Rule> = None;
    let mut line = site.refusal.line;
    let mut place: usize = 0;
    let mut here: u32 = 1;
    for i in 0..site.spans.len() {
        let span = site.spans[i];
        declared.count(&span);
        broken = least(broken, excess_of(declared, &span, words.of_part(i)));
        if span.sort != Sort::Declaration {
            continue;
        }
        here = here.saturating_add(line_ends(site, place, site.place(span.first)));
        place = site.place(span.first);
        let told = broken;
        broken = None;
        let Some(rule) = told else {
            continue;
        };
        if here <= line {
            continue;
        }
        line = here;
        found.push(Refusal { rule, line })?;
    }
    Ok(found)
}

// How many lines end between the places.
fn line_ends(site: &Site, from: usize, to: usize) -> u32 {
    let mut count: u32 = 0;
    for byte in site.text.get(from..to).unwrap_or(b"") {
        if *byte == b'\n' {
            count = count.saturating_add(1);
        }
    }
    count
}

// The rule with the lesser code.
fn least(rule: Option<Rule>, excess: Option<Excess>) -> Option<Rule> {
    match excess {
        None => rule,
        Some(excess) => match rule {
            Some(other) if other.code() < excess.rule.code() => rule,
            _ => Some(excess.rule),
        },
    }
}

/// Tells what passes the limit, and by how much.
pub fn tell_limits(site: &Site, words: &Words, reason: &mut Reason)
    ensures head { reason.new.head ≡ reason.old.head }
    ensures note { Grows reason.old.note reason.new.note }
{
    if site.refusal.rule == Rule::C74 {
        tell_wire_words(site, words, reason);
        return;
    }
    if !tell_excess(site, words, false, reason) {
        let _ = tell_excess(site, words, true, reason);
    }
}

// Tells the first part that passes the limit, or the first name of a data type that does; and whether there is one.
fn tell_excess(site: &Site, words: &Words, names: bool, reason: &mut Reason) -> bool
    ensures head { reason.new.head ≡ reason.old.head }
    ensures note { Grows reason.old.note reason.new.note }
{
    let mut declared = Declared::nothing();
    for i in 0..site.spans.len() {
        let span = site.spans[i];
        declared.count(&span);
        if let Some(excess) = excess_of(declared, &span, words.of_part(i)) {
            let is_told = site.is_here(&span) && excess.rule == site.refusal.rule;
            if is_told && names == (span.sort == Sort::TypeName) {
                reason.here = Some(site.place(span.first));
                put_excess(excess, reason);
                return true;
            }
        }
    }
    false
}

fn put_excess(excess: Excess, reason: &mut Reason)
    ensures head { reason.new.head ≡ reason.old.head }
    ensures note { Grows reason.old.note reason.new.note }
{
    put_figure(excess, reason);
    put_limit(excess.limit, reason);
}

fn put_figure(excess: Excess, reason: &mut Reason)
    ensures head { reason.new.head ≡ reason.old.head }
    ensures note { Grows reason.old.note reason.new.note }
{
    if excess.what.ends_with(b"s") {
        reason.note.put(b"  it has ");
        reason.note.number(excess.figure);
        put_behind_blank(excess.what, reason);
    } else {
        reason.note.put(b"  this is ");
        put_numbered(excess, reason);
    }
}

fn put_behind_blank(words: &[u8], reason: &mut Reason)
    ensures head { reason.new.head ≡ reason.old.head }
    ensures note { Grows reason.old.note reason.new.note }
{
    reason.note.put(b" ");
    reason.note.put(words);
}

fn put_numbered(excess: Excess, reason: &mut Reason)
    ensures head { reason.new.head ≡ reason.old.head }
    ensures note { Grows reason.old.note reason.new.note }
{
    reason.note.put(excess.what);
    reason.note.put(b" ");
    reason.note.number(excess.figure);
}

fn put_limit(limit: u64, reason: &mut Reason)
    ensures head { reason.new.head ≡ reason.old.head }
    ensures note { Grows reason.old.note reason.new.note }
{
    reason.note.put(b", and the limit is ");
    reason.note.number(limit);
    reason.note.put(b"\n");
}

// Tells the words of all wires up to the one with which they pass the limit.
fn tell_wire_words(site: &Site, words: &Words, reason: &mut Reason)
    ensures head { reason.new.head ≡ reason.old.head }
    ensures note { Grows reason.old.note reason.new.note }
{
    let limit = u64::from(MAX_WIRE_WORDS);
    let mut total: u64 = 0;
    let mut from: Option<Span> = None;
    for span in site.spans {
        if span.sort == Sort::WireFrom {
            from = Some(*span);
        }
        if span.sort == Sort::WireTo {
            total = total.saturating_add(words_of_wire(site, words, from, span));
            if total > limit {
                put_total(total, reason);
                put_limit(limit, reason);
                return;
            }
        }
    }
}

fn put_total(total: u64, reason: &mut Reason)
    ensures head { reason.new.head ≡ reason.old.head }
    ensures note { Grows reason.old.note reason.new.note }
{
    reason.note.put(b"  all wires up to this one have ");
    reason.note.number(total);
    reason.note.put(b" words");
}

// The words of the values that a wire holds at most; between two streams none.
fn words_of_wire(site: &Site, words: &Words, from: Option<Span>, to: &Span) -> u64 {
    let output = match from {
        None => None,
        Some(from) => words_of_end(site, words, &from, Sort::Output),
    };
    let each = match output {
        Some(each) => each,
        None => words_of_end(site, words, to, Sort::Input).unwrap_or(0),
    };
    each.saturating_mul(depth_behind(site, to))
}

fn depth_behind(site: &Site, to: &Span) -> u64 {
    match site.tokens.get(to.after) {
        None => 1,
        Some(token) => match &token.kind {
            Kind::Sign(Symbol::At) => number_at(site, to.after),
            _ => 1,
        },
    }
}

// The words of an output or input at a wire's end; of a stream there are none.
fn words_of_end(site: &Site, words: &Words, end: &Span, sort: Sort) -> Option<u64> {
    if end.after <= end.first.saturating_add(1) {
        return None;
    }
    let node = site.name(end.first);
    let port = site.name(end.first.saturating_add(2));
    let mut declaration: Option<usize> = None;
    let mut ty: Option<usize> = None;
    for i in 0..site.spans.len() {
        let span = site.spans[i];
        if span.sort == Sort::NodeName && site.name(span.first) == node {
            declaration = Some(span.declaration);
        }
        if span.sort == sort
            && declaration == Some(span.declaration)
            && site.name(span.first) == port
        {
            ty = Some(span.first.saturating_add(2));
        }
        if span.sort == Sort::Type && ty == Some(span.first) {
            return Some(words.of_part(i));
        }
    }
    None
}
