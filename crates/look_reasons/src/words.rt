//! How many words the types of a source take, without a greatest number.
ghost use Rattle.std.specs.Prelude.{◌≡◌, IfOk, length, vec_len};

use crate::site::Site;
use hume_base::{ConDef, Keyword, Kind, Shared, Symbol, Ty, Types};
use look_sources::{Sort, Span};
use std::alloc::{AllocError, Global};

/// The words of each data type by its number, and of each part of the source that is a type.
#[derive(Drop)]
pub struct Words {
    sums: Vec<u64>,
    parts: Vec<u64>,
}

// A type that isn't known to be a part of another one: its first token, and its words.
#[derive(Clone, Copy)]
struct Known {
    first: usize,
    words: u64,
}

impl Words {
    /// Those of the source with these data types.
    pub fn of(alloc: Global, site: &Site, types: &Types) -> Result<Words, AllocError>
        ensures sums { IfOk result (λ words. vec_len words.sums ≡ length types.now.sums) }
        ensures parts { IfOk result (λ words. vec_len words.parts ≡ length site.now.spans.now) }
    {
        let mut sums = Vec::new(alloc);
        for sum in types.sums.as_slice() {
            let words = words_of_data(sums.as_slice(), sum.cons.as_slice());
            sums.push(words)?;
        }
        let parts = words_of_parts(alloc, site, types, sums.as_slice())?;
        Ok(Words { sums, parts })
    }

    /// The words of the part of that number, if it is a type or the name of a declared data type; or 0.
    pub(crate) fn of_part(&self, number: usize) -> u64 {
        match self.parts.get(number) {
            None => 0,
            Some(words) => *words,
        }
    }
}

fn words_of_data(sums: &[u64], constructors: &[ConDef]) -> u64 {
    let mut most: u64 = 0;
    for constructor in constructors {
        most = most.max(words_of_all(sums, constructor.fields.as_slice()));
    }
    most.saturating_add(1)
}

#[cycle(words)]
fn words_of_all(sums: &[u64], types: &[Shared<Ty>]) -> u64 {
    let mut total: u64 = 0;
    for i in 0..types.len() {
        total = total.saturating_add(words_of(sums, &types[i]));
    }
    total
}

#[cycle(words)]
fn words_of(sums: &[u64], ty: &Ty) -> u64 {
    match ty {
        Ty::Bool | Ty::Char | Ty::Int(_) | Ty::Nat(_) => 1,
        Ty::Tuple(parts) => words_of_all(sums, parts.as_slice()),
        Ty::Vector(count, item) => u64::from(*count).saturating_mul(words_of(sums, item)),
        Ty::Named(number) => match sums.get(*number as usize) {
            None => 1,
            Some(words) => *words,
        },
    }
}

fn words_of_parts(
    alloc: Global,
    site: &Site,
    types: &Types,
    sums: &[u64],
) -> Result<Vec<u64>, AllocError>
    ensures { IfOk result (λ parts. vec_len parts ≡ length site.now.spans.now) }
{
    let mut parts = Vec::new(alloc);
    let mut known: Vec<Known> = Vec::new(alloc);
    for span in site.spans {
        let words = match span.sort {
            Sort::TypeName => words_of_name(types, sums, site.name(span.first)),
            Sort::Type => {
                let inner = take_inner(&mut known, span.first);
                let words = words_of_written(site, types, sums, span, inner);
                known.push(Known {
                    first: span.first,
                    words,
                })?;
                words
            }
            _ => 0,
        };
        parts.push(words)?;
    }
    Ok(parts)
}

// Takes the types away that stand behind the token, and gives their words.
fn take_inner(known: &mut Vec<Known>, first: usize) -> u64 {
    let mut total: u64 = 0;
    for _ in 0..known.len() {
        match known.last() {
            Some(last) if last.first > first => total = total.saturating_add(last.words),
            _ => return total,
        }
        let _ = known.pop();
    }
    total
}

// The words of a written type, by those of its parts.
fn words_of_written(site: &Site, types: &Types, sums: &[u64], span: &Span, inner: u64) -> u64 {
    match site.tokens.get(span.first) {
        None => 1,
        Some(token) => match &token.kind {
            Kind::Word(Keyword::Vector) => number_at(site, span.first).saturating_mul(inner),
            Kind::Sign(Symbol::OpenParen) => inner,
            Kind::Upper(name) => words_of_name(types, sums, name.bytes()),
            _ => 1,
        },
    }
}

/// The number that stands behind the token; 1 if there is none.
pub(crate) fn number_at(site: &Site, token: usize) -> u64 {
    match site.tokens.get(token.saturating_add(1)) {
        None => 1,
        Some(token) => match &token.kind {
            Kind::Number(number) => *number,
            _ => 1,
        },
    }
}

fn words_of_name(types: &Types, sums: &[u64], name: &[u8]) -> u64 {
    for i in 0..types.sums.len().min(sums.len()) {
        if types.sums[i].name.bytes() == name {
            return sums[i];
        }
    }
    1
}
