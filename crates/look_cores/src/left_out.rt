//! What equations or alternatives leave out: the first values found that none of them fits, as a source writes them.
use crate::alternatives::Alternatives;
use crate::guess::{Guess, Part, constructor_at, fits, sum_of, words_of_bits};
use crate::texts::put_word;
use hume_base::{ConDef, Ty, int_of_word};
use look_sources::Page;
use std::alloc::Global;

// How many parts lie within each other at most.
const MAX_DEPTH: usize = 100;

// How many letters there are from `a` on, and from the space on.
const FROM_SMALL: u64 = 30;

const FROM_SPACE: u64 = 95;

/// What may raise `NoCase`.
#[derive(Drop)]
pub enum Cause {
    /// None of the equations or alternatives fits the value, or the values of the pattern.
    LeavesOut(Page),
    /// They leave nothing out, but only several of them together fit all values.
    Together,
    /// They leave nothing out, as the one of that number, from 1, fits all values.
    ByOne(usize),
    /// What they leave out would take too many steps to know, or rests on parts of an unknown type.
    Unknown,
    /// `raise NoCase` itself.
    Raised,
}

/// What they leave out, written as arguments of the function of that name, or as a pattern alone where there is no name.
pub(crate) fn left_out_by(
    alloc: Global,
    guess: &mut Guess,
    alternatives: &Alternatives,
    name: &[u8],
) -> Cause {
    let mut is_open = false;
    for _ in 0..guess.steps() {
        guess.begin_again();
        let all_miss = all_miss(guess, alternatives);
        if guess.is_over() {
            return Cause::Unknown;
        }
        if all_miss && !guess.has_asked() {
            return Cause::LeavesOut(values_of_guess(alloc, guess, name));
        }
        is_open = is_open || all_miss;
        if !guess.turn() {
            return if is_open {
                Cause::Unknown
            } else {
                met_by(guess, alternatives)
            };
        }
    }
    Cause::Unknown
}

fn all_miss(guess: &mut Guess, alternatives: &Alternatives) -> bool {
    for number in 0..alternatives.len() {
        if fits_all(guess, alternatives, number) {
            return false;
        }
    }
    true
}

// Whether each parameter fits the alternative.
fn fits_all(guess: &mut Guess, alternatives: &Alternatives, number: usize) -> bool {
    for parameter in 0..guess.parameters {
        let holds = match alternatives.pattern(number, parameter) {
            None => false,
            Some(pattern) => fits(guess, pattern, parameter),
        };
        if !holds {
            return false;
        }
    }
    true
}

// Which of them fits all values: one that nothing has to be chosen for.
fn met_by(guess: &mut Guess, alternatives: &Alternatives) -> Cause {
    for number in 0..alternatives.len() {
        guess.forget_choices();
        guess.begin_again();
        if fits_all(guess, alternatives, number) && !guess.has_chosen() {
            return Cause::ByOne(number.saturating_add(1));
        }
    }
    if guess.is_over() {
        Cause::Unknown
    } else {
        Cause::Together
    }
}

fn values_of_guess(alloc: Global, guess: &Guess, name: &[u8]) -> Page {
    let mut page = Page::make(alloc);
    if name.is_empty() {
        put_part(&mut page, guess, 0, false, MAX_DEPTH);
        return page;
    }
    page.put(name);
    for parameter in 0..guess.parameters {
        page.put(b" ");
        put_part(&mut page, guess, parameter, true, MAX_DEPTH);
    }
    page
}

// Puts a part, with parentheses where it needs them as an argument.
#[cycle(put_part)]
fn put_part(page: &mut Page, guess: &Guess, number: usize, is_argument: bool, depth: usize) {
    let Some(part) = guess.parts.get(number).copied() else {
        return;
    };
    if depth == 0 {
        page.put(b"_");
    } else if let Ty::Tuple(parts) = part.ty {
        put_tuple(page, guess, part.first, parts.len(), depth - 1);
    } else {
        match shown_word(guess, number, &part) {
            None => page.put(b"_"),
            Some(word) => {
                let nested = is_argument && is_compound(guess, &part, word);
                page.put(if nested { b"(".as_slice() } else { b"" });
                put_shown(page, guess, &part, word, depth - 1);
                page.put(if nested { b")".as_slice() } else { b"" });
            }
        }
    }
}

// Puts a tuple of so many parts, which begin at that number if anything is known of them.
#[cycle(put_part)]
fn put_tuple(page: &mut Page, guess: &Guess, first: usize, count: usize, depth: usize) {
    if first == 0 {
        page.put(b"_");
        return;
    }
    page.put(b"(");
    for i in 0..count {
        if i > 0 {
            page.put(b", ");
        }
        put_part(page, guess, first.saturating_add(i), false, depth);
    }
    page.put(b")");
}

// Puts the word, or the constructor of that place with its parts.
#[cycle(put_part)]
fn put_shown(page: &mut Page, guess: &Guess, part: &Part, word: u64, depth: usize) {
    let Some(constructor) = constructor_of(guess, part, word) else {
        put_word(page, part.ty, word);
        return;
    };
    page.put(constructor.name.bytes());
    for i in 0..constructor.fields.len() {
        page.put(b" ");
        if part.first == 0 {
            page.put(b"_");
        } else {
            put_part(page, guess, part.first.saturating_add(i), true, depth);
        }
    }
}

// What is shown of the part: the word or constructor that it is, or the first one that it may be; or none, where it may be any.
fn shown_word(guess: &Guess, number: usize, part: &Part) -> Option<u64> {
    if part.word.is_some() {
        return part.word;
    }
    let denials = guess.denials(number);
    if denials == 0 {
        return None;
    }
    for i in 0..denials.saturating_add(1) {
        let word = word_in_order(part.ty, i);
        if !guess.is_denied(number, word) {
            return Some(word);
        }
    }
    None
}

// Whether it needs parentheses as an argument.
fn is_compound(guess: &Guess, part: &Part, word: u64) -> bool {
    match (part.ty, constructor_of(guess, part, word)) {
        (_, Some(constructor)) => !constructor.fields.is_empty(),
        (Ty::Int(_), None) => int_of_word(word) < 0,
        _ => false,
    }
}

fn constructor_of<'a>(guess: &Guess<'a>, part: &Part, word: u64) -> Option<&'a ConDef> {
    match sum_of(guess.types, part.ty) {
        None => None,
        Some(sum) => constructor_at(sum, word),
    }
}

// The words of a type in the order in which they are shown: small letters and numbers from 0 on first.
fn word_in_order(ty: &Ty, at: u64) -> u64 {
    match ty {
        Ty::Char => letter_in_order(at),
        Ty::Int(bits) => {
            let positive = words_of_bits(bits.saturating_sub(1));
            if at < positive {
                at
            } else {
                u64::MAX - at.saturating_sub(positive)
            }
        }
        _ => at,
    }
}

fn letter_in_order(at: u64) -> u64 {
    if at < FROM_SMALL {
        u64::from(b'a').saturating_add(at)
    } else if at < FROM_SPACE {
        u64::from(b' ').saturating_add(at - FROM_SMALL)
    } else if at == FROM_SPACE {
        u64::from(b'\n')
    } else {
        u64::from(b'\t')
    }
}
