//! For what words have no form.
#![tactic(auto, using(look_sources::proofs::Growing::growing))]

ghost use Rattle.look_sources.specs.Pages.{Grows};

use crate::forms::{Call, FORMS, Kind, number_of};
use crate::nearest::put_nearest_first;
use crate::numbers::{put_most, range_of};
use crate::quoted::{put_quoted, put_word};
use look_sources::Page;
use std::alloc::{AllocError, Global};

/// Puts the first thing for which the words of the call have no form.
pub fn put_words(alloc: Global, call: &Call, page: &mut Page) -> Result<(), AllocError>
    ensures { Grows page.old page.new }
{
    page.put(b"hume: ");
    put_first(alloc, call, page)?;
    page.put(b"\n");
    Ok(())
}

fn put_first(alloc: Global, call: &Call, page: &mut Page) -> Result<(), AllocError>
    ensures { Grows page.old page.new }
{
    match call.form {
        None => put_without_form(alloc, call, page),
        Some(form) => {
            if !put_bad_word(call, page) {
                put_misfit(call, form, page);
            }
            Ok(())
        }
    }
}

fn put_without_form(alloc: Global, call: &Call, page: &mut Page) -> Result<(), AllocError>
    ensures { Grows page.old page.new }
{
    match call.words.first() {
        None => {
            put_usage(page);
            Ok(())
        }
        Some(word) => {
            page.put(b"no command ");
            put_word(word.as_bytes(), page);
            put_commands(alloc, word.as_bytes(), page)
        }
    }
}

fn put_commands(alloc: Global, word: &[u8], page: &mut Page) -> Result<(), AllocError>
    ensures { Grows page.old page.new }
{
    page.put(b": it is one of ");
    put_nearest_first(alloc, word, page)
}

fn put_usage(page: &mut Page)
    ensures { Grows page.old page.new }
{
    page.put(b"usage: hume");
    for number in 0..FORMS.len() {
        page.put(if number > 0 {
            b" | hume ".as_slice()
        } else {
            b" "
        });
        page.put(FORMS[number].as_bytes());
    }
}

// Puts the first word that can't be what the form says it is, if there is one.
fn put_bad_word(call: &Call, page: &mut Page) -> bool
    ensures { Grows page.old page.new }
{
    for place in 0..call.kinds.len() {
        let (Some(kind), Some(word)) = (call.kinds.get(place), call.words.get(place)) else {
            continue;
        };
        if put_bad_number(*kind, word.as_bytes(), page) {
            return true;
        }
        if put_second_source(call, *kind, place, page) {
            return true;
        }
    }
    false
}

fn put_bad_number(kind: Kind, word: &[u8], page: &mut Page) -> bool
    ensures { Grows page.old page.new }
{
    let Some((least, most, name)) = range_of(kind) else {
        return false;
    };
    match number_of(word) {
        Some(number) if least <= number && number <= most => false,
        _ => {
            let is_long = word.len() > 9 && is_digits(word);
            page.put(name);
            page.put(if is_long {
                b", of at most nine digits,".as_slice()
            } else {
                b""
            });
            put_range(least, most, word, page);
            true
        }
    }
}

// Puts which numbers it may be, and that it is another word.
fn put_range(least: u32, most: u32, word: &[u8], page: &mut Page)
    ensures { Grows page.old page.new }
{
    page.put(b" is ");
    page.number(u64::from(least));
    put_most(u64::from(most), page);
    page.put(b", not ");
    put_word(word, page);
}

fn is_digits(word: &[u8]) -> bool {
    for byte in word {
        if !byte.is_ascii_digit() {
            return false;
        }
    }
    true
}

// Puts the source at the place if an earlier one has its name.
fn put_second_source(call: &Call, kind: Kind, place: usize, page: &mut Page) -> bool
    ensures { Grows page.old page.new }
{
    if kind != Kind::Source || !is_second(call, place) {
        return false;
    }
    let Some(source) = call.word_at(kind, place) else {
        return false;
    };
    put_quoted(source.as_bytes(), page);
    page.put(b" is two of the sources: each program of a union has a source of its own");
    true
}

// Whether an earlier source has the name of the one at the place.
fn is_second(call: &Call, place: usize) -> bool {
    for earlier in 0..place {
        if let (Some(first), Some(second)) = (
            call.word_at(Kind::Source, earlier),
            call.word_at(Kind::Source, place),
        ) {
            if first == second {
                return true;
            }
        }
    }
    false
}

// Puts why words of which each could be what it is don't fit the form.
fn put_misfit(call: &Call, form: &str, page: &mut Page)
    ensures { Grows page.old page.new }
{
    put_lack(call, page);
    page.put(form.as_bytes());
}

fn put_lack(call: &Call, page: &mut Page)
    ensures { Grows page.old page.new }
{
    if let Some(part) = call.lacking {
        page.put(part.as_bytes());
        page.put(b" is missing: hume ");
    } else if let Some(word) = call.words.get(call.kinds.len()) {
        put_word(word.as_bytes(), page);
        page.put(b" is one word too many: hume ");
    } else if call.first(Kind::Log).is_some() {
        page.put(b"LOG is neither SOURCE nor std_in or std_out: hume ");
    } else if call.first(Kind::Script).is_some() {
        page.put(b"SCRIPT is neither SOURCE nor std_in or std_out: hume ");
    } else {
        page.put(b"the words are not of the form hume ");
    }
}
