//! The top call: by a word, what is shown of a source.
ghost use Rattle.std.specs.Prelude.{◌≡◌, IfOk, map, string_bytes, true, false};
ghost use Rattle.look_sources.specs.Pages.{Appends};
ghost use Rattle.hume_look.specs.Shown.{IsShown, TellsAccepted, TellsRefused, refused_line};
ghost use Rattle.hume_look.specs.Words.{word_of, word_named as named_word};
ghost use Rattle.hume_look.specs.inner.Puts.{PutsAccepted, PutsRefused, StartsWith};

use crate::hints::put_hints;
use crate::sources::core_of;
use crate::why::put_why;
use hume_base::Refusal;
use hume_front::{Accepted, FrontError, accept};
use look_cores::{put_bounds, put_net};
use look_sources::Page;
use std::alloc::{AllocError, Global};

/// What is asked of a source.
#[derive(Clone, Copy, Debug, PartialEq, Eq)]
pub enum Word {
    Why,
    Bounds,
    Net,
    Hints,
}

/// What is asked by the first of two words.
pub fn read_word(words: &[String]) -> Option<Word>
    ensures { result ≡ word_of (map string_bytes words.now) }
{
    match words {
        [word, _] => word_named(word),
        _ => None,
    }
}

fn word_named(name: &str) -> Option<Word>
    ensures { result ≡ named_word name.now }
{
    if name == "why" {
        return Some(Word::Why);
    }
    if name == "bounds" {
        return Some(Word::Bounds);
    }
    if name == "net" {
        return Some(Word::Net);
    }
    if name == "hints" {
        return Some(Word::Hints);
    }
    None
}

/// What is printed, and whether the source is accepted.
#[derive(Drop)]
pub struct Shown {
    pub text: Vec<u8>,
    pub accepted: bool,
}

/// What the word asks of the source with that name and that text.
#[tactic(auto, using(crate::proofs::Showing::shown))]
pub fn look(alloc: Global, word: Word, name: &[u8], text: &[u8]) -> Result<Shown, AllocError>
    ensures { IfOk result (IsShown word name.now text.now) }
{
    match accept(alloc, text) {
        Ok(accepted) => {
            let shown = shown_accepted(alloc, word, name, text, &accepted)?;
            Ok(shown)
        }
        Err(FrontError::Refused(refusal)) => {
            let shown = shown_refused(alloc, word, name, text, refusal)?;
            Ok(shown)
        }
        Err(FrontError::NoMemory) => Err(AllocError),
    }
}

#[tactic(auto, using(crate::proofs::Showing::showing))]
fn shown_accepted(
    alloc: Global,
    word: Word,
    name: &[u8],
    text: &[u8],
    accepted: &Accepted,
) -> Result<Shown, AllocError>
    ensures said { IfOk result (λ shown. shown.accepted ≡ true) }
    ensures text { IfOk result (λ shown. TellsAccepted word name.now shown.text.items) }
{
    let mut page = Page::make(alloc);
    put_accepted(alloc, word, name, text, accepted, &mut page)?;
    let text = page.finish()?;
    Ok(Shown {
        text,
        accepted: true,
    })
}

#[tactic(auto, using(crate::proofs::Showing::showing))]
fn shown_refused(
    alloc: Global,
    word: Word,
    name: &[u8],
    text: &[u8],
    refusal: Refusal,
) -> Result<Shown, AllocError>
    ensures said { IfOk result (λ shown. shown.accepted ≡ false) }
    ensures text { IfOk result (λ shown. TellsRefused word refusal shown.text.items) }
{
    let mut page = Page::make(alloc);
    put_refused(alloc, word, name, text, refusal, &mut page)?;
    let text = page.finish()?;
    Ok(Shown {
        text,
        accepted: false,
    })
}

#[tactic(auto, using(look_sources::proofs::Growing::appends_more))]
fn put_accepted(
    alloc: Global,
    word: Word,
    name: &[u8],
    text: &[u8],
    accepted: &Accepted,
    page: &mut Page,
) -> Result<(), AllocError>
    ensures { PutsAccepted word name.now page.old page.new }
{
    match word {
        Word::Why => {
            page.put(name);
            page.put(b": accepted\n");
            Ok(())
        }
        Word::Bounds => put_bounds(alloc, &accepted.core, page),
        Word::Net => put_net(alloc, &accepted.core, page),
        Word::Hints => put_hints(alloc, name, text, accepted, page),
    }
}

fn put_refused(
    alloc: Global,
    word: Word,
    name: &[u8],
    text: &[u8],
    refusal: Refusal,
    page: &mut Page,
) -> Result<(), AllocError>
    ensures { PutsRefused word refusal page.old page.new }
{
    match word {
        Word::Why => put_why(alloc, name, text, refusal, page),
        Word::Bounds => put_refused_bounds(alloc, text, refusal, page),
        Word::Net => {
            put_line(refusal, page);
            Ok(())
        }
        Word::Hints => {
            put_line(refusal, page);
            Ok(())
        }
    }
}

// The bounds too, where they are what is refused.
#[tactic(auto, using(crate::proofs::Showing::starting))]
fn put_refused_bounds(
    alloc: Global,
    text: &[u8],
    refusal: Refusal,
    page: &mut Page,
) -> Result<(), AllocError>
    ensures { StartsWith page.old page.new (refused_line refusal) }
{
    put_line(refusal, page);
    if refusal.rule.phase() != 10 {
        return Ok(());
    }
    match core_of(alloc, text)? {
        None => Ok(()),
        Some(core) => put_bounds(alloc, &core, page),
    }
}

// The line of `hume check`.
#[tactic(auto, using(look_sources::proofs::Growing::appends_more))]
fn put_line(refusal: Refusal, page: &mut Page)
    ensures { Appends page.old page.new (refused_line refusal) }
{
    page.put(b"refused ");
    page.number(u64::from(refusal.rule.code()));
    page.put(b" line ");
    page.number(u64::from(refusal.line));
    page.put(b"\n");
}
