//! What is said of a call by its status.
ghost use Rattle.std.specs.Prelude.{◌<◌, IfOk, IsSome, length};

use crate::failures::programs::{programs_of, sound_of};
use crate::failures::refusals::put_refusal;
use look_sources::Page;
use look_told::{BadLines, Call, Disk, Kind, Known, Rounds, number_of, put_fault, put_words};
use std::alloc::{AllocError, Global};

// How many supersteps make a round of a run, as `run_rounds` has it.
const SPAN: u32 = 64;

/// Why a call failed; none where the words aren't `STATUS [WHY PORT].. -- WORD..`: the status of the call, of some ports why they can't be
/// used, as the shell knows, and the words of the call. On a terminal the first line of `why` stands behind a refusal.
pub fn told<D: Disk>(
    disk: &D,
    alloc: Global,
    words: &[String],
    on_terminal: bool,
) -> Result<Option<Vec<u8>>, AllocError>
    ensures { IfOk result (λ text. IsSome text → 0 < length words.now) }
{
    let Some((status, rest)) = words.split_first() else {
        return Ok(None);
    };
    let Some(place) = place_of_words(rest) else {
        return Ok(None);
    };
    let known = Known {
        pairs: rest.get(..place).unwrap_or(&[]),
    };
    let behind = place.saturating_add(1);
    let call = Call::read(alloc, rest.get(behind..).unwrap_or(&[]))?;
    let mut page = Page::make(alloc);
    match status.as_str() {
        "1" => put_words(alloc, &call, &mut page)?,
        "2" => put_refusal(disk, alloc, &call, on_terminal, &mut page)?,
        "3" => put_bad_line(disk, alloc, &call, &mut page)?,
        "4" => put_failed(disk, alloc, &call, known, &mut page)?,
        _ => return Ok(None),
    }
    Ok(Some(page.finish()?))
}

// Where `--` stands behind pairs.
fn place_of_words(words: &[String]) -> Option<usize> {
    for pair in 0..words.len() {
        let place = pair.saturating_mul(2);
        match words.get(place) {
            None => return None,
            Some(word) if word.as_str() == "--" => return Some(place),
            Some(_) => {}
        }
    }
    None
}

fn put_bad_line<D: Disk>(
    disk: &D,
    alloc: Global,
    call: &Call,
    page: &mut Page,
) -> Result<(), AllocError> {
    if call.command() == "console" {
        page.put(
            b"hume: a line of an input is no value of its type, or one of the commands is bad, as the standard output says\n",
        );
        return Ok(());
    }
    let rounds = Rounds {
        steps: call
            .first(Kind::Steps)
            .and_then(|word| number_of(word.as_bytes()))
            .unwrap_or(0),
        span: match call.command() {
            "trace" | "record" | "verify" => 1,
            _ => SPAN,
        },
    };
    let mut lines = BadLines::none(alloc);
    for place in 0..call.kinds.len() {
        if let Some(source) = call.word_at(Kind::Source, place) {
            add_of_source(disk, alloc, source, rounds, &mut lines)?;
        }
    }
    lines.put(page);
    Ok(())
}

// Adds the bad lines of the input streams of a source.
fn add_of_source<D: Disk>(
    disk: &D,
    alloc: Global,
    source: &str,
    rounds: Rounds,
    lines: &mut BadLines,
) -> Result<(), AllocError> {
    match sound_of(disk, alloc, source)? {
        None => {
            lines.miss();
            Ok(())
        }
        Some(sound) => lines.add(disk, alloc, &sound.core, rounds),
    }
}

fn put_failed<D: Disk>(
    disk: &D,
    alloc: Global,
    call: &Call,
    known: Known,
    page: &mut Page,
) -> Result<(), AllocError> {
    let programs = if call.command() == "check" || call.is_look() {
        Vec::new(alloc)
    } else {
        programs_of(disk, alloc, call)?
    };
    put_fault(disk, call, known, programs.as_slice(), page);
    Ok(())
}
