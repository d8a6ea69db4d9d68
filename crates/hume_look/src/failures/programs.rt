//! The programs of a call.
ghost use Rattle.std.specs.Prelude.{IfOk, IfSome};
ghost use Rattle.look_told.specs.Readable.{HasReadableLines};

use hume_base::limits::MAX_SOURCE_BYTES;
use hume_front::{FrontError, Sound, check_source};
use look_told::{Call, Disk, Kind, Program, text_of_file};
use std::alloc::{AllocError, Global};

/// The programs of the sources that can be read again and break no rule but perhaps some on what boxes may take.
pub(crate) fn programs_of<'a, D: Disk>(
    disk: &D,
    alloc: Global,
    call: &Call<'a>,
) -> Result<Vec<Program<'a>>, AllocError> {
    let mut programs = Vec::new(alloc);
    for place in 0..call.kinds.len() {
        if let Some(source) = call.word_at(Kind::Source, place) {
            if let Some(program) = program_of(disk, alloc, source)? {
                programs.push(program)?;
            }
        }
    }
    Ok(programs)
}

fn program_of<'a, D: Disk>(
    disk: &D,
    alloc: Global,
    source: &'a str,
) -> Result<Option<Program<'a>>, AllocError> {
    Ok(match sound_of(disk, alloc, source)? {
        None => None,
        Some(sound) => Some(Program {
            source,
            core: sound.core,
        }),
    })
}

/// What a source stands for that can be read again and breaks no such rule.
pub(crate) fn sound_of<D: Disk>(
    disk: &D,
    alloc: Global,
    source: &str,
) -> Result<Option<Sound>, AllocError>
    ensures { IfOk result (λ found. IfSome found (λ sound. HasReadableLines sound.core)) }
{
    match text_of_source(disk, alloc, source)? {
        None => Ok(None),
        Some(text) => checked(alloc, text.as_slice()),
    }
}

fn checked(alloc: Global, text: &[u8]) -> Result<Option<Sound>, AllocError>
    ensures { IfOk result (λ found. IfSome found (λ sound. HasReadableLines sound.core)) }
{
    match check_source(alloc, text) {
        Ok(sound) => Ok(Some(sound)),
        Err(FrontError::Refused(_)) => Ok(None),
        Err(FrontError::NoMemory) => Err(AllocError),
    }
}

/// The bytes of a source that can be read again, at most one more than it may have.
pub(crate) fn text_of_source<D: Disk>(
    disk: &D,
    alloc: Global,
    source: &str,
) -> Result<Option<Vec<u8>>, AllocError> {
    text_of_file(disk, alloc, source, MAX_SOURCE_BYTES + 1)
}
