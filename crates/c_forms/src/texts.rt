//! Names from their parts.
ghost use Rattle.std.specs.Prelude.{◌≡◌, IfOk};
ghost use Rattle.std.specs.List.{flat_map};
ghost use Rattle.c_forms.specs.Expressions.{numbered};

use hume_base::Text;
use itoa::Buffer;
use std::alloc::{AllocError, Global};

pub fn text(alloc: Global, bytes: &[u8]) -> Result<Text, AllocError>
    ensures { IfOk result (λ text. text ≡ bytes.now) }
{
    Text::from_bytes(alloc, bytes)
}

/// The parts one behind the other.
pub fn joined(alloc: Global, parts: &[&[u8]]) -> Result<Text, AllocError>
    ensures { IfOk result (λ text. text ≡ flat_map (λ part. part.now) parts.now) }
{
    let mut bytes = Vec::new(alloc);
    for part in parts {
        bytes.extend_from_slice(part)?;
    }
    Text::from_bytes(alloc, bytes.as_slice())
}

/// A word with a number behind it.
pub fn numbered(alloc: Global, word: &[u8], number: u64) -> Result<Text, AllocError>
    ensures { IfOk result (λ text. text ≡ numbered word.now number) }
{
    joined(alloc, &[word, Buffer::new().format(number).as_bytes()])
}
