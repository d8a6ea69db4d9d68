ghost use Rattle.std.specs.Prelude.{◌≡◌, IfOk};
ghost use Rattle.hume_calls.specs.Owed.{program_refused_line, refused_line};
ghost use Rattle.hume_calls.specs.Unions.{program_line};

use crate::program_refusal::ProgramRefusal;
use hume_base::Refusal;
use itoa::Buffer;
use std::alloc::{AllocError, Global};

/// The line that tells which rule a source breaks.
pub fn refused_line(alloc: Global, refusal: Refusal) -> Result<Vec<u8>, AllocError>
    ensures { IfOk result (λ line. line.items ≡ refused_line refusal) }
{
    let mut line = Vec::from_slice(alloc, b"refused ")?;
    line.extend_from_slice(Buffer::new().format(refusal.rule.code()).as_bytes())?;
    line.extend_from_slice(b" line ")?;
    line.extend_from_slice(Buffer::new().format(refusal.line).as_bytes())?;
    line.push(b'\n')?;
    Ok(line)
}

/// The line that tells which rule one of several programs breaks.
pub fn program_refused_line(alloc: Global, refusal: ProgramRefusal) -> Result<Vec<u8>, AllocError>
    ensures { IfOk result (λ line. line.items ≡ program_refused_line refusal) }
{
    let mut line = Vec::from_slice(alloc, b"program ")?;
    line.extend_from_slice(Buffer::new().format(refusal.program).as_bytes())?;
    line.push(b' ')?;
    let rest = refused_line(alloc, refusal.refusal)?;
    line.extend_from_slice(&rest)?;
    Ok(line)
}

/// The line that names one of several programs, by its number and the name of its source's port.
pub fn program_line(alloc: Global, number: u32, name: &[u8]) -> Result<Vec<u8>, AllocError>
    ensures { IfOk result (λ line. line.items ≡ program_line number name.now) }
{
    let mut line = Vec::from_slice(alloc, b"program ")?;
    line.extend_from_slice(Buffer::new().format(number).as_bytes())?;
    line.push(b' ')?;
    line.extend_from_slice(name)?;
    line.push(b'\n')?;
    Ok(line)
}
