//! The acceptance of several sources.
ghost use Rattle.std.specs.Prelude.{◌<◌, ◌^◌, length, IfOk, IsErrOf};
ghost use Rattle.hume_calls.specs.declared.program_refusal.ProgramRefusal.{ProgramRefusal as AnyRefusal};
ghost use Rattle.hume_calls.specs.Unions.{AreAccepted, BreaksFirst};
ghost use Rattle.hume_run.specs.inner.Texts.{texts_of};

use hume_calls::ProgramRefusal;
use hume_front::{Accepted, FrontError, accept};
use std::alloc::Global;
use thiserror::Error;

/// Why not all sources are accepted.
#[derive(Debug, Drop, Error)]
pub enum AcceptError {
    /// The first source that breaks a rule.
    #[error("a source breaks a rule")]
    Refused(ProgramRefusal),
    #[error("out of memory")]
    NoMemory,
}

/// The programs of the sources, if each of them is accepted.
pub fn accept_all(alloc: Global, texts: &[Vec<u8>]) -> Result<Vec<Accepted>, AcceptError>
    requires { length texts.now < 2 ^ 31 }
    ensures accepted { IfOk result (λ programs. AreAccepted (texts_of texts.now) programs.items) }
    ensures refused { (refusal : AnyRefusal) → IsErrOf result (AcceptError.Refused refusal) → BreaksFirst (texts_of texts.now) 1 refusal }
{
    let mut programs = Vec::new(alloc);
    let mut number = 1;
    for text in texts {
        match accept(alloc, text) {
            Ok(accepted) => match programs.push(accepted) {
                Ok(()) => {}
                Err(_) => return Err(AcceptError::NoMemory),
            },
            Err(FrontError::Refused(refusal)) => {
                return Err(AcceptError::Refused(ProgramRefusal {
                    program: number,
                    refusal,
                }));
            }
            Err(FrontError::NoMemory) => return Err(AcceptError::NoMemory),
        }
        number += 1;
    }
    Ok(programs)
}
