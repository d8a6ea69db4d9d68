//! Copies of patterns.
ghost use Rattle.std.specs.Prelude.{◌≡◌, IfOk};

use crate::gathering::pushed;
use hume_base::List;
use hume_model::PatC;
use std::alloc::{AllocError, Global};

#[cycle(copy_pattern)]
pub fn copy_pattern(alloc: Global, pattern: &PatC) -> Result<PatC, AllocError>
    ensures { IfOk result (λ copy. copy ≡ pattern.now) }
{
    match pattern {
        PatC::Var => Ok(PatC::Var),
        PatC::Any => Ok(PatC::Any),
        PatC::Word(word) => Ok(PatC::Word(*word)),
        PatC::Con(place, parts) => Ok(PatC::Con(*place, copy_patterns(alloc, parts.as_slice())?)),
        PatC::Tuple(parts) => Ok(PatC::Tuple(copy_patterns(alloc, parts.as_slice())?)),
    }
}

#[cycle(copy_pattern)]
fn copy_patterns(alloc: Global, patterns: &[PatC]) -> Result<List<PatC>, AllocError>
    ensures { IfOk result (λ copies. copies ≡ patterns.now) }
{
    let mut copies = Ok(List::new(alloc));
    for pattern in patterns {
        copies = pushed(copies, copy_pattern(alloc, pattern));
    }
    copies
}
