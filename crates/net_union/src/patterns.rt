//! Copies of patterns: nothing in them moves.
ghost use Rattle.std.specs.Prelude.{◌≡◌, IfOk};

use crate::gathering::pushed;
use hume_base::List;
use hume_model::{InPat, PatC};
use std::alloc::{AllocError, Global};

pub(crate) fn copy_positions(alloc: Global, positions: &[InPat]) -> Result<List<InPat>, AllocError>
    ensures { IfOk result (λ copies. copies ≡ positions.now) }
{
    let mut copies = Ok(List::new(alloc));
    for position in positions {
        copies = pushed(copies, copy_position(alloc, position));
    }
    copies
}

fn copy_position(alloc: Global, position: &InPat) -> Result<InPat, AllocError>
    ensures { IfOk result (λ copy. copy ≡ position.now) }
{
    match position {
        InPat::Star => Ok(InPat::Star),
        InPat::AnyStar => Ok(InPat::AnyStar),
        InPat::Any => Ok(InPat::Any),
        InPat::Built(pattern) => Ok(InPat::Built(copy_pattern(alloc, pattern)?)),
    }
}

#[cycle(copy_pattern)]
pub(crate) fn copy_pattern(alloc: Global, pattern: &PatC) -> Result<PatC, AllocError>
    ensures { IfOk result (λ copy. copy ≡ pattern.now) }
{
    match pattern {
        PatC::Var => Ok(PatC::Var),
        PatC::Any => Ok(PatC::Any),
        PatC::Word(word) => Ok(PatC::Word(*word)),
        PatC::Con(place, parts) => Ok(PatC::Con(*place, copy_patterns(alloc, parts.as_slice())?)),
        PatC::Tuple(parts) => Ok(PatC::Tuple(copy_patterns(alloc, parts.as_slice())?)),
    }
}

#[cycle(copy_pattern)]
pub(crate) fn copy_patterns(alloc: Global, patterns: &[PatC]) -> Result<List<PatC>, AllocError>
    ensures { IfOk result (λ copies. copies ≡ patterns.now) }
{
    let mut copies = Ok(List::new(alloc));
    for pattern in patterns {
        copies = pushed(copies, copy_pattern(alloc, pattern));
    }
    copies
}
