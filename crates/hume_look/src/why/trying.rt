//! A source of which parts are put away, checked again.
use crate::sources::refusal_of;
use crate::why::marks::{Mark, all_kept, marked};
use hume_base::Refusal;
use look_reasons::Site;
use std::alloc::{AllocError, Global};

// How many bytes of sources are checked again at most.
const MAX_CHECKED_BYTES: usize = 8_000_000;

/// What stands in the place of each token, and how many bytes of sources may still be checked.
#[derive(Drop)]
pub(crate) struct Trying {
    pub(crate) marks: Vec<Mark>,
    left: usize,
}

impl Trying {
    /// Of a source with so many tokens, which all are kept.
    pub(crate) fn of(alloc: Global, tokens: usize) -> Result<Trying, AllocError> {
        Ok(Trying {
            marks: all_kept(alloc, tokens)?,
            left: MAX_CHECKED_BYTES,
        })
    }

    /// Whether the source with these marks breaks neither the rule in the line nor one that is told before. Where no more bytes may be
    /// checked the answer is no.
    pub(crate) fn is_right(&mut self, alloc: Global, site: &Site) -> Result<bool, AllocError> {
        let text = marked(alloc, site, self.marks.as_slice())?;
        self.is_mended(alloc, site, text.as_slice())
    }

    /// The same of a text in the place of the source.
    pub(crate) fn is_mended(
        &mut self,
        alloc: Global,
        site: &Site,
        text: &[u8],
    ) -> Result<bool, AllocError> {
        if self.is_over() {
            return Ok(false);
        }
        self.left = self.left.saturating_sub(text.len());
        match refusal_of(alloc, text)? {
            None => Ok(true),
            Some(refusal) => Ok(comes_after(refusal, site.refusal)),
        }
    }

    /// As many bytes as at first may be checked again.
    pub(crate) fn begin_again(&mut self) {
        self.left = MAX_CHECKED_BYTES;
    }

    /// Whether no more bytes may be checked.
    pub(crate) fn is_over(&self) -> bool {
        self.left == 0
    }
}

// Whether a refusal is told after the other one, by phase, line and code.
fn comes_after(refusal: Refusal, other: Refusal) -> bool {
    let phase = refusal.rule.phase();
    let before = other.rule.phase();
    if phase != before {
        return phase > before;
    }
    if refusal.line != other.line {
        return refusal.line > other.line;
    }
    refusal.rule.code() > other.rule.code()
}
