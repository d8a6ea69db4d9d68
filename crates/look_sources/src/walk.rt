//! The state of a walk through a program, in the order of its tokens.
ghost use Rattle.std.specs.Prelude.{◌+◌, ◌≤◌, IfOk, min};
ghost use Rattle.look_sources.specs.Parts.{declarations, declares};
ghost use Rattle.look_sources.specs.inner.Walks.{noted};

use crate::span::{Sort, Span};
use std::alloc::{AllocError, Global};

/// How many tokens are passed, the parts so far, and how many parts were lost where memory ran out.
#[derive(Drop)]
pub(crate) struct Walk {
    at: usize,
    declaration: usize,
    spans: Vec<Span>,
    lost: usize,
}

impl Walk {
    pub(crate) fn begin(alloc: Global) -> Walk {
        Walk {
            at: 0,
            declaration: 0,
            spans: Vec::new(alloc),
            lost: 0,
        }
    }

    pub(crate) fn at(&self) -> usize {
        self.at
    }

    /// Passes so many tokens.
    pub(crate) fn skip(&mut self, count: usize)
        ensures { noted self.old ≤ noted self.new }
    {
        self.at = self.at.saturating_add(count);
    }

    pub(crate) fn next_declaration(&mut self)
        ensures { noted self.old ≤ noted self.new }
    {
        self.declaration = self.declaration.saturating_add(1);
    }

    /// Notes a part that began at token `first` and ends here.
    pub(crate) fn note(&mut self, sort: Sort, first: usize, number: usize, parts: usize)
        ensures on { noted self.old ≤ noted self.new }
        ensures noted { min (noted self.old + declares sort) usize.MAX ≤ noted self.new }
    {
        self.push(Span {
            sort,
            first,
            after: self.at,
            declaration: self.declaration,
            number,
            parts,
        });
    }

    #[tactic(auto, using(crate::proofs::Walking::declarations_more))]
    fn push(&mut self, part: Span)
        ensures on { noted self.old ≤ noted self.new }
        ensures noted { min (noted self.old + declares part.sort) usize.MAX ≤ noted self.new }
    {
        if self.spans.push(part).is_err() {
            self.lost = self.lost.saturating_add(1);
        }
    }

    /// Passes a token that is a part by itself.
    pub(crate) fn name(&mut self, sort: Sort, number: usize)
        ensures { noted self.old ≤ noted self.new }
    {
        let first = self.at;
        self.skip(1);
        self.note(sort, first, number, 0);
    }

    /// The same of a name with so many parts.
    pub(crate) fn name_of_parts(&mut self, sort: Sort, number: usize, parts: usize)
        ensures { noted self.old ≤ noted self.new }
    {
        let first = self.at;
        self.skip(1);
        self.note(sort, first, number, parts);
    }

    pub(crate) fn finish(self) -> Result<Vec<Span>, AllocError>
        ensures { IfOk result (λ parts. noted self ≤ declarations parts.items) }
    {
        let Walk { spans, lost, .. } = self;
        if lost > 0 { Err(AllocError) } else { Ok(spans) }
    }
}
