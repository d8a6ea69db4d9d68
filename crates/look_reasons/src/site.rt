//! The source at which a rule is broken, with its tokens and parts.
ghost use Rattle.std.specs.Prelude.{◌≡◌, ◌↔◌, IfSome, IsTrue, length, slice_get};
ghost use Rattle.look_reasons.specs.Sites.{BeginsIn, StandsIn, is_upper_name, name_in, place_in};

use hume_base::{Kind, Refusal, Token};
use look_sources::{Sort, Span, Spot};

/// A source whose program breaks a rule, and the declarations that begin in the line of which it is told: those from number
/// `low` to before number `high`.
#[derive(Clone, Copy)]
pub struct Site<'a> {
    pub text: &'a [u8],
    pub tokens: &'a [Token],
    pub spans: &'a [Span],
    pub refusal: Refusal,
    low: usize,
    high: usize,
}

impl<'a> Site<'a> {
    pub fn of(text: &'a [u8], tokens: &'a [Token], spans: &'a [Span], refusal: Refusal) -> Site<'a>
        ensures text { result.text.now ≡ text.now }
        ensures tokens { result.tokens.now ≡ tokens.now }
        ensures spans { result.spans.now ≡ spans.now }
        ensures refusal { result.refusal ≡ refusal }
    {
        let (begin, end) = line_range(text, refusal.line);
        let mut low: usize = 0;
        let mut high: usize = 0;
        for span in spans {
            if span.sort == Sort::Declaration {
                let place = place_of(text, tokens, span.first);
                if place < begin {
                    low = low.saturating_add(1);
                }
                if place <= end {
                    high = high.saturating_add(1);
                }
            }
        }
        Site {
            text,
            tokens,
            spans,
            refusal,
            low,
            high,
        }
    }

    /// The same source with another refusal.
    pub fn other(&self, refusal: Refusal) -> Site<'a>
        ensures text { result.text.now ≡ self.now.text.now }
        ensures tokens { result.tokens.now ≡ self.now.tokens.now }
        ensures spans { result.spans.now ≡ self.now.spans.now }
        ensures refusal { result.refusal ≡ refusal }
    {
        Site::of(self.text, self.tokens, self.spans, refusal)
    }

    /// The place of the first declaration of the line.
    #[tactic(auto, using(crate::proofs::Sites::begins_in))]
    pub fn head(&self) -> Option<usize>
        ensures { IfSome result (BeginsIn self.now) }
    {
        match self.declaration() {
            None => None,
            Some(span) => Some(self.place(span.first)),
        }
    }

    /// Whether the part is one of a declaration that begins in the line.
    pub fn is_here(&self, span: &Span) -> bool
        ensures { IsTrue result ↔ StandsIn self.now span.now }
    {
        self.low <= span.declaration && span.declaration < self.high
    }

    /// The place of a token; of one that isn't there, the end.
    pub fn place(&self, token: usize) -> usize
        ensures { result ≡ place_in (length self.now.text.now) (slice_get self.now.tokens.now token) }
    {
        place_of(self.text, self.tokens, token)
    }

    /// The name that the token is, if it is one.
    pub fn name(&self, token: usize) -> &'a [u8]
        ensures { result.now ≡ name_in (slice_get self.now.tokens.now token) }
    {
        name_of(self.tokens, token)
    }

    /// The first declaration of the line.
    pub(crate) fn declaration(&self) -> Option<Span>
        ensures { IfSome result (StandsIn self.now) }
    {
        for span in self.spans {
            if span.sort == Sort::Declaration && self.is_here(span) {
                return Some(*span);
            }
        }
        None
    }

    /// The line of a token.
    pub(crate) fn line(&self, token: usize) -> u32 {
        Spot::of(self.text, self.place(token)).line
    }

    /// Whether the token is a name with a capital letter.
    pub fn is_upper(&self, token: usize) -> bool
        ensures { result ≡ is_upper_name (slice_get self.now.tokens.now token) }
    {
        match self.tokens.get(token) {
            Some(token) => matches!(&token.kind, Kind::Upper(_)),
            None => false,
        }
    }
}

/// The name that the token is, if it is one.
pub(crate) fn name_of(tokens: &[Token], token: usize) -> &[u8]
    ensures { result.now ≡ name_in (slice_get tokens.now token) }
{
    match tokens.get(token) {
        None => b"",
        Some(token) => match &token.kind {
            Kind::Lower(name) => name.bytes(),
            Kind::Upper(name) => name.bytes(),
            _ => b"",
        },
    }
}

/// The place of a token; of one that isn't there, the end.
pub(crate) fn place_of(text: &[u8], tokens: &[Token], token: usize) -> usize
    ensures { result ≡ place_in (length text.now) (slice_get tokens.now token) }
{
    match tokens.get(token) {
        None => text.len(),
        Some(token) => token.place as usize,
    }
}

// Where a line begins and ends.
fn line_range(text: &[u8], wanted: u32) -> (usize, usize) {
    let mut line: u32 = 1;
    let mut begin: usize = 0;
    let mut at: usize = 0;
    for byte in text {
        if *byte == b'\n' {
            if line == wanted {
                return (begin, at);
            }
            line = line.saturating_add(1);
            begin = at.saturating_add(1);
        }
        at = at.saturating_add(1);
    }
    (begin, at)
}
