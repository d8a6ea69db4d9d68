//! The parts of a source, and how a hint on one is put.
ghost use Rattle.look_sources.specs.Pages.{Grows};

use crate::site::{name_of, place_of};
use hume_base::{Keyword, Kind, Symbol, Token};
use look_sources::{Page, Sort, Span, Spot};

// How many bytes behind a token a remark on it is looked for.
const MAX_REMARK: usize = 1_024;

#[derive(Clone, Copy)]
pub struct Parts<'a> {
    pub name: &'a [u8],
    pub text: &'a [u8],
    pub tokens: &'a [Token],
    pub spans: &'a [Span],
}

impl<'a> Parts<'a> {
    pub(crate) fn name_at(&self, token: usize) -> &'a [u8] {
        name_of(self.tokens, token)
    }

    /// Puts a hint on the token, and the line with a caret.
    #[tactic(auto, using(look_sources::proofs::Growing::growing))]
    pub(crate) fn put_hint(
        &self,
        token: usize,
        words: &[u8],
        name: &[u8],
        more: &[u8],
        page: &mut Page,
    )
        ensures { Grows page.old page.new }
    {
        let spot = Spot::of(self.text, place_of(self.text, self.tokens, token));
        spot.put_head(self.name, page);
        page.put(b"warning: ");
        page.put(words);
        page.put(name);
        page.put(more);
        page.put(b"\n");
        spot.put_line(self.text, page);
    }

    /// Whether the token stands right after a `let`.
    pub(crate) fn is_of_let(&self, token: usize) -> bool {
        let Some(before) = token.checked_sub(1) else {
            return false;
        };
        match self.tokens.get(before) {
            None => false,
            Some(token) => matches!(&token.kind, Kind::Word(Keyword::Let)),
        }
    }

    /// Whether a written tuple begins with the token.
    pub(crate) fn is_tuple(&self, token: usize) -> bool {
        let opens = match self.tokens.get(token) {
            None => false,
            Some(token) => matches!(&token.kind, Kind::Sign(Symbol::OpenParen)),
        };
        if !opens {
            return false;
        }
        for span in self.spans {
            if span.sort == Sort::Expression && span.first == token && span.parts > 0 {
                return true;
            }
        }
        false
    }

    /// The name of the box or stream.
    pub(crate) fn node(&self, name: &[u8]) -> Option<Span> {
        self.declared(Sort::NodeName, name)
    }

    /// The part of that sort and name.
    pub(crate) fn declared(&self, sort: Sort, name: &[u8]) -> Option<Span> {
        for span in self.spans {
            if span.sort == sort && self.name_at(span.first) == name {
                return Some(*span);
            }
        }
        None
    }

    /// Whether a comment `-- unused` stands behind the token in its line.
    pub(crate) fn is_meant(&self, token: usize) -> bool {
        let place = place_of(self.text, self.tokens, token);
        let mut rest = self.text.get(place..).unwrap_or(b"");
        for _ in 0..MAX_REMARK {
            match rest.split_first() {
                Some((byte, after)) if *byte != b'\n' => {
                    if rest.starts_with(b"-- unused") {
                        return true;
                    }
                    rest = after;
                }
                _ => return false,
            }
        }
        false
    }
}
