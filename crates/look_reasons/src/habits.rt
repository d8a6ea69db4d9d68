//! What people write who know other languages, where no token or no program goes on with it: what stands for it here.
ghost use Rattle.std.specs.Prelude.{◌≡◌};
ghost use Rattle.std.specs.Option.{option_copied};
ghost use Rattle.look_sources.specs.Pages.{Grows};
ghost use Rattle.look_reasons.specs.Misfits.{closes_by_kind, closes_in, is_closing as closes_symbol, keyword_in, keyword_of_kind};
ghost use Rattle.look_reasons.specs.Reasons.{OnlyRemedyDiffers};

use crate::reason::Reason;
use hume_base::{Keyword, Kind, Symbol, Token};

/// Tells what stands for the sign at the place, if it is one of another language.
pub fn tell_habit(text: &[u8], place: usize, reason: &mut Reason)
    ensures { OnlyRemedyDiffers reason.old reason.new }
{
    let rest = text.get(place..).unwrap_or(b"");
    let mut words = remedy_of_pair(byte_before(text, place), rest);
    if words.is_empty() {
        words = remedy_of_sign(rest);
    }
    if words.is_empty() {
        words = remedy_of_other_sign(rest);
    }
    if !words.is_empty() {
        reason.remedy = Some(words);
    }
}

// The byte before the place; at the begin a blank.
fn byte_before(text: &[u8], place: usize) -> u8 {
    let Some(before) = place.checked_sub(1) else {
        return b' ';
    };
    match text.get(before) {
        None => b' ',
        Some(byte) => *byte,
    }
}

// Where the byte before the place is a part of what is written.
fn remedy_of_pair(before: u8, rest: &[u8]) -> &'static [u8] {
    if rest.starts_with(b"||") || before == b'|' && rest.starts_with(b"|") {
        b"one of two conditions is `or`"
    } else if rest.starts_with(b"=>") || before == b'=' && rest.starts_with(b">") {
        b"an arrow is `->`"
    } else if is_sign_of_sum(before) && rest.starts_with(b"=") {
        b"no value changes: give the new one a name by `let`"
    } else if before.is_ascii_digit() && (rest.starts_with(b"x") || rest.starts_with(b"X")) {
        b"write the number in decimal digits"
    } else if before.is_ascii_digit() && rest.starts_with(b".") {
        b"there are no fractions: count in smaller units"
    } else {
        b""
    }
}

fn is_sign_of_sum(byte: u8) -> bool {
    byte == b'+' || byte == b'-' || byte == b'*'
}

fn remedy_of_sign(rest: &[u8]) -> &'static [u8] {
    if rest.starts_with(b"!=") {
        b"unequal is `/=`"
    } else if rest.starts_with(b"!") {
        b"a negation is `not`"
    } else if rest.starts_with(b"&") {
        b"both of two conditions is `and`"
    } else if rest.starts_with(b"?") {
        b"a choice is `if TEST then ONE else OTHER`"
    } else if rest.starts_with(b"%") {
        b"the remainder is `mod`"
    } else if rest.starts_with(b"^") {
        b"there is no power: multiply"
    } else if rest.starts_with(b"//") || rest.starts_with(b"/*") || rest.starts_with(b"#") {
        b"a comment begins with `--`"
    } else if rest.starts_with(b"/") {
        b"a division is `div`"
    } else {
        b""
    }
}

fn remedy_of_other_sign(rest: &[u8]) -> &'static [u8] {
    if rest.starts_with(b">>") {
        b"there are no shifts: multiply or `div` by a power of 2"
    } else if rest.starts_with(b"<") || rest.starts_with(b">") || rest.starts_with(b"==") {
        b"comparisons don't group: join two by `and`"
    } else if rest.starts_with(b"=") {
        b"a comparison is `==`"
    } else if rest.starts_with(b"[") || rest.starts_with(b"]") {
        b"a vector is `<<1, 2>>`, and `v @ 1` is its first element"
    } else if rest.starts_with(b"{") || rest.starts_with(b"}") {
        b"there are no braces: a declaration ends with `;`"
    } else if rest.starts_with(b":") {
        b"a type stands behind `::`"
    } else if rest.starts_with(b"\"") {
        b"there are no texts but the names of ports: a letter is `'a'`"
    } else {
        b""
    }
}

/// A token with which no program goes on.
#[derive(Clone, Copy)]
pub struct Misfit {
    keyword: Option<Keyword>,
    closes: bool,
}

impl Misfit {
    /// That of a token; of the end none.
    pub fn of(token: Option<&Token>) -> Misfit
        ensures keyword { result.keyword ≡ keyword_in (option_copied token.entry) }
        ensures closes { result.closes ≡ closes_in (option_copied token.entry) }
    {
        match token {
            None => Misfit {
                keyword: None,
                closes: false,
            },
            Some(token) => Misfit {
                keyword: keyword_of(&token.kind),
                closes: closes(&token.kind),
            },
        }
    }

    /// Tells why it doesn't go on where the list says what does.
    #[tactic(auto, using(look_sources::proofs::Growing::growing))]
    pub fn tell(&self, expected: &[u8], reason: &mut Reason)
        ensures head { reason.new.head ≡ reason.old.head }
        ensures note { Grows reason.old.note reason.new.note }
    {
        if let Some(keyword) = self.keyword {
            tell_keyword(keyword, expected, reason);
        }
        if self.closes && expected == b",".as_slice() {
            reason.remedy = Some(b"leave the parentheses out: those around types are for tuples");
        }
    }
}

fn keyword_of(kind: &Kind) -> Option<Keyword>
    ensures { result ≡ keyword_of_kind kind.now }
{
    match kind {
        Kind::Word(keyword) => Some(*keyword),
        _ => None,
    }
}

fn closes(kind: &Kind) -> bool
    ensures { result ≡ closes_by_kind kind.now }
{
    match kind {
        Kind::Sign(symbol) => is_closing(*symbol),
        _ => false,
    }
}

fn is_closing(symbol: Symbol) -> bool
    ensures { result ≡ closes_symbol symbol }
{
    match symbol {
        Symbol::CloseParen => true,
        _ => false,
    }
}

// Tells that the keyword is none, where the list begins with a name.
#[tactic(auto, using(look_sources::proofs::Growing::growing))]
fn tell_keyword(keyword: Keyword, expected: &[u8], reason: &mut Reason)
    ensures head { reason.new.head ≡ reason.old.head }
    ensures note { Grows reason.old.note reason.new.note }
{
    if expected.starts_with(b"a lower name") || expected.starts_with(b"an upper name") {
        reason.note.put(b"  `");
        reason.note.put(keyword.text());
        reason.note.put(b"` is a keyword, and no name\n");
    }
}
