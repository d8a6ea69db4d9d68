// The piece at the front of the bytes.

ghost use Rattle.std.specs.Prelude.{◌≡◌, ◌∷◌, ◌<◌, length, IfOk, IfSome};
ghost use Rattle.hume_base.specs.Keywords.{keyword_of};
ghost use Rattle.hume_lex.specs.Reading.{token};
ghost use Rattle.hume_lex.specs.inner.Scan.{first_piece, small_piece, escaped as escape_of, starts_with_byte as begins_with, escape_piece, letter_piece, quoted_piece, sign_piece, one_sign as sign_of_one, mark_piece};
ghost use Rattle.hume_lex.specs.inner.View.{Shows, IsScan, IsNext};

use crate::bytes::{
    digits_len, is_capital, is_digit, is_plain, is_small, is_space, line_len, name_len, number,
    quotable_len,
};
use hume_base::limits::{MAX_NAME_BYTES, MAX_PORT_NAME_BYTES};
use hume_base::{Keyword, Kind, Symbol, Text};
use std::alloc::{AllocError, Global};

/// What stands at the front of the bytes.
#[derive(Drop)]
pub enum Front {
    /// A space or a comment.
    Gap,
    Token(Kind),
    /// A number past 64 bits.
    WideNumber,
    /// A name past its limit.
    LongName,
}

/// The piece at the front, and the bytes after it.
pub fn next_front(alloc: Global, rest: &[u8]) -> Result<Option<(Front, &[u8])>, AllocError>
    ensures next { IfOk result (λ found. IsNext found rest.now) }
    ensures shorter { IfOk result (λ found. IfSome found (λ told. length told.1.now < length rest.now)) }
{
    let found = scan(alloc, rest)?;
    match found {
        None => Ok(None),
        Some((front, len)) => {
            let (_, after) = rest.split_at(len);
            Ok(Some((front, after)))
        }
    }
}

#[tactic(auto, using(crate::proofs::Scans::small_scan, crate::proofs::Runs::run_steps), unfolding(crate::specs::inner::Scan::first_piece))]
fn scan(alloc: Global, rest: &[u8]) -> Result<Option<(Front, usize)>, AllocError>
    ensures { IfOk result (λ found. IsScan found (first_piece rest.now)) }
{
    let [byte, after @ ..] = rest else {
        return Ok(None);
    };
    if is_space(*byte) {
        return Ok(Some((Front::Gap, 1)));
    }
    if is_small(*byte) {
        let len = name_len(rest);
        let front = small_name(alloc, &rest[..len])?;
        return Ok(Some((front, len)));
    }
    if is_capital(*byte) {
        let len = name_len(rest);
        let front = capital_name(alloc, &rest[..len])?;
        return Ok(Some((front, len)));
    }
    if is_digit(*byte) {
        let len = digits_len(rest);
        return match number(&rest[..len]) {
            Some(n) => Ok(Some((Front::Token(Kind::Number(n)), len))),
            None => Ok(Some((Front::WideNumber, len))),
        };
    }
    mark(alloc, *byte, after)
}

fn small_name(alloc: Global, text: &[u8]) -> Result<Front, AllocError>
    ensures { IfOk result (λ front. Shows front (small_piece (keyword_of text.now) text.now)) }
{
    match Keyword::from_text(text) {
        Some(word) => Ok(Front::Token(Kind::Word(word))),
        None if text.len() > MAX_NAME_BYTES => Ok(Front::LongName),
        None => Ok(Front::Token(Kind::Lower(Text::from_bytes(alloc, text)?))),
    }
}

fn capital_name(alloc: Global, text: &[u8]) -> Result<Front, AllocError>
    ensures { IfOk result (λ front. Shows front (token (Kind.Upper text.now) text.now)) }
{
    if text.len() > MAX_NAME_BYTES {
        return Ok(Front::LongName);
    }
    Ok(Front::Token(Kind::Upper(Text::from_bytes(alloc, text)?)))
}

fn mark(alloc: Global, byte: u8, after: &[u8]) -> Result<Option<(Front, usize)>, AllocError>
    ensures { IfOk result (λ found. IsScan found (mark_piece byte after.now)) }
{
    match byte {
        b'\'' => Ok(letter(after)),
        b'"' => quoted(alloc, after),
        _ => Ok(sign(byte, after)),
    }
}

fn letter(after: &[u8]) -> Option<(Front, usize)>
    ensures { IsScan result (letter_piece after.now) }
{
    match after {
        [byte, next, rest @ ..] => {
            if *byte == b'\\' {
                return escape(*next, rest);
            }
            if is_plain(*byte) && *next == b'\'' {
                return Some((Front::Token(Kind::Letter(*byte)), 3));
            }
            None
        }
        _ => None,
    }
}

fn escape(code: u8, rest: &[u8]) -> Option<(Front, usize)>
    ensures { IsScan result (escape_piece code rest.now) }
{
    if !starts_with_byte(rest, b'\'') {
        return None;
    }
    match escaped(code) {
        Some(byte) => Some((Front::Token(Kind::Letter(byte)), 4)),
        None => None,
    }
}

fn escaped(code: u8) -> Option<u8>
    ensures { result ≡ escape_of code }
{
    match code {
        b'n' => Some(b'\n'),
        b't' => Some(b'\t'),
        b'\\' => Some(b'\\'),
        b'\'' => Some(b'\''),
        _ => None,
    }
}

fn starts_with_byte(bytes: &[u8], wanted: u8) -> bool
    ensures { result ≡ begins_with wanted bytes.now }
{
    match bytes {
        [byte, ..] => *byte == wanted,
        [] => false,
    }
}

#[tactic(auto, using(crate::proofs::Runs::run_steps))]
fn quoted(alloc: Global, after: &[u8]) -> Result<Option<(Front, usize)>, AllocError>
    ensures { IfOk result (λ found. IsScan found (quoted_piece after.now)) }
{
    let len = quotable_len(after);
    let (inside, rest) = after.split_at(len);
    if 0 < len && len <= MAX_PORT_NAME_BYTES && starts_with_byte(rest, b'"') {
        let text = Text::from_bytes(alloc, inside)?;
        return Ok(Some((Front::Token(Kind::Quoted(text)), len + 2)));
    }
    Ok(None)
}

#[tactic(auto, using(crate::proofs::Runs::run_steps))]
fn sign(byte: u8, after: &[u8]) -> Option<(Front, usize)>
    ensures { IsScan result (sign_piece byte after.now) }
{
    match after {
        [] => one_sign(byte),
        [next, rest @ ..] => {
            if byte == b'-' && *next == b'-' {
                return Some((Front::Gap, 2 + line_len(rest)));
            }
            match Symbol::from_text(&[byte, *next]) {
                Some(symbol) => Some((Front::Token(Kind::Sign(symbol)), 2)),
                None => one_sign(byte),
            }
        }
    }
}

fn one_sign(byte: u8) -> Option<(Front, usize)>
    ensures { IsScan result (sign_of_one byte) }
{
    match Symbol::from_text(&[byte]) {
        Some(symbol) => Some((Front::Token(Kind::Sign(symbol)), 1)),
        None => None,
    }
}
