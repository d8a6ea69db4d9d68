//! Words in messages, quoted as a shell quotes them.
#![tactic(auto, using(look_sources::proofs::Growing::growing))]

ghost use Rattle.look_sources.specs.Pages.{Grows};

use look_sources::Page;

// How many bytes of a word a message has at most.
const MAX_WORD_BYTES: usize = 60;

/// Puts the name of a file at the head of a line: in quotes if it would be more than a line.
pub(crate) fn put_name(name: &[u8], page: &mut Page)
    ensures { Grows page.old page.new }
{
    if has_control(name) {
        put_quoted(name, page);
    } else {
        page.put(name);
    }
}

fn has_control(name: &[u8]) -> bool {
    for byte in name {
        if byte.is_ascii_control() {
            return true;
        }
    }
    false
}

/// Puts a word, or the front of a long one; a number as it is.
pub(crate) fn put_word(word: &[u8], page: &mut Page)
    ensures { Grows page.old page.new }
{
    match word.get(..MAX_WORD_BYTES) {
        Some(front) if word.len() > MAX_WORD_BYTES => put_in_quotes(front, b"..", page),
        _ if is_number(word) => page.put(word),
        _ => put_quoted(word, page),
    }
}

fn is_number(word: &[u8]) -> bool {
    for byte in word {
        if !byte.is_ascii_digit() {
            return false;
        }
    }
    !word.is_empty()
}

/// Puts the bytes in quotes.
pub(crate) fn put_quoted(bytes: &[u8], page: &mut Page)
    ensures { Grows page.old page.new }
{
    put_in_quotes(bytes, b"", page);
}

// Puts the bytes and those behind them in quotes. Where one is no letter or sign of ASCII, the quotes are those with escapes.
fn put_in_quotes(bytes: &[u8], behind: &[u8], page: &mut Page)
    ensures { Grows page.old page.new }
{
    let escaped = !is_plain(bytes);
    page.put(if escaped { b"$'".as_slice() } else { b"'" });
    for byte in bytes {
        put_byte(*byte, escaped, page);
    }
    page.put(behind);
    page.put(b"'");
}

fn is_plain(bytes: &[u8]) -> bool {
    for byte in bytes {
        if *byte < b' ' || *byte > b'~' {
            return false;
        }
    }
    true
}

fn put_byte(byte: u8, escaped: bool, page: &mut Page)
    ensures { Grows page.old page.new }
{
    if escaped {
        put_escaped(byte, page);
    } else if byte == b'\'' {
        page.put(b"'\\''");
    } else {
        page.put(&[byte]);
    }
}

fn put_escaped(byte: u8, page: &mut Page)
    ensures { Grows page.old page.new }
{
    match byte {
        7 => page.put(b"\\a"),
        8 => page.put(b"\\b"),
        b'\t' => page.put(b"\\t"),
        b'\n' => page.put(b"\\n"),
        11 => page.put(b"\\v"),
        12 => page.put(b"\\f"),
        b'\r' => page.put(b"\\r"),
        27 => page.put(b"\\E"),
        b'\'' => page.put(b"\\'"),
        b'\\' => page.put(b"\\\\"),
        b' '..=b'~' => page.put(&[byte]),
        _ => put_octal(byte, page),
    }
}

fn put_octal(byte: u8, page: &mut Page)
    ensures { Grows page.old page.new }
{
    page.put(b"\\");
    page.number(u64::from(byte / 64));
    page.number(u64::from(byte / 8 % 8));
    page.number(u64::from(byte % 8));
}
