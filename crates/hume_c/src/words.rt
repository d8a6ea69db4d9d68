//! What words ask for.
ghost use Rattle.std.specs.Prelude.{◌≡◌};
ghost use Rattle.std.specs.List.{list_all};
ghost use Rattle.hume_text.specs.Read.{is_digit, is_letter, is_name_byte};
ghost use Rattle.hume_c.specs.Words.{is_name, kind_of};

/// Which text is asked for.
#[derive(Clone, Copy)]
pub enum Kind {
    /// The C file.
    File,
    /// Its header.
    Header,
    /// A main that reads and writes the files of the streams.
    Main,
}

/// The text for which a word asks.
pub(crate) fn kind_of(word: &str) -> Option<Kind>
    ensures { result ≡ kind_of word.now }
{
    if word == "file" {
        return Some(Kind::File);
    }
    if word == "header" {
        return Some(Kind::Header);
    }
    if word == "main" {
        return Some(Kind::Main);
    }
    None
}

/// Whether a program may have the name.
pub(crate) fn is_name(name: &[u8]) -> bool
    ensures { result ≡ is_name name.now }
{
    match name.split_first() {
        None => false,
        Some((first, others)) => is_letter(*first) && are_name_bytes(others),
    }
}

fn are_name_bytes(bytes: &[u8]) -> bool
    ensures { result ≡ list_all is_name_byte bytes.now }
{
    bytes.iter().all(|byte| is_name_byte(*byte))
}

fn is_name_byte(byte: u8) -> bool
    ensures { result ≡ is_name_byte byte }
{
    is_letter(byte) || is_digit(byte) || byte == b'_'
}

fn is_letter(byte: u8) -> bool
    ensures { result ≡ is_letter byte }
{
    (byte >= b'a' && byte <= b'z') || (byte >= b'A' && byte <= b'Z')
}

fn is_digit(byte: u8) -> bool
    ensures { result ≡ is_digit byte }
{
    byte >= b'0' && byte <= b'9'
}
