//! Names that a function may have.
ghost use Rattle.std.specs.Prelude.{◌≡◌};
ghost use Rattle.std.specs.List.{list_all};
ghost use Rattle.calculus_laws.specs.Names.{has_form, is_function_name, is_name_byte, is_small, is_taken};

use hume_base::Keyword;
use hume_base::limits::MAX_NAME_BYTES;
use hume_model::FunC;

/// Whether a source may give a function the name.
pub(crate) fn is_function_name(name: &[u8]) -> bool
    ensures { result ≡ is_function_name name.now }
{
    has_form(name) && name.len() <= MAX_NAME_BYTES && Keyword::from_text(name).is_none()
}

/// Whether one of the functions has the name.
pub(crate) fn is_taken(funs: &[FunC], name: &[u8]) -> bool
    ensures { result ≡ is_taken funs.now name.now }
{
    funs.iter().any(|function| function.name.bytes() == name)
}

fn has_form(name: &[u8]) -> bool
    ensures { result ≡ has_form name.now }
{
    match name.split_first() {
        None => false,
        Some((first, later)) => is_small(*first) && are_name_bytes(later),
    }
}

fn are_name_bytes(bytes: &[u8]) -> bool
    ensures { result ≡ list_all is_name_byte bytes.now }
{
    bytes.iter().all(|byte| is_name_byte(*byte))
}

fn is_small(byte: u8) -> bool
    ensures { result ≡ is_small byte }
{
    byte >= b'a' && byte <= b'z'
}

fn is_name_byte(byte: u8) -> bool
    ensures { result ≡ is_name_byte byte }
{
    is_small(byte)
        || (byte >= b'A' && byte <= b'Z')
        || (byte >= b'0' && byte <= b'9')
        || byte == b'_'
}
