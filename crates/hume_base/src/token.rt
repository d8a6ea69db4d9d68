use crate::keyword::Keyword;
use crate::symbol::Symbol;
use crate::text::Text;

/// What a token is, with what it says.
#[derive(Debug, Drop, PartialEq, Eq)]
pub enum Kind {
    /// A name that begins with a small letter.
    Lower(Text),
    /// A name that begins with a capital letter.
    Upper(Text),
    Number(u64),
    /// The byte that stands between the single quotes, or that its escape means.
    Letter(u8),
    /// The bytes between the double quotes.
    Quoted(Text),
    Word(Keyword),
    Sign(Symbol),
}

/// A token, and the offset in bytes at which it begins.
#[derive(Debug, Drop, PartialEq, Eq)]
pub struct Token {
    pub kind: Kind,
    pub place: u32,
}
