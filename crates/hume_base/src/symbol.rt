ghost use Rattle.std.specs.Prelude.{◌≡◌, ◌↔◌, IsTrue, Some, bytes_eq};
ghost use Rattle.std.specs.List.{find};
ghost use Rattle.hume_base.specs.Symbols.{symbol_text, symbol_of};
ghost use Rattle.hume_base.specs.inner.FirstLetters.{symbols_with};

/// A token of signs, named for its spelling.
#[derive(Clone, Copy, Debug, PartialEq, Eq)]
pub enum Symbol {
    OpenParen,
    CloseParen,
    OpenAngles,
    CloseAngles,
    Less,
    LessEquals,
    Greater,
    GreaterEquals,
    DoubleEquals,
    SlashEquals,
    Equals,
    Arrow,
    Bar,
    Comma,
    Semicolon,
    DoubleColon,
    Dot,
    Underscore,
    UnderscoreStar,
    Star,
    Plus,
    Minus,
    At,
}

impl Symbol {
    pub fn text(self) -> &'static [u8]
        ensures { result.now ≡ symbol_text self }
    {
        match self {
            Symbol::OpenParen => b"(",
            Symbol::CloseParen => b")",
            Symbol::OpenAngles => b"<<",
            Symbol::CloseAngles => b">>",
            Symbol::Less => b"<",
            Symbol::LessEquals => b"<=",
            Symbol::Greater => b">",
            Symbol::GreaterEquals => b">=",
            Symbol::DoubleEquals => b"==",
            Symbol::SlashEquals => b"/=",
            Symbol::Equals => b"=",
            Symbol::Arrow => b"->",
            Symbol::Bar => b"|",
            Symbol::Comma => b",",
            Symbol::Semicolon => b";",
            Symbol::DoubleColon => b"::",
            Symbol::Dot => b".",
            Symbol::Underscore => b"_",
            Symbol::UnderscoreStar => b"_*",
            Symbol::Star => b"*",
            Symbol::Plus => b"+",
            Symbol::Minus => b"-",
            Symbol::At => b"@",
        }
    }

    /// The symbol that is spelled so.
    pub fn from_text(text: &[u8]) -> Option<Symbol>
        ensures found { result ≡ symbol_of text.now }
        ensures exact { (symbol : Symbol) → (result ≡ Some symbol) ↔ (text.now ≡ symbol_text symbol) }
    {
        match text {
            [] => None,
            [first, ..] => find_among(starting_with(*first), text),
        }
    }

    /// Whether two are the same; a clause learns more from it than from `==`.
    pub fn is(self, other: Symbol) -> bool
        ensures { IsTrue result ↔ (self ≡ other) }
    {
        self == other
    }
}

/// The symbols that begin with the byte.
fn starting_with(byte: u8) -> &'static [Symbol]
    ensures { result.now ≡ symbols_with byte }
{
    match byte {
        b'(' => &[Symbol::OpenParen],
        b')' => &[Symbol::CloseParen],
        b'<' => &[Symbol::OpenAngles, Symbol::Less, Symbol::LessEquals],
        b'>' => &[Symbol::CloseAngles, Symbol::Greater, Symbol::GreaterEquals],
        b'=' => &[Symbol::DoubleEquals, Symbol::Equals],
        b'/' => &[Symbol::SlashEquals],
        b'-' => &[Symbol::Arrow, Symbol::Minus],
        b'|' => &[Symbol::Bar],
        b',' => &[Symbol::Comma],
        b';' => &[Symbol::Semicolon],
        b':' => &[Symbol::DoubleColon],
        b'.' => &[Symbol::Dot],
        b'_' => &[Symbol::Underscore, Symbol::UnderscoreStar],
        b'*' => &[Symbol::Star],
        b'+' => &[Symbol::Plus],
        b'@' => &[Symbol::At],
        _ => &[],
    }
}

fn find_among(some: &[Symbol], text: &[u8]) -> Option<Symbol>
    ensures { result ≡ find (λ symbol. bytes_eq (symbol_text symbol) text.now) some.now }
{
    some.iter().copied().find(|symbol| symbol.text() == text)
}
