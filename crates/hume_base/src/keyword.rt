ghost use Rattle.std.specs.Prelude.{◌≡◌, ◌↔◌, IsTrue, Some, bytes_eq};
ghost use Rattle.std.specs.List.{find};
ghost use Rattle.hume_base.specs.Keywords.{keyword_text, keyword_of};
ghost use Rattle.hume_base.specs.inner.FirstLetters.{keywords_with};

/// A word that is no name.
#[derive(Clone, Copy, Debug, PartialEq, Eq)]
pub enum Keyword {
    Data,
    Exception,
    Box,
    In,
    Out,
    Match,
    Fair,
    Handle,
    Stream,
    From,
    To,
    Wire,
    Initial,
    Let,
    If,
    Then,
    Else,
    Case,
    Of,
    End,
    Raise,
    As,
    True,
    False,
    Bool,
    Char,
    Int,
    Nat,
    Vector,
    Div,
    Mod,
    And,
    Or,
    Not,
    Update,
}

impl Keyword {
    pub fn text(self) -> &'static [u8]
        ensures { result.now ≡ keyword_text self }
    {
        match self {
            Keyword::Data => b"data",
            Keyword::Exception => b"exception",
            Keyword::Box => b"box",
            Keyword::In => b"in",
            Keyword::Out => b"out",
            Keyword::Match => b"match",
            Keyword::Fair => b"fair",
            Keyword::Handle => b"handle",
            Keyword::Stream => b"stream",
            Keyword::From => b"from",
            Keyword::To => b"to",
            Keyword::Wire => b"wire",
            Keyword::Initial => b"initial",
            Keyword::Let => b"let",
            Keyword::If => b"if",
            Keyword::Then => b"then",
            Keyword::Else => b"else",
            Keyword::Case => b"case",
            Keyword::Of => b"of",
            Keyword::End => b"end",
            Keyword::Raise => b"raise",
            Keyword::As => b"as",
            Keyword::True => b"true",
            Keyword::False => b"false",
            Keyword::Bool => b"bool",
            Keyword::Char => b"char",
            Keyword::Int => b"int",
            Keyword::Nat => b"nat",
            Keyword::Vector => b"vector",
            Keyword::Div => b"div",
            Keyword::Mod => b"mod",
            Keyword::And => b"and",
            Keyword::Or => b"or",
            Keyword::Not => b"not",
            Keyword::Update => b"update",
        }
    }

    /// The keyword that is spelled so.
    pub fn from_text(text: &[u8]) -> Option<Keyword>
        ensures found { result ≡ keyword_of text.now }
        ensures exact { (keyword : Keyword) → (result ≡ Some keyword) ↔ (text.now ≡ keyword_text keyword) }
    {
        match text {
            [] => None,
            [first, ..] => find_among(starting_with(*first), text),
        }
    }

    /// Whether two are the same; a clause learns more from it than from `==`.
    pub fn is(self, other: Keyword) -> bool
        ensures { IsTrue result ↔ (self ≡ other) }
    {
        self == other
    }
}

/// The keywords that begin with the letter.
fn starting_with(letter: u8) -> &'static [Keyword]
    ensures { result.now ≡ keywords_with letter }
{
    match letter {
        b'a' => &[Keyword::As, Keyword::And],
        b'b' => &[Keyword::Box, Keyword::Bool],
        b'c' => &[Keyword::Case, Keyword::Char],
        b'd' => &[Keyword::Data, Keyword::Div],
        b'e' => &[Keyword::Exception, Keyword::Else, Keyword::End],
        b'f' => &[Keyword::Fair, Keyword::From, Keyword::False],
        b'h' => &[Keyword::Handle],
        b'i' => &[Keyword::In, Keyword::Initial, Keyword::If, Keyword::Int],
        b'l' => &[Keyword::Let],
        b'm' => &[Keyword::Match, Keyword::Mod],
        b'n' => &[Keyword::Nat, Keyword::Not],
        b'o' => &[Keyword::Out, Keyword::Of, Keyword::Or],
        b'r' => &[Keyword::Raise],
        b's' => &[Keyword::Stream],
        b't' => &[Keyword::To, Keyword::Then, Keyword::True],
        b'u' => &[Keyword::Update],
        b'v' => &[Keyword::Vector],
        b'w' => &[Keyword::Wire],
        _ => &[],
    }
}

fn find_among(some: &[Keyword], text: &[u8]) -> Option<Keyword>
    ensures { result ≡ find (λ keyword. bytes_eq (keyword_text keyword) text.now) some.now }
{
    some.iter().copied().find(|keyword| keyword.text() == text)
}
