//! Which kinds of token go on at a place.
use hume_base::{Keyword, Kind, Symbol, Text, Token};
use hume_parse::parse;
use look_sources::Page;
use parse_errors::ParseError;
use std::alloc::{AllocError, Global};

const KEYWORDS: [Keyword; 35] = [
    Keyword::Data,
    Keyword::Exception,
    Keyword::Box,
    Keyword::In,
    Keyword::Out,
    Keyword::Match,
    Keyword::Fair,
    Keyword::Handle,
    Keyword::Stream,
    Keyword::From,
    Keyword::To,
    Keyword::Wire,
    Keyword::Initial,
    Keyword::Let,
    Keyword::If,
    Keyword::Then,
    Keyword::Else,
    Keyword::Case,
    Keyword::Of,
    Keyword::End,
    Keyword::Raise,
    Keyword::As,
    Keyword::True,
    Keyword::False,
    Keyword::Bool,
    Keyword::Char,
    Keyword::Int,
    Keyword::Nat,
    Keyword::Vector,
    Keyword::Div,
    Keyword::Mod,
    Keyword::And,
    Keyword::Or,
    Keyword::Not,
    Keyword::Update,
];

const SYMBOLS: [Symbol; 23] = [
    Symbol::OpenParen,
    Symbol::CloseParen,
    Symbol::OpenAngles,
    Symbol::CloseAngles,
    Symbol::Less,
    Symbol::LessEquals,
    Symbol::Greater,
    Symbol::GreaterEquals,
    Symbol::DoubleEquals,
    Symbol::SlashEquals,
    Symbol::Equals,
    Symbol::Arrow,
    Symbol::Bar,
    Symbol::Comma,
    Symbol::Semicolon,
    Symbol::DoubleColon,
    Symbol::Dot,
    Symbol::Underscore,
    Symbol::UnderscoreStar,
    Symbol::Star,
    Symbol::Plus,
    Symbol::Minus,
    Symbol::At,
];

/// The kinds of token with which programs go on after these tokens. Each is tried.
pub(crate) fn expected_after(
    alloc: Global,
    tokens: &mut Vec<Token>,
    end: u32,
) -> Result<Page, AllocError> {
    let mut list = Page::make(alloc);
    let lower = Kind::Lower(Text::from_bytes(alloc, b"a")?);
    try_kind(alloc, tokens, lower, end, b"a lower name", &mut list)?;
    let upper = Kind::Upper(Text::from_bytes(alloc, b"A")?);
    try_kind(alloc, tokens, upper, end, b"an upper name", &mut list)?;
    try_kind(alloc, tokens, Kind::Number(1), end, b"a number", &mut list)?;
    try_kind(
        alloc,
        tokens,
        Kind::Letter(b'a'),
        end,
        b"a letter",
        &mut list,
    )?;
    let quoted = Kind::Quoted(Text::from_bytes(alloc, b"a")?);
    try_kind(alloc, tokens, quoted, end, b"a quoted text", &mut list)?;
    try_keywords(alloc, tokens, end, &mut list)?;
    try_symbols(alloc, tokens, end, &mut list)?;
    Ok(list)
}

fn try_keywords(
    alloc: Global,
    tokens: &mut Vec<Token>,
    end: u32,
    list: &mut Page,
) -> Result<(), AllocError> {
    for i in 0..KEYWORDS.len() {
        let keyword = KEYWORDS[i];
        try_kind(
            alloc,
            tokens,
            Kind::Word(keyword),
            end,
            keyword.text(),
            list,
        )?;
    }
    Ok(())
}

fn try_symbols(
    alloc: Global,
    tokens: &mut Vec<Token>,
    end: u32,
    list: &mut Page,
) -> Result<(), AllocError> {
    for i in 0..SYMBOLS.len() {
        let symbol = SYMBOLS[i];
        try_kind(alloc, tokens, Kind::Sign(symbol), end, symbol.text(), list)?;
    }
    Ok(())
}

// Puts the name of the kind if a program goes on with it.
fn try_kind(
    alloc: Global,
    tokens: &mut Vec<Token>,
    kind: Kind,
    end: u32,
    name: &[u8],
    list: &mut Page,
) -> Result<(), AllocError> {
    tokens.push(Token { kind, place: end })?;
    let goes_on = match parse(alloc, tokens.as_slice(), end.saturating_add(1)) {
        Ok(_) => true,
        Err(ParseError::Syntax(place)) => place > end,
        Err(ParseError::Deep(_)) => false,
        Err(ParseError::NoMemory) => return Err(AllocError),
    };
    let _ = tokens.pop();
    if goes_on {
        if !list.is_empty() {
            list.put(b", ");
        }
        list.put(name);
    }
    Ok(())
}
