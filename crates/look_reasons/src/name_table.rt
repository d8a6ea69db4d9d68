//! Names of a source by their text, found in about constant time.
use crate::site::name_of;
use hume_base::{Keyword, Kind, Token};
use look_sources::{Sort, Span};
use std::alloc::{AllocError, Global};

pub(crate) const CHAINS: usize = 65_536;

/// What a name is looked for as. An output or an input has the name of its box.
#[derive(Clone, Copy)]
pub(crate) enum Meaning<'a> {
    DataType,
    Constructor,
    Exception,
    Function,
    Output(&'a [u8]),
    Input(&'a [u8]),
    StreamIn,
    StreamOut,
    Variable,
    Box,
}

/// A part whose first token is its name.
#[derive(Clone, Copy)]
struct Entry {
    span: Span,
    /// The token that names the box that has it, if it is an input or an output.
    owner: usize,
    /// The place of the one before it in its chain, counted from 1; 0 ends the chain.
    earlier: usize,
}

/// Parts with names, in chains from the last one to earlier ones. All parts of one name are in one chain.
#[derive(Drop)]
pub(crate) struct NameTable {
    last: Vec<usize>,
    entries: Vec<Entry>,
}

impl NameTable {
    pub(crate) fn make(alloc: Global) -> Result<NameTable, AllocError> {
        Ok(NameTable {
            last: vec![in alloc; 0usize; CHAINS]?,
            entries: Vec::new(alloc),
        })
    }

    pub(crate) fn push(
        &mut self,
        tokens: &[Token],
        span: Span,
        owner: usize,
    ) -> Result<(), AllocError> {
        let chain = chain_of(name_of(tokens, span.first));
        let earlier = number_at(self.last.as_slice(), chain);
        self.entries.push(Entry {
            span,
            owner,
            earlier,
        })?;
        if chain < self.last.len() {
            self.last[chain] = self.entries.len();
        }
        Ok(())
    }

    /// Forgets the parts that begin with the token or behind it.
    pub(crate) fn forget_from(&mut self, tokens: &[Token], first: usize) {
        for _ in 0..self.entries.len() {
            match self.entries.last() {
                Some(entry) if entry.span.first >= first => {
                    let chain = chain_of(name_of(tokens, entry.span.first));
                    let earlier = entry.earlier;
                    if chain < self.last.len() {
                        self.last[chain] = earlier;
                    }
                }
                _ => return,
            }
            let _ = self.entries.pop();
        }
    }

    /// The last part of that name and meaning.
    pub(crate) fn find(&self, tokens: &[Token], name: &[u8], meaning: Meaning<'_>) -> Option<Span> {
        let mut place = number_at(self.last.as_slice(), chain_of(name));
        for _ in 0..self.entries.len() {
            let entry = self.entries.get(place.checked_sub(1)?)?;
            if name_of(tokens, entry.span.first) == name && is_meant(tokens, entry, meaning) {
                return Some(entry.span);
            }
            place = entry.earlier;
        }
        None
    }
}

fn is_meant(tokens: &[Token], entry: &Entry, meaning: Meaning<'_>) -> bool {
    let sort = entry.span.sort;
    match meaning {
        Meaning::DataType => sort == Sort::TypeName,
        Meaning::Constructor => sort == Sort::ConstructorName && entry.span.number > 0,
        Meaning::Exception => sort == Sort::ConstructorName && entry.span.number == 0,
        Meaning::Function => sort == Sort::FunctionName,
        Meaning::Output(node) => sort == Sort::Output && name_of(tokens, entry.owner) == node,
        Meaning::Input(node) => sort == Sort::Input && name_of(tokens, entry.owner) == node,
        Meaning::StreamIn => sort == Sort::NodeName && is_before(tokens, entry, Keyword::From),
        Meaning::StreamOut => sort == Sort::NodeName && is_before(tokens, entry, Keyword::To),
        Meaning::Variable => sort == Sort::Variable,
        Meaning::Box => sort == Sort::NodeName && is_before(tokens, entry, Keyword::In),
    }
}

// Whether the keyword stands right behind the name.
fn is_before(tokens: &[Token], entry: &Entry, keyword: Keyword) -> bool {
    match tokens.get(entry.span.first.saturating_add(1)) {
        None => false,
        Some(token) => match &token.kind {
            Kind::Word(word) => *word == keyword,
            _ => false,
        },
    }
}

/// The number at the place, or 0.
pub(crate) fn number_at(numbers: &[usize], place: usize) -> usize {
    match numbers.get(place) {
        None => 0,
        Some(number) => *number,
    }
}

/// The number of the chain of a name.
pub(crate) fn chain_of(name: &[u8]) -> usize {
    let mut sum: u32 = 2_166_136_261;
    for byte in name {
        sum = (sum ^ u32::from(*byte)).wrapping_mul(16_777_619);
    }
    ((sum ^ (sum >> 16)) & 65_535) as usize
}
