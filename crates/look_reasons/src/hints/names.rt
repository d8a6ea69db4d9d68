//! Where each name of a source stands, found in about constant time.
use crate::name_table::{CHAINS, chain_of, number_at};
use crate::site::name_of;
use hume_base::Token;
use look_sources::Span;
use std::alloc::{AllocError, Global};

/// The tokens that are names, in chains from the last one to earlier ones. All tokens of one name are in one chain. A place in a chain
/// is the number of a token counted from 1, and 0 ends it.
#[derive(Drop)]
pub(crate) struct Names {
    last: Vec<usize>,
    earlier: Vec<usize>,
}

impl Names {
    /// Those of a source with these tokens.
    pub(crate) fn of(alloc: Global, tokens: &[Token]) -> Result<Names, AllocError> {
        let mut last = vec![in alloc; 0usize; CHAINS]?;
        let mut earlier = Vec::new(alloc);
        for token in 0..tokens.len() {
            let name = name_of(tokens, token);
            let chain = chain_of(name);
            earlier.push(number_at(last.as_slice(), chain))?;
            if !name.is_empty() && chain < last.len() {
                last[chain] = token.saturating_add(1);
            }
        }
        Ok(Names { last, earlier })
    }

    /// Whether a token outside of the part is the name.
    pub(crate) fn stands_outside(&self, tokens: &[Token], name: &[u8], part: &Span) -> bool {
        let mut place = number_at(self.last.as_slice(), chain_of(name));
        for _ in 0..tokens.len() {
            let Some(token) = place.checked_sub(1) else {
                return false;
            };
            if (token < part.first || part.after <= token) && name_of(tokens, token) == name {
                return true;
            }
            place = number_at(self.earlier.as_slice(), token);
        }
        false
    }
}
