//! What a source is refused for, and the core of one that keeps the rules on names, counts, types and limits, whatever the rules after
//! these say.
ghost use Rattle.std.specs.Prelude.{◌≤◌, length};
ghost use Rattle.hume_base.specs.declared.limits.TheConstants.{MAX_SOURCE_BYTES as MOST_BYTES};
ghost use Rattle.hume_ast.specs.Fits.{IsFit};

use hume_ast::Program;
use hume_base::limits::{MAX_SOURCE_BYTES, MAX_TOKENS};
use hume_base::{Refusal, Token};
use hume_check::{CheckError, check};
use hume_front::{FrontError, accept};
use hume_lex::{LexError, lex};
use hume_model::Core;
use hume_parse::parse;
use parse_errors::ParseError;
use std::alloc::{AllocError, Global};

/// What a source is refused for, if it is.
pub(crate) fn refusal_of(alloc: Global, text: &[u8]) -> Result<Option<Refusal>, AllocError> {
    match accept(alloc, text) {
        Ok(_) => Ok(None),
        Err(FrontError::NoMemory) => Err(AllocError),
        Err(FrontError::Refused(refusal)) => Ok(Some(refusal)),
    }
}

pub(crate) fn core_of(alloc: Global, text: &[u8]) -> Result<Option<Core>, AllocError> {
    if text.len() > MAX_SOURCE_BYTES {
        return Ok(None);
    }
    match lex(alloc, text) {
        Ok(tokens) => core_of_tokens(alloc, text, &tokens),
        Err(LexError::NoMemory) => Err(AllocError),
        Err(_) => Ok(None),
    }
}

fn core_of_tokens(alloc: Global, text: &[u8], tokens: &[Token]) -> Result<Option<Core>, AllocError>
    requires { length text.now ≤ MOST_BYTES }
{
    match parse(alloc, tokens, text.len() as u32) {
        Ok(program) => core_of_program(alloc, text, &program),
        Err(ParseError::NoMemory) => Err(AllocError),
        Err(_) => Ok(None),
    }
}

fn core_of_program(
    alloc: Global,
    text: &[u8],
    program: &Program,
) -> Result<Option<Core>, AllocError>
    requires short { length text.now ≤ MOST_BYTES }
    requires fit { IsFit program.now }
{
    if program.decls.len() > MAX_TOKENS {
        return Ok(None);
    }
    match check(alloc, program, text) {
        Ok(core) => Ok(Some(core)),
        Err(CheckError::NoMemory) => Err(AllocError),
        Err(_) => Ok(None),
    }
}
