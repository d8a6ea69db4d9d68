//! What is reported of tokens that stand for no program.
use thiserror::Error;

/// Why tokens stand for no program.
#[derive(Debug, Drop, PartialEq, Eq, Error)]
pub enum ParseError {
    /// No program goes on with the token at this place, in bytes; or all tokens are read, and this is the end.
    #[error("syntax error at {0}")]
    Syntax(u32),
    /// Only a program that is nested too deeply goes on with the token at this place, in bytes.
    #[error("too deep at {0}")]
    Deep(u32),
    #[error("out of memory")]
    NoMemory,
}
