ghost use Rattle.std.specs.Prelude.{◌≡◌, ◌⊎◌, IfOk, IfErr, MatchResult};
ghost use Rattle.hume_ast.specs.declared.tree.Program.{Program as ProgramTree};
ghost use Rattle.hume_ast.specs.Places.{StandsFor};
ghost use Rattle.parse_errors.specs.WrongTokens.{IsWrongPlace};

use crate::program::program;
use hume_ast::Program;
use hume_base::Token;
use parse_errors::{ParseError, reported};
use std::alloc::Global;

/// The program that the tokens of a source stand for. `end` is the place of an early end: the length of the source.
pub fn parse(alloc: Global, tokens: &[Token], end: u32) -> Result<Program, ParseError>
    ensures program { IfOk result (λ program. StandsFor tokens.now program) }
    ensures error { IfErr result (λ error. (error ≡ ParseError.NoMemory) ⊎ IsWrongPlace tokens.now end error) }
    // Where there is such a program, it is the one that is given, unless memory is wanting.
    ensures only { (program : ProgramTree) → StandsFor tokens.now program
        → MatchResult result (λ found. found ≡ program) (λ error. error ≡ ParseError.NoMemory) }
{
    match program(alloc, tokens) {
        Ok(decls) => Ok(Program { decls }),
        Err(stop) => Err(reported(stop, tokens, end)),
    }
}
