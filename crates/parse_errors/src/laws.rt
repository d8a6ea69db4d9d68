ghost use Rattle.std.specs.Prelude.{◌≡◌, ◌⊎◌, ℕ, List};
ghost use Rattle.hume_base.specs.declared.token.Token.{Token};
ghost use Rattle.hume_ast.specs.declared.tree.Program.{Program};
ghost use Rattle.hume_ast.specs.Places.{StandsFor};
ghost use Rattle.parse_errors.specs.WrongTokens.{IsWrongPlace};
ghost use Rattle.parse_errors.specs.declared.parse_error.ParseError.{ParseError};

/// The law of answers: tokens stand for a program, or one place of them is wrong; never both, and never two places.
pub fn each_list_has_one_answer()
    ensures some { (tokens : List Token) (end : ℕ)
        → ((program : Program) × StandsFor tokens program) ⊎ ((error : ParseError) × IsWrongPlace tokens end error) }
    ensures one { (tokens : List Token) (end : ℕ) (first second : ParseError)
        → IsWrongPlace tokens end first → IsWrongPlace tokens end second → first ≡ second }
    ensures apart { (tokens : List Token) (end : ℕ) (error : ParseError) (program : Program)
        → IsWrongPlace tokens end error → StandsFor tokens program → ⊥ }
{}
