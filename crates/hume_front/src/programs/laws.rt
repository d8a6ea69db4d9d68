//! What programs have that are read from sources.
ghost use Rattle.std.specs.Prelude.{◌≤◌, ℕ, List, length};
ghost use Rattle.hume_base.specs.declared.limits.TheConstants.{MAX_TOKENS};
ghost use Rattle.hume_base.specs.declared.token.Token.{Token};
ghost use Rattle.hume_ast.specs.declared.tree.Program.{Program};
ghost use Rattle.hume_ast.specs.Places.{StandsFor};
ghost use Rattle.hume_lex.specs.BadPlaces.{IsRead};
ghost use Rattle.check_rules.specs.OfTokens.{IsOfTokens};

/// Names, texts and constructors of a program are as the tokens of its source make them.
pub fn read_programs_are_of_tokens()
    ensures { (text : List ℕ) (tokens : List Token) (program : Program) → IsRead text tokens → StandsFor tokens program → IsOfTokens program }
{}

/// A program has no more declarations than its source has tokens.
pub fn read_programs_are_short()
    ensures { (text : List ℕ) (tokens : List Token) (program : Program) → IsRead text tokens → StandsFor tokens program
        → length program.decls ≤ MAX_TOKENS }
{}
