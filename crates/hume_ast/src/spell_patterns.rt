//! The tokens of patterns.
ghost use Rattle.std.specs.Prelude.{map};
ghost use Rattle.hume_ast.specs.Spelling.{spelled_pat, separated, beside};
ghost use Rattle.hume_ast.specs.inner.Tokens.{Adds};

use crate::spell_tokens::{Tokens, letter, lower, sign, sign_between, signed_number, truth, upper};
use crate::tree::Pat;
use hume_base::Symbol;

/// Adds the tokens of a pattern.
#[cycle(spell_patterns)]
#[tactic(auto, using(crate::proofs::SpellSteps::pattern_steps))]
pub fn spell_pattern(pattern: &Pat, out: &mut Tokens)
    ensures { Adds out.old out.new (spelled_pat pattern.now) }
{
    match pattern {
        Pat::Name(name) => lower(out, name),
        Pat::Any => sign(out, Symbol::Underscore),
        Pat::Num(negative, amount) => signed_number(out, *negative, *amount),
        Pat::Letter(byte) => letter(out, *byte),
        Pat::Truth(holds) => truth(out, *holds),
        Pat::Con(name, parts) => {
            upper(out, name);
            spell_patterns_beside(parts.as_slice(), out)
        }
        Pat::Paren(inner) => {
            sign(out, Symbol::OpenParen);
            spell_pattern(inner, out);
            sign(out, Symbol::CloseParen)
        }
        Pat::Tuple(parts) => {
            sign(out, Symbol::OpenParen);
            spell_patterns(parts.as_slice(), Symbol::Comma, out);
            sign(out, Symbol::CloseParen)
        }
        Pat::Star => sign(out, Symbol::Star),
        Pat::AnyStar => sign(out, Symbol::UnderscoreStar),
    }
}

/// Adds the tokens of patterns, with the sign between each two.
#[cycle(spell_patterns)]
pub fn spell_patterns(patterns: &[Pat], symbol: Symbol, out: &mut Tokens)
    ensures { Adds out.old out.new (separated symbol (map spelled_pat patterns.now)) }
{
    for at in 0..patterns.len() {
        sign_between(out, symbol, at);
        spell_pattern(&patterns[at], out);
    }
}

/// Adds the tokens of patterns side by side.
#[cycle(spell_patterns)]
pub fn spell_patterns_beside(patterns: &[Pat], out: &mut Tokens)
    ensures { Adds out.old out.new (beside (map spelled_pat patterns.now)) }
{
    for at in 0..patterns.len() {
        spell_pattern(&patterns[at], out);
    }
}
