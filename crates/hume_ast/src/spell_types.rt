//! The tokens of types.
ghost use Rattle.std.specs.Prelude.{map};
ghost use Rattle.hume_ast.specs.Spelling.{spelled_ty, separated};
ghost use Rattle.hume_ast.specs.inner.Tokens.{Adds};

use crate::spell_tokens::{Tokens, number, sign, sign_between, upper, word};
use crate::tree::TyExp;
use hume_base::{Keyword, Symbol};

/// Adds the tokens of a type.
#[cycle(spell_types)]
#[tactic(auto, using(crate::proofs::SpellSteps::type_steps))]
pub fn spell_type(ty: &TyExp, out: &mut Tokens)
    ensures { Adds out.old out.new (spelled_ty ty.now) }
{
    match ty {
        TyExp::Bool => word(out, Keyword::Bool),
        TyExp::Char => word(out, Keyword::Char),
        TyExp::Int(bits) => {
            word(out, Keyword::Int);
            number(out, *bits)
        }
        TyExp::Nat(bits) => {
            word(out, Keyword::Nat);
            number(out, *bits)
        }
        TyExp::Vector(count, item) => {
            word(out, Keyword::Vector);
            number(out, *count);
            word(out, Keyword::Of);
            spell_type(item, out)
        }
        TyExp::Named(name) => upper(out, name),
        TyExp::Tuple(parts) => {
            sign(out, Symbol::OpenParen);
            spell_types(parts.as_slice(), Symbol::Comma, out);
            sign(out, Symbol::CloseParen)
        }
    }
}

/// Adds the tokens of types, with the sign between each two.
#[cycle(spell_types)]
#[tactic(auto, using(crate::proofs::SpellSteps::part_steps))]
pub fn spell_types(types: &[TyExp], symbol: Symbol, out: &mut Tokens)
    ensures { Adds out.old out.new (separated symbol (map spelled_ty types.now)) }
{
    for at in 0..types.len() {
        sign_between(out, symbol, at);
        spell_type(&types[at], out);
    }
}
