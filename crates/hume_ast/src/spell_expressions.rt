//! The tokens of expressions.
ghost use Rattle.std.specs.Prelude.{◌≡◌, [], ◌∷◌, ◌++◌, map, Option, None, Some};
ghost use Rattle.hume_base.specs.declared.token.Kind.TheVariants.{Lower, Sign, Upper};
ghost use Rattle.hume_base.specs.declared.symbol.Symbol.TheVariants.{Bar, Comma};
ghost use Rattle.hume_ast.specs.declared.tree.Exp.{Let, If, Case, Raise, Update, Cast};
ghost use Rattle.hume_ast.specs.Spelling.{spelled_exp, operator_token, separated, beside, in_parens};
ghost use Rattle.hume_ast.specs.inner.Parts.{spelled_alternative};
ghost use Rattle.hume_ast.specs.inner.Tokens.{Adds};

use crate::spell_patterns::spell_pattern;
use crate::spell_tokens::{
    Tokens, letter, lower, sign, sign_between, signed_number, truth, upper, word,
};
use crate::spell_types::spell_type;
use crate::tree::{BinOp, Exp, Pat, TyExp};
use hume_base::{Box, Keyword, Kind, List, Symbol, Text};

/// Adds the tokens of an expression.
#[cycle(spell_expressions)]
#[tactic(auto, using(crate::proofs::SpellSteps::exp_steps))]
pub fn spell_exp(exp: &Exp, out: &mut Tokens)
    ensures { Adds out.old out.new (spelled_exp exp.now) }
{
    match exp {
        Exp::Let(name, value, body) => spell_let(name, value, body, out),
        Exp::If(test, first, second) => spell_if(test, first, second, out),
        Exp::Case(subject, alternatives) => spell_case(subject, alternatives, out),
        Exp::Raise(name, value) => spell_raise(name, value, out),
        Exp::Binary(operator, left, right) => spell_binary(*operator, left, right, out),
        Exp::Neg(part) => spell_led(Kind::Sign(Symbol::Minus), part, out),
        Exp::Not(part) => spell_led(Kind::Word(Keyword::Not), part, out),
        Exp::App(name, arguments) => spell_application(name, arguments, out),
        Exp::Con(name, arguments) => spell_construction(name, arguments, out),
        Exp::Update(vector, at, item) => spell_update(vector, at, item, out),
        Exp::Num(negative, amount) => signed_number(out, *negative, *amount),
        Exp::Letter(byte) => letter(out, *byte),
        Exp::Truth(holds) => truth(out, *holds),
        Exp::Paren(inner) => spell_in_parens(inner, out),
        Exp::Tuple(parts) => spell_listed(Symbol::OpenParen, parts, Symbol::CloseParen, out),
        Exp::Cast(inner, ty) => spell_cast(inner, ty, out),
        Exp::Vect(items) => spell_listed(Symbol::OpenAngles, items, Symbol::CloseAngles, out),
        Exp::Star => sign(out, Symbol::Star),
    }
}

#[cycle(spell_expressions)]
#[tactic(auto, using(crate::proofs::SpellSteps::exp_steps))]
fn spell_let(name: &Text, value: &Box<Exp>, body: &Box<Exp>, out: &mut Tokens)
    ensures { Adds out.old out.new (spelled_exp (Let name.now value.now body.now)) }
{
    word(out, Keyword::Let);
    lower(out, name);
    sign(out, Symbol::Equals);
    spell_exp(value, out);
    word(out, Keyword::In);
    spell_exp(body, out);
}

#[cycle(spell_expressions)]
#[tactic(auto, using(crate::proofs::SpellSteps::exp_steps))]
fn spell_if(test: &Box<Exp>, first: &Box<Exp>, second: &Box<Exp>, out: &mut Tokens)
    ensures { Adds out.old out.new (spelled_exp (If test.now first.now second.now)) }
{
    word(out, Keyword::If);
    spell_exp(test, out);
    word(out, Keyword::Then);
    spell_exp(first, out);
    word(out, Keyword::Else);
    spell_exp(second, out);
}

#[cycle(spell_expressions)]
#[tactic(auto, using(crate::proofs::SpellSteps::case_steps))]
fn spell_case(subject: &Box<Exp>, alternatives: &List<(Pat, Exp)>, out: &mut Tokens)
    ensures { Adds out.old out.new (spelled_exp (Case subject.now alternatives.now)) }
{
    word(out, Keyword::Case);
    spell_exp(subject, out);
    word(out, Keyword::Of);
    spell_alternatives(alternatives.as_slice(), out);
    word(out, Keyword::End);
}

/// Adds the tokens of the alternatives of a `case`.
#[cycle(spell_expressions)]
fn spell_alternatives(alternatives: &[(Pat, Exp)], out: &mut Tokens)
    ensures { Adds out.old out.new (separated Bar (map spelled_alternative alternatives.now)) }
{
    for at in 0..alternatives.len() {
        sign_between(out, Symbol::Bar, at);
        let alternative = &alternatives[at];
        spell_alternative(&alternative.0, &alternative.1, out);
    }
}

#[cycle(spell_expressions)]
#[tactic(auto, using(crate::proofs::SpellSteps::part_steps))]
fn spell_alternative(pattern: &Pat, exp: &Exp, out: &mut Tokens)
    ensures { Adds out.old out.new (spelled_alternative (pattern.now, exp.now)) }
{
    spell_pattern(pattern, out);
    sign(out, Symbol::Arrow);
    spell_exp(exp, out);
}

#[cycle(spell_expressions)]
#[tactic(auto, using(crate::proofs::SpellSteps::exp_steps))]
fn spell_raise(name: &Text, value: &Option<Box<Exp>>, out: &mut Tokens)
    ensures { Adds out.old out.new (spelled_exp (Raise name.now value.now)) }
{
    word(out, Keyword::Raise);
    upper(out, name);
    match value {
        None => {}
        Some(value) => spell_exp(value, out),
    }
}

#[cycle(spell_expressions)]
#[tactic(auto, using(crate::proofs::SpellSteps::exp_steps))]
fn spell_binary(operator: BinOp, left: &Box<Exp>, right: &Box<Exp>, out: &mut Tokens)
    ensures { Adds out.old out.new (spelled_exp left.now ++ operator_token operator ∷ spelled_exp right.now) }
{
    spell_exp(left, out);
    out.push(token_of(operator));
    spell_exp(right, out);
}

/// Adds a token and those of the part behind it.
#[cycle(spell_expressions)]
#[tactic(auto, using(crate::proofs::SpellSteps::part_steps))]
fn spell_led(token: Kind, part: &Box<Exp>, out: &mut Tokens)
    ensures { Adds out.old out.new (token ∷ spelled_exp part.now) }
{
    out.push(token);
    spell_exp(part, out);
}

#[cycle(spell_expressions)]
#[tactic(auto, using(crate::proofs::SpellSteps::part_steps))]
fn spell_application(name: &Text, arguments: &List<Exp>, out: &mut Tokens)
    ensures { Adds out.old out.new (Lower name.now ∷ beside (map spelled_exp arguments.now)) }
{
    lower(out, name);
    spell_exps_beside(arguments.as_slice(), out);
}

#[cycle(spell_expressions)]
#[tactic(auto, using(crate::proofs::SpellSteps::part_steps))]
fn spell_construction(name: &Text, arguments: &List<Exp>, out: &mut Tokens)
    ensures { Adds out.old out.new (Upper name.now ∷ beside (map spelled_exp arguments.now)) }
{
    upper(out, name);
    spell_exps_beside(arguments.as_slice(), out);
}

#[cycle(spell_expressions)]
#[tactic(auto, using(crate::proofs::SpellSteps::exp_steps))]
fn spell_update(vector: &Box<Exp>, at: &Box<Exp>, item: &Box<Exp>, out: &mut Tokens)
    ensures { Adds out.old out.new (spelled_exp (Update vector.now at.now item.now)) }
{
    word(out, Keyword::Update);
    spell_exp(vector, out);
    spell_exp(at, out);
    spell_exp(item, out);
}

#[cycle(spell_expressions)]
#[tactic(auto, using(crate::proofs::SpellSteps::part_steps))]
fn spell_in_parens(inner: &Box<Exp>, out: &mut Tokens)
    ensures { Adds out.old out.new (in_parens (spelled_exp inner.now)) }
{
    sign(out, Symbol::OpenParen);
    spell_exp(inner, out);
    sign(out, Symbol::CloseParen);
}

#[cycle(spell_expressions)]
#[tactic(auto, using(crate::proofs::SpellSteps::exp_steps))]
fn spell_cast(inner: &Box<Exp>, ty: &TyExp, out: &mut Tokens)
    ensures { Adds out.old out.new (spelled_exp (Cast inner.now ty.now)) }
{
    sign(out, Symbol::OpenParen);
    spell_exp(inner, out);
    word(out, Keyword::As);
    spell_type(ty, out);
    sign(out, Symbol::CloseParen);
}

/// Adds the tokens of expressions with commas between them, and a sign at either end.
#[cycle(spell_expressions)]
#[tactic(auto, using(crate::proofs::SpellSteps::part_steps))]
fn spell_listed(opening: Symbol, exps: &List<Exp>, closing: Symbol, out: &mut Tokens)
    ensures { Adds out.old out.new (Sign opening ∷ (separated Comma (map spelled_exp exps.now) ++ Sign closing ∷ [])) }
{
    sign(out, opening);
    spell_exps(exps.as_slice(), out);
    sign(out, closing);
}

/// Adds the tokens of expressions, with commas between them.
#[cycle(spell_expressions)]
fn spell_exps(exps: &[Exp], out: &mut Tokens)
    ensures { Adds out.old out.new (separated Comma (map spelled_exp exps.now)) }
{
    for at in 0..exps.len() {
        sign_between(out, Symbol::Comma, at);
        spell_exp(&exps[at], out);
    }
}

/// Adds the tokens of expressions side by side.
#[cycle(spell_expressions)]
fn spell_exps_beside(exps: &[Exp], out: &mut Tokens)
    ensures { Adds out.old out.new (beside (map spelled_exp exps.now)) }
{
    for at in 0..exps.len() {
        spell_exp(&exps[at], out);
    }
}

pub fn token_of(operator: BinOp) -> Kind
    ensures { result ≡ operator_token operator }
{
    match operator {
        BinOp::Or => Kind::Word(Keyword::Or),
        BinOp::And => Kind::Word(Keyword::And),
        BinOp::Eq => Kind::Sign(Symbol::DoubleEquals),
        BinOp::Ne => Kind::Sign(Symbol::SlashEquals),
        BinOp::Lt => Kind::Sign(Symbol::Less),
        BinOp::Le => Kind::Sign(Symbol::LessEquals),
        BinOp::Gt => Kind::Sign(Symbol::Greater),
        BinOp::Ge => Kind::Sign(Symbol::GreaterEquals),
        BinOp::Add => Kind::Sign(Symbol::Plus),
        BinOp::Sub => Kind::Sign(Symbol::Minus),
        BinOp::Mul => Kind::Sign(Symbol::Star),
        BinOp::Div => Kind::Word(Keyword::Div),
        BinOp::Mod => Kind::Word(Keyword::Mod),
        BinOp::At => Kind::Sign(Symbol::At),
    }
}
