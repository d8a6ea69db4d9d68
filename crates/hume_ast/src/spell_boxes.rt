//! The tokens of boxes.
ghost use Rattle.std.specs.Prelude.{[], ◌∷◌, ◌++◌, map};
ghost use Rattle.hume_base.specs.declared.token.Kind.TheVariants.{Word};
ghost use Rattle.hume_base.specs.declared.symbol.Symbol.TheVariants.{Bar, Comma};
ghost use Rattle.hume_ast.specs.declared.tree.Decl.TheVariants.{BoxD};
ghost use Rattle.hume_ast.specs.Spelling.{separated, ended, order_word, spelled_decl, spelled_typed_name, spelled_side, spelled_rule, spelled_handler, spelled_handlers};
ghost use Rattle.hume_ast.specs.inner.Tokens.{Adds};

use crate::spell_expressions::spell_exp;
use crate::spell_patterns::{spell_pattern, spell_patterns};
use crate::spell_tokens::{Tokens, lower, sign, sign_between, upper, word};
use crate::spell_types::spell_type;
use crate::tree::{Exp, Pat, TyExp};
use hume_base::{Keyword, List, Symbol, Text};

/// Adds the tokens of a box.
#[tactic(auto, using(crate::proofs::SpellSteps::part_steps))]
pub fn spell_box(
    name: &Text,
    inputs: &List<(Text, TyExp)>,
    outputs: &List<(Text, TyExp)>,
    fair: bool,
    rules: &List<(List<Pat>, Exp)>,
    handlers: &List<(Text, Option<Pat>, Exp)>,
    out: &mut Tokens,
)
    ensures { Adds out.old out.new (spelled_decl (BoxD name.now inputs.now outputs.now fair rules.now handlers.now)) }
{
    word(out, Keyword::Box);
    lower(out, name);
    word(out, Keyword::In);
    spell_side(inputs.as_slice(), out);
    word(out, Keyword::Out);
    spell_side(outputs.as_slice(), out);
    spell_body(fair, rules, handlers, out);
}

/// Adds the tokens from the order of the rules to the end.
#[tactic(auto, using(crate::proofs::SpellSteps::part_steps))]
fn spell_body(
    fair: bool,
    rules: &List<(List<Pat>, Exp)>,
    handlers: &List<(Text, Option<Pat>, Exp)>,
    out: &mut Tokens,
)
    ensures { Adds out.old out.new (Word (order_word fair) ∷ (separated Bar (map spelled_rule rules.now) ++ ended (spelled_handlers handlers.now))) }
{
    spell_order(fair, out);
    spell_rules(rules.as_slice(), out);
    spell_handlers(handlers.as_slice(), out);
    sign(out, Symbol::Semicolon);
}

fn spell_order(fair: bool, out: &mut Tokens)
    ensures { Adds out.old out.new (Word (order_word fair) ∷ []) }
{
    word(out, if fair { Keyword::Fair } else { Keyword::Match })
}

#[tactic(auto, using(crate::proofs::SpellSteps::part_steps))]
fn spell_side(typed_names: &[(Text, TyExp)], out: &mut Tokens)
    ensures { Adds out.old out.new (spelled_side typed_names.now) }
{
    sign(out, Symbol::OpenParen);
    spell_typed_names(typed_names, out);
    sign(out, Symbol::CloseParen);
}

fn spell_typed_names(typed_names: &[(Text, TyExp)], out: &mut Tokens)
    ensures { Adds out.old out.new (separated Comma (map spelled_typed_name typed_names.now)) }
{
    for at in 0..typed_names.len() {
        sign_between(out, Symbol::Comma, at);
        spell_typed_name(&typed_names[at], out);
    }
}

#[tactic(auto, using(crate::proofs::SpellSteps::part_steps))]
fn spell_typed_name(typed_name: &(Text, TyExp), out: &mut Tokens)
    ensures { Adds out.old out.new (spelled_typed_name typed_name.now) }
{
    lower(out, &typed_name.0);
    sign(out, Symbol::DoubleColon);
    spell_type(&typed_name.1, out);
}

fn spell_rules(rules: &[(List<Pat>, Exp)], out: &mut Tokens)
    ensures { Adds out.old out.new (separated Bar (map spelled_rule rules.now)) }
{
    for at in 0..rules.len() {
        sign_between(out, Symbol::Bar, at);
        spell_rule(&rules[at], out);
    }
}

#[tactic(auto, using(crate::proofs::SpellSteps::part_steps))]
fn spell_rule(rule: &(List<Pat>, Exp), out: &mut Tokens)
    ensures { Adds out.old out.new (spelled_rule rule.now) }
{
    sign(out, Symbol::OpenParen);
    spell_patterns(rule.0.as_slice(), Symbol::Comma, out);
    sign(out, Symbol::CloseParen);
    sign(out, Symbol::Arrow);
    spell_exp(&rule.1, out);
}

#[tactic(auto, using(crate::proofs::SpellSteps::handler_steps))]
fn spell_handlers(handlers: &[(Text, Option<Pat>, Exp)], out: &mut Tokens)
    ensures { Adds out.old out.new (spelled_handlers handlers.now) }
{
    if handlers.is_empty() {
        return;
    }
    word(out, Keyword::Handle);
    spell_listed_handlers(handlers, out);
}

fn spell_listed_handlers(handlers: &[(Text, Option<Pat>, Exp)], out: &mut Tokens)
    ensures { Adds out.old out.new (separated Bar (map spelled_handler handlers.now)) }
{
    for at in 0..handlers.len() {
        sign_between(out, Symbol::Bar, at);
        spell_handler(&handlers[at], out);
    }
}

#[tactic(auto, using(crate::proofs::SpellSteps::part_steps))]
fn spell_handler(handler: &(Text, Option<Pat>, Exp), out: &mut Tokens)
    ensures { Adds out.old out.new (spelled_handler handler.now) }
{
    upper(out, &handler.0);
    if let Some(pattern) = &handler.1 {
        spell_pattern(pattern, out);
    }
    sign(out, Symbol::Arrow);
    spell_exp(&handler.2, out);
}
