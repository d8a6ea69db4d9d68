//! The tokens of declarations.
ghost use Rattle.std.specs.Prelude.{map};
ghost use Rattle.hume_base.specs.declared.symbol.Symbol.TheVariants.{Bar};
ghost use Rattle.hume_ast.specs.declared.tree.Decl.TheVariants.{Sum, Exn, Fun, Stream, Wire};
ghost use Rattle.hume_ast.specs.Spelling.{separated, beside, spelled_ty, spelled_decl, spelled_constructor, spelled_equation, spelled_end, spelled_wire_depth, spelled_initial};
ghost use Rattle.hume_ast.specs.inner.Tokens.{Adds};

use crate::spell_boxes::spell_box;
use crate::spell_expressions::spell_exp;
use crate::spell_patterns::spell_patterns_beside;
use crate::spell_tokens::{Tokens, lower, number, quoted, sign, sign_between, upper, word};
use crate::spell_types::{spell_type, spell_types};
use crate::tree::{Decl, Exp, Pat, TyExp};
use hume_base::{Keyword, List, Symbol, Text};

/// Adds the tokens of a declaration.
#[tactic(auto, using(crate::proofs::SpellSteps::part_steps))]
pub fn spell_decl(decl: &Decl, out: &mut Tokens)
    ensures { Adds out.old out.new (spelled_decl decl.now) }
{
    match decl {
        Decl::Sum(name, constructors) => spell_sum(name, constructors, out),
        Decl::Exn(name, carries) => spell_exn(name, carries, out),
        Decl::Fun(name, types, equations) => spell_fun(name, types, equations, out),
        Decl::BoxD(name, inputs, outputs, fair, rules, handlers) => spell_box(
            name, inputs, outputs, *fair, rules, handlers, out,
        ),
        Decl::Stream(name, from, port) => spell_stream(name, *from, port, out),
        Decl::Wire(source, target, depth, initial) => spell_wire(
            source, target, *depth, initial, out,
        ),
    }
}

#[tactic(auto, using(crate::proofs::SpellSteps::part_steps))]
fn spell_sum(name: &Text, constructors: &List<(Text, List<TyExp>)>, out: &mut Tokens)
    ensures { Adds out.old out.new (spelled_decl (Sum name.now constructors.now)) }
{
    word(out, Keyword::Data);
    upper(out, name);
    sign(out, Symbol::Equals);
    spell_constructors(constructors.as_slice(), out);
    sign(out, Symbol::Semicolon);
}

fn spell_constructors(constructors: &[(Text, List<TyExp>)], out: &mut Tokens)
    ensures { Adds out.old out.new (separated Bar (map spelled_constructor constructors.now)) }
{
    for at in 0..constructors.len() {
        sign_between(out, Symbol::Bar, at);
        spell_constructor(&constructors[at], out);
    }
}

#[tactic(auto, using(crate::proofs::SpellSteps::part_steps))]
fn spell_constructor(constructor: &(Text, List<TyExp>), out: &mut Tokens)
    ensures { Adds out.old out.new (spelled_constructor constructor.now) }
{
    upper(out, &constructor.0);
    spell_types_beside(constructor.1.as_slice(), out);
}

fn spell_types_beside(types: &[TyExp], out: &mut Tokens)
    ensures { Adds out.old out.new (beside (map spelled_ty types.now)) }
{
    for at in 0..types.len() {
        spell_type(&types[at], out);
    }
}

#[tactic(auto, using(crate::proofs::SpellSteps::part_steps))]
fn spell_exn(name: &Text, carries: &Option<TyExp>, out: &mut Tokens)
    ensures { Adds out.old out.new (spelled_decl (Exn name.now carries.now)) }
{
    word(out, Keyword::Exception);
    upper(out, name);
    if let Some(ty) = carries {
        spell_type(ty, out);
    }
    sign(out, Symbol::Semicolon);
}

#[tactic(auto, using(crate::proofs::SpellSteps::part_steps))]
fn spell_fun(
    name: &Text,
    types: &List<TyExp>,
    equations: &List<(Text, List<Pat>, Exp)>,
    out: &mut Tokens,
)
    ensures { Adds out.old out.new (spelled_decl (Fun name.now types.now equations.now)) }
{
    lower(out, name);
    sign(out, Symbol::DoubleColon);
    spell_types(types.as_slice(), Symbol::Arrow, out);
    sign(out, Symbol::Semicolon);
    spell_equations(equations.as_slice(), out);
}

fn spell_equations(equations: &[(Text, List<Pat>, Exp)], out: &mut Tokens)
    ensures { Adds out.old out.new (beside (map spelled_equation equations.now)) }
{
    for at in 0..equations.len() {
        spell_equation(&equations[at], out);
    }
}

#[tactic(auto, using(crate::proofs::SpellSteps::part_steps))]
fn spell_equation(equation: &(Text, List<Pat>, Exp), out: &mut Tokens)
    ensures { Adds out.old out.new (spelled_equation equation.now) }
{
    lower(out, &equation.0);
    spell_patterns_beside(equation.1.as_slice(), out);
    sign(out, Symbol::Equals);
    spell_exp(&equation.2, out);
    sign(out, Symbol::Semicolon);
}

#[tactic(auto, using(crate::proofs::SpellSteps::part_steps))]
fn spell_stream(name: &Text, from: bool, port: &Text, out: &mut Tokens)
    ensures { Adds out.old out.new (spelled_decl (Stream name.now from port.now)) }
{
    word(out, Keyword::Stream);
    lower(out, name);
    word(out, if from { Keyword::From } else { Keyword::To });
    quoted(out, port);
    sign(out, Symbol::Semicolon);
}

#[tactic(auto, using(crate::proofs::SpellSteps::part_steps))]
fn spell_wire(
    source: &(Text, Option<Text>),
    target: &(Text, Option<Text>),
    depth: Option<u64>,
    initial: &Option<Exp>,
    out: &mut Tokens,
)
    ensures { Adds out.old out.new (spelled_decl (Wire source.now target.now depth initial.now)) }
{
    word(out, Keyword::Wire);
    spell_end(source, out);
    word(out, Keyword::To);
    spell_end(target, out);
    spell_wire_depth(depth, out);
    spell_first_value(initial, out);
    sign(out, Symbol::Semicolon);
}

#[tactic(auto, using(crate::proofs::SpellSteps::part_steps))]
fn spell_end(end: &(Text, Option<Text>), out: &mut Tokens)
    ensures { Adds out.old out.new (spelled_end end.now) }
{
    lower(out, &end.0);
    if let Some(name) = &end.1 {
        sign(out, Symbol::Dot);
        lower(out, name);
    }
}

fn spell_wire_depth(depth: Option<u64>, out: &mut Tokens)
    ensures { Adds out.old out.new (spelled_wire_depth depth) }
{
    if let Some(depth) = depth {
        sign(out, Symbol::At);
        number(out, depth);
    }
}

fn spell_first_value(initial: &Option<Exp>, out: &mut Tokens)
    ensures { Adds out.old out.new (spelled_initial initial.now) }
{
    if let Some(value) = initial {
        word(out, Keyword::Initial);
        spell_exp(value, out);
    }
}
