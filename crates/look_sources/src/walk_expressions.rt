//! The parts of expressions.
ghost use Rattle.std.specs.Prelude.{◌≤◌};
ghost use Rattle.look_sources.specs.inner.Walks.{noted};

use crate::covering::{covering_alternative, note_shadowed};
use crate::span::Sort;
use crate::walk::Walk;
use crate::walk_patterns::walk_pattern;
use crate::walk_types::walk_type;
use hume_ast::{BinOp, Exp, Pat};

#[cycle(walk_expressions)]
pub(crate) fn walk_expression(walk: &mut Walk, exp: &Exp)
    ensures { noted walk.old ≤ noted walk.new }
{
    let first = walk.at();
    let mut count = 0;
    match exp {
        Exp::Let(_, value, body) => walk_let(walk, value, body),
        Exp::If(test, when_true, when_false) => {
            walk_after(walk, 1, test);
            walk_after(walk, 1, when_true);
            walk_after(walk, 1, when_false);
        }
        Exp::Case(subject, alternatives) => {
            walk_after(walk, 1, subject);
            walk_alternatives(walk, alternatives.as_slice());
            walk.skip(1);
        }
        Exp::Raise(_, value) => {
            walk.skip(1);
            walk.name(Sort::ExceptionUse, 0);
            if let Some(value) = value {
                count = 1;
                walk_expression(walk, value);
            }
        }
        Exp::Binary(op, left, right) => {
            walk_expression(walk, left);
            walk_after(walk, 1, right);
            note_comparison(walk, *op, first);
        }
        Exp::Neg(part) | Exp::Not(part) => walk_after(walk, 1, part),
        Exp::App(_, arguments) => {
            count = arguments.len();
            walk.name(sort_of_name(count), 0);
            walk_expressions(walk, arguments.as_slice(), 0);
        }
        Exp::Con(_, arguments) => {
            count = arguments.len();
            walk.name(Sort::ConstructorUse, 0);
            walk_expressions(walk, arguments.as_slice(), 0);
        }
        Exp::Update(vector, place, item) => {
            walk_after(walk, 1, vector);
            walk_expression(walk, place);
            walk_expression(walk, item);
        }
        Exp::Num(negative, _) => walk.skip(if *negative { 2 } else { 1 }),
        Exp::Letter(_) | Exp::Truth(_) | Exp::Star => walk.skip(1),
        Exp::Paren(inner) => {
            walk_after(walk, 1, inner);
            walk.skip(1);
        }
        Exp::Tuple(parts) | Exp::Vect(parts) => {
            count = parts.len();
            walk_expressions(walk, parts.as_slice(), 1);
            walk.skip(1);
        }
        Exp::Cast(inner, ty) => {
            walk_after(walk, 1, inner);
            walk.skip(1);
            walk_type(walk, ty);
            walk.skip(1);
        }
    }
    walk.note(Sort::Expression, first, 0, count);
}

// Notes the operation that began at token `first` and ends here, if it is a comparison.
fn note_comparison(walk: &mut Walk, op: BinOp, first: usize)
    ensures { noted walk.old ≤ noted walk.new }
{
    match op {
        BinOp::Eq | BinOp::Ne | BinOp::Lt | BinOp::Le | BinOp::Gt | BinOp::Ge => {
            walk.note(Sort::Comparison, first, 0, 0);
        }
        _ => {}
    }
}

// What a small name is that has so many arguments.
fn sort_of_name(arguments: usize) -> Sort {
    if arguments == 0 {
        Sort::VariableUse
    } else {
        Sort::FunctionUse
    }
}

/// An expression after so many tokens.
#[cycle(walk_expressions)]
fn walk_after(walk: &mut Walk, before: usize, exp: &Exp)
    ensures { noted walk.old ≤ noted walk.new }
{
    walk.skip(before);
    walk_expression(walk, exp);
}

#[cycle(walk_expressions)]
fn walk_let(walk: &mut Walk, value: &Exp, body: &Exp)
    ensures { noted walk.old ≤ noted walk.new }
{
    walk.skip(1);
    let first = walk.at();
    walk.name(Sort::Variable, 0);
    walk_after(walk, 1, value);
    walk.skip(1);
    walk.note(Sort::Known, first, 0, 0);
    walk_expression(walk, body);
    walk.note(Sort::Scope, first, 0, 0);
}

/// Alternatives, with a token before each.
#[cycle(walk_expressions)]
fn walk_alternatives(walk: &mut Walk, alternatives: &[(Pat, Exp)])
    ensures { noted walk.old ≤ noted walk.new }
{
    for i in 0..alternatives.len() {
        walk.skip(1);
        let first = walk.at();
        let alternative = &alternatives[i];
        walk_pattern(walk, &alternative.0);
        walk.skip(1);
        walk.note(Sort::Known, first, 0, 0);
        walk_expression(walk, &alternative.1);
        walk.note(Sort::Alternative, first, i.saturating_add(1), 0);
        note_shadowed(walk, first, covering_alternative(alternatives, i));
        walk.note(Sort::Scope, first, 0, 0);
    }
}

/// Expressions, with so many tokens before each.
#[cycle(walk_expressions)]
fn walk_expressions(walk: &mut Walk, exps: &[Exp], before: usize)
    ensures { noted walk.old ≤ noted walk.new }
{
    for i in 0..exps.len() {
        walk_after(walk, before, &exps[i]);
    }
}
