//! The parts of declarations.
ghost use Rattle.std.specs.Prelude.{◌≤◌, IfOk, length};
ghost use Rattle.look_sources.specs.Parts.{declarations};
ghost use Rattle.look_sources.specs.inner.Walks.{noted};

use crate::covering::{covering_equation, note_shadowed};
use crate::span::{Sort, Span};
use crate::walk::Walk;
use crate::walk_boxes::{walk_handlers, walk_rules, walk_side};
use crate::walk_expressions::walk_expression;
use crate::walk_patterns::walk_patterns;
use crate::walk_types::{walk_type, walk_types};
use hume_ast::{Decl, Exp, Pat, Program, TyExp};
use hume_base::{List, Text};
use std::alloc::{AllocError, Global};

/// The parts of a program, each after its own parts.
pub fn spans_of(alloc: Global, program: &Program) -> Result<Vec<Span>, AllocError>
    ensures { IfOk result (λ parts. length program.now.decls ≤ declarations parts.items) }
{
    let mut walk = Walk::begin(alloc);
    for decl in program.decls.as_slice() {
        let first = walk.at();
        walk_declaration(&mut walk, &decl.1);
        walk.note(Sort::Declaration, first, 0, 0);
        walk.next_declaration();
    }
    walk.finish()
}

fn walk_declaration(walk: &mut Walk, decl: &Decl)
    ensures { noted walk.old ≤ noted walk.new }
{
    match decl {
        Decl::Sum(_, constructors) => {
            walk.skip(1);
            walk.name(Sort::TypeName, 0);
            walk_constructors(walk, constructors.as_slice());
        }
        Decl::Exn(_, carries) => {
            walk.skip(1);
            walk.name(Sort::ConstructorName, 0);
            if let Some(ty) = carries {
                walk_type(walk, ty);
            }
        }
        Decl::Fun(_, types, equations) => {
            walk.name_of_parts(Sort::FunctionName, 0, types.len().saturating_sub(1));
            walk_types(walk, types.as_slice(), 1);
            walk.skip(1);
            walk_equations(walk, equations.as_slice());
            return;
        }
        Decl::BoxD(_, inputs, outputs, fair, rules, handlers) => {
            walk.skip(1);
            walk.name(Sort::NodeName, 0);
            walk.skip(1);
            walk_side(walk, Sort::Input, inputs.as_slice());
            walk.skip(1);
            walk_side(walk, Sort::Output, outputs.as_slice());
            walk_rules(walk, *fair, rules.as_slice());
            walk_handlers(walk, handlers.as_slice());
        }
        Decl::Stream(_, _, _) => {
            walk.skip(1);
            walk.name(Sort::NodeName, 0);
            walk.skip(2);
        }
        Decl::Wire(source, target, depth, initial) => walk_wire(
            walk,
            source.1.is_some(),
            target.1.is_some(),
            depth.is_some(),
            initial,
        ),
    }
    walk.skip(1);
}

fn walk_constructors(walk: &mut Walk, constructors: &[(Text, List<TyExp>)])
    ensures { noted walk.old ≤ noted walk.new }
{
    for i in 0..constructors.len() {
        walk.skip(1);
        let fields = constructors[i].1.as_slice();
        walk.name_of_parts(Sort::ConstructorName, i.saturating_add(1), fields.len());
        walk_types(walk, fields, 0);
    }
}

fn walk_equations(walk: &mut Walk, equations: &[(Text, List<Pat>, Exp)])
    ensures { noted walk.old ≤ noted walk.new }
{
    for i in 0..equations.len() {
        let first = walk.at();
        let equation = &equations[i];
        let patterns = equation.1.as_slice();
        walk.name(Sort::EquationName, i.saturating_add(1));
        walk_patterns(walk, patterns, 0);
        walk.skip(1);
        walk.note(Sort::Known, first, 0, 0);
        walk_expression(walk, &equation.2);
        walk.skip(1);
        walk.note(Sort::Equation, first, i.saturating_add(1), patterns.len());
        note_shadowed(walk, first, covering_equation(equations, i));
        walk.note(Sort::Scope, first, 0, 0);
    }
}

fn walk_wire(walk: &mut Walk, from_port: bool, to_port: bool, depth: bool, initial: &Option<Exp>)
    ensures { noted walk.old ≤ noted walk.new }
{
    walk.skip(1);
    walk_end(walk, Sort::WireFrom, from_port);
    walk.skip(1);
    walk_end(walk, Sort::WireTo, to_port);
    if depth {
        walk.skip(2);
    }
    if let Some(value) = initial {
        walk.skip(1);
        walk_expression(walk, value);
    }
}

fn walk_end(walk: &mut Walk, sort: Sort, port: bool)
    ensures { noted walk.old ≤ noted walk.new }
{
    let first = walk.at();
    walk.skip(if port { 3 } else { 1 });
    walk.note(sort, first, 0, 0);
}
