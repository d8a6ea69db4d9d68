//! Which patterns take all that others take, as their forms show.
ghost use Rattle.std.specs.Prelude.{◌≤◌};
ghost use Rattle.look_sources.specs.inner.Walks.{noted};

use crate::span::Sort;
use crate::walk::Walk;
use hume_ast::{Exp, Pat};
use hume_base::{List, Text};

/// Notes the part that began at token `first` and ends here, if it stands behind one that takes all that it takes.
pub(crate) fn note_shadowed(walk: &mut Walk, first: usize, before: Option<usize>)
    ensures { noted walk.old ≤ noted walk.new }
{
    if let Some(number) = before {
        walk.note(Sort::Shadowed, first, number, 0);
    }
}

/// The number from 1 of the first alternative before it that takes all that alternative `at` takes.
pub(crate) fn covering_alternative(alternatives: &[(Pat, Exp)], at: usize) -> Option<usize> {
    let this = alternatives.get(at)?;
    for i in 0..at.min(alternatives.len()) {
        if covers(&alternatives[i].0, &this.0) {
            return Some(i.saturating_add(1));
        }
    }
    None
}

/// The same of equations.
pub(crate) fn covering_equation(equations: &[(Text, List<Pat>, Exp)], at: usize) -> Option<usize> {
    let this = equations.get(at)?;
    for i in 0..at.min(equations.len()) {
        if all_cover(equations[i].1.as_slice(), this.1.as_slice()) {
            return Some(i.saturating_add(1));
        }
    }
    None
}

/// The same of the rules of a box whose order doesn't change.
pub(crate) fn covering_rule(rules: &[(List<Pat>, Exp)], at: usize) -> Option<usize> {
    let this = rules.get(at)?;
    for i in 0..at.min(rules.len()) {
        if all_cover_inputs(rules[i].0.as_slice(), this.0.as_slice()) {
            return Some(i.saturating_add(1));
        }
    }
    None
}

fn all_cover_inputs(first: &[Pat], second: &[Pat]) -> bool {
    if first.len() != second.len() {
        return false;
    }
    for i in 0..first.len() {
        if !covers_input(&first[i], &second[i]) {
            return false;
        }
    }
    true
}

// Whether the first takes what the second takes, at an input of a box.
fn covers_input(first: &Pat, second: &Pat) -> bool {
    match (first, second) {
        (Pat::Star | Pat::AnyStar, _) => true,
        (_, Pat::Star | Pat::AnyStar) => false,
        _ => covers(first, second),
    }
}

// Whether each value that matches the second pattern matches the first, as the forms show.
#[cycle(covers)]
fn covers(first: &Pat, second: &Pat) -> bool {
    match first {
        Pat::Name(_) | Pat::Any => true,
        Pat::Paren(inner) => covers(inner, second),
        Pat::Con(name, parts) => covers_constructor(name, parts.as_slice(), second),
        Pat::Tuple(parts) => covers_tuple(parts.as_slice(), second),
        _ => covers_scalar(first, second),
    }
}

#[cycle(covers)]
fn covers_constructor(name: &Text, parts: &[Pat], second: &Pat) -> bool {
    match second {
        Pat::Paren(inner) => covers_constructor(name, parts, inner),
        Pat::Con(other, others) => *name == *other && all_cover(parts, others.as_slice()),
        _ => false,
    }
}

#[cycle(covers)]
fn covers_tuple(parts: &[Pat], second: &Pat) -> bool {
    match second {
        Pat::Paren(inner) => covers_tuple(parts, inner),
        Pat::Tuple(others) => all_cover(parts, others.as_slice()),
        _ => false,
    }
}

#[cycle(covers)]
fn all_cover(first: &[Pat], second: &[Pat]) -> bool {
    if first.len() != second.len() {
        return false;
    }
    for i in 0..first.len() {
        if !covers(&first[i], &second[i]) {
            return false;
        }
    }
    true
}

// Whether both are the same scalar.
fn covers_scalar(first: &Pat, second: &Pat) -> bool {
    match second {
        Pat::Paren(inner) => covers_scalar(first, inner),
        _ => match (first, second) {
            (Pat::Num(minus, amount), Pat::Num(other_minus, other)) => {
                *amount == *other && (*minus == *other_minus || *amount == 0)
            }
            (Pat::Letter(byte), Pat::Letter(other)) => *byte == *other,
            (Pat::Truth(holds), Pat::Truth(other)) => *holds == *other,
            _ => false,
        },
    }
}
