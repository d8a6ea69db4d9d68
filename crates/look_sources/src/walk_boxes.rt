//! The parts of boxes.
ghost use Rattle.std.specs.Prelude.{◌≤◌};
ghost use Rattle.look_sources.specs.inner.Walks.{noted};

use crate::covering::{covering_rule, note_shadowed};
use crate::span::Sort;
use crate::walk::Walk;
use crate::walk_expressions::walk_expression;
use crate::walk_patterns::{walk_pattern, walk_patterns};
use crate::walk_types::walk_type;
use hume_ast::{Exp, Pat, TyExp};
use hume_base::{List, Text};

/// Inputs or outputs, with their parentheses.
pub(crate) fn walk_side(walk: &mut Walk, sort: Sort, side: &[(Text, TyExp)])
    ensures { noted walk.old ≤ noted walk.new }
{
    for i in 0..side.len() {
        walk.skip(1);
        walk.name(sort, i.saturating_add(1));
        walk.skip(1);
        walk_type(walk, &side[i].1);
    }
    walk.skip(1);
}

/// Rules, with a token before each.
pub(crate) fn walk_rules(walk: &mut Walk, fair: bool, rules: &[(List<Pat>, Exp)])
    ensures { noted walk.old ≤ noted walk.new }
{
    for i in 0..rules.len() {
        walk.skip(1);
        let first = walk.at();
        let rule = &rules[i];
        let patterns = rule.0.as_slice();
        walk_patterns(walk, patterns, 1);
        walk.skip(2);
        walk.note(Sort::Known, first, 0, 0);
        walk_expression(walk, &rule.1);
        walk.note(Sort::Rule, first, i.saturating_add(1), patterns.len());
        if !fair {
            note_shadowed(walk, first, covering_rule(rules, i));
        }
        walk.note(Sort::Scope, first, 0, 0);
    }
}

/// Handlers, with a token before each.
pub(crate) fn walk_handlers(walk: &mut Walk, handlers: &[(Text, Option<Pat>, Exp)])
    ensures { noted walk.old ≤ noted walk.new }
{
    for i in 0..handlers.len() {
        walk.skip(1);
        let first = walk.at();
        let handler = &handlers[i];
        walk.name(Sort::HandledName, i.saturating_add(1));
        let mut count = 0;
        if let Some(pattern) = &handler.1 {
            count = 1;
            walk_pattern(walk, pattern);
        }
        walk.skip(1);
        walk.note(Sort::Known, first, 0, 0);
        walk_expression(walk, &handler.2);
        walk.note(Sort::Handler, first, i.saturating_add(1), count);
        walk.note(Sort::Scope, first, 0, 0);
    }
}
