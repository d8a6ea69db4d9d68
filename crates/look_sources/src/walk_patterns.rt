//! The parts of patterns.
ghost use Rattle.std.specs.Prelude.{◌≤◌};
ghost use Rattle.look_sources.specs.inner.Walks.{noted};

use crate::span::Sort;
use crate::walk::Walk;
use hume_ast::Pat;

#[cycle(walk_patterns)]
pub(crate) fn walk_pattern(walk: &mut Walk, pattern: &Pat)
    ensures { noted walk.old ≤ noted walk.new }
{
    let first = walk.at();
    let mut count = 0;
    match pattern {
        Pat::Name(_) => walk.name(Sort::Variable, 0),
        Pat::Num(negative, _) => walk.skip(if *negative { 2 } else { 1 }),
        Pat::Any | Pat::Letter(_) | Pat::Truth(_) | Pat::Star | Pat::AnyStar => walk.skip(1),
        Pat::Con(_, parts) => {
            count = parts.len();
            walk.name(Sort::ConstructorUse, 0);
            walk_patterns(walk, parts.as_slice(), 0);
        }
        Pat::Paren(inner) => {
            walk.skip(1);
            walk_pattern(walk, inner);
            walk.skip(1);
        }
        Pat::Tuple(parts) => {
            walk_patterns(walk, parts.as_slice(), 1);
            walk.skip(1);
        }
    }
    walk.note(Sort::Pattern, first, 0, count);
}

/// Patterns, with so many tokens before each.
#[cycle(walk_patterns)]
pub(crate) fn walk_patterns(walk: &mut Walk, patterns: &[Pat], before: usize)
    ensures { noted walk.old ≤ noted walk.new }
{
    for i in 0..patterns.len() {
        walk.skip(before);
        walk_pattern(walk, &patterns[i]);
    }
}
