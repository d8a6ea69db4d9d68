//! The parts of types.
ghost use Rattle.std.specs.Prelude.{◌≤◌};
ghost use Rattle.look_sources.specs.inner.Walks.{noted};

use crate::span::Sort;
use crate::walk::Walk;
use hume_ast::TyExp;

#[cycle(walk_types)]
pub(crate) fn walk_type(walk: &mut Walk, ty: &TyExp)
    ensures { noted walk.old ≤ noted walk.new }
{
    let first = walk.at();
    match ty {
        TyExp::Bool | TyExp::Char => walk.skip(1),
        TyExp::Named(_) => walk.name(Sort::TypeUse, 0),
        TyExp::Int(_) | TyExp::Nat(_) => walk.skip(2),
        TyExp::Vector(_, item) => {
            walk.skip(3);
            walk_type(walk, item);
        }
        TyExp::Tuple(parts) => {
            walk_types(walk, parts.as_slice(), 1);
            walk.skip(1);
        }
    }
    walk.note(Sort::Type, first, 0, 0);
}

/// Types, with so many tokens before each.
#[cycle(walk_types)]
pub(crate) fn walk_types(walk: &mut Walk, types: &[TyExp], before: usize)
    ensures { noted walk.old ≤ noted walk.new }
{
    for i in 0..types.len() {
        walk.skip(before);
        walk_type(walk, &types[i]);
    }
}
