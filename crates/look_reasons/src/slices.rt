//! The lists of trees and cores as slices, and what their boxes hold. Where a generic function is called, the proof spells out the whole
//! type that it is called at; so the calls at the large types stand here alone.
ghost use Rattle.std.specs.Prelude.{◌≡◌};

use hume_ast::{Decl, Program};
use hume_base::{Box, List};
use hume_model::{BoxC, Core, Expr, HandC, NodeC, PatC, Res, RuleC, WireC};

pub(crate) fn declarations(program: &Program) -> &[(u32, Decl)] {
    program.decls.as_slice()
}

pub(crate) fn nodes(core: &Core) -> &[NodeC] {
    core.nodes.as_slice()
}

pub(crate) fn wires(core: &Core) -> &[WireC] {
    core.wires.as_slice()
}

pub(crate) fn rules(b: &BoxC) -> &[RuleC] {
    b.rules.as_slice()
}

pub(crate) fn handlers(b: &BoxC) -> &[HandC] {
    b.handlers.as_slice()
}

/// An expression that is a part of another one.
pub(crate) fn part(part: &Box<Expr>) -> &Expr
    ensures { result.now ≡ part.now }
{
    part.get()
}

pub(crate) fn parts(parts: &List<Expr>) -> &[Expr]
    ensures { result.now ≡ parts.now }
{
    parts.as_slice()
}

pub(crate) fn arms(arms: &List<(PatC, Expr)>) -> &[(PatC, Expr)]
    ensures { result.now ≡ arms.now }
{
    arms.as_slice()
}

/// A result that is a part of another one.
pub(crate) fn result_part(part: &Box<Res>) -> &Res
    ensures { result.now ≡ part.now }
{
    part.get()
}

pub(crate) fn result_arms(arms: &List<(PatC, Res)>) -> &[(PatC, Res)]
    ensures { result.now ≡ arms.now }
{
    arms.as_slice()
}

pub(crate) fn outputs(outs: &List<Option<Expr>>) -> &[Option<Expr>] {
    outs.as_slice()
}
