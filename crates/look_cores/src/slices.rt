//! The lists of a core as slices, and what its boxes hold. Where a generic function is called, the proof spells out the whole type that
//! it is called at; so the calls at the large types of a core stand here alone.
ghost use Rattle.std.specs.Prelude.{◌≡◌, MatchOption, Some, None, slice_get};

use hume_base::{Box, List};
use hume_model::{BoxC, Core, EqC, Expr, FunC, HandC, NodeC, PatC, Res, RuleC, WireC};

pub(crate) fn nodes(core: &Core) -> &[NodeC]
    ensures { result.now ≡ core.now.nodes }
{
    core.nodes.as_slice()
}

pub(crate) fn wires(core: &Core) -> &[WireC]
    ensures { result.now ≡ core.now.wires }
{
    core.wires.as_slice()
}

pub(crate) fn functions(core: &Core) -> &[FunC]
    ensures { result.now ≡ core.now.funs }
{
    core.funs.as_slice()
}

pub(crate) fn equations(function: &FunC) -> &[EqC]
    ensures { result.now ≡ function.now.equations }
{
    function.equations.as_slice()
}

pub(crate) fn rules(b: &BoxC) -> &[RuleC]
    ensures { result.now ≡ b.now.rules }
{
    b.rules.as_slice()
}

pub(crate) fn handlers(b: &BoxC) -> &[HandC]
    ensures { result.now ≡ b.now.handlers }
{
    b.handlers.as_slice()
}

pub(crate) fn rule_at(b: &BoxC, place: usize) -> Option<&RuleC>
    ensures { MatchOption result (slice_get b.now.rules place ≡ None) (λ rule. slice_get b.now.rules place ≡ Some rule.now) }
{
    b.rules.get(place)
}

pub(crate) fn handler_at(b: &BoxC, place: usize) -> Option<&HandC>
    ensures { MatchOption result (slice_get b.now.handlers place ≡ None) (λ handler. slice_get b.now.handlers place ≡ Some handler.now) }
{
    b.handlers.get(place)
}

/// An expression that is a part of another one.
pub(crate) fn part(part: &Box<Expr>) -> &Expr
    ensures { result.now ≡ part.now }
{
    part.get()
}

pub(crate) fn parts(parts: &List<Expr>) -> &[Expr]
    ensures { result.now ≡ parts.now }
{
    parts.as_slice()
}

pub(crate) fn arms(arms: &List<(PatC, Expr)>) -> &[(PatC, Expr)]
    ensures { result.now ≡ arms.now }
{
    arms.as_slice()
}

/// A result that is a part of another one.
pub(crate) fn result_part(part: &Box<Res>) -> &Res
    ensures { result.now ≡ part.now }
{
    part.get()
}

pub(crate) fn result_arms(arms: &List<(PatC, Res)>) -> &[(PatC, Res)]
    ensures { result.now ≡ arms.now }
{
    arms.as_slice()
}

pub(crate) fn outputs(outs: &List<Option<Expr>>) -> &[Option<Expr>]
    ensures { result.now ≡ outs.now }
{
    outs.as_slice()
}
