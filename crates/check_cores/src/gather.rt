//! Lists of the last cores of a stack.
ghost use Rattle.std.specs.Prelude.{◌≡◌, take, drop, reverse, OnOk, IfOk};
ghost use Rattle.check_typing.specs.Cores.{cores as cores_alone, some_too_wide as one_too_wide, arm_cores, some_arm_too_wide};
ghost use Rattle.check_typing.specs.Patterns.{pat_cores, some_pat_too_wide};

use crate::builder::Arm;
use crate::stack::Stack;
use hume_base::{Box, List};
use hume_model::PatC;
use std::alloc::{AllocError, Global};
use typed_core::TypedExpr;

/// The last cores as one list, and whether a literal in one of them is out of range.
pub(crate) fn cores(
    alloc: Global,
    stack: &mut Stack<(Box<TypedExpr>, bool)>,
    count: usize,
) -> Result<(List<TypedExpr>, bool), AllocError>
    ensures gathered { IfOk result (λ all. all ≡ (cores_alone (reverse (take count stack.old)), one_too_wide (reverse (take count stack.old)))) }
    ensures left { OnOk result (stack.new ≡ drop count stack.old) }
{
    let items = stack.take_last(count)?;
    apart(alloc, items)
}

fn apart(
    alloc: Global,
    items: Vec<(Box<TypedExpr>, bool)>,
) -> Result<(List<TypedExpr>, bool), AllocError>
    ensures { IfOk result (λ all. all ≡ (cores_alone items.items, one_too_wide items.items)) }
{
    let mut parts = List::new(alloc);
    let mut some_too_wide = false;
    for (part, too_wide) in items {
        parts.push(part.into_inner())?;
        some_too_wide = some_too_wide || too_wide;
    }
    Ok((parts, some_too_wide))
}

/// The last patterns as one list, and whether a literal in one of them is out of range.
pub(crate) fn patterns(
    alloc: Global,
    stack: &mut Stack<(PatC, bool)>,
    count: usize,
) -> Result<(List<PatC>, bool), AllocError>
    ensures gathered { IfOk result (λ all. all ≡ (pat_cores (reverse (take count stack.old)), some_pat_too_wide (reverse (take count stack.old)))) }
    ensures left { OnOk result (stack.new ≡ drop count stack.old) }
{
    let items = stack.take_last(count)?;
    patterns_apart(alloc, items)
}

fn patterns_apart(alloc: Global, items: Vec<(PatC, bool)>) -> Result<(List<PatC>, bool), AllocError>
    ensures { IfOk result (λ all. all ≡ (pat_cores items.items, some_pat_too_wide items.items)) }
{
    let mut parts = List::new(alloc);
    let mut some_too_wide = false;
    for (part, too_wide) in items {
        parts.push(part)?;
        some_too_wide = some_too_wide || too_wide;
    }
    Ok((parts, some_too_wide))
}

/// The last alternatives as one list, and whether a literal in one of them is out of range.
pub(crate) fn arms(
    alloc: Global,
    stack: &mut Stack<Arm>,
    count: usize,
) -> Result<(List<(PatC, TypedExpr)>, bool), AllocError>
    ensures gathered { IfOk result (λ all. all ≡ (arm_cores (reverse (take count stack.old)), some_arm_too_wide (reverse (take count stack.old)))) }
    ensures left { OnOk result (stack.new ≡ drop count stack.old) }
{
    let items = stack.take_last(count)?;
    arms_apart(alloc, items)
}

fn arms_apart(alloc: Global, items: Vec<Arm>) -> Result<(List<(PatC, TypedExpr)>, bool), AllocError>
    ensures { IfOk result (λ all. all ≡ (arm_cores items.items, some_arm_too_wide items.items)) }
{
    let mut arms = List::new(alloc);
    let mut some_too_wide = false;
    for ((pattern, pattern_wide), (body, body_wide)) in items {
        arms.push((pattern, body.into_inner()))?;
        some_too_wide = some_too_wide || (pattern_wide || body_wide);
    }
    Ok((arms, some_too_wide))
}
