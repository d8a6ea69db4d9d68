//! Lists of the last outputs and alternatives of a stack.
ghost use Rattle.std.specs.Prelude.{◌≡◌, ◌||◌, map, take, drop, reverse, OnOk, IfOk};
ghost use Rattle.std.specs.List.{list_any};
ghost use Rattle.check_typing.specs.Results.{result_arm_cores};

use crate::Stack;
use crate::results::builder::ResultArm;
use hume_base::{Box, List};
use hume_model::PatC;
use std::alloc::{AllocError, Global};
use typed_core::{TypedExpr, TypedResult};

/// The last outputs as one list, and whether a literal in one of them is out of range.
pub(crate) fn outputs(
    alloc: Global,
    stack: &mut Stack<(Option<Box<TypedExpr>>, bool)>,
    count: usize,
) -> Result<(List<Option<TypedExpr>>, bool), AllocError>
    ensures gathered { IfOk result (λ all. all ≡ (
      map (λ out. out.0) (reverse (take count stack.old)),
      list_any (λ out. out.1)
          (reverse (take count stack.old)),
    )) }
    ensures left { OnOk result (stack.new ≡ drop count stack.old) }
{
    let items = stack.take_last(count)?;
    apart(alloc, items)
}

fn apart(
    alloc: Global,
    items: Vec<(Option<Box<TypedExpr>>, bool)>,
) -> Result<(List<Option<TypedExpr>>, bool), AllocError>
    ensures { IfOk result (λ all. all ≡ (map (λ out. out.0) items.items, list_any (λ out. out.1) items.items)) }
{
    let mut outputs = List::new(alloc);
    let mut some_too_wide = false;
    for (output, too_wide) in items {
        outputs.push(unboxed(output))?;
        some_too_wide = some_too_wide || too_wide;
    }
    Ok((outputs, some_too_wide))
}

fn unboxed(output: Option<Box<TypedExpr>>) -> Option<TypedExpr>
    ensures { result ≡ output }
{
    match output {
        None => None,
        Some(output) => Some(output.into_inner()),
    }
}

/// The last alternatives as one list, and whether a literal in one of them is out of range.
pub(crate) fn arms(
    alloc: Global,
    stack: &mut Stack<ResultArm>,
    count: usize,
) -> Result<(List<(PatC, TypedResult)>, bool), AllocError>
    ensures gathered { IfOk result (λ all. all ≡ (
      result_arm_cores (reverse (take count stack.old)),
      list_any (λ arm. arm.0.1 || arm.1.1)
          (reverse (take count stack.old)),
    )) }
    ensures left { OnOk result (stack.new ≡ drop count stack.old) }
{
    let items = stack.take_last(count)?;
    arms_apart(alloc, items)
}

fn arms_apart(
    alloc: Global,
    items: Vec<ResultArm>,
) -> Result<(List<(PatC, TypedResult)>, bool), AllocError>
    ensures { IfOk result (λ all. all ≡ (result_arm_cores items.items, list_any (λ arm. arm.0.1 || arm.1.1) items.items)) }
{
    let mut arms = List::new(alloc);
    let mut some_too_wide = false;
    for ((pattern, pattern_wide), (body, body_wide)) in items {
        arms.push((pattern, body.into_inner()))?;
        some_too_wide = some_too_wide || (pattern_wide || body_wide);
    }
    Ok((arms, some_too_wide))
}
