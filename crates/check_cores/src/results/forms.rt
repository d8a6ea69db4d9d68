//! The core of each form of result, from the last results of a stack.
ghost use Rattle.std.specs.Prelude.{◌≡◌, ◌∷◌, drop, OnOk, IfOk};
ghost use Rattle.check_typing.specs.Results.{let_result_core, if_result_core};
ghost use Rattle.check_cores.specs.results.Stacks.{top_result};

use crate::Stack;
use hume_base::{Box, Shared, Ty};
use std::alloc::{AllocError, Global};
use typed_core::{TypedExpr, TypedResult};

type Results = Stack<(Box<TypedResult>, bool)>;

pub(crate) fn binding(
    alloc: Global,
    results: &mut Results,
    of: Shared<Ty>,
    part: (Box<TypedExpr>, bool),
) -> Result<(), AllocError>
    ensures { OnOk result (results.new ≡ let_result_core of part (top_result results.old) ∷ drop 1 results.old) }
{
    let (part, part_wide) = part;
    let (body, body_wide) = last(results)?;
    let binding = TypedResult::Let(of, part.into_inner(), body);
    put(alloc, results, binding, part_wide || body_wide)
}

pub(crate) fn branches(
    alloc: Global,
    results: &mut Results,
    test: (Box<TypedExpr>, bool),
) -> Result<(), AllocError>
    ensures { OnOk result (results.new ≡ if_result_core test (top_result (drop 1 results.old)) (top_result results.old) ∷ drop 2 results.old) }
{
    let (test, t) = test;
    let (when_false, b) = last(results)?;
    let (when_true, a) = last(results)?;
    let branches = TypedResult::If(test.into_inner(), when_true, when_false);
    put(alloc, results, branches, t || (a || b))
}

/// Puts a result onto the stack, and whether a literal in it is out of range.
pub(crate) fn put(
    alloc: Global,
    results: &mut Results,
    made: TypedResult,
    too_wide: bool,
) -> Result<(), AllocError>
    ensures { OnOk result (results.new ≡ (made, too_wide) ∷ results.old) }
{
    results.push((Box::new(alloc, made)?, too_wide))
}

/// Takes the last result out, to be a part of another.
pub(crate) fn last(results: &mut Results) -> Result<(Box<TypedResult>, bool), AllocError>
    ensures taken { IfOk result (λ taken. taken ≡ top_result results.old) }
    ensures left { OnOk result (results.new ≡ drop 1 results.old) }
{
    match results.pop() {
        None => Err(AllocError),
        Some(made) => Ok(made),
    }
}
