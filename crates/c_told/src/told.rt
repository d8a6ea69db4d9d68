//! The types that the trees of a program tell.
ghost use Rattle.std.specs.Prelude.{◌≡◌, OnOk};
ghost use Rattle.std.specs.List.{flat_map};
ghost use Rattle.c_types.specs.Gathered.{gathered};
ghost use Rattle.c_told.specs.Told.{expression_tells, output_tells, result_tells, with_all};
ghost use Rattle.c_told.specs.inner.Several.{expressions_tell};
ghost use Rattle.c_told.specs.inner.Arms.{arms_tell, result_arms_tell};

use c_types::CTypes;
use hume_model::PatC;
use std::alloc::{AllocError, Global};
use typed_core::{TypedExpr, TypedResult};

/// The types that results tell.
#[cycle(add_result)]
#[tactic(auto, using(crate::proofs::ToldForms::result_forms))]
pub(crate) fn add_result(
    alloc: Global,
    types: &mut CTypes,
    given: &TypedResult,
) -> Result<(), AllocError>
    ensures { OnOk result (gathered types.new ≡ with_all (gathered types.old) (result_tells given.now)) }
{
    match given {
        TypedResult::Outs(outs) => add_outputs(alloc, types, outs.as_slice()),
        TypedResult::If(test, yes, no) => {
            add_expression(alloc, types, test)?;
            add_result(alloc, types, yes)?;
            add_result(alloc, types, no)
        }
        TypedResult::Case(of, part, arms) => {
            types.add(alloc, of)?;
            add_expression(alloc, types, part)?;
            add_result_arms(alloc, types, arms.as_slice())
        }
        TypedResult::Let(of, part, body) => {
            types.add(alloc, of)?;
            add_expression(alloc, types, part)?;
            add_result(alloc, types, body)
        }
        TypedResult::Raise(_, part) => add_output(alloc, types, part),
    }
}

#[cycle(add_result)]
#[tactic(auto, using(crate::proofs::ToldForms::result_forms))]
fn add_result_arms(
    alloc: Global,
    types: &mut CTypes,
    arms: &[(PatC, TypedResult)],
) -> Result<(), AllocError>
    ensures { OnOk result (gathered types.new ≡ with_all (gathered types.old) (result_arms_tell arms.now)) }
{
    for arm in arms {
        add_result(alloc, types, &arm.1)?;
    }
    Ok(())
}

#[tactic(auto, using(crate::proofs::ToldForms::all_steps))]
fn add_outputs(
    alloc: Global,
    types: &mut CTypes,
    outs: &[Option<TypedExpr>],
) -> Result<(), AllocError>
    ensures { OnOk result (gathered types.new ≡ with_all (gathered types.old) (flat_map output_tells outs.now)) }
{
    for out in outs {
        add_output(alloc, types, out)?;
    }
    Ok(())
}

fn add_output(alloc: Global, types: &mut CTypes, out: &Option<TypedExpr>) -> Result<(), AllocError>
    ensures { OnOk result (gathered types.new ≡ with_all (gathered types.old) (output_tells out.now)) }
{
    match out {
        None => Ok(()),
        Some(e) => add_expression(alloc, types, e),
    }
}

#[cycle(add_expression)]
#[tactic(auto, using(crate::proofs::ToldForms::told_forms))]
pub(crate) fn add_expression(
    alloc: Global,
    types: &mut CTypes,
    e: &TypedExpr,
) -> Result<(), AllocError>
    ensures { OnOk result (gathered types.new ≡ with_all (gathered types.old) (expression_tells e.now)) }
{
    match e {
        TypedExpr::Word(_) | TypedExpr::Var(_) | TypedExpr::Raise(_, None) => Ok(()),
        TypedExpr::Con(_, parts) | TypedExpr::Tuple(parts) | TypedExpr::Vect(parts) => {
            add_expressions(alloc, types, parts.as_slice())
        }
        TypedExpr::Prim(_, _, parts) | TypedExpr::Call(_, parts) => {
            add_expressions(alloc, types, parts.as_slice())
        }
        TypedExpr::Convert(_, _, part) | TypedExpr::Raise(_, Some(part)) => {
            add_expression(alloc, types, part)
        }
        TypedExpr::Index(of, _, vector, place) => {
            types.add(alloc, of)?;
            add_expression(alloc, types, vector)?;
            add_expression(alloc, types, place)
        }
        TypedExpr::Update(of, _, vector, place, item) => {
            types.add(alloc, of)?;
            add_expression(alloc, types, vector)?;
            add_expression(alloc, types, place)?;
            add_expression(alloc, types, item)
        }
        TypedExpr::If(test, yes, no) => {
            add_expression(alloc, types, test)?;
            add_expression(alloc, types, yes)?;
            add_expression(alloc, types, no)
        }
        TypedExpr::Case(of, part, arms) => {
            types.add(alloc, of)?;
            add_expression(alloc, types, part)?;
            add_arms(alloc, types, arms.as_slice())
        }
        TypedExpr::Let(of, part, body) => {
            types.add(alloc, of)?;
            add_expression(alloc, types, part)?;
            add_expression(alloc, types, body)
        }
    }
}

#[cycle(add_expression)]
#[tactic(auto, using(crate::proofs::ToldForms::told_forms))]
fn add_expressions(alloc: Global, types: &mut CTypes, parts: &[TypedExpr]) -> Result<(), AllocError>
    ensures { OnOk result (gathered types.new ≡ with_all (gathered types.old) (expressions_tell parts.now)) }
{
    for part in parts {
        add_expression(alloc, types, part)?;
    }
    Ok(())
}

#[cycle(add_expression)]
#[tactic(auto, using(crate::proofs::ToldForms::told_forms))]
fn add_arms(alloc: Global, types: &mut CTypes, arms: &[(PatC, TypedExpr)]) -> Result<(), AllocError>
    ensures { OnOk result (gathered types.new ≡ with_all (gathered types.old) (arms_tell arms.now)) }
{
    for arm in arms {
        add_expression(alloc, types, &arm.1)?;
    }
    Ok(())
}
