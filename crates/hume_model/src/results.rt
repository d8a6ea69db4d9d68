//! What the results of rules and handlers come to.
ghost use Rattle.std.specs.Prelude.{◌≡◌, IfOk, map};
ghost use Rattle.std.specs.Option.{option_map};
ghost use Rattle.hume_model.specs.Outcomes.{outs_in_order, raised, thrown, then_outputs};
ghost use Rattle.hume_model.specs.Results.{result_of, meaning_in, first_result};
ghost use Rattle.hume_model.specs.inner.Arms.{result_arm_with};

use crate::core_tree::{Core, Expr, PatC, Res};
use crate::evaluate::eval_plain;
use crate::exceptions::NO_CASE;
use crate::outcome::{Outcome, Outputs};
use crate::patterns::matched;
use hume_base::{List, Value, copy_values};
use std::alloc::{AllocError, Global};

/// The outputs of a result, by the values of its variables, or the exception that it raises.
#[cycle(outputs)]
#[tactic(auto, using(crate::proofs::Evaluation::result_steps))]
pub fn outputs_of(
    alloc: Global,
    core: &Core,
    env: &List<Value>,
    res: &Res,
) -> Result<Outputs, AllocError>
    ensures { IfOk result (λ outputs. outputs ≡ result_of core.now env.now res.now) }
{
    match res {
        Res::Outs(outs) => listed_outputs(alloc, core, env, outs.as_slice()),
        Res::If(test, yes, no) => match eval_plain(alloc, core, env, test)? {
            Outcome::Gives(value) => {
                if value.word() == 0 {
                    outputs_of(alloc, core, env, no)
                } else {
                    outputs_of(alloc, core, env, yes)
                }
            }
            Outcome::Raises(exn, carried) => Ok(Outputs::Throws(exn, carried)),
        },
        Res::Case(part, _, arms) => case_outputs(alloc, core, env, part, arms.as_slice()),
        Res::Let(part, body) => match eval_plain(alloc, core, env, part)? {
            Outcome::Gives(value) => {
                let mut inner = copy_values(alloc, env.as_slice())?;
                inner.push(value)?;
                outputs_of(alloc, core, &inner, body)
            }
            Outcome::Raises(exn, carried) => Ok(Outputs::Throws(exn, carried)),
        },
        Res::Raise(exn, part) => raised_outputs(alloc, core, env, *exn, part),
    }
}

#[cycle(outputs)]
#[tactic(auto, using(crate::proofs::Evaluation::result_steps))]
fn case_outputs(
    alloc: Global,
    core: &Core,
    env: &List<Value>,
    part: &Expr,
    arms: &[(PatC, Res)],
) -> Result<Outputs, AllocError>
    ensures { IfOk result (λ outputs. outputs ≡ then_outputs (meaning_in core.now part.now env.now)
        (λ v. first_result (map (result_arm_with (λ res env. result_of core.now env res)) arms.now) v env.now)) }
{
    match eval_plain(alloc, core, env, part)? {
        Outcome::Gives(value) => arm_outputs(alloc, core, env, arms, &value),
        Outcome::Raises(exn, carried) => Ok(Outputs::Throws(exn, carried)),
    }
}

// The outputs of the first alternative that matches.
#[cycle(outputs)]
#[tactic(auto, using(crate::proofs::Evaluation::result_steps))]
fn arm_outputs(
    alloc: Global,
    core: &Core,
    env: &List<Value>,
    arms: &[(PatC, Res)],
    value: &Value,
) -> Result<Outputs, AllocError>
    ensures { IfOk result (λ outputs. outputs ≡ first_result (map (result_arm_with (λ res env. result_of core.now env res)) arms.now) value.now env.now) }
{
    for arm in arms {
        if let Some(values) = matched(alloc, &arm.0, value)? {
            let mut inner = copy_values(alloc, env.as_slice())?;
            inner.append(values)?;
            return outputs_of(alloc, core, &inner, &arm.1);
        }
    }
    Ok(Outputs::Throws(NO_CASE, None))
}

fn raised_outputs(
    alloc: Global,
    core: &Core,
    env: &List<Value>,
    exn: u32,
    part: &Option<Expr>,
) -> Result<Outputs, AllocError>
    ensures { IfOk result (λ outputs. outputs ≡ thrown (raised exn (option_map (meaning_in core.now) part.now) env.now)) }
{
    let Some(part) = part else {
        return Ok(Outputs::Throws(exn, None));
    };
    match eval_plain(alloc, core, env, part)? {
        Outcome::Gives(value) => Ok(Outputs::Throws(exn, Some(value))),
        Outcome::Raises(other, carried) => Ok(Outputs::Throws(other, carried)),
    }
}

// Outputs from left to right.
#[tactic(auto, using(crate::proofs::Evaluation::result_steps))]
fn listed_outputs(
    alloc: Global,
    core: &Core,
    env: &List<Value>,
    outs: &[Option<Expr>],
) -> Result<Outputs, AllocError>
    ensures { IfOk result (λ outputs. outputs ≡ outs_in_order (map (option_map (meaning_in core.now)) outs.now) env.now) }
{
    let mut values = List::new(alloc);
    for out in outs {
        match out {
            None => values.push(None)?,
            Some(e) => match eval_plain(alloc, core, env, e)? {
                Outcome::Gives(value) => values.push(Some(value))?,
                Outcome::Raises(exn, carried) => return Ok(Outputs::Throws(exn, carried)),
            },
        }
    }
    Ok(Outputs::Asserts(values))
}
