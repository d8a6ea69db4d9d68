//! What expressions come to.
ghost use Rattle.std.specs.Prelude.{◌≡◌, ◌++◌, IfOk, map, slice_get};
ghost use Rattle.hume_model.specs.Outcomes.{in_order, and_then};
ghost use Rattle.hume_model.specs.Operations.{item_of, updated};
ghost use Rattle.hume_model.specs.Meaning.{eval, eval_with, call_below, first_arm, first_equation, variable};
ghost use Rattle.hume_model.specs.inner.Arms.{arm_with};

use crate::core_tree::{Core, EqC, Expr, PatC};
use crate::exceptions::NO_CASE;
use crate::operations::{changed, item, operate};
use crate::outcome::{Outcome, Several};
use crate::patterns::{all_matched, matched};
use hume_base::{List, Value, copy_value, copy_values};
use std::alloc::{AllocError, Global};

/// What an expression comes to, by the values of its variables. It copies them for each `let` and each alternative: it
/// is the plain reference, and not the engine.
pub fn eval_plain(
    alloc: Global,
    core: &Core,
    env: &List<Value>,
    e: &Expr,
) -> Result<Outcome, AllocError>
    ensures { IfOk result (λ outcome. outcome ≡ eval core.now env.now e.now) }
{
    eval_below(alloc, core, core.funs.len(), env, e)
}

// The same, where only functions of numbers below the bound are called.
#[cycle(evaluate)]
#[tactic(auto, using(crate::proofs::Evaluation::eval_steps))]
fn eval_below(
    alloc: Global,
    core: &Core,
    bound: usize,
    env: &List<Value>,
    e: &Expr,
) -> Result<Outcome, AllocError>
    ensures { IfOk result (λ outcome. outcome ≡ eval_with (call_below core.now bound) e.now env.now) }
{
    match e {
        Expr::Word(word) => Ok(Outcome::Gives(Value::Word(*word))),
        Expr::Var(number) => Ok(Outcome::Gives(variable_value(alloc, env, *number)?)),
        Expr::Con(place, parts) => match eval_all(alloc, core, bound, env, parts.as_slice())? {
            Several::All(values) => Ok(Outcome::Gives(Value::Con(*place, values))),
            Several::Raised(exn, carried) => Ok(Outcome::Raises(exn, carried)),
        },
        Expr::Tuple(parts) => match eval_all(alloc, core, bound, env, parts.as_slice())? {
            Several::All(values) => Ok(Outcome::Gives(Value::Tuple(values))),
            Several::Raised(exn, carried) => Ok(Outcome::Raises(exn, carried)),
        },
        Expr::Vect(parts) => match eval_all(alloc, core, bound, env, parts.as_slice())? {
            Several::All(values) => Ok(Outcome::Gives(Value::Vector(values))),
            Several::Raised(exn, carried) => Ok(Outcome::Raises(exn, carried)),
        },
        Expr::Prim(op, ty, parts) => match eval_all(alloc, core, bound, env, parts.as_slice())? {
            Several::All(values) => Ok(operate(*op, ty, values.as_slice())),
            Several::Raised(exn, carried) => Ok(Outcome::Raises(exn, carried)),
        },
        Expr::Index(count, vector, place) => {
            eval_index(alloc, core, bound, env, *count, vector, place)
        }
        Expr::Update(count, vector, place, item) => {
            eval_update(alloc, core, bound, env, *count, vector, place, item)
        }
        Expr::If(test, yes, no) => match eval_below(alloc, core, bound, env, test)? {
            Outcome::Gives(value) => {
                if value.word() == 0 {
                    eval_below(alloc, core, bound, env, no)
                } else {
                    eval_below(alloc, core, bound, env, yes)
                }
            }
            Outcome::Raises(exn, carried) => Ok(Outcome::Raises(exn, carried)),
        },
        Expr::Case(part, _, arms) => eval_case(alloc, core, bound, env, part, arms.as_slice()),
        Expr::Let(part, body) => match eval_below(alloc, core, bound, env, part)? {
            Outcome::Gives(value) => {
                let mut inner = copy_values(alloc, env.as_slice())?;
                inner.push(value)?;
                eval_below(alloc, core, bound, &inner, body)
            }
            Outcome::Raises(exn, carried) => Ok(Outcome::Raises(exn, carried)),
        },
        Expr::Call(function, parts) => match eval_all(alloc, core, bound, env, parts.as_slice())? {
            Several::All(values) => call(alloc, core, bound, *function, values.as_slice()),
            Several::Raised(exn, carried) => Ok(Outcome::Raises(exn, carried)),
        },
        Expr::Raise(exn, None) => Ok(Outcome::Raises(*exn, None)),
        Expr::Raise(exn, Some(part)) => match eval_below(alloc, core, bound, env, part)? {
            Outcome::Gives(value) => Ok(Outcome::Raises(*exn, Some(value))),
            Outcome::Raises(other, carried) => Ok(Outcome::Raises(other, carried)),
        },
    }
}

#[cycle(evaluate)]
#[tactic(auto, using(crate::proofs::Evaluation::eval_steps))]
fn eval_index(
    alloc: Global,
    core: &Core,
    bound: usize,
    env: &List<Value>,
    count: u32,
    vector: &Expr,
    place: &Expr,
) -> Result<Outcome, AllocError>
    ensures { let meaning = eval_with (call_below core.now bound) in IfOk result (λ outcome. outcome
        ≡ and_then (meaning vector.now env.now) (λ v. and_then (meaning place.now env.now) (item_of count v))) }
{
    let vector = match eval_below(alloc, core, bound, env, vector)? {
        Outcome::Gives(vector) => vector,
        Outcome::Raises(exn, carried) => return Ok(Outcome::Raises(exn, carried)),
    };
    match eval_below(alloc, core, bound, env, place)? {
        Outcome::Gives(place) => item(alloc, count, &vector, &place),
        Outcome::Raises(exn, carried) => Ok(Outcome::Raises(exn, carried)),
    }
}

#[cycle(evaluate)]
#[tactic(auto, using(crate::proofs::Evaluation::eval_steps))]
fn eval_update(
    alloc: Global,
    core: &Core,
    bound: usize,
    env: &List<Value>,
    count: u32,
    vector: &Expr,
    place: &Expr,
    new_item: &Expr,
) -> Result<Outcome, AllocError>
    ensures { let meaning = eval_with (call_below core.now bound) in IfOk result (λ outcome. outcome
        ≡ and_then (meaning vector.now env.now) (λ v. and_then (meaning place.now env.now)
        (λ p. and_then (meaning new_item.now env.now) (updated count v p)))) }
{
    let vector = match eval_below(alloc, core, bound, env, vector)? {
        Outcome::Gives(vector) => vector,
        Outcome::Raises(exn, carried) => return Ok(Outcome::Raises(exn, carried)),
    };
    let place = match eval_below(alloc, core, bound, env, place)? {
        Outcome::Gives(place) => place,
        Outcome::Raises(exn, carried) => return Ok(Outcome::Raises(exn, carried)),
    };
    match eval_below(alloc, core, bound, env, new_item)? {
        Outcome::Gives(item) => changed(alloc, count, &vector, &place, item),
        Outcome::Raises(exn, carried) => Ok(Outcome::Raises(exn, carried)),
    }
}

#[cycle(evaluate)]
#[tactic(auto, using(crate::proofs::Evaluation::eval_steps))]
fn eval_case(
    alloc: Global,
    core: &Core,
    bound: usize,
    env: &List<Value>,
    part: &Expr,
    arms: &[(PatC, Expr)],
) -> Result<Outcome, AllocError>
    ensures { let meaning = eval_with (call_below core.now bound) in IfOk result (λ outcome. outcome
        ≡ and_then (meaning part.now env.now) (λ v. first_arm (map (arm_with meaning) arms.now) v env.now)) }
{
    match eval_below(alloc, core, bound, env, part)? {
        Outcome::Gives(value) => eval_arms(alloc, core, bound, env, arms, &value),
        Outcome::Raises(exn, carried) => Ok(Outcome::Raises(exn, carried)),
    }
}

// What parts come to, from left to right.
#[cycle(evaluate)]
#[tactic(auto, using(crate::proofs::Evaluation::eval_steps))]
fn eval_all(
    alloc: Global,
    core: &Core,
    bound: usize,
    env: &List<Value>,
    parts: &[Expr],
) -> Result<Several, AllocError>
    ensures { IfOk result (λ several. several ≡ in_order (map (eval_with (call_below core.now bound)) parts.now) env.now) }
{
    let mut values = List::new(alloc);
    for part in parts {
        match eval_below(alloc, core, bound, env, part)? {
            Outcome::Gives(value) => values.push(value)?,
            Outcome::Raises(exn, carried) => return Ok(Several::Raised(exn, carried)),
        }
    }
    Ok(Several::All(values))
}

// What the first alternative that matches comes to.
#[cycle(evaluate)]
#[tactic(auto, using(crate::proofs::Evaluation::eval_steps))]
fn eval_arms(
    alloc: Global,
    core: &Core,
    bound: usize,
    env: &List<Value>,
    arms: &[(PatC, Expr)],
    value: &Value,
) -> Result<Outcome, AllocError>
    ensures { IfOk result (λ outcome. outcome ≡ first_arm (map (arm_with (eval_with (call_below core.now bound))) arms.now) value.now env.now) }
{
    for arm in arms {
        if let Some(values) = matched(alloc, &arm.0, value)? {
            let mut inner = copy_values(alloc, env.as_slice())?;
            inner.append(values)?;
            return eval_below(alloc, core, bound, &inner, &arm.1);
        }
    }
    Ok(Outcome::Raises(NO_CASE, None))
}

#[cycle(evaluate)]
#[tactic(auto, using(crate::proofs::Evaluation::eval_steps))]
fn call(
    alloc: Global,
    core: &Core,
    bound: usize,
    function: u32,
    args: &[Value],
) -> Result<Outcome, AllocError>
    ensures { IfOk result (λ outcome. outcome ≡ call_below core.now bound function args.now) }
{
    let number = function as usize;
    if number >= bound {
        return Ok(Outcome::Raises(NO_CASE, None));
    }
    match core.funs.get(number) {
        None => Ok(Outcome::Raises(NO_CASE, None)),
        Some(function) => {
            eval_equations(alloc, core, number, function.equations.as_slice(), args)
        }
    }
}

// What the first equation that the arguments match gives.
#[cycle(evaluate)]
#[tactic(auto, using(crate::proofs::Evaluation::eval_steps))]
fn eval_equations(
    alloc: Global,
    core: &Core,
    bound: usize,
    equations: &[EqC],
    args: &[Value],
) -> Result<Outcome, AllocError>
    ensures { IfOk result (λ outcome. outcome ≡ first_equation (eval_with (call_below core.now bound)) equations.now args.now) }
{
    for equation in equations {
        if let Some(env) = all_matched(alloc, equation.pats.as_slice(), args)? {
            return eval_below(alloc, core, bound, &env, &equation.body);
        }
    }
    Ok(Outcome::Raises(NO_CASE, None))
}

fn variable_value(alloc: Global, env: &List<Value>, number: u32) -> Result<Value, AllocError>
    ensures { IfOk result (λ value. value ≡ variable (slice_get env.now number)) }
{
    match env.get(number as usize) {
        None => Ok(Value::Word(0)),
        Some(value) => copy_value(alloc, value),
    }
}
