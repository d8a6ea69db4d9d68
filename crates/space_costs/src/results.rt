//! The costs of results, by those of functions.
ghost use Rattle.std.specs.Prelude.{◌≡◌, ◌+◌, ◌*◌, map};
ghost use Rattle.std.specs.Option.{option_map};
ghost use Rattle.hume_model.specs.declared.core_tree.PatC.{PatC as Pattern};
ghost use Rattle.hume_model.specs.declared.core_tree.Res.{Res as TheResult};
ghost use Rattle.box_costs.specs.declared.cost.Cost.{Cost as AnyCost};
ghost use Rattle.box_costs.specs.Costs.{in_order, one_way as one_way_of};
ghost use Rattle.box_costs.specs.Bounds.{arm_way, expression_bound, given_outs, raise_bound, result_bound};
ghost use Rattle.space_costs.specs.inner.Standing.{IsCostOf, AreFunctionCosts, with_first};

use crate::combine::{
    before, both, either, instructions, nothing, one_way, pushed, sum, with_variables,
};
use crate::expressions::expression_cost;
use crate::patterns::{tests, variables};
use box_costs::Cost;
use hume_model::{Core, Expr, PatC, Res};

#[cycle(result)]
pub(crate) fn result_cost(core: &Core, functions: &[Cost], res: &Res) -> Cost
    requires { AreFunctionCosts core.now functions.now }
    ensures { IsCostOf result (result_bound core.now res.now) }
{
    match res {
        Res::Outs(outs) => both(outs_cost(core, functions, outs.as_slice()), instructions(1)),
        Res::If(test, when_true, when_false) => {
            let test = part_cost(core, functions, test);
            let when_true = result_cost(core, functions, when_true);
            let when_false = result_cost(core, functions, when_false);
            both(test, both(instructions(1), either(when_true, when_false)))
        }
        Res::Case(part, _, arms) => {
            let part = part_cost(core, functions, part);
            before(part, arms_cost(core, functions, arms.as_slice()))
        }
        Res::Let(part, body) => {
            let part = part_cost(core, functions, part);
            before(part, result_cost(core, functions, body))
        }
        Res::Raise(_, part) => raise_cost(core, functions, part),
    }
}

#[cycle(result)]
fn arms_cost(core: &Core, functions: &[Cost], arms: &[(PatC, Res)]) -> Cost
    requires { AreFunctionCosts core.now functions.now }
    ensures { IsCostOf result (one_way_of (map (λ (arm : Pattern × TheResult). arm_way 0 (arm.0, result_bound core.now arm.1)) arms.now)) }
{
    let mut all_tests = 0;
    let mut taken = nothing();
    for i in (0..arms.len()).rev() {
        let arm = &arms[i];
        all_tests = sum(tests(&arm.0), all_tests);
        let branch = result_cost(core, functions, &arm.1);
        taken = either(with_variables(variables(&arm.0), 0, branch), taken);
    }
    one_way(all_tests, taken)
}

fn part_cost(core: &Core, functions: &[Cost], e: &Expr) -> Cost
    requires { AreFunctionCosts core.now functions.now }
    ensures { IsCostOf result (expression_bound core.now e.now) }
{
    expression_cost(functions, e)
}

/// The outputs that are there, each above the words of those before it.
fn outs_cost(core: &Core, functions: &[Cost], outs: &[Option<Expr>]) -> Cost
    requires { AreFunctionCosts core.now functions.now }
    ensures { IsCostOf result (in_order (map (expression_bound core.now) (given_outs outs.now))) }
{
    let mut cost = nothing();
    for i in (0..outs.len()).rev() {
        cost = with_out(core, functions, &outs[i], cost);
    }
    cost
}

fn with_out(core: &Core, functions: &[Cost], out: &Option<Expr>, others: Cost) -> Cost
    requires { AreFunctionCosts core.now functions.now }
    ensures { (a : AnyCost) → IsCostOf others a → IsCostOf result (with_first (option_map (expression_bound core.now) out.now) a) }
{
    match out {
        None => others,
        Some(e) => before(part_cost(core, functions, e), others),
    }
}

fn raise_cost(core: &Core, functions: &[Cost], part: &Option<Expr>) -> Cost
    requires { AreFunctionCosts core.now functions.now }
    ensures { IsCostOf result (raise_bound (option_map (expression_bound core.now) part.now)) }
{
    match part {
        None => both(pushed(), instructions(1)),
        Some(e) => both(part_cost(core, functions, e), instructions(1)),
    }
}
