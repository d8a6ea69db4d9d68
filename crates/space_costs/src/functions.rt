//! The costs of functions, one after another.
ghost use Rattle.std.specs.Prelude.{◌≡◌, ◌+◌, ◌*◌, ℕ, IfOk, Some, map};
ghost use Rattle.hume_model.specs.declared.core_tree.EqC.{EqC as Equation};
ghost use Rattle.box_costs.specs.declared.cost.Cost.{Cost as AnyCost};
ghost use Rattle.box_costs.specs.Costs.{one_way as one_way_of};
ghost use Rattle.box_costs.specs.Bounds.{bound_with, equation_way};
ghost use Rattle.space_costs.specs.inner.Standing.{IsCostOf, AreCostsOf, AreFunctionCosts};

use crate::combine::{either, nothing, one_way, sum, with_variables};
use crate::expressions::expression_cost;
use crate::patterns::{all_tests, all_variables};
use box_costs::Cost;
use hume_base::List;
use hume_model::{Core, EqC};
use std::alloc::{AllocError, Global};

/// The cost of each function of the core, counted once for each in the order of their numbers.
pub(crate) fn function_costs(alloc: Global, core: &Core) -> Result<List<Cost>, AllocError>
    ensures { IfOk result (AreFunctionCosts core.now) }
{
    let mut costs = List::new(alloc);
    for function in core.funs.as_slice() {
        costs.push(equations_cost(costs.as_slice(), function.equations.as_slice()))?;
    }
    Ok(costs)
}

fn equations_cost(called: &[Cost], equations: &[EqC]) -> Cost
    ensures { (bounds : ℕ → AnyCost) → AreCostsOf called.now bounds
        → IsCostOf result (one_way_of (map (equation_way (bound_with bounds)) equations.now)) }
{
    let mut tests = 0;
    let mut taken = nothing();
    for i in (0..equations.len()).rev() {
        let equation = &equations[i];
        let pats = equation.pats.as_slice();
        tests = sum(all_tests(pats), tests);
        let body = expression_cost(called, &equation.body);
        taken = either(with_variables(all_variables(pats), 1, body), taken);
    }
    one_way(tests, taken)
}
