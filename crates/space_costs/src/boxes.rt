//! The costs of rules, handlers and boxes.
ghost use Rattle.std.specs.Prelude.{◌≡◌, ◌+◌, ◌*◌, All, if◌then◌else◌, map};
ghost use Rattle.hume_exceptions.specs.Sets.{IsRaisesOf, has};
ghost use Rattle.box_costs.specs.Costs.{nothing as no_cost, any_of};
ghost use Rattle.box_costs.specs.Bounds.{handler_bound, handler_variables, handler_if_raised, rule_bound, box_bound};
ghost use Rattle.space_costs.specs.inner.Standing.{IsCostOf, AreFunctionCosts, AreTypeBuilds, IsKnownHandler};

use crate::combine::{above, both, either, nothing, objects, with_variables};
use crate::positions::{built_count, inputs_build, positions_variables};
use crate::results::result_cost;
use box_costs::Cost;
use hume_exceptions::{ExnSet, Raises, result_may_raise};
use hume_model::{BoxC, Core, HandC, Res, RuleC};

/// The cost of a box: that of the dearest rule, each part by itself.
pub(crate) fn box_cost(
    core: &Core,
    raises: &Raises,
    functions: &[Cost],
    builds: &[u32],
    b: &BoxC,
) -> Cost
    requires raises { IsRaisesOf core.now raises.now }
    requires functions { AreFunctionCosts core.now functions.now }
    requires builds { AreTypeBuilds core.now.types builds.now }
    requires handlers { All IsKnownHandler b.now.handlers }
    ensures { IsCostOf result (box_bound core.now b.now) }
{
    let rules = b.rules.as_slice();
    let mut cost = nothing();
    for i in (0..rules.len()).rev() {
        cost = either(
            rule_cost(core, raises, functions, builds, b, &rules[i]),
            cost,
        );
    }
    cost
}

fn rule_cost(
    core: &Core,
    raises: &Raises,
    functions: &[Cost],
    builds: &[u32],
    b: &BoxC,
    rule: &RuleC,
) -> Cost
    requires raises { IsRaisesOf core.now raises.now }
    requires functions { AreFunctionCosts core.now functions.now }
    requires builds { AreTypeBuilds core.now.types builds.now }
    requires handlers { All IsKnownHandler b.now.handlers }
    ensures { IsCostOf result (rule_bound core.now b.now rule.now) }
{
    let pats = rule.pats.as_slice();
    let result = result_cost(core, functions, &rule.result);
    let result = above(
        built_count(pats),
        with_variables(positions_variables(pats), 0, result),
    );
    let inputs = objects(inputs_build(&core.types, builds, b.ins.as_slice(), pats));
    let handlers = handlers_cost(core, raises, functions, &rule.result, b.handlers.as_slice());
    both(both(inputs, result), handlers)
}

/// The cost of the dearest handler for what the result may raise.
fn handlers_cost(
    core: &Core,
    raises: &Raises,
    functions: &[Cost],
    outcome: &Res,
    handlers: &[HandC],
) -> Cost
    requires raises { IsRaisesOf core.now raises.now }
    requires functions { AreFunctionCosts core.now functions.now }
    requires handlers { All IsKnownHandler handlers.now }
    ensures { IsCostOf result (any_of (map (handler_if_raised core.now outcome.now) handlers.now)) }
{
    let raised = result_may_raise(core, raises, outcome);
    let mut cost = nothing();
    for i in (0..handlers.len()).rev() {
        cost = either(handler_cost(core, functions, raised, &handlers[i]), cost);
    }
    cost
}

/// The cost of a handler, if its exception is raised.
fn handler_cost(core: &Core, functions: &[Cost], raised: ExnSet, handler: &HandC) -> Cost
    requires functions { AreFunctionCosts core.now functions.now }
    requires known { IsKnownHandler handler.now }
    ensures { IsCostOf result (if has raised handler.now.exn then handler_bound core.now handler.now else no_cost) }
{
    if raised.has(handler.exn) {
        let result = result_cost(core, functions, &handler.result);
        above(1, with_variables(variables(handler), 0, result))
    } else {
        nothing()
    }
}

/// How many variables the handler has.
fn variables(handler: &HandC) -> u32
    ensures { result ≡ handler_variables handler.now }
{
    if handler.bound { 1 } else { 0 }
}
