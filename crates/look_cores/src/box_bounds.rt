//! The bounds of functions, rules, handlers and boxes.
ghost use Rattle.hume_exceptions.specs.Sets.{IsRaisesOf};

use crate::bound::{Bound, above, both, either, objects, one_way, with_variables};
use crate::building::{builds, inputs_build};
use crate::expression_bounds::expression_bound;
use crate::pattern_counts::{all_tests, all_variables, variables};
use crate::result_bounds::result_bound;
use crate::slices;
use hume_exceptions::{Raises, raises, result_may_raise};
use hume_model::{BoxC, Core, EqC, HandC, InPat, NodeC, RuleC};
use std::alloc::{AllocError, Global};

/// What the bounds of boxes are worked out from.
#[derive(Drop)]
pub(crate) struct Ground {
    pub(crate) functions: Vec<Bound>,
    builds: Vec<u64>,
}

impl Ground {
    pub(crate) fn of(alloc: Global, core: &Core) -> Result<Ground, AllocError> {
        Ok(Ground {
            functions: function_bounds(alloc, core)?,
            builds: builds(alloc, &core.types)?,
        })
    }

    /// The bound of a handler by itself.
    pub(crate) fn handler(&self, handler: &HandC) -> Bound {
        let result = result_bound(self.functions.as_slice(), &handler.result);
        let variables = if handler.bound { 1 } else { 0 };
        above(1, with_variables(variables, 0, result))
    }

    /// The words of heap that build the inputs of a rule.
    pub(crate) fn inputs(&self, b: &BoxC, rule: &RuleC) -> u64 {
        inputs_build(
            self.builds.as_slice(),
            b.ins.as_slice(),
            rule.pats.as_slice(),
        )
    }

    /// The bound of a rule without its handlers.
    pub(crate) fn rule(&self, b: &BoxC, rule: &RuleC) -> Bound {
        let patterns = rule.pats.as_slice();
        let result = result_bound(self.functions.as_slice(), &rule.result);
        let result = above(
            built_count(patterns),
            with_variables(built_variables(patterns), 0, result),
        );
        both(objects(self.inputs(b, rule)), result)
    }
}

fn function_bounds(alloc: Global, core: &Core) -> Result<Vec<Bound>, AllocError> {
    let functions = slices::functions(core);
    let mut bounds = Vec::new(alloc);
    for i in 0..functions.len() {
        let bound = equations_bound(bounds.as_slice(), slices::equations(&functions[i]));
        bounds.push(bound)?;
    }
    Ok(bounds)
}

fn equations_bound(called: &[Bound], equations: &[EqC]) -> Bound {
    let mut tests: u64 = 0;
    let mut taken = Bound::nothing();
    for i in 0..equations.len() {
        tests = tests.saturating_add(all_tests(equations[i].pats.as_slice()));
        taken = either(taken, equation_bound(called, &equations[i]));
    }
    one_way(tests, taken)
}

/// The bound of an equation that is taken, without the tests before it.
pub(crate) fn equation_bound(called: &[Bound], equation: &EqC) -> Bound {
    let body = expression_bound(called, &equation.body);
    with_variables(all_variables(equation.pats.as_slice()), 1, body)
}

/// How many patterns build their inputs.
pub(crate) fn built_count(patterns: &[InPat]) -> u64 {
    let mut total: u64 = 0;
    for pattern in patterns {
        if let InPat::Built(_) = pattern {
            total = total.saturating_add(1);
        }
    }
    total
}

/// How many variables the patterns have.
pub(crate) fn built_variables(patterns: &[InPat]) -> u64 {
    let mut total: u64 = 0;
    for pattern in patterns {
        if let InPat::Built(built) = pattern {
            total = total.saturating_add(variables(built));
        }
    }
    total
}

/// The bounds of a rule's handlers: the dearest for what its result may raise.
fn handlers_bound(core: &Core, raised: &Raises, ground: &Ground, b: &BoxC, rule: &RuleC) -> Bound
    requires { IsRaisesOf core.now raised.now }
{
    let set = result_may_raise(core, raised, &rule.result);
    let handlers = slices::handlers(b);
    let mut bound = Bound::nothing();
    for i in 0..handlers.len() {
        let exn = handlers[i].exn;
        if exn < 64 && set.has(exn) {
            bound = either(bound, ground.handler(&handlers[i]));
        }
    }
    bound
}

/// The bound of each rule of a box, with its handlers.
pub(crate) fn rule_bounds(
    alloc: Global,
    core: &Core,
    raised: &Raises,
    ground: &Ground,
    b: &BoxC,
) -> Result<Vec<Bound>, AllocError>
    requires { IsRaisesOf core.now raised.now }
{
    let rules = slices::rules(b);
    let mut bounds = Vec::new(alloc);
    for i in 0..rules.len() {
        let handlers = handlers_bound(core, raised, ground, b, &rules[i]);
        bounds.push(both(ground.rule(b, &rules[i]), handlers))?;
    }
    Ok(bounds)
}

/// The greatest of the bounds, each measure by itself.
pub(crate) fn greatest(bounds: &[Bound]) -> Bound {
    let mut most = Bound::nothing();
    for bound in bounds {
        most = either(most, *bound);
    }
    most
}

/// The bound of each node of the core; of a stream it is nothing.
pub(crate) fn node_bounds(alloc: Global, core: &Core) -> Result<Vec<Bound>, AllocError> {
    let raised = raises(alloc, core)?;
    let ground = Ground::of(alloc, core)?;
    let mut bounds = Vec::new(alloc);
    add_node_bounds(alloc, core, &raised, &ground, &mut bounds)?;
    Ok(bounds)
}

fn add_node_bounds(
    alloc: Global,
    core: &Core,
    raised: &Raises,
    ground: &Ground,
    bounds: &mut Vec<Bound>,
) -> Result<(), AllocError>
    requires { IsRaisesOf core.now raised.now }
{
    let nodes = slices::nodes(core);
    for n in 0..nodes.len() {
        bounds.push(node_bound(alloc, core, raised, ground, &nodes[n])?)?;
    }
    Ok(())
}

fn node_bound(
    alloc: Global,
    core: &Core,
    raised: &Raises,
    ground: &Ground,
    node: &NodeC,
) -> Result<Bound, AllocError>
    requires { IsRaisesOf core.now raised.now }
{
    match node {
        NodeC::Rules(b) => {
            let bounds = rule_bounds(alloc, core, raised, ground, b)?;
            Ok(greatest(bounds.as_slice()))
        }
        _ => Ok(Bound::nothing()),
    }
}
