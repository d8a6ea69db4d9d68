//! The costs of a core's nodes.
ghost use Rattle.std.specs.Prelude.{◌≡◌, IfOk, All};
ghost use Rattle.hume_model.specs.WellFormed.{HasSoundFrame};
ghost use Rattle.hume_exceptions.specs.Sets.{IsRaisesOf};
ghost use Rattle.box_costs.specs.CostRules.{node_bound};
ghost use Rattle.space_costs.specs.inner.Standing.{IsCostOf, AreFunctionCosts, AreTypeBuilds, AreNodeCosts, HasKnownHandlers};

use crate::boxes::box_cost;
use crate::builds::builds;
use crate::combine::nothing;
use crate::functions::function_costs;
use box_costs::Cost;
use hume_base::List;
use hume_exceptions::Raises;
use hume_model::{Core, NodeC};
use std::alloc::{AllocError, Global};

/// The cost of each node of the core, in the order of their numbers.
pub(crate) fn node_costs(
    alloc: Global,
    core: &Core,
    raises: &Raises,
) -> Result<List<Cost>, AllocError>
    requires frame { HasSoundFrame core.now }
    requires raises { IsRaisesOf core.now raises.now }
    ensures { IfOk result (AreNodeCosts core.now core.now.nodes) }
{
    let functions = function_costs(alloc, core)?;
    let builds = builds(alloc, &core.types)?;
    let mut costs = List::new(alloc);
    for node in core.nodes.as_slice() {
        costs.push(node_cost(core, raises, functions.as_slice(), builds.as_slice(), node))?;
    }
    Ok(costs)
}

fn node_cost(core: &Core, raises: &Raises, functions: &[Cost], builds: &[u32], node: &NodeC) -> Cost
    requires raises { IsRaisesOf core.now raises.now }
    requires functions { AreFunctionCosts core.now functions.now }
    requires builds { AreTypeBuilds core.now.types builds.now }
    requires handlers { HasKnownHandlers node.now }
    ensures { IsCostOf result (node_bound core.now node.now) }
{
    match node {
        NodeC::Rules(b) => box_cost(core, raises, functions, builds, b),
        _ => nothing(),
    }
}
