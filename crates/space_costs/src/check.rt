//! The bounds of a core's boxes, if they keep the limits.
ghost use Rattle.std.specs.Prelude.{◌≡◌, IfOk, IfErr, OnOk, None, Some};
ghost use Rattle.hume_base.specs.Least.{IsLeast};
ghost use Rattle.hume_model.specs.Declarations.{IsRefusal};
ghost use Rattle.hume_model.specs.WellFormed.{HasSoundFrame};
ghost use Rattle.hume_exceptions.specs.Sets.{IsRaisesOf};
ghost use Rattle.box_costs.specs.CostRules.{BreaksCosts};
ghost use Rattle.space_costs.specs.NodeCosts.{AreCosts, IsCostError};
ghost use Rattle.space_costs.specs.inner.Standing.{AreNodeCosts};

use crate::findings::least_broken;
use crate::node_costs::Costs;
use crate::nodes::node_costs;
use hume_base::{Finding, Refusal};
use hume_exceptions::Raises;
use hume_model::{Core, declared_line};
use std::alloc::{AllocError, Global};
use thiserror::Error;

/// Why a core has no costs.
#[derive(Debug, Drop, PartialEq, Eq, Error)]
pub enum CostError {
    /// The least rule that its bounds break.
    #[error("the bounds break a rule")]
    Refused(Refusal),
    #[error("out of memory")]
    NoMemory,
}

impl From<AllocError> for CostError {
    ghost use Rattle.space_costs.specs.declared.check.CostError.TheVariants.{NoMemory};

    ghost from_gives = { λ _ error. error ≡ NoMemory };

    fn from(_: AllocError) -> Self {
        CostError::NoMemory
    }
}

/// The bounds of the core's boxes, if each of them and their sum are within the limits.
pub fn costs(alloc: Global, core: &Core, raises: &Raises) -> Result<Costs, CostError>
    requires frame { HasSoundFrame core.now }
    requires raises { IsRaisesOf core.now raises.now }
    ensures costs { IfOk result (AreCosts core.now) }
    ensures fine { OnOk result (IsLeast (BreaksCosts core.now) None) }
    ensures refused { IfErr result (IsCostError core.now) }
{
    let costs = node_costs(alloc, core, raises)?;
    match least_broken(core, costs.as_slice()) {
        Some(finding) => Err(CostError::Refused(refusal(core, finding))),
        None => Ok(Costs::of(costs)),
    }
}

fn refusal(core: &Core, finding: Finding) -> Refusal
    requires { IsLeast (BreaksCosts core.now) (Some finding) }
    ensures { IsRefusal core.now (BreaksCosts core.now) result }
{
    Refusal {
        rule: finding.rule,
        line: declared_line(core, finding.declaration),
    }
}
