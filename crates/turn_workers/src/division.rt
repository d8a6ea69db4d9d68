//! How a net is divided among workers.
ghost use Rattle.std.specs.Prelude.{◌+◌, ◌<◌, ◌^◌, IfOk};
ghost use Rattle.hume_net.specs.Plan.{IsPlan, wires_of};
ghost use Rattle.superstep_core.specs.Groups.{IsGrouping, quotient};
ghost use Rattle.turn_workers.specs.Ways.{AreWays};

use crate::ways::Ways;
use hume_base::List;
use hume_net::Plan;
use std::alloc::{AllocError, Global};
use superstep_core::Grouping;

/// A plan, groups of its nodes, and the sides of the groups. The share of a worker begins at its number in `first`, and ends where that of
/// the next one begins.
#[derive(Drop)]
pub struct Division {
    pub plan: Plan,
    pub groups: Grouping,
    pub ways: Ways,
    pub first: List<u32>,
}

impl Division {
    ghost use Rattle.turn_workers.specs.Divisions.{IsDivision};

    /// The division of a plan into groups. It takes memory.
    pub fn make(
        alloc: Global,
        plan: Plan,
        groups: Grouping,
        first: List<u32>,
    ) -> Result<Division, AllocError>
        requires plan { IsPlan plan × (wires_of plan < 2 ^ 32) }
        requires groups { IsGrouping plan groups × (groups.count + wires_of plan < 2 ^ 32) }
        ensures { IfOk result (λ division. IsDivision plan division) }
    {
        let ways = group_ways(alloc, &plan, &groups)?;
        Ok(Division {
            plan,
            groups,
            ways,
            first,
        })
    }
}

// The sides of the groups of a plan.
fn group_ways(alloc: Global, plan: &Plan, groups: &Grouping) -> Result<Ways, AllocError>
    requires plan { IsPlan plan.now × (wires_of plan.now < 2 ^ 32) }
    requires groups { IsGrouping plan.now groups.now × (groups.now.count + wires_of plan.now < 2 ^ 32) }
    ensures { IfOk result (λ ways. AreWays (quotient plan.now groups.now) ways) }
{
    let quotient = groups.quotient(alloc, plan)?;
    Ways::make(alloc, &quotient)
}
