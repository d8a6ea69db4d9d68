//! Groups of nodes, and the plan of the groups.
ghost use Rattle.std.specs.Prelude.{◌≡◌, ◌+◌, ◌<◌, ◌^◌, ℕ, IfOk, OnOk, Some, length, map, slice_get, slice_index};
ghost use Rattle.hume_net.specs.Plan.{IsPlan, wires_of};
ghost use Rattle.superstep_core.specs.inner.Crossings.{AreCrossing};

use hume_base::List;
use hume_net::Plan;
use std::alloc::{AllocError, Global};

/// The group of each node, the number of groups, and the numbers of the wires between different groups. A group may be empty.
#[derive(Drop)]
pub struct Grouping {
    pub group: List<u32>,
    pub count: u32,
    pub crossing: List<u32>,
}

impl Grouping {
    ghost use Rattle.superstep_core.specs.Groups.{IsGrouping, quotient};

    /// The grouping of a plan in which each node has the given group, out of `count` groups.
    pub fn of(
        alloc: Global,
        plan: &Plan,
        group: List<u32>,
        count: u32,
    ) -> Result<Grouping, AllocError>
        requires plan { IsPlan plan.now × (wires_of plan.now < 2 ^ 32) }
        requires long { length group ≡ plan.now.nodes }
        requires groups { (n : ℕ) → n < plan.now.nodes → slice_index group n < count }
        ensures grouping { IfOk result (λ g. IsGrouping plan.now g) }
        ensures as_given { IfOk result (λ g. (g.group ≡ group) × (g.count ≡ count)) }
    {
        let crossing = find_crossing(alloc, plan, &group)?;
        Ok(Grouping {
            group,
            count,
            crossing,
        })
    }

    /// The plan whose nodes are the groups.
    pub fn quotient(&self, alloc: Global, plan: &Plan) -> Result<Plan, AllocError>
        requires plan { IsPlan plan.now }
        requires grouping { IsGrouping plan.now self.now }
        ensures { IfOk result (λ q. q ≡ quotient plan.now self.now) }
    {
        let producer = groups_of(
            alloc,
            self.crossing.as_slice(),
            plan.producer.as_slice(),
            self.group.as_slice(),
        )?;
        let consumer = groups_of(
            alloc,
            self.crossing.as_slice(),
            plan.consumer.as_slice(),
            self.group.as_slice(),
        )?;
        Ok(Plan {
            nodes: self.count,
            producer,
            consumer,
        })
    }
}

// The group of one end of each crossing wire.
fn groups_of(
    alloc: Global,
    crossing: &[u32],
    ends: &[u32],
    group: &[u32],
) -> Result<List<u32>, AllocError>
    requires crossing { (place w : ℕ) → slice_get crossing.now place ≡ Some w → w < length ends.now }
    requires ends { (w : ℕ) → w < length ends.now → slice_index ends.now w < length group.now }
    ensures { IfOk result (λ groups. groups ≡ map (λ w. slice_index group.now (slice_index ends.now w)) crossing.now) }
{
    let mut groups = List::new(alloc);
    for w in crossing {
        groups.push(group[ends[*w as usize] as usize])?;
    }
    Ok(groups)
}

// The numbers of the wires whose ends lie in different groups.
fn find_crossing(alloc: Global, plan: &Plan, group: &List<u32>) -> Result<List<u32>, AllocError>
    requires plan { IsPlan plan.now × (wires_of plan.now < 2 ^ 32) }
    requires long { length group.now ≡ plan.now.nodes }
    ensures { IfOk result (λ crossing. AreCrossing plan.now group.now (wires_of plan.now) crossing) }
{
    let mut crossing = List::new(alloc);
    for w in 0..plan.producer.len() {
        add_if_crossing(plan, group, w, &mut crossing)?;
    }
    Ok(crossing)
}

fn add_if_crossing(
    plan: &Plan,
    group: &List<u32>,
    w: usize,
    crossing: &mut List<u32>,
) -> Result<(), AllocError>
    requires plan { IsPlan plan.now × (w < wires_of plan.now) × (wires_of plan.now < 2 ^ 32) }
    requires long { length group.now ≡ plan.now.nodes }
    requires so_far { AreCrossing plan.now group.now w crossing.old }
    ensures { OnOk result (AreCrossing plan.now group.now (w + 1) crossing.new) }
{
    if group[plan.producer[w] as usize] == group[plan.consumer[w] as usize] {
        return Ok(());
    }
    crossing.push(w as u32)?;
    Ok(())
}
