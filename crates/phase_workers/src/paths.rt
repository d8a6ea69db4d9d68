//! What the half steps of a net go by.
ghost use Rattle.std.specs.Prelude.{◌+◌, ◌<◌, ◌≤◌, ◌^◌, IfOk, IfSome};
ghost use Rattle.hume_model.specs.WellFormed.{HasSoundFrame};
ghost use Rattle.hume_model.specs.declared.core_tree.Core.{Core as AnyCore};
ghost use Rattle.hume_net.specs.Plan.{IsPlan, plan_of};
ghost use Rattle.model_bare.specs.Bare.{bare_of};
ghost use Rattle.turn_locker.specs.Held.{items_of};
ghost use Rattle.turn_workers.specs.Divisions.{IsDivision};
ghost use Rattle.wiring_check.specs.Wires.{IsWiringOf};

use crate::policy::Policy;
use box_code::BoxProgram;
use box_step::nodes::BoxCell;
use hume_base::List;
use hume_model::Core;
use hume_net::find_plan;
use net_groups::{grouping_by, partition};
use std::alloc::{AllocError, Global};
use step_turns::Sides;
use turn_workers::Division;
use wiring_check::Wiring;

/// The sides of a net's nodes; and for several workers how the net is divided among them.
#[derive(Drop)]
pub(crate) struct Paths {
    pub sides: Sides,
    pub division: Option<Division>,
    // the division was given, so that it stays
    pub is_given: bool,
    pub policy: Policy,
}

impl Paths {
    ghost use Rattle.phase_workers.specs.inner.Going.{ArePaths};

    /// Those of a core's net that isn't divided.
    pub(crate) fn undivided(
        alloc: Global,
        core: &Core,
        wiring: &Wiring,
        programs: &List<BoxProgram>,
    ) -> Result<Paths, AllocError>
        requires frame { HasSoundFrame core.now }
        requires wiring { IsWiringOf core.now wiring.now }
        ensures { IfOk result (ArePaths (bare_of core.now)) }
    {
        let sides = Sides::make(alloc, core, wiring)?;
        let policy = Policy::find(alloc, core, programs)?;
        Ok(Paths {
            sides,
            division: None,
            is_given: false,
            policy,
        })
    }

    /// Divides the net for some workers, by what its cells ran, and gives their number. It takes memory; if there is none, the net isn't
    /// divided.
    pub(crate) fn choose_workers(
        &mut self,
        alloc: Global,
        core: &Core,
        nodes: &[BoxCell],
        steps: u32,
        most: u32,
    ) -> u32
        requires plan { IsPlan (plan_of core.now) × (items_of (plan_of core.now) + 2 ^ 18 < 2 ^ 32) }
        requires workers { most ≤ 2 ^ 16 }
        requires paths { ArePaths core.now self.old }
        ensures paths { ArePaths core.now self.new }
        ensures workers { result ≤ 2 ^ 16 }
    {
        self.look(nodes, most);
        let workers = self.policy.choose(alloc, core, steps, most);
        self.divide(alloc, core, workers);
        workers
    }

    /// Divides the net for so many workers by numbers that are given: a node's group is what its number leaves by `count`. It takes memory;
    /// if there is none, nothing changes.
    pub(crate) fn divide_by(
        &mut self,
        alloc: Global,
        core: &Core,
        numbers: &[u32],
        count: u32,
        workers: u32,
    ) -> Result<(), AllocError>
        requires plan { IsPlan (plan_of core.now) × (items_of (plan_of core.now) + 2 ^ 18 < 2 ^ 32) }
        requires count { (0 < count) × (count ≤ 2 ^ 16) }
        requires workers { (0 < workers) × (workers ≤ 2 ^ 16) }
        requires paths { ArePaths core.now self.old }
        ensures { ArePaths core.now self.new }
    {
        let plan = find_plan(alloc, core)?;
        let made = grouping_by(alloc, &plan, numbers, count, workers)?;
        let division = Division::make(alloc, plan, made.groups, made.first)?;
        self.division = Some(division);
        self.is_given = true;
        Ok(())
    }

    // A division by work that is known better now is forgotten.
    fn look(&mut self, nodes: &[BoxCell], most: u32)
        ensures { (core : AnyCore) → ArePaths core self.old → ArePaths core self.new }
    {
        if most > 1 && self.policy.look(nodes) && !self.is_given {
            self.division = None;
        }
    }

    // Divides the net for so many workers, unless it is divided for so many.
    fn divide(&mut self, alloc: Global, core: &Core, workers: u32)
        requires plan { IsPlan (plan_of core.now) × (items_of (plan_of core.now) + 2 ^ 18 < 2 ^ 32) }
        requires workers { workers ≤ 2 ^ 16 }
        requires paths { ArePaths core.now self.old }
        ensures { ArePaths core.now self.new }
    {
        if workers <= 1 {
            return;
        }
        if is_divided(&self.division, workers) {
            return;
        }
        self.divide_anew(alloc, core, workers);
    }

    fn divide_anew(&mut self, alloc: Global, core: &Core, workers: u32)
        requires plan { IsPlan (plan_of core.now) × (items_of (plan_of core.now) + 2 ^ 18 < 2 ^ 32) }
        requires workers { (0 < workers) × (workers ≤ 2 ^ 16) }
        requires paths { ArePaths core.now self.old }
        ensures { ArePaths core.now self.new }
    {
        self.division = find_division(alloc, core, &self.policy, workers);
    }
}

fn is_divided(division: &Option<Division>, workers: u32) -> bool {
    match division {
        Some(division) => division.first.len() == workers as usize,
        None => false,
    }
}

// The net divided for so many workers; none if there is no memory.
fn find_division(alloc: Global, core: &Core, policy: &Policy, workers: u32) -> Option<Division>
    requires plan { IsPlan (plan_of core.now) × (items_of (plan_of core.now) + 2 ^ 18 < 2 ^ 32) }
    requires workers { (0 < workers) × (workers ≤ 2 ^ 16) }
    ensures { IfSome result (λ division. IsDivision (plan_of core.now) division) }
{
    match try_division(alloc, core, policy.work.as_slice(), workers) {
        Ok(division) => Some(division),
        Err(_) => None,
    }
}

fn try_division(
    alloc: Global,
    core: &Core,
    work: &[u64],
    workers: u32,
) -> Result<Division, AllocError>
    requires plan { IsPlan (plan_of core.now) × (items_of (plan_of core.now) + 2 ^ 18 < 2 ^ 32) }
    requires workers { (0 < workers) × (workers ≤ 2 ^ 16) }
    ensures { IfOk result (λ division. IsDivision (plan_of core.now) division) }
{
    let plan = find_plan(alloc, core)?;
    let made = partition(alloc, &plan, work, workers)?;
    let division = Division::make(alloc, plan, made.groups, made.first)?;
    Ok(division)
}
