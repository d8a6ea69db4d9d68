//! The union of accepted programs.
ghost use Rattle.std.specs.Prelude.{◌≡◌, ◌≤◌, ◌<◌, ◌+◌, ◌^◌, ◌⊎◌, ℕ, All, length, map, IfErr, IfOk, IsErrOf, None, OnOk};
ghost use Rattle.hume_base.specs.Least.{IsLeast};
ghost use Rattle.hume_model.specs.WellFormed.{HasSoundFrame};
ghost use Rattle.hume_model.specs.WireRules.{BreaksWires};
ghost use Rattle.box_costs.specs.CostRules.{BreaksCosts};
ghost use Rattle.space_costs.specs.NodeCosts.{AreCosts};
ghost use Rattle.wiring_check.specs.Wires.{IsWiringOf};
ghost use Rattle.net_union.specs.declared.uniting.UniteError.TheVariants as why;
ghost use Rattle.union_laws.specs.Union.{followed_by, united};
ghost use Rattle.union_front.specs.Unions.{IsInLimits, IsSound, IsSoundProgram, IsUnion, PassesAt, StaysWithin, core_of, first_of, others_of};

use crate::union::{Union, UnionError};
use hume_exceptions::raises;
use hume_front::Accepted;
use hume_model::Core;
use net_union::{UniteError, unite};
use space_costs::{CostError, Costs, costs};
use std::alloc::Global;
use wiring_check::{WireError, Wiring, check_wires};

/// The union of the programs, if it is within the limits with each of them.
pub fn unite_all(alloc: Global, programs: &[Accepted]) -> Result<Union, UnionError>
    requires several { 2 ≤ length programs.now }
    requires few { length programs.now < 2 ^ 31 }
    requires sound { All IsSoundProgram programs.now }
    ensures union { IfOk result (λ union. IsUnion (followed_by (first_of programs.now) (others_of programs.now)) union) }
    ensures within { OnOk result (StaysWithin (first_of programs.now) (others_of programs.now)) }
    ensures passes { (place : ℕ) → IsErrOf result (UnionError.OverLimit place)
        → PassesAt (first_of programs.now) (others_of programs.now) 2 place }
{
    let Some((first, later)) = programs.split_first() else {
        unreachable!()
    };
    unite_behind(alloc, &first.core, later, 2)
}

// The union of a core and the programs, of which the first one has that place.
#[cycle(unite_behind)]
fn unite_behind(
    alloc: Global,
    core: &Core,
    programs: &[Accepted],
    place: u32,
) -> Result<Union, UnionError>
    requires several { 1 ≤ length programs.now }
    requires few { place + length programs.now < 2 ^ 32 }
    requires core { IsSound core.now }
    requires sound { All IsSoundProgram programs.now }
    ensures union { IfOk result (λ union. IsUnion (followed_by core.now (map core_of programs.now)) union) }
    ensures within { OnOk result (StaysWithin core.now (map core_of programs.now)) }
    ensures passes { (at : ℕ) → IsErrOf result (UnionError.OverLimit at) → PassesAt core.now (map core_of programs.now) place at }
{
    let Some((next, later)) = programs.split_first() else {
        unreachable!()
    };
    let union = match unite_next(alloc, core, &next.core) {
        Ok(union) => union,
        Err(UniteError::OverLimit) => return Err(UnionError::OverLimit(place)),
        Err(UniteError::NoMemory) => return Err(UnionError::NoMemory),
    };
    if later.is_empty() {
        return Ok(union);
    }
    unite_behind(alloc, &union.core, later, place + 1)
}

// The union of two cores, if it is within the limits.
fn unite_next(alloc: Global, a: &Core, b: &Core) -> Result<Union, UniteError>
    requires first { IsSound a.now }
    requires second { IsSound b.now }
    ensures union { IfOk result (IsUnion (united a.now b.now)) }
    ensures refused { IfErr result (λ error. ((error ≡ why.OverLimit) × (IsInLimits (united a.now b.now) → ⊥)) ⊎ (error ≡ why.NoMemory)) }
{
    let core = unite(alloc, a, b)?;
    let wiring = wiring_of(alloc, &core)?;
    let costs = match bounds_of(alloc, &core) {
        Ok(costs) => costs,
        Err(error) => return Err(error),
    };
    Ok(Union {
        core,
        wiring,
        costs,
    })
}

// The wires of its inputs and outputs.
fn wiring_of(alloc: Global, core: &Core) -> Result<Wiring, UniteError>
    requires frame { HasSoundFrame core.now }
    requires fine { IsLeast (BreaksWires core.now) None }
    ensures wiring { IfOk result (IsWiringOf core.now) }
    ensures memory { IfErr result (λ error. error ≡ why.NoMemory) }
{
    match check_wires(alloc, core) {
        Ok(wiring) => Ok(wiring),
        Err(WireError::Refused(_)) => unreachable!(),
        Err(WireError::NoMemory) => Err(UniteError::NoMemory),
    }
}

// Its bounds, if they are within the limits.
fn bounds_of(alloc: Global, core: &Core) -> Result<Costs, UniteError>
    requires frame { HasSoundFrame core.now }
    ensures costs { IfOk result (AreCosts core.now) }
    ensures fine { OnOk result (IsLeast (BreaksCosts core.now) None) }
    ensures refused { IfErr result (λ error. ((error ≡ why.OverLimit) × (IsLeast (BreaksCosts core.now) None → ⊥)) ⊎ (error ≡ why.NoMemory)) }
{
    let raised = raises(alloc, core)?;
    match costs(alloc, core, &raised) {
        Ok(costs) => Ok(costs),
        Err(CostError::Refused(_)) => Err(UniteError::OverLimit),
        Err(CostError::NoMemory) => Err(UniteError::NoMemory),
    }
}
