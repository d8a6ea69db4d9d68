//! The half steps of the nodes of a group.
ghost use Rattle.std.specs.Prelude.{◌≡◌, ◌+◌, ◌*◌, ◌<◌, ◌^◌, ℕ, length, Some, slice_get};
ghost use Rattle.hume_model.specs.declared.core_tree.Core.{Core as AnyCore};
ghost use Rattle.hume_net.specs.Plan.{plan_of};
ghost use Rattle.box_step.specs.nodes.Openings.{Opening, IsOpeningOf};
ghost use Rattle.step_turns.specs.Rounds.{AreSides, HaveSpan, IsWholeSide};
ghost use Rattle.turn_workers.specs.Members.{numbers_of};
ghost use Rattle.turn_workers.specs.inner.Halves.{IsMidway};

use crate::cells::Group;
use crate::items::Opens;
use box_step::nodes::BoxCell;
use hume_base::List;
use hume_model::Core;
use step_turns::{Gate, Sides, turn};
use wire_cells::WireCell;

/// Makes the half step of each member of a group whose side is at home, each execute step behind the gate.
pub(crate) fn step_group<O: Opens, G: Gate>(core: &Core, sides: &Sides, gate: &G, group: &mut Group)
    requires time { (group.old.time < 2 * O.steps) × (O.steps < 2 ^ 32) }
    requires opens { (opening : Opening) → O.opened opening → IsOpeningOf core.now opening }
    requires some { (opening : Opening) × O.opened opening × HaveSpan opening O.steps }
    requires plan { O.plan ≡ plan_of core.now }
    requires sides { (room : ℕ) × AreSides core.now room sides.now }
    requires ready { IsMidway O.opened O.plan group.old.time 0 (numbers_of group.old.members.items) group.old.members.items group.old.home.items }
    ensures number { group.new.number ≡ group.old.number }
    ensures time { group.new.time ≡ group.old.time + 1 }
    ensures made { IsMidway O.opened O.plan group.old.time (length group.old.members.items) (numbers_of group.old.members.items) group.new.members.items
        group.new.home.items }
    ensures long { (length group.new.members.items ≡ length group.old.members.items) × (length group.new.home.items ≡ length group.old.home.items) }
{
    let time = group.time;
    step_members::<O, G>(
        core,
        sides,
        gate,
        time,
        group.members.as_mut_slice(),
        group.home.as_mut_slice(),
    );
    group.time = time + 1;
}

fn step_members<O: Opens, G: Gate>(
    core: &Core,
    sides: &Sides,
    gate: &G,
    time: u64,
    members: &mut [BoxCell],
    home: &mut [Option<WireCell>],
)
    requires time { (time < 2 * O.steps) × (O.steps < 2 ^ 32) }
    requires opens { (opening : Opening) → O.opened opening → IsOpeningOf core.now opening }
    requires some { (opening : Opening) × O.opened opening × HaveSpan opening O.steps }
    requires plan { O.plan ≡ plan_of core.now }
    requires sides { (room : ℕ) × AreSides core.now room sides.now }
    requires ready { IsMidway O.opened O.plan time 0 (numbers_of members.old) members.old home.old }
    ensures made { IsMidway O.opened O.plan time (length members.old) (numbers_of members.old) members.new home.new }
    ensures long { (length members.new ≡ length members.old) × (length home.new ≡ length home.old) }
{
    for k in 0..members.len() {
        step_member::<O, G>(core, sides, gate, time, k, members, home);
    }
}

// The member at a place makes its half step.
fn step_member<O: Opens, G: Gate>(
    core: &Core,
    sides: &Sides,
    gate: &G,
    time: u64,
    k: usize,
    members: &mut [BoxCell],
    home: &mut [Option<WireCell>],
)
    requires time { (time < 2 * O.steps) × (O.steps < 2 ^ 32) }
    requires inside { k < length members.old }
    requires opens { (opening : Opening) → O.opened opening → IsOpeningOf core.now opening }
    requires some { (opening : Opening) × O.opened opening × HaveSpan opening O.steps }
    requires plan { O.plan ≡ plan_of core.now }
    requires sides { (room : ℕ) × AreSides core.now room sides.now }
    requires midway { IsMidway O.opened O.plan time k (numbers_of members.old) members.old home.old }
    ensures midway { IsMidway O.opened O.plan time (k + 1) (numbers_of members.old) members.new home.new }
    ensures long { (length members.new ≡ length members.old) × (length home.new ≡ length home.old) }
{
    let node = members[k].number();
    let side = side_of(sides, node as usize, time);
    turn(core, side, gate, &mut members[k], home);
}

// The wires of a node's side at a time.
fn side_of(sides: &Sides, n: usize, time: u64) -> &[u32]
    requires { (core : AnyCore) × (room : ℕ) × AreSides core room sides.now × (n < length core.nodes) }
    ensures { (core : AnyCore) (room : ℕ) → AreSides core room sides.now → n < length core.nodes → IsWholeSide core n time room result.now }
{
    if time % 2 == 0 {
        row_of(&sides.inputs, n)
    } else {
        row_of(&sides.outputs, n)
    }
}

fn row_of(rows: &List<List<u32>>, n: usize) -> &[u32]
    requires { n < length rows.now }
    ensures { slice_get rows.now n ≡ Some result.now }
{
    rows[n].as_slice()
}
