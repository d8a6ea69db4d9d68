//! The cells of inner wires go into the homes of their groups.
ghost use Rattle.std.specs.Prelude.{◌≡◌, ◌+◌, ◌<◌, ℕ, List, length, None, Option, Some, slice_get, slice_set, vec_capacity, vec_len};
ghost use Rattle.hume_net.specs.Plan.{IsPlan, wires_of};
ghost use Rattle.wire_cells.specs.Cells.{CellView};
ghost use Rattle.turn_workers.specs.declared.cells.Group.{Group as AnyGroup};
ghost use Rattle.turn_workers.specs.inner.Gathered.{AreGroups, AreStowed};

use crate::cells::Group;
use hume_net::Plan;
use superstep_core::Grouping;
use wire_cells::WireCell;

/// Moves the cells of all inner wires into the homes of their groups.
pub(crate) fn stow(
    plan: &Plan,
    shape: &Grouping,
    home: &mut Vec<Option<WireCell>>,
    groups: &mut Vec<Group>,
)
    requires plan { IsPlan plan.now × (vec_len home.old ≡ wires_of plan.now) }
    requires shape { AreGroups shape.now plan.now.nodes (length groups.old.items) }
    requires cells { (w : ℕ) → w < vec_len home.old → (cell : CellView) × (slice_get home.old.items w ≡ Some (Some cell)) }
    requires begun { AreStowed plan.now shape.now 0 home.old.items home.old.items groups.old.items groups.old.items }
    ensures stowed { AreStowed plan.now shape.now (wires_of plan.now) home.old.items home.new.items groups.old.items groups.new.items }
    ensures capacity { vec_capacity groups.new ≡ vec_capacity groups.old }
{
    for w in 0..plan.producer.len() {
        stow_one(plan, shape, w, home, groups);
    }
}

fn stow_one(
    plan: &Plan,
    shape: &Grouping,
    w: usize,
    home: &mut Vec<Option<WireCell>>,
    groups: &mut Vec<Group>,
)
    requires plan { IsPlan plan.now × (w < wires_of plan.now) }
    requires shape { AreGroups shape.now plan.now.nodes (length groups.old.items) }
    requires so_far { (old : List (Option CellView)) × (before : List AnyGroup) × ((cell : CellView) × (slice_get old w ≡ Some (Some cell)))
        × AreStowed plan.now shape.now w old home.old.items before groups.old.items }
    ensures capacity { vec_capacity groups.new ≡ vec_capacity groups.old }
    ensures more { (old : List (Option CellView)) (before : List AnyGroup) → AreStowed plan.now shape.now w old home.old.items before groups.old.items
        → AreStowed plan.now shape.now (w + 1) old home.new.items before groups.new.items }
{
    let a = shape.group[plan.producer[w] as usize];
    if a != shape.group[plan.consumer[w] as usize] {
        return;
    }
    let cell = take_from(home, w);
    lay_at(&mut groups[a as usize], w, cell);
}

// The cell that is at home at the number, which is then away.
fn take_from(home: &mut Vec<Option<WireCell>>, number: usize) -> WireCell
    requires { (cell : CellView) × (slice_get home.old.items number ≡ Some (Some cell)) }
    ensures cell { slice_get home.old.items number ≡ Some (Some result) }
    ensures home { home.new.items ≡ slice_set home.old.items number None }
{
    match home[number].take() {
        Some(cell) => cell,
        None => unreachable!(),
    }
}

fn lay_at(group: &mut Group, w: usize, cell: WireCell)
    requires { w < length group.old.home.items }
    ensures home { group.new.home.items ≡ slice_set group.old.home.items w (Some cell) }
    ensures rest { (group.new.number ≡ group.old.number) × (group.new.time ≡ group.old.time) × (group.new.members ≡ group.old.members) }
{
    group.home[w] = Some(cell);
}
