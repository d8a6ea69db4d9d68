//! The items of a closed locker become groups and wires again.
ghost use Rattle.std.specs.Prelude.{◌≡◌, ◌+◌, ◌<◌, ◌≤◌, ℕ, List, length, None, Option, Some, slice_get, slice_set, take, vec_len, vec_capacity};
ghost use Rattle.hume_net.specs.Plan.{IsPlan, wires_of};
ghost use Rattle.superstep_core.specs.Groups.{IsGrouping};
ghost use Rattle.wire_cells.specs.Cells.{CellView};
ghost use Rattle.turn_workers.specs.declared.cells.Group.{Group as AnyGroup};
ghost use Rattle.turn_workers.specs.inner.Gathered.{AreGroups};
ghost use Rattle.turn_workers.specs.declared.cells.NetCell.TheVariants.{Group as AGroup, Wire as AWire};
ghost use Rattle.turn_workers.specs.inner.Itemed.{AreItems, cells_of};
ghost use Rattle.turn_workers.specs.inner.Unstowed.{AreUnstowed, HaveInner};

use crate::cells::Group;
use crate::items::{Item, Opens};
use hume_net::Plan;
use superstep_core::Grouping;
use wire_cells::WireCell;

/// Moves the cells of all inner wires out of the homes of their groups.
pub(crate) fn unstow(
    plan: &Plan,
    shape: &Grouping,
    groups: &mut Vec<Group>,
    home: &mut Vec<Option<WireCell>>,
)
    requires plan { IsPlan plan.now × (length home.old.items ≡ wires_of plan.now) }
    requires shape { AreGroups shape.now plan.now.nodes (length groups.old.items) }
    requires groups { HaveInner plan.now shape.now groups.old.items }
    ensures { AreUnstowed plan.now shape.now (wires_of plan.now) home.old.items home.new.items groups.old.items groups.new.items }
{
    for w in 0..plan.producer.len() {
        unstow_one(plan, shape, w, groups, home);
    }
}

fn unstow_one(
    plan: &Plan,
    shape: &Grouping,
    w: usize,
    groups: &mut Vec<Group>,
    home: &mut Vec<Option<WireCell>>,
)
    requires plan { IsPlan plan.now × (w < wires_of plan.now) × (length home.old.items ≡ wires_of plan.now) }
    requires shape { AreGroups shape.now plan.now.nodes (length groups.old.items) }
    requires so_far { (old : List (Option CellView)) × (before : List AnyGroup) × HaveInner plan.now shape.now before
        × AreUnstowed plan.now shape.now w old home.old.items before groups.old.items }
    ensures { (old : List (Option CellView)) (before : List AnyGroup) → AreUnstowed plan.now shape.now w old home.old.items before groups.old.items
        → AreUnstowed plan.now shape.now (w + 1) old home.new.items before groups.new.items }
{
    let a = shape.group[plan.producer[w] as usize];
    if a != shape.group[plan.consumer[w] as usize] {
        return;
    }
    let cell = lift_at(&mut groups[a as usize], w);
    home[w] = Some(cell);
}

fn lift_at(group: &mut Group, w: usize) -> WireCell
    requires { (cell : CellView) × (slice_get group.old.home.items w ≡ Some (Some cell)) }
    ensures cell { slice_get group.old.home.items w ≡ Some (Some result) }
    ensures home { group.new.home.items ≡ slice_set group.old.home.items w None }
    ensures rest { (group.new.number ≡ group.old.number) × (group.new.time ≡ group.old.time) × (group.new.members ≡ group.old.members) }
{
    match group.home[w].take() {
        Some(cell) => cell,
        None => unreachable!(),
    }
}

/// Takes the items of all crossing wires from the end, and puts their cells home.
pub(crate) fn unpack_wires<O: Opens>(
    items: &mut Vec<Item<O>>,
    count: usize,
    home: &mut Vec<Option<WireCell>>,
)
    requires count { (count ≡ O.grouping.count) × (count ≤ length items.old.items) }
    requires grouping { IsGrouping O.plan O.grouping × (length home.old.items ≡ wires_of O.plan) }
    requires items { AreItems O.opened O.plan O.grouping O.steps (cells_of items.old.items) }
    ensures items { items.new.items ≡ take O.grouping.count items.old.items }
    ensures home { (item n : ℕ) (cell : CellView) → O.grouping.count ≤ item → slice_get (cells_of items.old.items) item ≡ Some (AWire cell n)
        → slice_get home.new.items cell.number ≡ Some (Some cell) }
    ensures long { length home.new.items ≡ length home.old.items }
{
    'unpacking: while items.len() > count {
        let Some(item) = items.pop() else {
            unreachable!()
        };
        put_home(home, item.into_wire());
    }
}

fn put_home(home: &mut Vec<Option<WireCell>>, cell: WireCell)
    requires { cell.number < length home.old.items }
    ensures { home.new.items ≡ slice_set home.old.items cell.number (Some cell) }
{
    let n = cell.number() as usize;
    home[n] = Some(cell);
}

/// Takes the items of all groups from the end, and gives the groups in order.
pub(crate) fn unpack_groups<O: Opens>(mut items: Vec<Item<O>>, groups: &mut Vec<Group>)
    requires items { AreItems O.opened O.plan O.grouping O.steps (cells_of items.items) }
    requires count { length items.items ≡ O.grouping.count }
    requires room { (vec_len groups.old ≡ 0) × (O.grouping.count ≤ vec_capacity groups.old) }
    ensures count { length groups.new.items ≡ O.grouping.count }
    ensures groups { (i : ℕ) (group : AnyGroup) → slice_get groups.new.items i ≡ Some group → slice_get (cells_of items.items) i ≡ Some (AGroup group) }
{
    'unpacking: while let Some(item) = items.pop() {
        groups.push_reserved(item.into_group());
    }
    groups.reverse();
}
