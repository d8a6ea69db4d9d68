//! Groups and crossing wires go into a locker, the last one first.
ghost use Rattle.std.specs.Prelude.{◌≡◌, ◌+◌, ◌<◌, length, None, Some, slice_get, slice_set, vec_len, vec_capacity};
ghost use Rattle.wire_cells.specs.Cells.{CellView};
ghost use Rattle.hume_net.specs.Plan.{plan_of};
ghost use Rattle.box_step.specs.nodes.Openings.{Opening};
ghost use Rattle.step_turns.specs.Rounds.{AllRight, AreInPlace, AreUntil};
ghost use Rattle.turn_workers.specs.inner.Gathered.{AreGathered};
ghost use Rattle.turn_locker.specs.Seats.{IsSeatOf, view_of};
ghost use Rattle.turn_locker.specs.Views.{newcomer, whole_share};
ghost use Rattle.turn_workers.specs.inner.Placed.{AreCrossingAtRest, AreGroupsAtRest, IsGroupAtRest, IsWireAtRest, still_holds};
ghost use Rattle.turn_workers.specs.inner.Rounds.{IsIdle, IsOfGroups};

use crate::cells::Group;
use crate::gathering::gather;
use crate::items::{Item, Opens};
use crate::stowing::stow;
use box_step::nodes::BoxCell;
use hume_model::Core;
use hume_net::Plan;
use superstep_core::Grouping;
use turn_locker::{Locker, Seat};
use wire_cells::WireCell;

/// Puts the cells of all crossing wires into the locker.
pub(crate) fn place_crossing<O: Opens>(
    locker: &Locker<Item<O>>,
    seat: &mut Seat<Item<O>>,
    shape: &Grouping,
    home: &mut Vec<Option<WireCell>>,
)
    requires of { IsOfGroups O.plan O.grouping locker.now × (shape.now ≡ O.grouping) }
    requires own { IsSeatOf locker.now seat.old }
    requires view { view_of seat.old ≡ newcomer locker.now.plan }
    requires cells { AreCrossingAtRest O.opened O.grouping O.steps (length O.grouping.crossing) home.old.items }
    ensures own { IsSeatOf locker.now seat.new }
    ensures view { view_of seat.new ≡ still_holds locker.now.plan O.grouping.count }
    ensures long { length home.new.items ≡ length home.old.items }
{
    let mut left = shape.crossing.len();
    'placing: while left > 0 {
        left -= 1;
        place_wire(locker, seat, shape, left, home);
    }
}

fn place_wire<O: Opens>(
    locker: &Locker<Item<O>>,
    seat: &mut Seat<Item<O>>,
    shape: &Grouping,
    c: usize,
    home: &mut Vec<Option<WireCell>>,
)
    requires of { IsOfGroups O.plan O.grouping locker.now × (shape.now ≡ O.grouping) }
    requires own { IsSeatOf locker.now seat.old }
    requires place { c < length O.grouping.crossing }
    requires view { view_of seat.old ≡ still_holds locker.now.plan (O.grouping.count + c + 1) }
    requires cells { AreCrossingAtRest O.opened O.grouping O.steps (c + 1) home.old.items }
    ensures own { IsSeatOf locker.now seat.new }
    ensures view { view_of seat.new ≡ still_holds locker.now.plan (O.grouping.count + c) }
    ensures cells { AreCrossingAtRest O.opened O.grouping O.steps c home.new.items }
    ensures long { length home.new.items ≡ length home.old.items }
{
    let cell = take_wire(shape.crossing[c] as usize, home);
    put_wire(locker, seat, shape, c, cell);
}

fn take_wire(number: usize, home: &mut Vec<Option<WireCell>>) -> WireCell
    requires { (cell : CellView) × (slice_get home.old.items number ≡ Some (Some cell)) }
    ensures cell { slice_get home.old.items number ≡ Some (Some result) }
    ensures home { home.new.items ≡ slice_set home.old.items number None }
{
    match home[number].take() {
        Some(cell) => cell,
        None => unreachable!(),
    }
}

fn put_wire<O: Opens>(
    locker: &Locker<Item<O>>,
    seat: &mut Seat<Item<O>>,
    shape: &Grouping,
    c: usize,
    cell: WireCell,
)
    requires of { IsOfGroups O.plan O.grouping locker.now × (shape.now ≡ O.grouping) }
    requires own { IsSeatOf locker.now seat.old }
    requires place { c < length O.grouping.crossing }
    requires view { view_of seat.old ≡ still_holds locker.now.plan (O.grouping.count + c + 1) }
    requires cell { IsWireAtRest O.opened O.grouping O.steps c cell }
    ensures own { IsSeatOf locker.now seat.new }
    ensures view { view_of seat.new ≡ still_holds locker.now.plan (O.grouping.count + c) }
{
    let item = shape.count + c as u32;
    locker.place(seat, item, Item::wire(cell, item));
}

/// Puts all groups into the locker.
pub(crate) fn place_groups<O: Opens>(
    locker: &Locker<Item<O>>,
    seat: &mut Seat<Item<O>>,
    groups: &mut Vec<Group>,
)
    requires of { IsOfGroups O.plan O.grouping locker.now }
    requires own { IsSeatOf locker.now seat.old }
    requires count { vec_len groups.old ≡ O.grouping.count }
    requires view { view_of seat.old ≡ still_holds locker.now.plan O.grouping.count }
    requires groups { AreGroupsAtRest O.opened O.plan O.grouping O.steps groups.old.items }
    ensures idle { IsIdle locker.now seat.new }
    ensures share { (view_of seat.new).share ≡ whole_share }
    ensures empty { (vec_len groups.new ≡ 0) × (vec_capacity groups.new ≡ vec_capacity groups.old) }
{
    'placing: while let Some(group) = groups.pop() {
        place_group(locker, seat, groups.len() as u32, group);
    }
}

fn place_group<O: Opens>(locker: &Locker<Item<O>>, seat: &mut Seat<Item<O>>, i: u32, group: Group)
    requires of { IsOfGroups O.plan O.grouping locker.now }
    requires own { IsSeatOf locker.now seat.old }
    requires below { i < O.grouping.count }
    requires view { view_of seat.old ≡ still_holds locker.now.plan (i + 1) }
    requires group { IsGroupAtRest O.opened O.plan O.grouping O.steps i group }
    ensures own { IsSeatOf locker.now seat.new }
    ensures view { view_of seat.new ≡ still_holds locker.now.plan i }
{
    locker.place(seat, i, Item::group(group));
}

/// Moves the cells of a round that begins into its groups, and all items into the locker.
pub(crate) fn open_table<O: Opens>(
    core: &Core,
    plan: &Plan,
    shape: &Grouping,
    locker: &Locker<Item<O>>,
    seat: &mut Seat<Item<O>>,
    groups: &mut Vec<Group>,
    nodes: &mut Vec<BoxCell>,
    home: &mut Vec<Option<WireCell>>,
)
    requires of { IsOfGroups O.plan O.grouping locker.now × (shape.now ≡ O.grouping) × (plan.now ≡ O.plan) × (O.plan ≡ plan_of core.now) }
    requires own { IsSeatOf locker.now seat.old × (view_of seat.old ≡ newcomer locker.now.plan) }
    requires place { AreInPlace core.now nodes.old.items home.old.items × (length home.old.items ≡ length core.now.wires) }
    requires begun { AreUntil 0 nodes.old.items }
    requires right { (opening : Opening) → O.opened opening → AllRight opening nodes.old.items home.old.items }
    requires groups { (length groups.old.items ≡ O.grouping.count)
        × AreGathered shape.now (vec_len nodes.old) (vec_len home.old) (vec_len nodes.old) nodes.old.items groups.old.items }
    ensures idle { IsIdle locker.now seat.new }
    ensures share { (view_of seat.new).share ≡ whole_share }
    ensures nodes { (vec_len nodes.new ≡ 0) × (vec_capacity nodes.new ≡ vec_capacity nodes.old) }
    ensures groups { (vec_len groups.new ≡ 0) × (vec_capacity groups.new ≡ vec_capacity groups.old) }
    ensures home { length home.new.items ≡ length home.old.items }
{
    let _core = core;
    gather(shape, home.len(), nodes, groups);
    stow(plan, shape, home, groups);
    place_crossing(locker, seat, shape, home);
    place_groups(locker, seat, groups);
}
