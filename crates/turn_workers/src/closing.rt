//! A locker of groups is closed, and all cells go back to their places.
ghost use Rattle.std.specs.Prelude.{◌≡◌, ◌*◌, ◌<◌, ◌≤◌, length, vec_len, vec_capacity};
ghost use Rattle.hume_net.specs.Plan.{plan_of};
ghost use Rattle.box_step.specs.nodes.Openings.{Opening};
ghost use Rattle.step_turns.specs.Rounds.{AllRight, AreInPlace, AreUntil};
ghost use Rattle.turn_locker.specs.Seats.{view_of};
ghost use Rattle.turn_locker.specs.Views.{whole_share};
ghost use Rattle.turn_workers.specs.inner.Rounds.{IsIdle, IsOfGroups};

use crate::cells::Group;
use crate::gathering::scatter;
use crate::items::{Item, Opens};
use crate::unpacking::{unpack_groups, unpack_wires, unstow};
use box_step::nodes::BoxCell;
use hume_model::Core;
use hume_net::Plan;
use superstep_core::Grouping;
use turn_locker::{Locker, Seat};
use wire_cells::WireCell;

/// Closes the locker, and moves all cells back to their places.
pub(crate) fn close_table<O: Opens>(
    core: &Core,
    plan: &Plan,
    shape: &Grouping,
    locker: Locker<Item<O>>,
    seat: Seat<Item<O>>,
    groups: &mut Vec<Group>,
    nodes: &mut Vec<BoxCell>,
    home: &mut Vec<Option<WireCell>>,
)
    requires of { IsOfGroups O.plan O.grouping locker × (shape.now ≡ O.grouping) × (plan.now ≡ O.plan) × (O.plan ≡ plan_of core.now) }
    requires seat { IsIdle locker seat × ((view_of seat).share ≡ whole_share) }
    requires groups { (vec_len groups.old ≡ 0) × (O.grouping.count ≤ vec_capacity groups.old) }
    requires nodes { (vec_len nodes.old ≡ 0) × (length core.now.nodes ≤ vec_capacity nodes.old) }
    requires home { length home.old.items ≡ length core.now.wires }
    ensures place { AreInPlace core.now nodes.new.items home.new.items }
    ensures wires { length home.new.items ≡ length core.now.wires }
    ensures until { AreUntil (2 * O.steps) nodes.new.items }
    ensures right { (opening : Opening) → O.opened opening → AllRight opening nodes.new.items home.new.items }
{
    let mut items = locker.close(seat);
    unpack_wires(&mut items, shape.count as usize, home);
    unpack_groups(items, groups);
    scatter(shape, core.nodes.len(), groups, nodes);
    unstow(plan, shape, groups, home);
}
