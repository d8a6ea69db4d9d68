//! The cells of nodes go into their groups, the last one first, and come back, the first one first.
ghost use Rattle.std.specs.Prelude.{◌≡◌, ◌+◌, ◌-◌, ◌<◌, ◌≤◌, ℕ, [], ◌∷◌, ◌++◌, length, Some, slice_get, vec_len, vec_capacity};
ghost use Rattle.box_step.specs.declared.nodes.cell.BoxCell.{BoxCell as AnyCell};
ghost use Rattle.turn_workers.specs.Members.{members_from, numbers_of};
ghost use Rattle.turn_workers.specs.inner.Gathered.{AreGathered, AreGroups, AreScattered, IsFrontOf};
ghost use Rattle.turn_workers.specs.declared.cells.Group.{Group as AnyGroup};

use crate::cells::Group;
use box_step::nodes::BoxCell;
use superstep_core::Grouping;

/// Moves the cells of all nodes into their groups, which have none yet, and room for them.
pub(crate) fn gather(
    shape: &Grouping,
    wires: usize,
    nodes: &mut Vec<BoxCell>,
    groups: &mut Vec<Group>,
)
    requires shape { AreGroups shape.now (vec_len nodes.old) (length groups.old.items) }
    requires numbers { (n : ℕ) (cell : AnyCell) → slice_get nodes.old.items n ≡ Some cell → cell.number ≡ n }
    requires groups { AreGathered shape.now (vec_len nodes.old) wires (vec_len nodes.old) nodes.old.items groups.old.items }
    ensures groups { AreGathered shape.now (vec_len nodes.old) wires 0 nodes.old.items groups.new.items }
    ensures count { length groups.new.items ≡ length groups.old.items }
    ensures capacity { vec_capacity groups.new ≡ vec_capacity groups.old }
    ensures empty { (vec_len nodes.new ≡ 0) × (vec_capacity nodes.new ≡ vec_capacity nodes.old) }
{
    let _wires = wires;
    'gathering: while let Some(cell) = nodes.pop() {
        let n = nodes.len();
        let i = shape.group[n] as usize;
        add_member(&mut groups[i], cell);
    }
}

fn add_member(group: &mut Group, cell: BoxCell)
    requires { length group.old.members.items < vec_capacity group.old.members }
    ensures members { group.new.members.items ≡ group.old.members.items ++ cell ∷ [] }
    ensures capacity { vec_capacity group.new.members ≡ vec_capacity group.old.members }
    ensures rest { (group.new.number ≡ group.old.number) × (group.new.time ≡ group.old.time) × (group.new.home ≡ group.old.home) }
{
    group.members.push_reserved(cell);
}

/// Moves the cells of all nodes out of their groups, in order.
pub(crate) fn scatter(
    shape: &Grouping,
    count: usize,
    groups: &mut Vec<Group>,
    nodes: &mut Vec<BoxCell>,
)
    requires shape { AreGroups shape.now count (length groups.old.items) }
    requires groups { (i : ℕ) (group : AnyGroup) → slice_get groups.old.items i ≡ Some group
        → numbers_of group.members.items ≡ members_from shape.now i 0 count }
    requires room { (vec_len nodes.old ≡ 0) × (count ≤ vec_capacity nodes.old) }
    ensures nodes { AreScattered shape.now groups.old.items count nodes.new.items }
    ensures rest { (i : ℕ) (group : AnyGroup) → slice_get groups.new.items i ≡ Some group
        → (was : AnyGroup) × (slice_get groups.old.items i ≡ Some was) × IsFrontOf group was }
    ensures count { length groups.new.items ≡ length groups.old.items }
{
    for n in 0..count {
        let i = shape.group[n] as usize;
        let cell = take_member(&mut groups[i]);
        nodes.push_reserved(cell);
    }
}

fn take_member(group: &mut Group) -> BoxCell
    requires { 0 < length group.old.members.items }
    ensures members { group.old.members.items ≡ group.new.members.items ++ result ∷ [] }
    ensures rest { (group.new.number ≡ group.old.number) × (group.new.time ≡ group.old.time) × (group.new.home ≡ group.old.home) }
{
    match group.members.pop() {
        Some(cell) => cell,
        None => unreachable!(),
    }
}
