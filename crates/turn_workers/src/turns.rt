//! The half step of one group.
ghost use Rattle.std.specs.Prelude.{◌≡◌, ◌+◌, ◌-◌, ◌*◌, ◌<◌, ◌≤◌, ◌^◌, ℕ, [], drop, length, if◌then◌else◌, IfSome, IfNone, IsTrue, IsFalse, None, Option, Some, slice_get, slice_index, slice_set, vec_len};
ghost use Rattle.wire_cells.specs.Cells.{CellView};
ghost use Rattle.step_turns.specs.Rounds.{AreSides};
ghost use Rattle.turn_locker.specs.Asking.{MayPassNode, MayPassWire, MayPutBack};
ghost use Rattle.turn_locker.specs.Seats.{IsSeatOf, view_of};
ghost use Rattle.turn_locker.specs.Views.{claims, passes, puts_back};
ghost use Rattle.turn_workers.specs.Items.{IsGroupRight, IsWireRight};
ghost use Rattle.turn_workers.specs.inner.Rounds.{IsIdle, IsOfGroups, IsShared};
ghost use Rattle.turn_workers.specs.inner.Halves.{IsHeld};
ghost use Rattle.turn_workers.specs.inner.Stacks.{AreAlike, IsSide, pairs_of, stack};

use crate::cells::Group;
use crate::halves::step_group;
use crate::items::{Item, Opens};
use hume_model::Core;
use step_turns::{Gate, Sides};
use superstep_core::Grouping;
use turn_locker::{Locker, Seat};
use wire_cells::WireCell;

/// Makes the half step of a group at a time, if the group and the wires of its side are at home at that time.
pub(crate) fn try_turn<O: Opens, G: Gate>(
    core: &Core,
    sides: &Sides,
    gate: &G,
    shape: &Grouping,
    locker: &Locker<Item<O>>,
    seat: &mut Seat<Item<O>>,
    number: u32,
    side: &[u32],
    time: u64,
) -> bool
    requires shared { IsShared O.opened O.plan O.grouping O.steps core.now locker.now }
    requires shape { shape.now ≡ O.grouping }
    requires sides { (room : ℕ) × AreSides core.now room sides.now }
    requires idle { IsIdle locker.now seat.old }
    requires number { number < O.grouping.count }
    requires side { IsSide locker.now.plan time number side.now }
    requires time { time < 2 * O.steps }
    ensures idle { IsIdle locker.now seat.new }
    ensures share { (view_of seat.new).share ≡ (view_of seat.old).share }
{
    let Some(mut group) = claim_group(locker, seat, number, time) else {
        return false;
    };
    let made = turn_wires(core, sides, gate, shape, locker, seat, &mut group, side);
    if made {
        pass_group(locker, seat, group);
    } else {
        put_group_back(locker, seat, group);
    }
    made
}

// Claims the wires of the side. Where it gets them all it makes the half steps of the members and passes the wires; else it puts back
// what it has claimed.
fn turn_wires<O: Opens, G: Gate>(
    core: &Core,
    sides: &Sides,
    gate: &G,
    shape: &Grouping,
    locker: &Locker<Item<O>>,
    seat: &mut Seat<Item<O>>,
    group: &mut Group,
    side: &[u32],
) -> bool
    requires shared { IsShared O.opened O.plan O.grouping O.steps core.now locker.now }
    requires shape { shape.now ≡ O.grouping }
    requires sides { (room : ℕ) × AreSides core.now room sides.now }
    requires own { IsSeatOf locker.now seat.old }
    requires held { (view_of seat.old).held ≡ stack O.grouping.count group.old.number group.old.time side.now 0 }
    requires passed { (view_of seat.old).passed ≡ [] }
    requires side { IsSide locker.now.plan group.old.time group.old.number side.now }
    requires group { IsHeld O.opened O.plan O.grouping O.steps side.now 0 group.old.number group.old.time group.old.members.items group.old.home.items }
    requires time { group.old.time < 2 * O.steps }
    ensures own { IsSeatOf locker.now seat.new }
    ensures held { (view_of seat.new).held ≡ (view_of seat.old).held }
    ensures passed { (view_of seat.new).passed ≡ (if result then pairs_of group.old.number side.now else []) }
    ensures share { (view_of seat.new).share ≡ (view_of seat.old).share }
    ensures group { IsHeld O.opened O.plan O.grouping O.steps side.now 0 group.new.number group.new.time group.new.members.items group.new.home.items }
    ensures number { group.new.number ≡ group.old.number }
    ensures time { group.new.time ≡ (if result then group.old.time + 1 else group.old.time) }
{
    let time = group.time;
    let claimed = claim_side(locker, seat, shape, group, side);
    let made = step_if_held::<O, G>(core, sides, gate, locker, group, side, claimed);
    let_go_side(locker, seat, shape, group, side, claimed, time, made);
    made
}

// Claims the wires of a side in order, as many as are at home at the group's time, and tells how many.
fn claim_side<O: Opens>(
    locker: &Locker<Item<O>>,
    seat: &mut Seat<Item<O>>,
    shape: &Grouping,
    group: &mut Group,
    side: &[u32],
) -> usize
    requires of { IsOfGroups O.plan O.grouping locker.now }
    requires shape { shape.now ≡ O.grouping }
    requires own { IsSeatOf locker.now seat.old }
    requires held { (view_of seat.old).held ≡ stack O.grouping.count group.old.number group.old.time side.now 0 }
    requires side { IsSide locker.now.plan group.old.time group.old.number side.now }
    requires group { IsHeld O.opened O.plan O.grouping O.steps side.now 0 group.old.number group.old.time group.old.members.items group.old.home.items }
    ensures few { result ≤ length side.now }
    ensures own { IsSeatOf locker.now seat.new }
    ensures held { (view_of seat.new).held ≡ stack O.grouping.count group.old.number group.old.time side.now result }
    ensures passed { (view_of seat.new).passed ≡ (view_of seat.old).passed }
    ensures share { (view_of seat.new).share ≡ (view_of seat.old).share }
    ensures group { IsHeld O.opened O.plan O.grouping O.steps side.now result group.new.number group.new.time group.new.members.items
        group.new.home.items }
    ensures same { (group.new.number ≡ group.old.number) × (group.new.time ≡ group.old.time) }
{
    for place in 0..side.len() {
        if !claim_into(locker, seat, shape, group, side, place) {
            return place;
        }
    }
    side.len()
}

// Makes the half steps of the members of a group if its whole side is at home, and tells whether it is.
fn step_if_held<O: Opens, G: Gate>(
    core: &Core,
    sides: &Sides,
    gate: &G,
    locker: &Locker<Item<O>>,
    group: &mut Group,
    side: &[u32],
    held: usize,
) -> bool
    requires shared { IsShared O.opened O.plan O.grouping O.steps core.now locker.now }
    requires sides { (room : ℕ) × AreSides core.now room sides.now }
    requires side { IsSide locker.now.plan group.old.time group.old.number side.now }
    requires few { held ≤ length side.now }
    requires group { IsHeld O.opened O.plan O.grouping O.steps side.now held group.old.number group.old.time group.old.members.items group.old.home.items }
    requires time { group.old.time < 2 * O.steps }
    ensures whole { IsTrue result → held ≡ length side.now }
    ensures group { IsHeld O.opened O.plan O.grouping O.steps side.now held group.new.number group.new.time group.new.members.items group.new.home.items }
    ensures number { group.new.number ≡ group.old.number }
    ensures time { group.new.time ≡ (if result then group.old.time + 1 else group.old.time) }
{
    let _locker = locker;
    if held < side.len() {
        return false;
    }
    step_group::<O, G>(core, sides, gate, group);
    true
}

// Takes the cells of the first `held` wires of the side from the group's home. They are passed where the half steps were made, and else
// put back.
fn let_go_side<O: Opens>(
    locker: &Locker<Item<O>>,
    seat: &mut Seat<Item<O>>,
    shape: &Grouping,
    group: &mut Group,
    side: &[u32],
    held: usize,
    time: u64,
    made: bool,
)
    requires of { IsOfGroups O.plan O.grouping locker.now }
    requires shape { shape.now ≡ O.grouping }
    requires short { O.steps < 2 ^ 32 }
    requires own { IsSeatOf locker.now seat.old }
    requires side { IsSide locker.now.plan time group.old.number side.now }
    requires few { held ≤ length side.now }
    requires time { group.old.time ≡ (if made then time + 1 else time) }
    requires held { (view_of seat.old).held ≡ stack O.grouping.count group.old.number time side.now held }
    requires passed { (view_of seat.old).passed ≡ (if made then pairs_of group.old.number (drop held side.now) else []) }
    requires group { IsHeld O.opened O.plan O.grouping O.steps side.now held group.old.number group.old.time group.old.members.items group.old.home.items }
    ensures own { IsSeatOf locker.now seat.new }
    ensures held { (view_of seat.new).held ≡ stack O.grouping.count group.old.number time side.now 0 }
    ensures passed { (view_of seat.new).passed ≡ (if made then pairs_of group.old.number side.now else []) }
    ensures share { (view_of seat.new).share ≡ (view_of seat.old).share }
    ensures group { IsHeld O.opened O.plan O.grouping O.steps side.now 0 group.new.number group.new.time group.new.members.items group.new.home.items }
    ensures same { (group.new.number ≡ group.old.number) × (group.new.time ≡ group.old.time) }
{
    let mut left = held;
    'letting: while left > 0 {
        left -= 1;
        let_go(locker, seat, shape, group, side, left, time, made);
    }
}

// Claims the wire of a place of the side, and lays its cell into the group's home.
fn claim_into<O: Opens>(
    locker: &Locker<Item<O>>,
    seat: &mut Seat<Item<O>>,
    shape: &Grouping,
    group: &mut Group,
    side: &[u32],
    place: usize,
) -> bool
    requires of { IsOfGroups O.plan O.grouping locker.now }
    requires shape { shape.now ≡ O.grouping }
    requires own { IsSeatOf locker.now seat.old }
    requires side { IsSide locker.now.plan group.old.time group.old.number side.now }
    requires place { place < length side.now }
    requires group { IsHeld O.opened O.plan O.grouping O.steps side.now place group.old.number group.old.time group.old.members.items group.old.home.items }
    ensures own { IsSeatOf locker.now seat.new }
    ensures more { IsTrue result → IsHeld O.opened O.plan O.grouping O.steps side.now (place + 1) group.new.number group.new.time group.new.members.items
        group.new.home.items }
    ensures claimed { IsTrue result → view_of seat.new ≡ claims (O.grouping.count + slice_index side.now place) group.old.time (view_of seat.old) }
    ensures none { IsFalse result → AreAlike (view_of seat.old) (view_of seat.new) × (group.new ≡ group.old) }
    ensures same { (group.new.number ≡ group.old.number) × (group.new.time ≡ group.old.time) }
{
    match claim_wire(locker, seat, shape.count, side[place], group.time) {
        None => false,
        Some(cell) => {
            lay(group, cell);
            true
        }
    }
}

fn lay(group: &mut Group, cell: WireCell)
    requires { cell.number < vec_len group.old.home }
    ensures home { group.new.home.items ≡ slice_set group.old.home.items cell.number (Some cell) }
    ensures rest { (group.new.number ≡ group.old.number) × (group.new.time ≡ group.old.time) × (group.new.members ≡ group.old.members) }
{
    let n = cell.number() as usize;
    group.home[n] = Some(cell);
}

// Takes the cell of the wire at a place of the side from the group's home. It is passed where the half steps were made, and else put back.
fn let_go<O: Opens>(
    locker: &Locker<Item<O>>,
    seat: &mut Seat<Item<O>>,
    shape: &Grouping,
    group: &mut Group,
    side: &[u32],
    place: usize,
    time: u64,
    made: bool,
)
    requires of { IsOfGroups O.plan O.grouping locker.now }
    requires shape { shape.now ≡ O.grouping }
    requires short { O.steps < 2 ^ 32 }
    requires own { IsSeatOf locker.now seat.old }
    requires side { IsSide locker.now.plan time group.old.number side.now }
    requires place { place < length side.now }
    requires time { group.old.time ≡ (if made then time + 1 else time) }
    requires held { (view_of seat.old).held ≡ stack O.grouping.count group.old.number time side.now (place + 1) }
    requires passed { (view_of seat.old).passed ≡ (if made then pairs_of group.old.number (drop (place + 1) side.now) else []) }
    requires group { IsHeld O.opened O.plan O.grouping O.steps side.now (place + 1) group.old.number group.old.time group.old.members.items
        group.old.home.items }
    ensures own { IsSeatOf locker.now seat.new }
    ensures held { (view_of seat.new).held ≡ stack O.grouping.count group.old.number time side.now place }
    ensures passed { (view_of seat.new).passed ≡ (if made then pairs_of group.old.number (drop place side.now) else []) }
    ensures share { (view_of seat.new).share ≡ (view_of seat.old).share }
    ensures group { IsHeld O.opened O.plan O.grouping O.steps side.now place group.new.number group.new.time group.new.members.items group.new.home.items }
    ensures same { (group.new.number ≡ group.old.number) × (group.new.time ≡ group.old.time) }
{
    let wire = side[place];
    let number = shape.crossing[wire as usize];
    let cell = lift(group, number as usize);
    if made {
        pass_wire(locker, seat, shape.count, wire, cell);
    } else {
        put_wire_back(locker, seat, shape.count, wire, cell);
    }
}

fn lift(group: &mut Group, number: usize) -> WireCell
    requires { (cell : CellView) × (slice_get group.old.home.items number ≡ Some (Some cell)) }
    ensures cell { slice_get group.old.home.items number ≡ Some (Some result) }
    ensures home { group.new.home.items ≡ slice_set group.old.home.items number None }
    ensures rest { (group.new.number ≡ group.old.number) × (group.new.time ≡ group.old.time) × (group.new.members ≡ group.old.members) }
{
    match group.home[number].take() {
        Some(cell) => cell,
        None => unreachable!(),
    }
}

fn claim_group<O: Opens>(
    locker: &Locker<Item<O>>,
    seat: &mut Seat<Item<O>>,
    number: u32,
    time: u64,
) -> Option<Group>
    requires of { IsOfGroups O.plan O.grouping locker.now }
    requires own { IsSeatOf locker.now seat.old }
    requires number { number < O.grouping.count }
    ensures own { IsSeatOf locker.now seat.new }
    ensures some { IfSome result (λ group. (group.number ≡ number) × (group.time ≡ time) × IsGroupRight O.opened O.plan O.grouping O.steps group) }
    ensures claimed { IfSome result (λ _. view_of seat.new ≡ claims number time (view_of seat.old)) }
    ensures none { IfNone result (AreAlike (view_of seat.old) (view_of seat.new)) }
{
    match locker.try_claim(seat, number, time) {
        None => None,
        Some(item) => Some(item.into_group()),
    }
}

fn claim_wire<O: Opens>(
    locker: &Locker<Item<O>>,
    seat: &mut Seat<Item<O>>,
    groups: u32,
    wire: u32,
    time: u64,
) -> Option<WireCell>
    requires of { IsOfGroups O.plan O.grouping locker.now }
    requires groups { groups ≡ O.grouping.count }
    requires wire { wire < length O.grouping.crossing }
    requires own { IsSeatOf locker.now seat.old }
    ensures own { IsSeatOf locker.now seat.new }
    ensures some { IfSome result (λ cell. (cell.time ≡ time) × IsWireRight O.opened O.plan O.grouping O.steps cell (O.grouping.count + wire)) }
    ensures claimed { IfSome result (λ _. view_of seat.new ≡ claims (O.grouping.count + wire) time (view_of seat.old)) }
    ensures none { IfNone result (AreAlike (view_of seat.old) (view_of seat.new)) }
{
    match locker.try_claim(seat, groups + wire, time) {
        None => None,
        Some(item) => Some(item.into_wire()),
    }
}

fn pass_wire<O: Opens>(
    locker: &Locker<Item<O>>,
    seat: &mut Seat<Item<O>>,
    groups: u32,
    wire: u32,
    cell: WireCell,
)
    requires of { IsOfGroups O.plan O.grouping locker.now }
    requires groups { groups ≡ O.grouping.count }
    requires wire { wire < length O.grouping.crossing }
    requires own { IsSeatOf locker.now seat.old }
    requires right { IsWireRight O.opened O.plan O.grouping O.steps cell (O.grouping.count + wire) }
    requires time { (0 < cell.time) × (O.steps < 2 ^ 32) }
    requires may { MayPassWire locker.now.plan wire (cell.time - 1) (view_of seat.old) }
    ensures own { IsSeatOf locker.now seat.new }
    ensures view { view_of seat.new ≡ passes locker.now.plan (O.grouping.count + wire) (cell.time - 1) (view_of seat.old) }
{
    let item = groups + wire;
    locker.pass(seat, item, Item::wire(cell, item));
}

fn put_wire_back<O: Opens>(
    locker: &Locker<Item<O>>,
    seat: &mut Seat<Item<O>>,
    groups: u32,
    wire: u32,
    cell: WireCell,
)
    requires of { IsOfGroups O.plan O.grouping locker.now }
    requires groups { groups ≡ O.grouping.count }
    requires wire { wire < length O.grouping.crossing }
    requires own { IsSeatOf locker.now seat.old }
    requires right { IsWireRight O.opened O.plan O.grouping O.steps cell (O.grouping.count + wire) }
    requires may { MayPutBack locker.now.plan (O.grouping.count + wire) cell.time (view_of seat.old) }
    ensures own { IsSeatOf locker.now seat.new }
    ensures view { view_of seat.new ≡ puts_back (O.grouping.count + wire) (view_of seat.old) }
{
    let item = groups + wire;
    locker.put_back(seat, item, Item::wire(cell, item));
}

fn pass_group<O: Opens>(locker: &Locker<Item<O>>, seat: &mut Seat<Item<O>>, group: Group)
    requires of { IsOfGroups O.plan O.grouping locker.now }
    requires own { IsSeatOf locker.now seat.old }
    requires right { IsGroupRight O.opened O.plan O.grouping O.steps group }
    requires time { (0 < group.time) × (O.steps < 2 ^ 32) }
    requires may { MayPassNode locker.now.plan group.number (group.time - 1) (view_of seat.old) }
    ensures own { IsSeatOf locker.now seat.new }
    ensures view { view_of seat.new ≡ passes locker.now.plan group.number (group.time - 1) (view_of seat.old) }
{
    let item = group.number;
    locker.pass(seat, item, Item::group(group));
}

fn put_group_back<O: Opens>(locker: &Locker<Item<O>>, seat: &mut Seat<Item<O>>, group: Group)
    requires of { IsOfGroups O.plan O.grouping locker.now }
    requires own { IsSeatOf locker.now seat.old }
    requires right { IsGroupRight O.opened O.plan O.grouping O.steps group }
    requires may { MayPutBack locker.now.plan group.number group.time (view_of seat.old) }
    ensures own { IsSeatOf locker.now seat.new }
    ensures view { view_of seat.new ≡ puts_back group.number (view_of seat.old) }
{
    let item = group.number;
    locker.put_back(seat, item, Item::group(group));
}
