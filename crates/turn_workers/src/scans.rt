//! A worker: it goes over its share of the groups again and again, and makes each half step that it can; where there is none, it helps
//! with the others.
ghost use Rattle.std.specs.Prelude.{◌≡◌, ◌+◌, ◌*◌, ◌<◌, ◌≤◌, ℕ, IfSome, length, Some, slice_get};
ghost use Rattle.hume_net.specs.declared.plan.Plan.{Plan as AnyPlan};
ghost use Rattle.hume_net.specs.Plan.{wires_of};
ghost use Rattle.step_turns.specs.Rounds.{AreSides};
ghost use Rattle.turn_locker.specs.Seats.{view_of};
ghost use Rattle.turn_workers.specs.Ways.{AreWays};
ghost use Rattle.turn_workers.specs.inner.Rounds.{IsIdle, IsOfGroups, IsShared};
ghost use Rattle.turn_workers.specs.inner.Stacks.{IsSide};

use crate::division::Division;
use crate::items::{Item, Opens};
use crate::turns::try_turn;
use crate::ways::Ways;
use hume_base::List;
use hume_model::Core;
use std::hint::spin_loop;
use std::thread::yield_now;
use step_turns::{Gate, Sides};
use superstep_core::Grouping;
use turn_locker::{Locker, Seat};

// After so many scans in a row without a half step a worker leaves: some tens of milliseconds, where the longest half step of a box takes
// less than ten.
const IDLE_SCANS: u32 = 65_536;

// After so many scans in a row without a half step it only pauses, and then it lets other threads run.
const PAUSES: u32 = 200;

// One scan of so many without a half step looks at the groups of others.
const LOOKS: u32 = 16;

// The most half steps that a worker makes of one group before it looks at the others.
const TURNS: u32 = 32;

// What was found of some groups.
#[derive(Clone, Copy)]
enum Found {
    // half steps were made
    Made,
    // none could be made, and some group is before the end
    Waiting,
    // all are at the end
    AtEnd,
}

// The group that is furthest behind of those that were looked at and whose side is ready.
#[derive(Clone, Copy)]
struct Behind {
    group: Option<u32>,
    time: u64,
    // some group is before the end
    before_end: bool,
}

/// The groups of a worker: those from `first` up to `last`.
#[derive(Clone, Copy)]
pub(crate) struct Share {
    pub first: u32,
    pub last: u32,
}

/// Makes half steps of its own share of the groups, as long as there are any to make. Where it has found none for some scans, it makes
/// those of the group that is furthest behind. It leaves when all groups are at the end, or after too many scans without a half step.
pub(crate) fn work<O: Opens, G: Gate>(
    core: &Core,
    sides: &Sides,
    gate: &G,
    division: &Division,
    locker: &Locker<Item<O>>,
    mut seat: Seat<Item<O>>,
    steps: u32,
    share: Share,
) -> Seat<Item<O>>
    requires shared { IsShared O.opened O.plan O.grouping O.steps core.now locker.now }
    requires shape { (division.now.groups ≡ O.grouping) × (steps ≡ O.steps) }
    requires sides { ((room : ℕ) × AreSides core.now room sides.now) × AreWays locker.now.plan division.now.ways }
    requires share { (share.first ≤ share.last) × (share.last ≤ O.grouping.count) }
    requires idle { IsIdle locker.now seat }
    ensures idle { IsIdle locker.now result }
    ensures share { (view_of result).share ≡ (view_of seat).share }
{
    let mut idle = 0u32;
    for _ in 0..u64::MAX {
        let found = scan(
            core, sides, gate, division, locker, &mut seat, steps, share, idle,
        );
        match found {
            Found::Made => idle = 0,
            Found::AtEnd => return seat,
            Found::Waiting => {
                if idle >= IDLE_SCANS {
                    return seat;
                }
                idle += 1;
                pause(idle);
            }
        }
    }
    seat
}

// Lets a moment pass.
fn pause(idle: u32) {
    if idle < PAUSES {
        spin_loop();
    } else {
        yield_now();
    }
}

// One scan of the worker's own groups and, now and then, a look at all groups where it makes none of its own.
fn scan<O: Opens, G: Gate>(
    core: &Core,
    sides: &Sides,
    gate: &G,
    division: &Division,
    locker: &Locker<Item<O>>,
    seat: &mut Seat<Item<O>>,
    steps: u32,
    share: Share,
    idle: u32,
) -> Found
    requires shared { IsShared O.opened O.plan O.grouping O.steps core.now locker.now }
    requires shape { (division.now.groups ≡ O.grouping) × (steps ≡ O.steps) }
    requires sides { ((room : ℕ) × AreSides core.now room sides.now) × AreWays locker.now.plan division.now.ways }
    requires share { (share.first ≤ share.last) × (share.last ≤ O.grouping.count) }
    requires idle { IsIdle locker.now seat.old }
    ensures idle { IsIdle locker.now seat.new }
    ensures share { (view_of seat.new).share ≡ (view_of seat.old).share }
{
    let own = run_own(core, sides, gate, division, locker, seat, steps, share);
    match own {
        Found::Made => own,
        Found::Waiting if idle % LOOKS != LOOKS - 1 => own,
        _ => help(core, sides, gate, division, locker, seat, steps),
    }
}

// Makes half steps of the group that is furthest behind.
fn help<O: Opens, G: Gate>(
    core: &Core,
    sides: &Sides,
    gate: &G,
    division: &Division,
    locker: &Locker<Item<O>>,
    seat: &mut Seat<Item<O>>,
    steps: u32,
) -> Found
    requires shared { IsShared O.opened O.plan O.grouping O.steps core.now locker.now }
    requires shape { (division.now.groups ≡ O.grouping) × (steps ≡ O.steps) }
    requires sides { ((room : ℕ) × AreSides core.now room sides.now) × AreWays locker.now.plan division.now.ways }
    requires idle { IsIdle locker.now seat.old }
    ensures idle { IsIdle locker.now seat.new }
    ensures share { (view_of seat.new).share ≡ (view_of seat.old).share }
{
    let behind = furthest_behind(division, locker, seat, steps);
    match behind.group {
        Some(group) => run(core, sides, gate, division, locker, seat, steps, group),
        None if behind.before_end => Found::Waiting,
        None => Found::AtEnd,
    }
}

fn furthest_behind<O: Opens>(
    division: &Division,
    locker: &Locker<Item<O>>,
    seat: &mut Seat<Item<O>>,
    steps: u32,
) -> Behind
    requires of { IsOfGroups O.plan O.grouping locker.now × (division.now.groups ≡ O.grouping) }
    requires ways { AreWays locker.now.plan division.now.ways }
    requires idle { IsIdle locker.now seat.old }
    ensures group { IfSome result.group (λ group. group < O.grouping.count) }
    ensures idle { IsIdle locker.now seat.new }
    ensures share { (view_of seat.new).share ≡ (view_of seat.old).share }
{
    let mut behind = Behind {
        group: None,
        time: u64::MAX,
        before_end: false,
    };
    for group in 0..division.groups.count {
        behind = look_behind(division, locker, seat, steps, group, behind);
    }
    behind
}

// What is behind once the group was looked at too.
fn look_behind<O: Opens>(
    division: &Division,
    locker: &Locker<Item<O>>,
    seat: &mut Seat<Item<O>>,
    steps: u32,
    group: u32,
    behind: Behind,
) -> Behind
    requires of { IsOfGroups O.plan O.grouping locker.now × (division.now.groups ≡ O.grouping) }
    requires ways { AreWays locker.now.plan division.now.ways }
    requires group { group < O.grouping.count }
    requires behind { IfSome behind.group (λ group. group < O.grouping.count) }
    requires idle { IsIdle locker.now seat.old }
    ensures group { IfSome result.group (λ group. group < O.grouping.count) }
    ensures idle { IsIdle locker.now seat.new }
    ensures share { (view_of seat.new).share ≡ (view_of seat.old).share }
{
    let time = look(&division.groups, locker, seat, group);
    if time >= 2 * steps as u64 {
        return behind;
    }
    let side = side_of(&division.ways, group as usize, time);
    if time >= behind.time || !is_ready(&division.groups, locker, seat, side, time) {
        return Behind {
            before_end: true,
            ..behind
        };
    }
    Behind {
        group: Some(group),
        time,
        before_end: true,
    }
}

// Goes over a worker's own groups.
fn run_own<O: Opens, G: Gate>(
    core: &Core,
    sides: &Sides,
    gate: &G,
    division: &Division,
    locker: &Locker<Item<O>>,
    seat: &mut Seat<Item<O>>,
    steps: u32,
    share: Share,
) -> Found
    requires shared { IsShared O.opened O.plan O.grouping O.steps core.now locker.now }
    requires shape { (division.now.groups ≡ O.grouping) × (steps ≡ O.steps) }
    requires sides { ((room : ℕ) × AreSides core.now room sides.now) × AreWays locker.now.plan division.now.ways }
    requires share { (share.first ≤ share.last) × (share.last ≤ O.grouping.count) }
    requires idle { IsIdle locker.now seat.old }
    ensures idle { IsIdle locker.now seat.new }
    ensures share { (view_of seat.new).share ≡ (view_of seat.old).share }
{
    let mut found = Found::AtEnd;
    for group in share.first..share.last {
        let one = run(core, sides, gate, division, locker, seat, steps, group);
        found = found_of_both(found, one);
    }
    found
}

fn found_of_both(some: Found, others: Found) -> Found {
    match (some, others) {
        (Found::Made, _) | (_, Found::Made) => Found::Made,
        (Found::Waiting, _) | (_, Found::Waiting) => Found::Waiting,
        (Found::AtEnd, Found::AtEnd) => Found::AtEnd,
    }
}

// Makes half steps of one group as long as its side is ready.
fn run<O: Opens, G: Gate>(
    core: &Core,
    sides: &Sides,
    gate: &G,
    division: &Division,
    locker: &Locker<Item<O>>,
    seat: &mut Seat<Item<O>>,
    steps: u32,
    number: u32,
) -> Found
    requires shared { IsShared O.opened O.plan O.grouping O.steps core.now locker.now }
    requires shape { (division.now.groups ≡ O.grouping) × (steps ≡ O.steps) }
    requires sides { ((room : ℕ) × AreSides core.now room sides.now) × AreWays locker.now.plan division.now.ways }
    requires group { number < O.grouping.count }
    requires idle { IsIdle locker.now seat.old }
    ensures idle { IsIdle locker.now seat.new }
    ensures share { (view_of seat.new).share ≡ (view_of seat.old).share }
{
    let mut found = Found::Waiting;
    for _ in 0..TURNS {
        let time = look(&division.groups, locker, seat, number);
        if time >= 2 * steps as u64 {
            return match found {
                Found::Waiting => Found::AtEnd,
                _ => found,
            };
        }
        let side = side_of(&division.ways, number as usize, time);
        if !is_ready(&division.groups, locker, seat, side, time) {
            return found;
        }
        if !try_turn(
            core,
            sides,
            gate,
            &division.groups,
            locker,
            seat,
            number,
            side,
            time,
        ) {
            return found;
        }
        found = Found::Made;
    }
    found
}

// The time of a group, by one load.
fn look<O: Opens>(
    shape: &Grouping,
    locker: &Locker<Item<O>>,
    seat: &mut Seat<Item<O>>,
    number: u32,
) -> u64
    requires of { IsOfGroups O.plan O.grouping locker.now × (shape.now ≡ O.grouping) }
    requires group { number < O.grouping.count }
    requires idle { IsIdle locker.now seat.old }
    ensures idle { IsIdle locker.now seat.new }
    ensures share { (view_of seat.new).share ≡ (view_of seat.old).share }
{
    let _shape = shape;
    locker.time_of(seat, number)
}

// Whether all wires of a side had the time, each when it was looked at.
fn is_ready<O: Opens>(
    shape: &Grouping,
    locker: &Locker<Item<O>>,
    seat: &mut Seat<Item<O>>,
    side: &[u32],
    time: u64,
) -> bool
    requires of { IsOfGroups O.plan O.grouping locker.now × (shape.now ≡ O.grouping) }
    requires side { (k w : ℕ) → slice_get side.now k ≡ Some w → w < wires_of locker.now.plan }
    requires idle { IsIdle locker.now seat.old }
    ensures idle { IsIdle locker.now seat.new }
    ensures share { (view_of seat.new).share ≡ (view_of seat.old).share }
{
    for k in 0..side.len() {
        if look_at(shape, locker, seat, side[k]) != time {
            return false;
        }
    }
    true
}

fn look_at<O: Opens>(
    shape: &Grouping,
    locker: &Locker<Item<O>>,
    seat: &mut Seat<Item<O>>,
    wire: u32,
) -> u64
    requires of { IsOfGroups O.plan O.grouping locker.now × (shape.now ≡ O.grouping) }
    requires wire { wire < wires_of locker.now.plan }
    requires idle { IsIdle locker.now seat.old }
    ensures idle { IsIdle locker.now seat.new }
    ensures share { (view_of seat.new).share ≡ (view_of seat.old).share }
{
    locker.time_of(seat, shape.count + wire)
}

// The wires of a group's side at a time.
fn side_of(ways: &Ways, n: usize, time: u64) -> &[u32]
    requires { (plan : AnyPlan) × AreWays plan ways.now × (n < plan.nodes) }
    ensures { (plan : AnyPlan) → AreWays plan ways.now → n < plan.nodes → IsSide plan time n result.now }
{
    if time % 2 == 0 {
        row_of(&ways.inputs, n)
    } else {
        row_of(&ways.outputs, n)
    }
}

fn row_of(rows: &List<List<u32>>, n: usize) -> &[u32]
    requires { n < length rows.now }
    ensures { slice_get rows.now n ≡ Some result.now }
{
    rows[n].as_slice()
}
