//! A round that is shared among workers.
ghost use Rattle.std.specs.Prelude.{◌≡◌, ◌+◌, ◌*◌, ◌<◌, ◌≤◌, ◌^◌, ℕ, length, OnErr, vec_len};
ghost use denote.Param.Send.{IsSync};
ghost use Rattle.hume_net.specs.Plan.{IsPlan, plan_of};
ghost use Rattle.superstep_core.specs.Groups.{IsGrouping, quotient};
ghost use Rattle.box_step.specs.nodes.Openings.{Opening, IsOpeningOf};
ghost use Rattle.step_turns.specs.Rounds.{AllRight, AreInPlace, AreSides, AreUntil, HaveSpan};
ghost use Rattle.turn_locker.specs.Held.{items_of};
ghost use Rattle.turn_locker.specs.Seats.{IsSeatOf, view_of};
ghost use Rattle.turn_locker.specs.Views.{newcomer};
ghost use Rattle.turn_workers.specs.Divisions.{IsDivision};
ghost use Rattle.turn_workers.specs.Ways.{AreWays};
ghost use Rattle.turn_workers.specs.inner.Gathered.{AreGathered};
ghost use Rattle.turn_workers.specs.inner.Rounds.{IsIdle, IsOfGroups, IsShared};

use crate::cells::Group;
use crate::closing::close_table;
use crate::division::Division;
use crate::empties::empty_groups;
use crate::items::{Item, Opens};
use crate::placing::open_table;
use crate::scans::{Share, work};
use box_step::nodes::BoxCell;
use hume_model::Core;
use hume_net::Plan;
use std::alloc::{AllocError, Global};
use std::marker::Brand;
use std::thread::{Threads, join};
use step_turns::{Gate, Sides};
use superstep_core::Grouping;
use turn_locker::{Locker, Seat};
use wire_cells::WireCell;

/// Shares the half steps of `steps` supersteps among workers, from times 0, by the bare form of the core and groups of its nodes. Workers
/// may leave before the end, so some half steps may be left. It takes memory for a table. Where there is one worker only, or no node,
/// nothing is done, and so after `AllocError`.
pub fn share_round<R: Threads + Sync, G: Gate>(
    rt: &R,
    alloc: Global,
    core: &Core,
    sides: &Sides,
    division: &Division,
    steps: u32,
    workers: u32,
    gate: &G,
    nodes: &mut Vec<BoxCell>,
    home: &mut Vec<Option<WireCell>>,
) -> Result<(), AllocError>
    requires plan { IsPlan (plan_of core.now) }
    requires division { IsDivision (plan_of core.now) division.now }
    requires workers { workers ≤ 2 ^ 16 }
    requires place { AreInPlace core.now nodes.old.items home.old.items }
    requires wires { length home.old.items ≡ length core.now.wires }
    requires begun { AreUntil 0 nodes.old.items }
    requires sides { (room : ℕ) × AreSides core.now room sides.now }
    requires right { (opening : Opening) × IsOpeningOf core.now opening × AllRight opening nodes.old.items home.old.items × HaveSpan opening steps }
    ensures place { AreInPlace core.now nodes.new.items home.new.items }
    ensures wires { length home.new.items ≡ length core.now.wires }
    ensures until { AreUntil (2 * steps) nodes.new.items }
    ensures right { (opening : Opening) → IsOpeningOf core.now opening → AllRight opening nodes.old.items home.old.items
        → AllRight opening nodes.new.items home.new.items }
    ensures err { OnErr result ((nodes.new ≡ nodes.old) × (home.new ≡ home.old)) }
{
    if workers <= 1 || core.nodes.is_empty() {
        return Ok(());
    }
    share_on::<Brand, R, G>(
        rt, alloc, core, sides, division, steps, workers, gate, nodes, home,
    )
}

fn share_on<O: Opens, R: Threads + Sync, G: Gate>(
    rt: &R,
    alloc: Global,
    core: &Core,
    sides: &Sides,
    division: &Division,
    steps: u32,
    workers: u32,
    gate: &G,
    nodes: &mut Vec<BoxCell>,
    home: &mut Vec<Option<WireCell>>,
) -> Result<(), AllocError>
    requires plan { IsPlan (plan_of core.now) × (division.now.plan ≡ O.plan) × (O.plan ≡ plan_of core.now) × (0 < length core.now.nodes) }
    requires groups { (division.now.groups ≡ O.grouping) × IsGrouping (plan_of core.now) O.grouping
        × (items_of (quotient (plan_of core.now) O.grouping) < 2 ^ 32)
        × AreWays (quotient (plan_of core.now) O.grouping) division.now.ways }
    requires workers { (workers ≤ 2 ^ 16) × (steps ≡ O.steps) }
    requires place { AreInPlace core.now nodes.old.items home.old.items }
    requires wires { length home.old.items ≡ length core.now.wires }
    requires begun { AreUntil 0 nodes.old.items }
    requires sides { (room : ℕ) × AreSides core.now room sides.now }
    requires opens { (opening : Opening) → O.opened opening → IsOpeningOf core.now opening × AllRight opening nodes.old.items home.old.items }
    requires some { (opening : Opening) × O.opened opening × HaveSpan opening O.steps }
    ensures place { AreInPlace core.now nodes.new.items home.new.items }
    ensures wires { length home.new.items ≡ length core.now.wires }
    ensures until { AreUntil (2 * O.steps) nodes.new.items }
    ensures right { (opening : Opening) → O.opened opening → AllRight opening nodes.new.items home.new.items }
    ensures err { OnErr result ((nodes.new ≡ nodes.old) × (home.new ≡ home.old)) }
{
    let quotient = division.groups.quotient(alloc, &division.plan)?;
    let mut groups = empty_groups(alloc, &division.groups, home.len())?;
    let (locker, seat) = Locker::<Item<O>>::vacant(alloc, quotient)?;
    share_over::<O, R, G>(
        rt,
        core,
        sides,
        division,
        steps,
        workers,
        gate,
        locker,
        seat,
        &mut groups,
        nodes,
        home,
    );
    Ok(())
}

fn share_over<O: Opens, R: Threads + Sync, G: Gate>(
    rt: &R,
    core: &Core,
    sides: &Sides,
    division: &Division,
    steps: u32,
    workers: u32,
    gate: &G,
    locker: Locker<Item<O>>,
    mut seat: Seat<Item<O>>,
    groups: &mut Vec<Group>,
    nodes: &mut Vec<BoxCell>,
    home: &mut Vec<Option<WireCell>>,
)
    requires of { IsOfGroups O.plan O.grouping locker × (division.now.groups ≡ O.grouping)
        × (division.now.plan ≡ O.plan) × (O.plan ≡ plan_of core.now) }
    requires workers { (workers ≤ 2 ^ 16) × (steps ≡ O.steps) }
    requires sides { ((room : ℕ) × AreSides core.now room sides.now) × AreWays locker.plan division.now.ways }
    requires own { IsSeatOf locker seat × (view_of seat ≡ newcomer locker.plan) }
    requires place { AreInPlace core.now nodes.old.items home.old.items × (length home.old.items ≡ length core.now.wires) }
    requires begun { AreUntil 0 nodes.old.items }
    requires opens { (opening : Opening) → O.opened opening → IsOpeningOf core.now opening × AllRight opening nodes.old.items home.old.items }
    requires some { (opening : Opening) × O.opened opening × HaveSpan opening O.steps }
    requires groups { (length groups.old.items ≡ O.grouping.count)
        × AreGathered division.now.groups (vec_len nodes.old) (vec_len home.old) (vec_len nodes.old) nodes.old.items groups.old.items }
    ensures place { AreInPlace core.now nodes.new.items home.new.items }
    ensures wires { length home.new.items ≡ length core.now.wires }
    ensures until { AreUntil (2 * O.steps) nodes.new.items }
    ensures right { (opening : Opening) → O.opened opening → AllRight opening nodes.new.items home.new.items }
{
    open_table(
        core,
        &division.plan,
        &division.groups,
        &locker,
        &mut seat,
        groups,
        nodes,
        home,
    );
    let seat = run_all::<O, R, G>(
        rt, core, sides, gate, division, &locker, seat, steps, 0, workers,
    );
    close_table(
        core,
        &division.plan,
        &division.groups,
        locker,
        seat,
        groups,
        nodes,
        home,
    );
}

// So many workers from a number on, each in a thread of its own but the last one. This thread starts them all: one that is started by a
// new thread waits on some systems until that one has ended.
fn run_all<O: Opens, R: Threads + Sync, G: Gate>(
    rt: &R,
    core: &Core,
    sides: &Sides,
    gate: &G,
    division: &Division,
    locker: &Locker<Item<O>>,
    seat: Seat<Item<O>>,
    steps: u32,
    number: u32,
    workers: u32,
) -> Seat<Item<O>>
    requires shared { IsShared O.opened O.plan O.grouping O.steps core.now locker.now }
    requires shape { (division.now.groups ≡ O.grouping) × (steps ≡ O.steps) }
    requires sides { ((room : ℕ) × AreSides core.now room sides.now) × AreWays locker.now.plan division.now.ways }
    requires numbers { number + workers ≤ 2 ^ 16 }
    requires idle { IsIdle locker.now seat }
    requires share { workers ≤ (view_of seat).share }
    ensures idle { IsIdle locker.now result }
    ensures share { (view_of result).share ≡ (view_of seat).share }
{
    if workers <= 1 {
        return run_one(core, sides, gate, division, locker, seat, steps, number);
    }
    let (rest, one) = locker.split(seat);
    let next = number + 1;
    let others = workers - 1;
    let (a, b) = join(
        rt,
        move || -> Seat<Item<O>>
            requires { IsSync G.row × IsShared O.opened O.plan O.grouping O.steps core.now locker.now
                × (division.now.groups ≡ O.grouping) × (steps ≡ O.steps)
                × (number ≤ 2 ^ 16) × ((room : ℕ) × AreSides core.now room sides.now) × AreWays locker.now.plan division.now.ways
                × IsIdle locker.now one }
            ensures { IsIdle locker.entry.now result × ((view_of result).share ≡ (view_of one).share) }
        { run_one(core, sides, gate, division, locker, one, steps, number) },
        move || -> Seat<Item<O>>
            requires { IsSync R.row × IsSync G.row × IsShared O.opened O.plan O.grouping O.steps core.now locker.now
                × (division.now.groups ≡ O.grouping) × (steps ≡ O.steps)
                × (next + others ≤ 2 ^ 16) × ((room : ℕ) × AreSides core.now room sides.now) × AreWays locker.now.plan division.now.ways
                × IsIdle locker.now rest × (others ≤ (view_of rest).share) }
            ensures { IsIdle locker.entry.now result × ((view_of result).share ≡ (view_of rest).share) }
        {
            run_all::<O, R, G>(
                rt, core, sides, gate, division, locker, rest, steps, next, others,
            )
        },
    );
    locker.join(b, a)
}

// The worker of that number, in this thread.
fn run_one<O: Opens, G: Gate>(
    core: &Core,
    sides: &Sides,
    gate: &G,
    division: &Division,
    locker: &Locker<Item<O>>,
    seat: Seat<Item<O>>,
    steps: u32,
    number: u32,
) -> Seat<Item<O>>
    requires shared { IsShared O.opened O.plan O.grouping O.steps core.now locker.now }
    requires shape { (division.now.groups ≡ O.grouping) × (steps ≡ O.steps) }
    requires sides { ((room : ℕ) × AreSides core.now room sides.now) × AreWays locker.now.plan division.now.ways }
    requires number { number ≤ 2 ^ 16 }
    requires idle { IsIdle locker.now seat }
    ensures idle { IsIdle locker.now result }
    ensures share { (view_of result).share ≡ (view_of seat).share }
{
    let share = own_share(division, number as usize);
    work(core, sides, gate, division, locker, seat, steps, share)
}

// The share of a worker.
fn own_share(division: &Division, number: usize) -> Share
    requires { number ≤ 2 ^ 16 }
    ensures { (result.first ≤ result.last) × (result.last ≤ division.now.groups.count) }
{
    let last = first_group(division, number + 1);
    Share {
        first: first_group(division, number).min(last),
        last,
    }
}

// The first group of a worker's share, and the number of groups where there is no such worker.
fn first_group(division: &Division, number: usize) -> u32
    ensures { result ≤ division.now.groups.count }
{
    match division.first.get(number) {
        Some(group) => (*group).min(division.groups.count),
        None => division.groups.count,
    }
}
