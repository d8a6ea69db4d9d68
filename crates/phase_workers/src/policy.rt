//! How many workers pay. Any number is right, so nothing is said of the one that is chosen but that it isn't more than there may be.
ghost use Rattle.std.specs.Prelude.{◌+◌, ◌<◌, ◌≤◌, ◌^◌};
ghost use Rattle.hume_net.specs.Plan.{IsPlan, plan_of};
ghost use Rattle.turn_locker.specs.Held.{items_of};

use box_code::BoxProgram;
use box_step::nodes::BoxCell;
use hume_base::List;
use hume_model::{Core, NodeC};
use hume_net::find_plan;
use net_groups::partition;
use std::alloc::{AllocError, Global};

// What costs time beside the code of boxes, in nanoseconds. An instruction counts as one: it takes one to three, and a step runs but a
// part of what its bound counts. Where machines differ, the costs of workers are the higher ones.

// The two half steps of a node.
const HALF_STEPS: u64 = 40;

// To start a thread, once a round.
const THREAD: u64 = 40_000;

// Workers wait for each other where wires cross.
const MEETING: u64 = 1_600;

// To hand on a crossing wire, twice a superstep, and to look whether it is there. More workers don't share this: they wait for more.
const CROSSING: u64 = 90;

// The work that was run is looked at behind the first round, and then each time that so many times as many rounds were made.
const LATER: u32 = 8;

/// What is known of a net's rounds before they are made.
#[derive(Drop)]
pub(crate) struct Policy {
    // for each node its work in a superstep: at most its bound, and later as the rounds before ran it
    pub work: Vec<u64>,
    // the rounds and the supersteps that were made
    pub rounds: u32,
    pub steps: u64,
    // the number of rounds at which the work that was run is looked at
    pub next_look: u32,
    pub offers: Option<Offers>,
}

/// What at most so many workers make of a net, and half of them, and so on.
#[derive(Drop)]
pub(crate) struct Offers {
    pub most: u32,
    pub items: Vec<Offer>,
}

/// The work of the heaviest share of so many workers, and how many wires cross.
#[derive(Clone, Copy)]
pub(crate) struct Offer {
    pub workers: u32,
    pub heaviest: u64,
    pub crossing: u64,
}

impl Policy {
    /// Before the first round. The work of a box in a superstep is at most the bound of its code.
    pub(crate) fn find(
        alloc: Global,
        core: &Core,
        programs: &List<BoxProgram>,
    ) -> Result<Policy, AllocError> {
        let mut work = Vec::new(alloc);
        let mut boxes = 0usize;
        for node in core.nodes.as_slice() {
            work.push(node_work(node, programs.get(boxes)))?;
            boxes = boxes.saturating_add(count_boxes(node));
        }
        Ok(Policy {
            work,
            rounds: 0,
            steps: 0,
            next_look: 1,
            offers: None,
        })
    }

    /// Looks at what the cells ran, if it is time for it. Answers whether it did, so that the work may be another one.
    pub(crate) fn look(&mut self, nodes: &[BoxCell]) -> bool {
        if self.rounds < self.next_look {
            return false;
        }
        self.next_look = self.next_look.saturating_mul(LATER);
        self.offers = None;
        see_work(&mut self.work, nodes, self.steps.max(1));
        true
    }

    /// The number of workers for a round: in the first one all that there may be, and later as many as pay, but never more than nodes. It
    /// takes memory; if there is none, fewer numbers are compared.
    pub(crate) fn choose(&mut self, alloc: Global, core: &Core, steps: u32, most: u32) -> u32
        requires plan { IsPlan (plan_of core.now) × (items_of (plan_of core.now) + 2 ^ 18 < 2 ^ 32) }
        requires workers { most ≤ 2 ^ 16 }
        ensures { result ≤ most }
    {
        let useful = useful_workers(most, self.work.len());
        let is_first = self.rounds == 0;
        self.count(steps);
        if is_first || useful <= 1 {
            return useful;
        }
        self.compare(alloc, core, useful);
        self.best_workers(steps).min(useful)
    }

    // One more round, of so many supersteps.
    fn count(&mut self, steps: u32) {
        self.rounds = self.rounds.saturating_add(1);
        self.steps = self.steps.saturating_add(steps as u64);
    }

    // Finds what at most so many workers make of the net, unless it is known.
    fn compare(&mut self, alloc: Global, core: &Core, most: u32)
        requires plan { IsPlan (plan_of core.now) × (items_of (plan_of core.now) + 2 ^ 18 < 2 ^ 32) }
        requires workers { most ≤ 2 ^ 16 }
    {
        if is_known(&self.offers, most) {
            return;
        }
        let items = find_offers(alloc, core, self.work.as_slice(), most);
        self.offers = Some(Offers { most, items });
    }

    // The number that takes the least time. Several workers have to save a tenth of the time of one.
    fn best_workers(&self, steps: u32) -> u32 {
        let alone = total_work(self.work.as_slice()) / 10;
        match &self.offers {
            None => 1,
            Some(offers) => best_offer(offers.items.as_slice(), alone.saturating_mul(9), steps),
        }
    }
}

fn useful_workers(most: u32, nodes: usize) -> u32
    ensures { result ≤ most }
{
    if nodes < most as usize {
        nodes as u32
    } else {
        most
    }
}

fn is_known(offers: &Option<Offers>, most: u32) -> bool {
    match offers {
        None => false,
        Some(offers) => offers.most == most,
    }
}

fn total_work(work: &[u64]) -> u64 {
    let mut sum = 0u64;
    for it in work {
        sum = sum.saturating_add(*it);
    }
    sum
}

// The workers of the offer that takes the least time, and one where none takes less than `alone`.
fn best_offer(offers: &[Offer], alone: u64, steps: u32) -> u32 {
    let mut best = 1u32;
    let mut least = alone;
    for offer in offers {
        let time = time_of(*offer, steps);
        if time < least {
            best = offer.workers;
            least = time;
        }
    }
    best
}

// What a superstep takes: the heaviest share, the meetings of workers, and starting threads once a round.
fn time_of(offer: Offer, steps: u32) -> u64 {
    let workers = offer.workers.max(1) as u64;
    let starting = THREAD.saturating_mul(workers) / steps.max(1) as u64;
    let meeting = if offer.crossing == 0 {
        0
    } else {
        MEETING.saturating_add(offer.crossing.saturating_mul(CROSSING))
    };
    offer
        .heaviest
        .saturating_add(meeting)
        .saturating_add(starting)
}

fn find_offers(alloc: Global, core: &Core, work: &[u64], most: u32) -> Vec<Offer>
    requires plan { IsPlan (plan_of core.now) × (items_of (plan_of core.now) + 2 ^ 18 < 2 ^ 32) }
    requires workers { most ≤ 2 ^ 16 }
{
    let mut offers = Vec::new(alloc);
    // out of memory, there are fewer
    let _refused = add_offers(alloc, core, work, most, &mut offers);
    offers
}

fn add_offers(
    alloc: Global,
    core: &Core,
    work: &[u64],
    most: u32,
    offers: &mut Vec<Offer>,
) -> Result<(), AllocError>
    requires plan { IsPlan (plan_of core.now) × (items_of (plan_of core.now) + 2 ^ 18 < 2 ^ 32) }
    requires workers { most ≤ 2 ^ 16 }
{
    let mut workers = most;
    'halving: while workers > 1 {
        let offer = find_offer(alloc, core, work, workers)?;
        offers.push(offer)?;
        workers /= 2;
    }
    Ok(())
}

fn find_offer(alloc: Global, core: &Core, work: &[u64], workers: u32) -> Result<Offer, AllocError>
    requires plan { IsPlan (plan_of core.now) × (items_of (plan_of core.now) + 2 ^ 18 < 2 ^ 32) }
    requires workers { (0 < workers) × (workers ≤ 2 ^ 16) }
{
    let plan = find_plan(alloc, core)?;
    let made = partition(alloc, &plan, work, workers)?;
    Ok(Offer {
        workers,
        heaviest: made.heaviest,
        crossing: made.groups.crossing.len() as u64,
    })
}

fn node_work(node: &NodeC, program: Option<&BoxProgram>) -> u64 {
    match (node, program) {
        (NodeC::Rules(_), Some(program)) => HALF_STEPS + program.work as u64,
        _ => HALF_STEPS,
    }
}

// For each node its work in a superstep, as it was run in so many.
fn see_work(work: &mut Vec<u64>, nodes: &[BoxCell], steps: u64)
    requires { 1 ≤ steps }
{
    for (place, node) in nodes.iter().enumerate() {
        if place < work.len() {
            work[place] = (node.ran() / steps).saturating_add(HALF_STEPS);
        }
    }
}

fn count_boxes(node: &NodeC) -> usize {
    match node {
        NodeC::Rules(_) => 1,
        NodeC::From(_) | NodeC::To(_) => 0,
    }
}
