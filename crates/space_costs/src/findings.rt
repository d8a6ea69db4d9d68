//! The least of the rules that the bounds of a core's boxes break.
ghost use Rattle.std.specs.Prelude.{◌≡◌, ◌+◌, ◌≤◌, nat_le, nat_lt, ◌&&◌, ℕ, None, Some, if◌then◌else◌};
ghost use Rattle.hume_base.specs.declared.rule.Rule.TheVariants.{C78};
ghost use Rattle.hume_base.specs.declared.limits.TheConstants.{MAX_SPACE_WORDS as MOST_WORDS};
ghost use Rattle.hume_base.specs.Least.{IsLeast, OfRule, earlier_of, finding_of};
ghost use Rattle.box_costs.specs.declared.cost.Cost.{Cost as AnyCost};
ghost use Rattle.box_costs.specs.CostRules.{BreaksCosts, OfNode, SpacePasses, space_of};
ghost use Rattle.space_costs.specs.inner.Standing.{AreNodeCosts, IsCostOf, counted};
ghost use Rattle.space_costs.specs.inner.Parts.{rule_of, PartPasses, past_limit};

use crate::combine::sum;
use box_costs::Cost;
use hume_base::limits::{MAX_HEAP_WORDS, MAX_SPACE_WORDS, MAX_STACK_WORDS, MAX_WORK};
use hume_base::{Finding, Rule, earlier};
use hume_model::Core;

/// A part of a cost that has a limit of its own.
#[derive(Clone, Copy)]
pub(crate) enum Part {
    Heap,
    Stack,
    Work,
}

pub(crate) fn least_broken(core: &Core, costs: &[Cost]) -> Option<Finding>
    requires { AreNodeCosts core.now core.now.nodes costs.now }
    ensures { IsLeast (BreaksCosts core.now) result }
{
    let heap = least_past(core, costs, Part::Heap);
    let stack = least_past(core, costs, Part::Stack);
    let space = least_in_sum(core, costs);
    let work = least_past(core, costs, Part::Work);
    earlier(heap, earlier(stack, earlier(space, work)))
}

/// The least box of which the part passes its limit.
fn least_past(core: &Core, costs: &[Cost], part: Part) -> Option<Finding>
    requires { AreNodeCosts core.now core.now.nodes costs.now }
    ensures { IsLeast (OfRule (rule_of part) (OfNode core.now (PartPasses part))) result }
{
    let nodes = core.nodes.as_slice();
    let mut least = None;
    for n in 0..nodes.len() {
        let cost = &costs[n];
        least = with_found(
            least,
            is_past(cost, part),
            rule(part),
            nodes[n].declaration(),
        );
    }
    least
}

/// The box at which the sum of heap and stack passes its limit.
fn least_in_sum(core: &Core, costs: &[Cost]) -> Option<Finding>
    requires { AreNodeCosts core.now core.now.nodes costs.now }
    ensures { IsLeast (OfRule C78 (OfNode core.now SpacePasses)) result }
{
    let nodes = core.nodes.as_slice();
    let mut least = None;
    let mut before = 0;
    for n in 0..nodes.len() {
        let cost = &costs[n];
        let through = sum(before, space(cost));
        let passes = is_passed(before, through);
        least = with_found(least, passes, Rule::C78, nodes[n].declaration());
        before = through;
    }
    least
}

/// Words of heap and stack.
fn space(cost: &Cost) -> u32
    ensures { (a : AnyCost) → IsCostOf cost.now a → result ≡ counted (space_of a) }
{
    sum(cost.heap, cost.stack)
}

/// Whether a sum passes the limit of all boxes.
fn is_passed(before: u32, through: u32) -> bool
    ensures { result ≡ (nat_le before MOST_WORDS && nat_lt MOST_WORDS through) }
{
    before <= MAX_SPACE_WORDS && through > MAX_SPACE_WORDS
}

/// The earlier of the least finding and that of the rule at the declaration, if the rule is broken there.
fn with_found(least: Option<Finding>, broken: bool, rule: Rule, declaration: u32) -> Option<Finding>
    ensures { result ≡ (if broken then earlier_of least (finding_of rule (Some declaration)) else least) }
{
    if broken {
        earlier(least, Some(Finding { rule, declaration }))
    } else {
        least
    }
}

fn rule(part: Part) -> Rule
    ensures { result ≡ rule_of part }
{
    match part {
        Part::Heap => Rule::C75,
        Part::Stack => Rule::C76,
        Part::Work => Rule::C79,
    }
}

fn is_past(cost: &Cost, part: Part) -> bool
    ensures { result ≡ past_limit part cost.now }
{
    match part {
        Part::Heap => cost.heap > MAX_HEAP_WORDS,
        Part::Stack => cost.stack > MAX_STACK_WORDS,
        Part::Work => cost.work > MAX_WORK,
    }
}
