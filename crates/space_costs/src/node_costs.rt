//! The costs of nodes.
ghost use Rattle.std.specs.Prelude.{◌≡◌, ◌<◌, Some, length, option_map, slice_get};
ghost use Rattle.box_costs.specs.declared.cost.Cost.{Cost as AnyCost};

use box_costs::Cost;
use hume_base::List;
use std::marker::Model;

/// For each node of a core the most that its execute step takes: nothing for a stream.
#[derive(Drop)]
pub struct Costs {
    costs: List<Cost>,
}

impl Model for Costs {
    ghost use Rattle.std.specs.Prelude.{List};
    ghost use Rattle.box_costs.specs.declared.cost.Cost.{Cost};

    ghost Value = { List Cost };

    ghost view = { λ costs. costs.costs };
}

impl Costs {
    /// The costs, in the order of the nodes' numbers.
    pub fn of(costs: List<Cost>) -> Costs
        ensures { result ≡ costs }
    {
        Costs { costs }
    }

    /// Words of heap.
    pub fn heap(&self, node: u32) -> u32
        requires { node < length self.now }
        ensures { option_map (λ (cost : AnyCost). cost.heap) (slice_get self.now node) ≡ Some result }
    {
        self.costs[node as usize].heap
    }

    /// Words of stack.
    pub fn stack(&self, node: u32) -> u32
        requires { node < length self.now }
        ensures { option_map (λ (cost : AnyCost). cost.stack) (slice_get self.now node) ≡ Some result }
    {
        self.costs[node as usize].stack
    }

    /// Instructions.
    pub fn work(&self, node: u32) -> u32
        requires { node < length self.now }
        ensures { option_map (λ (cost : AnyCost). cost.work) (slice_get self.now node) ≡ Some result }
    {
        self.costs[node as usize].work
    }
}
