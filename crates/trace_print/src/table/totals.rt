//! The words that all boxes may take together.
ghost use Rattle.std.specs.Prelude.{◌≡◌, None};
ghost use Rattle.hume_base.specs.Least.{IsLeast};
ghost use Rattle.hume_model.specs.WellFormed.{HasSoundFrame};
ghost use Rattle.box_costs.specs.CostRules.{BreaksCosts};
ghost use Rattle.space_costs.specs.NodeCosts.{AreCosts};
ghost use Rattle.trace_print.specs.table.Table.{total_heap as heap_of_all, total_stack as stack_of_all};

use hume_model::Core;
use space_costs::Costs;

/// Words of heap.
pub(crate) fn total_heap(core: &Core, costs: &Costs) -> u32
    requires frame { HasSoundFrame core.now }
    requires costs { AreCosts core.now costs.now }
    requires within { IsLeast (BreaksCosts core.now) None }
    ensures { result ≡ heap_of_all core.now }
{
    let mut heap = 0;
    for node in 0..core.nodes.len() {
        heap += costs.heap(node as u32);
    }
    heap
}

/// Words of stack.
pub(crate) fn total_stack(core: &Core, costs: &Costs) -> u32
    requires frame { HasSoundFrame core.now }
    requires costs { AreCosts core.now costs.now }
    requires within { IsLeast (BreaksCosts core.now) None }
    ensures { result ≡ stack_of_all core.now }
{
    let mut stack = 0;
    for node in 0..core.nodes.len() {
        stack += costs.stack(node as u32);
    }
    stack
}
