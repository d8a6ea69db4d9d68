ghost use Rattle.std.specs.Prelude.{◌≡◌, ◌<◌, ◌≤◌, ◌∷◌, [], None, Some, length, map, slice_get};
ghost use Rattle.std.specs.List.{filter_map};
ghost use Rattle.std.specs.Option.{option_to_list};
ghost use Rattle.hume_base.specs.Least.{IsLeast};
ghost use Rattle.hume_model.specs.declared.core_tree.NodeC.{NodeC as AnyNode};
ghost use Rattle.hume_model.specs.WellFormed.{HasSoundFrame};
ghost use Rattle.hume_ports.specs.Ports.{names};
ghost use Rattle.hume_text.specs.Chunks.{room_of};
ghost use Rattle.box_costs.specs.CostRules.{BreaksCosts};
ghost use Rattle.space_costs.specs.NodeCosts.{AreCosts};
ghost use Rattle.trace_print.specs.InTurn.{EndsLines};
ghost use Rattle.trace_print.specs.declared.space_lines.TheConstants.{LINE_BYTES as ROOM};
ghost use Rattle.trace_print.specs.table.Table.{box_line, space_table, total_line_of};

use crate::table::totals::{total_heap, total_stack};
use crate::{lines_are_short, space_line, total_line};
use box_costs::Cost;
use hume_model::{Core, NodeC};
use hume_ports::{Failed, Port};
use hume_text::Chunk;
use port_acts::write_act;
use space_costs::Costs;

/// Writes each line of the table to the port at that place, by a write of its own. The chunk has room for a line. It takes no
/// memory.
pub fn write_table(
    core: &Core,
    costs: &Costs,
    chunk: &mut Chunk,
    ports: &mut [Box<dyn Port>],
    at: usize,
) -> Result<(), Failed>
    requires frame { HasSoundFrame core.now }
    requires costs { AreCosts core.now costs.now }
    requires within { IsLeast (BreaksCosts core.now) None }
    requires room { ROOM ≤ room_of chunk.old }
    requires place { at < length ports.old }
    ensures ends { EndsLines at (space_table core.now) (map view ports.old) (map view ports.new) result }
    ensures same_names { names (map view ports.new) ≡ names (map view ports.old) }
    ensures room { room_of chunk.new ≡ room_of chunk.old }
{
    match write_boxes(core, costs, chunk, ports, at) {
        Ok(()) => {}
        Err(failed) => return Err(failed),
    }
    write_total(core, costs, chunk, ports, at)
}

/// Writes the lines of all boxes, in source order, to the port at that place.
pub fn write_boxes(
    core: &Core,
    costs: &Costs,
    chunk: &mut Chunk,
    ports: &mut [Box<dyn Port>],
    at: usize,
) -> Result<(), Failed>
    requires frame { HasSoundFrame core.now }
    requires costs { AreCosts core.now costs.now }
    requires within { IsLeast (BreaksCosts core.now) None }
    requires room { ROOM ≤ room_of chunk.old }
    requires place { at < length ports.old }
    ensures ends { EndsLines at (filter_map (box_line core.now) core.now.nodes) (map view ports.old) (map view ports.new) result }
    ensures same_names { names (map view ports.new) ≡ names (map view ports.old) }
    ensures room { room_of chunk.new ≡ room_of chunk.old }
{
    for node in 0..core.nodes.len() {
        match write_node(core, costs, node, chunk, ports, at) {
            Ok(()) => {}
            Err(failed) => return Err(failed),
        }
    }
    Ok(())
}

// The line of a node, if it is a box.
fn write_node(
    core: &Core,
    costs: &Costs,
    node: usize,
    chunk: &mut Chunk,
    ports: &mut [Box<dyn Port>],
    at: usize,
) -> Result<(), Failed>
    requires frame { HasSoundFrame core.now }
    requires costs { AreCosts core.now costs.now }
    requires within { IsLeast (BreaksCosts core.now) None }
    requires there { node < length core.now.nodes }
    requires room { ROOM ≤ room_of chunk.old }
    requires place { at < length ports.old }
    ensures ends { (this : AnyNode) → slice_get core.now.nodes node ≡ Some this
        → EndsLines at (option_to_list (box_line core.now this)) (map view ports.old) (map view ports.new) result }
    ensures same_names { names (map view ports.new) ≡ names (map view ports.old) }
    ensures room { room_of chunk.new ≡ room_of chunk.old }
{
    let NodeC::Rules(b) = &core.nodes[node] else {
        return Ok(());
    };
    let bound = bound_of(costs, node as u32);
    lines_are_short();
    chunk.clear();
    space_line(b.name.bytes(), bound, chunk);
    write_act(ports, at, chunk.bytes())
}

/// Writes the line of all boxes together to the port at that place.
pub fn write_total(
    core: &Core,
    costs: &Costs,
    chunk: &mut Chunk,
    ports: &mut [Box<dyn Port>],
    at: usize,
) -> Result<(), Failed>
    requires frame { HasSoundFrame core.now }
    requires costs { AreCosts core.now costs.now }
    requires within { IsLeast (BreaksCosts core.now) None }
    requires room { ROOM ≤ room_of chunk.old }
    requires place { at < length ports.old }
    ensures ends { EndsLines at (total_line_of core.now ∷ []) (map view ports.old) (map view ports.new) result }
    ensures same_names { names (map view ports.new) ≡ names (map view ports.old) }
    ensures room { room_of chunk.new ≡ room_of chunk.old }
{
    let heap = total_heap(core, costs);
    let stack = total_stack(core, costs);
    lines_are_short();
    chunk.clear();
    total_line(heap, stack, chunk);
    write_act(ports, at, chunk.bytes())
}

// The most that the node may take.
fn bound_of(costs: &Costs, node: u32) -> Cost
    requires { node < length costs.now }
    ensures { slice_get costs.now node ≡ Some result }
{
    Cost {
        heap: costs.heap(node),
        stack: costs.stack(node),
        work: costs.work(node),
    }
}
