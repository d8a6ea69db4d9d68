//! The programs of a core's boxes.
ghost use Rattle.std.specs.Prelude.{◌≡◌, ◌++◌, List, Some, IfOk, OnOk, option_to_list, slice_get};
ghost use Rattle.hume_model.specs.declared.core_tree.BoxC.{BoxC as AnyBox};
ghost use Rattle.box_costs.specs.CostRules.{node_bound};
ghost use Rattle.box_costs.specs.Bounds.{box_bound};
ghost use Rattle.space_costs.specs.NodeCosts.{AreCosts};
ghost use Rattle.box_code.specs.RepresentsBox.{RepresentsBox};
ghost use Rattle.box_compile.specs.Programs.{AreProgramsFor, AreProgramsOf, box_in};

use crate::boxes::box_program;
use crate::counts::count;
use box_code::BoxProgram;
use hume_base::List;
use hume_model::{Core, NodeC};
use space_costs::Costs;
use std::alloc::{AllocError, Global};

/// The program of each box of the core, in source order. An operand that has no room in its part of a word, a code that is
/// too long, and a call of a function that isn't there are answered by want of memory, and no accepted program has them.
pub fn compile(alloc: Global, core: &Core, costs: &Costs) -> Result<List<BoxProgram>, AllocError>
    requires { AreCosts core.now costs.now }
    ensures { IfOk result (AreProgramsOf core.now) }
{
    let mut programs = List::new(alloc);
    let count = count(core.nodes.len())?;
    for i in 0..count {
        add_program(
            alloc,
            core,
            costs,
            i,
            &core.nodes[i as usize],
            &mut programs,
        )?;
    }
    Ok(programs)
}

// Adds the program of the node of the number, if it is a box.
fn add_program(
    alloc: Global,
    core: &Core,
    costs: &Costs,
    number: u32,
    node: &NodeC,
    programs: &mut List<BoxProgram>,
) -> Result<(), AllocError>
    requires costs { AreCosts core.now costs.now }
    requires node { slice_get core.now.nodes number ≡ Some node.now }
    ensures { OnOk result ((boxes : List AnyBox) → AreProgramsFor core.now boxes programs.old
        → AreProgramsFor core.now (boxes ++ option_to_list (box_in node.now)) programs.new) }
{
    match node {
        NodeC::Rules(b) => {
            let heap = costs.heap(number);
            let stack = costs.stack(number);
            let work = costs.work(number);
            let program = box_program(alloc, core, b, heap, stack, work)?;
            programs.push(program)
        }
        NodeC::From(_) => Ok(()),
        NodeC::To(_) => Ok(()),
    }
}
