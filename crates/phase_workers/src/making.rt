//! The parts of an engine before its first superstep.
ghost use Rattle.std.specs.Prelude.{◌≡◌, ◌≤◌, ℕ, length, None, IfOk};
ghost use Rattle.hume_base.specs.Least.{IsLeast};
ghost use Rattle.hume_model.specs.WellFormed.{HasSoundFrame};
ghost use Rattle.hume_net.specs.StatePlaces.{BoxesHandleAll};
ghost use Rattle.model_bare.specs.Bare.{bare_of};
ghost use Rattle.wiring_check.specs.Wires.{IsWiringOf};
ghost use Rattle.box_costs.specs.CostRules.{BreaksCosts};
ghost use Rattle.box_compile.specs.Programs.{AreProgramsOf};
ghost use Rattle.box_step.specs.nodes.Openings.{IsOpeningOf};
ghost use Rattle.phase_workers.specs.Runnable.{IsRunnable};
ghost use Rattle.phase_workers.specs.inner.Going.{ArePaths};
ghost use Rattle.phase_workers.specs.inner.Making.{AreFirstNodes, AreFirstWires, IsNextProgram, first_opening};

use crate::paths::Paths;
use box_code::BoxProgram;
use box_step::nodes::BoxCell;
use hume_base::List;
use hume_model::{Core, NodeC};
use model_bare::bare;
use std::alloc::{AllocError, Global};
use wire_cells::WireCell;
use wiring_check::Wiring;

/// What is made of a core: its bare form, the paths of its half steps, and the cells of its nodes and wires.
#[derive(Drop)]
pub(crate) struct FirstParts {
    pub bare: Core,
    pub paths: Paths,
    pub nodes: Vec<BoxCell>,
    pub home: Vec<Option<WireCell>>,
}

/// The parts of an engine. What is large is made last, so that less is dropped where memory runs out.
pub(crate) fn make_parts(
    alloc: Global,
    core: &Core,
    wiring: &Wiring,
    programs: List<BoxProgram>,
    span: u32,
) -> Result<FirstParts, AllocError>
    requires runnable { IsRunnable core.now }
    requires handles { BoxesHandleAll core.now }
    requires wiring { IsWiringOf core.now wiring.now }
    requires programs { AreProgramsOf core.now programs }
    requires within { IsLeast (BreaksCosts core.now) None }
    ensures bare { IfOk result (λ parts. parts.bare ≡ bare_of core.now) }
    ensures paths { IfOk result (λ parts. ArePaths parts.bare parts.paths) }
    ensures nodes { IfOk result (λ parts. AreFirstNodes core.now span (length core.now.nodes) parts.nodes.items) }
    ensures home { IfOk result (λ parts. AreFirstWires core.now (length core.now.wires) parts.home.items) }
{
    let home = make_home(alloc, core)?;
    let paths = Paths::undivided(alloc, core, wiring, &programs)?;
    let bare = bare(alloc, core)?;
    let nodes = make_nodes(alloc, core, &bare, programs, span)?;
    Ok(FirstParts {
        bare,
        paths,
        nodes,
        home,
    })
}

/// The cells of all nodes, by the core and its bare form.
pub(crate) fn make_nodes(
    alloc: Global,
    core: &Core,
    bare: &Core,
    programs: List<BoxProgram>,
    span: u32,
) -> Result<Vec<BoxCell>, AllocError>
    requires opens { IsOpeningOf bare.now (first_opening core.now span) }
    requires programs { AreProgramsOf core.now programs }
    requires within { IsLeast (BreaksCosts core.now) None }
    ensures { IfOk result (λ nodes. AreFirstNodes core.now span (length core.now.nodes) nodes.items) }
{
    let mut rest = programs;
    let mut nodes = Vec::new(alloc);
    for n in 0..core.nodes.len() {
        let program = next_program(&core.nodes.as_slice()[n], &mut rest);
        let cell = BoxCell::make(alloc, bare, n as u32, program, span)?;
        nodes.push(cell)?;
    }
    Ok(nodes)
}

// Takes the program of a box from those that are left. A stream has none.
fn next_program(node: &NodeC, rest: &mut List<BoxProgram>) -> Option<BoxProgram>
    ensures { IsNextProgram node.now rest.old rest.new result }
{
    match node {
        NodeC::Rules(_) => rest.take_first(),
        NodeC::From(_) | NodeC::To(_) => None,
    }
}

/// The cells of all wires.
pub(crate) fn make_home(alloc: Global, core: &Core) -> Result<Vec<Option<WireCell>>, AllocError>
    requires { HasSoundFrame core.now }
    ensures { IfOk result (λ home. AreFirstWires core.now (length core.now.wires) home.items) }
{
    let mut home = Vec::new(alloc);
    for w in 0..core.wires.len() {
        let cell = WireCell::make(alloc, core, w as u32)?;
        home.push(Some(cell))?;
    }
    Ok(home)
}
