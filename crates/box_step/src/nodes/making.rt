//! Cells of nodes before their first half step.
ghost use Rattle.std.specs.Prelude.{◌≡◌, ◌≤◌, ℕ, IfOk, MatchOption, Option, Some, slice_get};
ghost use Rattle.hume_base.specs.Sizes.{HaveTheirSizes, size_of};
ghost use Rattle.hume_base.specs.declared.limits.TheConstants.{MAX_TYPE_WORDS};
ghost use Rattle.hume_base.specs.declared.types.Ty.TheVariants as shape;
ghost use Rattle.hume_model.specs.declared.core_tree.NodeC.TheVariants.{Rules, From as AnInput, To as AnOutput};
ghost use Rattle.hume_model.specs.declared.core_tree.StreamC.{StreamC as AnyStream};
ghost use Rattle.hume_net.specs.Sides.{wire_from, wire_to};
ghost use Rattle.hume_streams.specs.Logs.{log_view};
ghost use Rattle.hume_streams.specs.Queues.{first_view, queue_view};
ghost use Rattle.box_code.specs.declared.program.BoxProgram.{BoxProgram as AnyProgram};
ghost use Rattle.box_step.specs.Boxes.{TakesLittle};
ghost use Rattle.box_step.specs.nodes.Beginnings.{BeginsAt, HasItsProgram, first_log, first_queue};
ghost use Rattle.box_step.specs.nodes.Openings.{Opening, IsOpeningOf};
ghost use Rattle.box_step.specs.nodes.Right.{IsRightNode};
ghost use Rattle.box_step.specs.nodes.Sides.{type_found};

use crate::compiled::CompiledBox;
use crate::nodes::cell::{BoxCell, Kind};
use box_code::BoxProgram;
use hume_base::Ty;
use hume_model::{BoxC, Core, NodeC, WireC};
use hume_streams::{InQueue, OutLog};
use std::alloc::{AllocError, Global};

impl BoxCell {
    /// The cell of the node of that number, at time 0, by the bare form of the core. There is a program exactly for a box, and
    /// `span` says how many values the queue or log of a stream has room for. Heap and stack have exactly the lengths that are printed.
    pub fn make(
        alloc: Global,
        core: &Core,
        number: u32,
        program: Option<BoxProgram>,
        span: u32,
    ) -> Result<BoxCell, AllocError>
        requires opens { (opening : Opening) × IsOpeningOf core.now opening }
        requires program { HasItsProgram (slice_get core.now.nodes number) program }
        ensures number { IfOk result (λ cell. cell.number ≡ number) }
        ensures time { IfOk result (λ cell. cell.time ≡ 0) }
        ensures right { IfOk result (λ cell. (opening : Opening) → IsOpeningOf core.now opening → BeginsAt opening number span program
            → IsRightNode opening number 0 cell.kind) }
    {
        let kind = make_kind(alloc, core, number, program, span)?;
        Ok(BoxCell {
            number,
            time: 0,
            kind,
        })
    }
}

fn make_kind(
    alloc: Global,
    core: &Core,
    number: u32,
    program: Option<BoxProgram>,
    span: u32,
) -> Result<Kind, AllocError>
    requires opens { (opening : Opening) × IsOpeningOf core.now opening }
    requires program { HasItsProgram (slice_get core.now.nodes number) program }
    ensures { IfOk result (λ kind. (opening : Opening) → IsOpeningOf core.now opening → BeginsAt opening number span program
        → IsRightNode opening number 0 kind) }
{
    match core.nodes.get(number as usize) {
        None => unreachable!(),
        Some(NodeC::Rules(b)) => make_box(alloc, core, number, b, program),
        Some(NodeC::From(_)) => make_queue(alloc, core, number, span),
        Some(NodeC::To(_)) => make_log(alloc, core, number, span),
    }
}

fn make_box(
    alloc: Global,
    core: &Core,
    number: u32,
    b: &BoxC,
    program: Option<BoxProgram>,
) -> Result<Kind, AllocError>
    requires opens { (opening : Opening) × IsOpeningOf core.now opening }
    requires there { slice_get core.now.nodes number ≡ Some (Rules b.now) }
    requires program { (its : AnyProgram) × (program ≡ Some its) × TakesLittle its }
    ensures { IfOk result (λ kind. (opening : Opening) (span : ℕ) → IsOpeningOf core.now opening → BeginsAt opening number span program
        → IsRightNode opening number 0 kind) }
{
    match program {
        None => unreachable!(),
        Some(program) => {
            let compiled = CompiledBox::make(alloc, core, b, program)?;
            Ok(Kind::Coded(Box::new(alloc, compiled)?))
        }
    }
}

fn make_queue(alloc: Global, core: &Core, number: u32, span: u32) -> Result<Kind, AllocError>
    requires opens { (opening : Opening) × IsOpeningOf core.now opening }
    requires there { (stream : AnyStream) × (slice_get core.now.nodes number ≡ Some (AnInput stream)) }
    ensures { IfOk result (λ kind. (opening : Opening) (program : Option AnyProgram) → IsOpeningOf core.now opening → BeginsAt opening number span program
        → IsRightNode opening number 0 kind) }
{
    let queue = first_queue(alloc, core, number, span)?;
    Ok(Kind::Queued(Box::new(alloc, queue)?))
}

fn make_log(alloc: Global, core: &Core, number: u32, span: u32) -> Result<Kind, AllocError>
    requires opens { (opening : Opening) × IsOpeningOf core.now opening }
    requires there { (stream : AnyStream) × (slice_get core.now.nodes number ≡ Some (AnOutput stream)) }
    ensures { IfOk result (λ kind. (opening : Opening) (program : Option AnyProgram) → IsOpeningOf core.now opening → BeginsAt opening number span program
        → IsRightNode opening number 0 kind) }
{
    let log = first_log(alloc, core, number, span)?;
    Ok(Kind::Logged(Box::new(alloc, log)?))
}

// A queue for values of the type of the wire that comes from the node.
fn first_queue(alloc: Global, core: &Core, number: u32, span: u32) -> Result<InQueue, AllocError>
    requires { (opening : Opening) × IsOpeningOf core.now opening }
    ensures { IfOk result (λ queue. queue_view queue ≡ first_queue core.now number span) }
{
    match found_wire(core, wire_out_of(core, number)) {
        None => InQueue::make(alloc, &core.types, &Ty::Bool, span),
        Some(wire) => InQueue::make(alloc, &core.types, &wire.ty, span),
    }
}

// A log for values of the type of the wire that leads to the node.
fn first_log(alloc: Global, core: &Core, number: u32, span: u32) -> Result<OutLog, AllocError>
    requires { (opening : Opening) × IsOpeningOf core.now opening }
    ensures { IfOk result (λ log. log_view log ≡ first_log core.now number span) }
{
    match found_wire(core, wire_into(core, number)) {
        None => OutLog::make(alloc, &core.types, &Ty::Bool, span),
        Some(wire) => OutLog::make(alloc, &core.types, &wire.ty, span),
    }
}

fn wire_out_of(core: &Core, number: u32) -> Option<usize>
    ensures { result ≡ wire_from core.now number 0 }
{
    core.wires
        .as_slice()
        .iter()
        .position(|wire| wire.from == number && wire.from_port == 0)
}

fn wire_into(core: &Core, number: u32) -> Option<usize>
    ensures { result ≡ wire_to core.now number 0 }
{
    core.wires
        .as_slice()
        .iter()
        .position(|wire| wire.to == number && wire.to_port == 0)
}

// The wire of that number, if there is one.
fn found_wire(core: &Core, found: Option<usize>) -> Option<&WireC>
    ensures { MatchOption result (type_found core.now found ≡ shape.Bool)
        (λ wire. (type_found core.now found ≡ wire.now.ty) × ((w : ℕ) × (slice_get core.now.wires w ≡ Some wire.now))) }
{
    match found {
        None => None,
        Some(w) => core.wires.get(w),
    }
}
