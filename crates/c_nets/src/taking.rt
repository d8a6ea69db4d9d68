//! What a box does around its rules.
ghost use Rattle.std.specs.Prelude.{◌≡◌};
ghost use Rattle.c_forms.specs.Gives.{Gives};
ghost use Rattle.c_nets.specs.Taking.{handled, handler_called, taken, taken_at, taken_from, wait, waited};

use crate::inlets::{Inlet, holds_one, is_there, take_out};
use crate::net::input_at;
use crate::parts::pending;
use c_forms::{append, binary, calls, comment, copy_exp, ends, number, of_one, of_two, one_if};
use c_names::Names;
use c_tree::{CExp, COp, CStm};
use hume_base::{Box, List};
use hume_model::{BoxC, Core, InPat};
use std::alloc::Global;

/// A box whose outputs wait for room does nothing.
pub fn wait(alloc: Global, names: &Names, b: &BoxC) -> Option<Box<CStm>>
    ensures { Gives result (wait names.now b.now) }
{
    let has = pending(alloc, names, b);
    let test = binary(alloc, COp::NotEqual, has, number(alloc, 0));
    one_if(alloc, test, waited(alloc))
}

fn waited(alloc: Global) -> Option<List<CStm>>
    ensures { Gives result waited }
{
    let reason = comment(alloc, b"outputs wait for room");
    of_two(alloc, reason, ends(alloc))
}

/// What the positions of a rule take leaves its wires.
#[tactic(auto, using(crate::proofs::Below::below_steps))]
pub fn taken(
    alloc: Global,
    core: &Core,
    names: &Names,
    node: usize,
    b: &BoxC,
    positions: &[InPat],
) -> Option<List<CStm>>
    ensures { Gives result (taken_from core.now names.now node b.now 0 positions.now) }
{
    let mut statements = List::new(alloc);
    for (place, position) in positions.iter().enumerate() {
        let inlet = input_at(alloc, core, names, node, b, place).ok()?;
        append(&mut statements, taken_at(alloc, &inlet, position))?;
    }
    Some(statements)
}

fn taken_at(alloc: Global, inlet: &Option<Inlet>, position: &InPat) -> Option<List<CStm>>
    ensures { Gives result (taken_at inlet.now position.now) }
{
    match inlet {
        None => Some(List::new(alloc)),
        Some(inlet) => taken_from(alloc, inlet, position),
    }
}

fn taken_from(alloc: Global, inlet: &Inlet, position: &InPat) -> Option<List<CStm>>
    ensures { Gives result (taken inlet.now position.now) }
{
    match position {
        InPat::Star => Some(List::new(alloc)),
        InPat::AnyStar => {
            let taken = take_out(alloc, inlet);
            if holds_one(inlet.depth) {
                return taken;
            }
            of_one(alloc, one_if(alloc, is_there(alloc, inlet), taken))
        }
        InPat::Any | InPat::Built(_) => take_out(alloc, inlet),
    }
}

/// An exception that a rule has raised is handled.
pub fn handled(alloc: Global, names: &Names, b: &BoxC, status: Box<CExp>) -> Option<Box<CStm>>
    ensures { Gives result (handled names.now b.now status) }
{
    let given = copy_exp(alloc, &status);
    let test = binary(alloc, COp::NotEqual, given, number(alloc, 0));
    one_if(alloc, test, handler_called(alloc, names, b, status))
}

fn handler_called(alloc: Global, names: &Names, b: &BoxC, status: Box<CExp>) -> Option<List<CStm>>
    ensures { Gives result (handler_called names.now b.now status) }
{
    let arguments = of_one(alloc, Some(status));
    let handler = names.handler(alloc, b.name.bytes()).ok();
    of_one(alloc, calls(alloc, handler, arguments))
}
