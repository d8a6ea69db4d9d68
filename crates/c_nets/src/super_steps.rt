//! The super step of a box.
ghost use Rattle.std.specs.Prelude.{◌≡◌, ℕ, List, ◌∷◌, []};
ghost use Rattle.c_tree.specs.declared.tree.COp.TheVariants as op;
ghost use Rattle.c_tree.specs.declared.tree.CExp.TheVariants as exp;
ghost use Rattle.c_forms.specs.Gives.{Gives};
ghost use Rattle.c_nets.specs.Inlets.{no_room, number};
ghost use Rattle.c_nets.specs.Parts.{pending};
ghost use Rattle.c_nets.specs.SuperSteps.{asserted, asserted_at, asserted_on, blocked, is_pending, made_if_pending, plain_head};
ghost use Rattle.c_nets.specs.SuperSteps.{plain_function, super_function, test_at, tested_if_pending};

use crate::inlets::{Inlet, no_room, put_in};
use crate::net::target_of;
use crate::parts::{bit_of, mask_width, output_of, pending};
use c_forms::{
    all as all_of, any, append, assign, before, binary, ends, equal, function, number, of_one,
    one_if, unsigned, with,
};
use c_names::Names;
use c_tree::{CExp, CHead, CItem, COp, CStm, Linkage};
use hume_base::{Box, List, Text};
use hume_model::{BoxC, Core};
use std::alloc::Global;

/// The function of the super step: all pending outputs are asserted, or none if one has no room. Where each result gives all
/// outputs, either all are pending or none.
pub fn super_function(
    alloc: Global,
    core: &Core,
    names: &Names,
    node: usize,
    b: &BoxC,
    all: bool,
) -> Option<Box<CItem>>
    ensures { Gives result (super_function core.now names.now node b.now all) }
{
    let back = of_one(alloc, ends(alloc));
    let test = blocked(alloc, core, names, node, b, all);
    let none = assign(alloc, pending(alloc, names, b), number(alloc, 0));
    let asserted = with(asserted(alloc, core, names, node, b, all), none);
    let body = before(alloc, one_if(alloc, test, back), asserted);
    plain_function(alloc, names.super_step(alloc, b.name.bytes()).ok(), body)
}

/// A static function without parameters or a result.
pub fn plain_function(
    alloc: Global,
    name: Option<Text>,
    body: Option<List<CStm>>,
) -> Option<Box<CItem>>
    ensures { (n : List ℕ) (b : List CStm) → Gives name n → Gives body b → Gives result (plain_function n b) }
{
    function(alloc, plain_head(alloc, name), body)
}

fn plain_head(alloc: Global, name: Option<Text>) -> Option<Box<CHead>>
    ensures { (n : List ℕ) → Gives name n → Gives result (plain_head n) }
{
    match name {
        Some(name) => {
            let head = CHead {
                linkage: Linkage::Static,
                result: None,
                name,
                parameters: List::new(alloc),
            };
            Box::new(alloc, head).ok()
        }
        None => None,
    }
}

// Whether nothing is pending, or one of the pending outputs has no room.
#[tactic(auto, using(crate::proofs::Below::below_steps))]
fn blocked(
    alloc: Global,
    core: &Core,
    names: &Names,
    node: usize,
    b: &BoxC,
    all: bool,
) -> Option<Box<CExp>>
    ensures { Gives result (blocked core.now names.now node b.now all) }
{
    let mut tests = of_one(alloc, none_pending(alloc, names, b))?;
    for place in 0..b.outs.len() {
        let wire = target_of(alloc, core, names, node, place).ok()?;
        append(&mut tests, test_at(alloc, names, b, all, place, wire))?;
    }
    any(alloc, Some(tests))
}

fn none_pending(alloc: Global, names: &Names, b: &BoxC) -> Option<Box<CExp>>
    ensures { Gives result (exp.Binary op.Equal (pending names.now b.now) (number 0)) }
{
    equal(alloc, pending(alloc, names, b), number(alloc, 0))
}

fn test_at(
    alloc: Global,
    names: &Names,
    b: &BoxC,
    all: bool,
    place: usize,
    wire: Option<Inlet>,
) -> Option<List<CExp>>
    ensures { Gives result (test_at names.now b.now all place wire) }
{
    match wire {
        None => Some(List::new(alloc)),
        Some(wire) => test_on(alloc, names, b, all, place, &wire),
    }
}

fn test_on(
    alloc: Global,
    names: &Names,
    b: &BoxC,
    all: bool,
    place: usize,
    wire: &Inlet,
) -> Option<List<CExp>>
    ensures { Gives result (tested_if_pending names.now b.now all place (no_room wire.now ∷ [])) }
{
    let tests = of_one(alloc, no_room(alloc, wire));
    tested_if_pending(alloc, names, b, all, place, tests)
}

fn tested_if_pending(
    alloc: Global,
    names: &Names,
    b: &BoxC,
    all: bool,
    place: usize,
    tests: Option<List<CExp>>,
) -> Option<List<CExp>>
    ensures { (t : List CExp) → Gives tests t → Gives result (tested_if_pending names.now b.now all place t) }
{
    if all {
        return tests;
    }
    let both = before(alloc, is_pending(alloc, names, b, place), tests);
    of_one(alloc, all_of(alloc, both))
}

fn is_pending(alloc: Global, names: &Names, b: &BoxC, place: usize) -> Option<Box<CExp>>
    ensures { Gives result (is_pending names.now b.now place) }
{
    let bit = unsigned(alloc, mask_width(b), bit_of(place));
    let masked = binary(alloc, COp::BitAnd, pending(alloc, names, b), bit);
    binary(alloc, COp::NotEqual, masked, number(alloc, 0))
}

// The pending outputs go onto their wires.
#[tactic(auto, using(crate::proofs::Below::below_steps))]
fn asserted(
    alloc: Global,
    core: &Core,
    names: &Names,
    node: usize,
    b: &BoxC,
    all: bool,
) -> Option<List<CStm>>
    ensures { Gives result (asserted core.now names.now node b.now all) }
{
    let mut statements = List::new(alloc);
    for place in 0..b.outs.len() {
        let wire = target_of(alloc, core, names, node, place).ok()?;
        append(
            &mut statements,
            asserted_at(alloc, names, b, all, place, wire),
        )?;
    }
    Some(statements)
}

fn asserted_at(
    alloc: Global,
    names: &Names,
    b: &BoxC,
    all: bool,
    place: usize,
    wire: Option<Inlet>,
) -> Option<List<CStm>>
    ensures { Gives result (asserted_at names.now b.now all place wire) }
{
    match wire {
        None => Some(List::new(alloc)),
        Some(wire) => asserted_on(alloc, names, b, all, place, &wire),
    }
}

fn asserted_on(
    alloc: Global,
    names: &Names,
    b: &BoxC,
    all: bool,
    place: usize,
    wire: &Inlet,
) -> Option<List<CStm>>
    ensures { Gives result (asserted_on names.now b.now all place wire.now) }
{
    let body = put_in(alloc, wire, output_of(alloc, names, b, place));
    made_if_pending(alloc, names, b, all, place, body)
}

fn made_if_pending(
    alloc: Global,
    names: &Names,
    b: &BoxC,
    all: bool,
    place: usize,
    body: Option<List<CStm>>,
) -> Option<List<CStm>>
    ensures { (m : List CStm) → Gives body m → Gives result (made_if_pending names.now b.now all place m) }
{
    if all {
        return body;
    }
    let test = is_pending(alloc, names, b, place);
    of_one(alloc, one_if(alloc, test, body))
}
