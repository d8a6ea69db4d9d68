//! The order of the rules of a fair box: the rule that fired goes last.
ghost use Rattle.std.specs.Prelude.{◌≡◌};
ghost use Rattle.c_forms.specs.Gives.{Gives};
ghost use Rattle.c_tree.specs.declared.tree.CStm.TheVariants as stm;
ghost use Rattle.c_nets.specs.Inlets.{number};
ghost use Rattle.c_nets.specs.FairRules.{counted, is_behind, moved, moved_last, moved_up, next_rule, order_started, ordered};

use crate::inlets::byte;
use crate::parts::part_of;
use c_forms::{
    assign, before, binary, counting, element, leaves, name, number, of_one, of_two, one_if, push,
    text,
};
use c_names::Names;
use c_tree::{CCount, CExp, COp, CStm};
use hume_base::{Box, List};
use hume_model::BoxC;
use std::alloc::Global;

/// A variable of bytes that counts from 0 up to below a number.
pub fn counted(alloc: Global, name: &[u8], limit: usize) -> Option<Box<CCount>>
    ensures { Gives result (counted name.now limit) }
{
    match (text(alloc, name), number(alloc, limit as u64)) {
        (Ok(name), Some(limit)) => {
            let count = CCount {
                ty: byte(),
                name,
                limit,
            };
            Box::new(alloc, count).ok()
        }
        _ => None,
    }
}

/// The number of the rule at a place of the order.
pub fn ordered(
    alloc: Global,
    names: &Names,
    b: &BoxC,
    place: Option<Box<CExp>>,
) -> Option<Box<CExp>>
    ensures { (p : CExp) → Gives place p → Gives result (ordered names.now b.now p) }
{
    element(alloc, part_of(alloc, names, b, b"order"), place)
}

/// The rule at the place `i` of the order goes behind the others.
pub fn moved_last(alloc: Global, names: &Names, b: &BoxC) -> Option<List<CStm>>
    ensures { Gives result (moved_last names.now b.now) }
{
    let last = b.rules.len().saturating_sub(1);
    let body = of_one(alloc, moved_up(alloc, names, b));
    let moved = counting(alloc, counted(alloc, b"j", last), body);
    let end = ordered(alloc, names, b, number(alloc, last as u64));
    let put = assign(alloc, end, name(alloc, b"rule"));
    before(alloc, moved, of_two(alloc, put, leaves(alloc)))
}

// From the place `i` on, each place of the order gets the rule behind it.
fn moved_up(alloc: Global, names: &Names, b: &BoxC) -> Option<Box<CStm>>
    ensures { Gives result (moved_up names.now b.now) }
{
    one_if(alloc, is_behind(alloc), moved(alloc, names, b))
}

fn is_behind(alloc: Global) -> Option<Box<CExp>>
    ensures { Gives result is_behind }
{
    let place = name(alloc, b"j");
    binary(alloc, COp::GreaterEqual, place, name(alloc, b"i"))
}

// The place `j` gets the rule behind it.
fn moved(alloc: Global, names: &Names, b: &BoxC) -> Option<List<CStm>>
    ensures { Gives result (moved names.now b.now) }
{
    let to = ordered(alloc, names, b, name(alloc, b"j"));
    of_one(alloc, assign(alloc, to, next_rule(alloc, names, b)))
}

fn next_rule(alloc: Global, names: &Names, b: &BoxC) -> Option<Box<CExp>>
    ensures { Gives result (next_rule names.now b.now) }
{
    let place = binary(alloc, COp::Add, name(alloc, b"j"), number(alloc, 1));
    ordered(alloc, names, b, place)
}

/// The statements that put the rules into the order of the source.
#[tactic(auto, using(crate::proofs::Below::below_steps))]
pub fn order_started(alloc: Global, names: &Names, b: &BoxC) -> Option<List<CStm>>
    ensures { Gives result (order_started names.now b.now) }
{
    let mut statements = List::new(alloc);
    for place in 0..b.rules.len() {
        push(&mut statements, first_place(alloc, names, b, place))?;
    }
    Some(statements)
}

fn first_place(alloc: Global, names: &Names, b: &BoxC, place: usize) -> Option<Box<CStm>>
    ensures { Gives result (stm.Assign (ordered names.now b.now (number place)) (number place)) }
{
    let own = ordered(alloc, names, b, number(alloc, place as u64));
    assign(alloc, own, number(alloc, place as u64))
}
