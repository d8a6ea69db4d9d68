//! The parts of the object of a box.
ghost use Rattle.std.specs.Prelude.{◌≡◌};
ghost use Rattle.c_forms.specs.Gives.{Gives};
ghost use Rattle.c_nets.specs.Parts.{bit_of, mask_width, output_of, part_of, pending};

use crate::net::box_object;
use c_forms::{member, member_named};
use c_names::{Names, output};
use c_tree::{CExp, Width};
use hume_base::Box;
use hume_model::BoxC;
use std::alloc::Global;

pub fn part_of(alloc: Global, names: &Names, b: &BoxC, name: &[u8]) -> Option<Box<CExp>>
    ensures { Gives result (part_of names.now b.now name.now) }
{
    member(alloc, box_object(alloc, names, b), name)
}

/// Which outputs are pending.
pub fn pending(alloc: Global, names: &Names, b: &BoxC) -> Option<Box<CExp>>
    ensures { Gives result (pending names.now b.now) }
{
    part_of(alloc, names, b, b"has")
}

/// The object of an output.
pub fn output_of(alloc: Global, names: &Names, b: &BoxC, place: usize) -> Option<Box<CExp>>
    ensures { Gives result (output_of names.now b.now place) }
{
    match b.outs.get(place) {
        Some(port) => {
            let name = output(alloc, port.name.bytes()).ok();
            member_named(alloc, box_object(alloc, names, b), name)
        }
        None => pending(alloc, names, b),
    }
}

/// How many bits say which outputs are pending.
pub fn mask_width(b: &BoxC) -> Width
    ensures { result ≡ mask_width b.now }
{
    if b.outs.len() <= 8 {
        Width::W8
    } else {
        Width::W16
    }
}

/// The bit of an output.
pub fn bit_of(place: usize) -> u64
    ensures { result ≡ bit_of place }
{
    if place < 64 { 1 << place } else { 0 }
}
