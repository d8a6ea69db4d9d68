//! The whole main.
ghost use Rattle.std.specs.Prelude.{◌≡◌, ◌++◌, IfOk, OnOk, option_copied};
ghost use Rattle.c_main.specs.Take.{take_function};
ghost use Rattle.c_main.specs.Show.{show_function};
ghost use Rattle.c_types.specs.Gathered.{gathered};
ghost use Rattle.c_main.specs.Texts.{each_from};
ghost use Rattle.c_main.specs.Streams.{belongs_to, is_stream, wire_of};
ghost use Rattle.c_main.specs.Main.{filling_of, head_text, hook_of, hooks_text, input_on, main_text, opening_of, output_on};
ghost use Rattle.c_main.specs.Main.{run_text, show_functions, stream_type, take_functions, taking, text_around, type_of_found, types_of};

use crate::gathered::found_types;
use crate::lines::filled;
use crate::runtime::{SHOWING, TAKING};
use crate::show::show_function;
use crate::streams::{filling, input_opening, input_text, output_opening, output_text};
use crate::take::take_function;
use c_forms::{joined, text};
use c_types::CTypes;
use hume_base::{List, Text, Ty, copy_ty};
use hume_model::{Core, NodeC, StreamC, WireC};
use std::alloc::{AllocError, Global};

const HEAD: [&[u8]; 6] = [
    b"/* @0: reads and writes the files of its streams. ./@0 STEPS */",
    b"#include <stdio.h>",
    b"#include <stdlib.h>",
    b"#include <string.h>",
    b"#include \"@0.c\"",
    b"",
];

/// Appends a main that reads and writes the files of the streams.
pub fn put_main(
    alloc: Global,
    text: &mut Vec<u8>,
    core: &Core,
    types: &CTypes,
) -> Result<(), AllocError>
    ensures { OnOk result (text.new.items ≡ text.old.items ++ main_text (gathered types.now) core.now) }
{
    let main = main_text(alloc, core, types)?;
    text.extend_from_slice(main.bytes())
}

fn main_text(alloc: Global, core: &Core, types: &CTypes) -> Result<Text, AllocError>
    ensures { IfOk result (λ text. text ≡ main_text (gathered types.now) core.now) }
{
    let hooks = hooks_text(alloc, core, types)?;
    text_around(alloc, core, types, hooks.bytes())
}

// The hooks, behind what a main begins with and before the function `main`.
fn text_around(alloc: Global, core: &Core, types: &CTypes, hooks: &[u8]) -> Result<Text, AllocError>
    ensures { IfOk result (λ text. text ≡ text_around core.now (gathered types.now).names.program hooks.now) }
{
    program_around(alloc, core, types.names().program(), hooks)
}

// The same of a program of that name.
fn program_around(
    alloc: Global,
    core: &Core,
    program: &[u8],
    hooks: &[u8],
) -> Result<Text, AllocError>
    ensures { IfOk result (λ text. text ≡ text_around core.now program.now hooks.now) }
{
    let head = head_text(alloc, program)?;
    let run = run_text(alloc, core, program)?;
    joined(alloc, &[head.bytes(), hooks, run.bytes()])
}

#[tactic(auto, unfolding(crate::specs::Main::head_text))]
fn head_text(alloc: Global, program: &[u8]) -> Result<Text, AllocError>
    ensures { IfOk result (λ text. text ≡ head_text program.now) }
{
    filled(alloc, &HEAD, &[program])
}

// The functions of types, and the files and hooks of streams.
fn hooks_text(alloc: Global, core: &Core, types: &CTypes) -> Result<Text, AllocError>
    ensures { IfOk result (λ text. text ≡ hooks_text (gathered types.now) core.now) }
{
    let taken = types_of(alloc, core, true)?;
    let shown = types_of(alloc, core, false)?;
    let takes = take_functions(alloc, types, taken.as_slice())?;
    let shows = show_functions(alloc, types, shown.as_slice())?;
    let hooks = hooks(alloc, core, types, taken.as_slice(), shown.as_slice())?;
    joined(alloc, &[takes.bytes(), shows.bytes(), hooks.bytes()])
}

/// The wire of a stream: whether values come in by it.
fn wire_of<'a>(core: &'a Core, node: usize, comes_in: bool) -> Option<&'a WireC>
    ensures { option_copied result ≡ wire_of core.now node comes_in }
{
    let wires = core.wires.as_slice();
    for wire in wires {
        if belongs_to(node, comes_in, wire) {
            return Some(wire);
        }
    }
    None
}

fn belongs_to(node: usize, comes_in: bool, wire: &WireC) -> bool
    ensures { result ≡ belongs_to node comes_in wire.now }
{
    if comes_in {
        wire.from as usize == node
    } else {
        wire.to as usize == node
    }
}

// The types of the values of streams that come in, or of those that go out, behind those that they are made of.
fn types_of(alloc: Global, core: &Core, comes_in: bool) -> Result<List<Ty>, AllocError>
    ensures { IfOk result (λ tys. tys ≡ types_of core.now comes_in) }
{
    let tys = stream_types(alloc, core, comes_in, core.nodes.as_slice())?;
    found_types(alloc, &core.types, tys.as_slice())
}

#[tactic(auto, using(crate::proofs::Steps::text_steps))]
fn stream_types(
    alloc: Global,
    core: &Core,
    comes_in: bool,
    nodes: &[NodeC],
) -> Result<List<Ty>, AllocError>
    ensures { IfOk result (λ tys. tys ≡ each_from (stream_type core.now comes_in) 0 nodes.now) }
{
    let mut tys = List::new(alloc);
    for (number, node) in nodes.iter().enumerate() {
        tys.append(stream_type(alloc, core, comes_in, number, node)?)?;
    }
    Ok(tys)
}

fn stream_type(
    alloc: Global,
    core: &Core,
    comes_in: bool,
    number: usize,
    node: &NodeC,
) -> Result<List<Ty>, AllocError>
    ensures { IfOk result (λ tys. tys ≡ stream_type core.now comes_in number node.now) }
{
    if is_stream(node, comes_in) {
        type_of_found(alloc, wire_of(core, number, comes_in))
    } else {
        Ok(List::new(alloc))
    }
}

fn type_of_found(alloc: Global, wire: Option<&WireC>) -> Result<List<Ty>, AllocError>
    ensures { IfOk result (λ tys. tys ≡ type_of_found (option_copied wire.entry)) }
{
    match wire {
        None => Ok(List::new(alloc)),
        Some(wire) => List::of_one(alloc, copy_ty(alloc, &wire.ty)?),
    }
}

fn is_stream(node: &NodeC, comes_in: bool) -> bool
    ensures { result ≡ is_stream node.now comes_in }
{
    match node {
        NodeC::Rules(_) => false,
        NodeC::From(_) => comes_in,
        NodeC::To(_) => !comes_in,
    }
}

fn take_functions(alloc: Global, types: &CTypes, found: &[Ty]) -> Result<Text, AllocError>
    ensures { IfOk result (λ text. text ≡ take_functions (gathered types.now) found.now) }
{
    if found.is_empty() {
        return text(alloc, b"");
    }
    let first = taking(alloc)?;
    let those = takes(alloc, types, found)?;
    joined(alloc, &[first.bytes(), those.bytes()])
}

// The functions that read lines and their parts.
#[tactic(auto, unfolding(crate::specs::Main::taking))]
fn taking(alloc: Global) -> Result<Text, AllocError>
    ensures { IfOk result (λ text. text ≡ taking) }
{
    filled(alloc, &TAKING, &[])
}

#[tactic(auto, using(crate::proofs::Steps::text_steps))]
fn takes(alloc: Global, types: &CTypes, found: &[Ty]) -> Result<Text, AllocError>
    ensures { IfOk result (λ text. text ≡ each_from (take_function (gathered types.now) found.now) 0 found.now) }
{
    let mut text = Vec::new(alloc);
    for (number, ty) in found.iter().enumerate() {
        let one = take_function(alloc, types, found, number, ty)?;
        text.extend_from_slice(one.bytes())?;
    }
    Text::from_bytes(alloc, text.as_slice())
}

fn show_functions(alloc: Global, types: &CTypes, found: &[Ty]) -> Result<Text, AllocError>
    ensures { IfOk result (λ text. text ≡ show_functions (gathered types.now) found.now) }
{
    if found.is_empty() {
        return text(alloc, b"");
    }
    let first = filled(alloc, &SHOWING, &[])?;
    let those = shows(alloc, types, found)?;
    joined(alloc, &[first.bytes(), those.bytes()])
}

#[tactic(auto, using(crate::proofs::Steps::text_steps))]
fn shows(alloc: Global, types: &CTypes, found: &[Ty]) -> Result<Text, AllocError>
    ensures { IfOk result (λ text. text ≡ each_from (show_function (gathered types.now) found.now) 0 found.now) }
{
    let mut text = Vec::new(alloc);
    for (number, ty) in found.iter().enumerate() {
        let one = show_function(alloc, types, found, number, ty)?;
        text.extend_from_slice(one.bytes())?;
    }
    Text::from_bytes(alloc, text.as_slice())
}

// The files and hooks of streams, where values of those types come in, and of those go out.
#[tactic(auto, using(crate::proofs::Steps::text_steps))]
fn hooks(
    alloc: Global,
    core: &Core,
    types: &CTypes,
    taken: &[Ty],
    shown: &[Ty],
) -> Result<Text, AllocError>
    ensures { IfOk result (λ text. text ≡ each_from (hook_of (gathered types.now) core.now taken.now shown.now) 0 core.now.nodes) }
{
    let nodes = core.nodes.as_slice();
    let mut text = Vec::new(alloc);
    for (number, node) in nodes.iter().enumerate() {
        let one = hook_of(alloc, core, types, taken, shown, number, node)?;
        text.extend_from_slice(one.bytes())?;
    }
    Text::from_bytes(alloc, text.as_slice())
}

fn hook_of(
    alloc: Global,
    core: &Core,
    types: &CTypes,
    taken: &[Ty],
    shown: &[Ty],
    number: usize,
    node: &NodeC,
) -> Result<Text, AllocError>
    ensures { IfOk result (λ text. text ≡ hook_of (gathered types.now) core.now taken.now shown.now number node.now) }
{
    match node {
        NodeC::Rules(_) => text(alloc, b""),
        NodeC::From(stream) => {
            let wire = wire_of(core, number, true);
            input_on(alloc, types, taken, number, stream, wire)
        }
        NodeC::To(stream) => {
            let wire = wire_of(core, number, false);
            output_on(alloc, types, shown, number, stream, wire)
        }
    }
}

fn input_on(
    alloc: Global,
    types: &CTypes,
    found: &[Ty],
    number: usize,
    stream: &StreamC,
    wire: Option<&WireC>,
) -> Result<Text, AllocError>
    ensures { IfOk result (λ text. text ≡ input_on (gathered types.now) found.now number stream.now (option_copied wire.entry)) }
{
    match wire {
        None => text(alloc, b""),
        Some(wire) => input_text(alloc, types, found, number, stream, wire),
    }
}

fn output_on(
    alloc: Global,
    types: &CTypes,
    found: &[Ty],
    number: usize,
    stream: &StreamC,
    wire: Option<&WireC>,
) -> Result<Text, AllocError>
    ensures { IfOk result (λ text. text ≡ output_on (gathered types.now) found.now number stream.now (option_copied wire.entry)) }
{
    match wire {
        None => text(alloc, b""),
        Some(wire) => output_text(alloc, types, found, number, stream, wire),
    }
}

const RUN: [&[u8]; 14] = [
    b"int main(int argc, char **argv)",
    b"{",
    b"    const long steps = argc > 1 ? atol(argv[1]) : 0;",
    b"    long done;",
    b"@1    @0_init();",
    b"    for (done = 0; done < steps; done += 64) {",
    b"        const int count = steps - done < 64 ? (int)(steps - done) : 64;",
    b"        int i;",
    b"@2        for (i = 0; i < count; i++) {",
    b"            @0_step();",
    b"        }",
    b"    }",
    b"    return fflush(NULL) == 0 ? 0 : 4;",
    b"}",
];

// The function `main`.
fn run_text(alloc: Global, core: &Core, program: &[u8]) -> Result<Text, AllocError>
    ensures { IfOk result (λ text. text ≡ run_text core.now program.now) }
{
    let nodes = core.nodes.as_slice();
    let first = openings(alloc, nodes)?;
    let round = fillings(alloc, nodes)?;
    filled(alloc, &RUN, &[program, first.bytes(), round.bytes()])
}

#[tactic(auto, using(crate::proofs::Steps::text_steps))]
fn openings(alloc: Global, nodes: &[NodeC]) -> Result<Text, AllocError>
    ensures { IfOk result (λ text. text ≡ each_from opening_of 0 nodes.now) }
{
    let mut text = Vec::new(alloc);
    for (number, node) in nodes.iter().enumerate() {
        let one = opening_of(alloc, number, node)?;
        text.extend_from_slice(one.bytes())?;
    }
    Text::from_bytes(alloc, text.as_slice())
}

fn opening_of(alloc: Global, number: usize, node: &NodeC) -> Result<Text, AllocError>
    ensures { IfOk result (λ text. text ≡ opening_of number node.now) }
{
    match node {
        NodeC::Rules(_) => text(alloc, b""),
        NodeC::From(stream) => input_opening(alloc, number, stream),
        NodeC::To(stream) => output_opening(alloc, number, stream),
    }
}

#[tactic(auto, using(crate::proofs::Steps::text_steps))]
fn fillings(alloc: Global, nodes: &[NodeC]) -> Result<Text, AllocError>
    ensures { IfOk result (λ text. text ≡ each_from filling_of 0 nodes.now) }
{
    let mut text = Vec::new(alloc);
    for (number, node) in nodes.iter().enumerate() {
        let one = filling_of(alloc, number, node)?;
        text.extend_from_slice(one.bytes())?;
    }
    Text::from_bytes(alloc, text.as_slice())
}

fn filling_of(alloc: Global, number: usize, node: &NodeC) -> Result<Text, AllocError>
    ensures { IfOk result (λ text. text ≡ filling_of number node.now) }
{
    match node {
        NodeC::From(stream) => filling(alloc, number, stream),
        NodeC::Rules(_) | NodeC::To(_) => text(alloc, b""),
    }
}
