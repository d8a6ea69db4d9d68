//! The code of rules and handlers, and the programs of boxes.
ghost use Rattle.std.specs.Prelude.{◌≡◌, ◌<◌, ◌==◌, ℕ, [], map, Option, IfOk, OnOk, IsTrue, MatchOption, None, Some, find};
ghost use Rattle.std.specs.Option.{unwrap_or};
ghost use Rattle.hume_model.specs.declared.core_tree.HandC.{HandC as Handler};
ghost use Rattle.hume_model.specs.BoxTyping.{port_types};
ghost use Rattle.box_costs.specs.Bounds.{box_bound};
ghost use Rattle.box_code.specs.Represents.{BoundResultStands, FunctionsStand, HandlerStands, RuleStands, handler_spots};
ghost use Rattle.box_code.specs.RepresentsBox.{RepresentsBox, handler_of};
ghost use Rattle.box_compile.specs.inner.Boxes.{BoxWritten, HandlersFound, RulesFound, HandlerFound};
ghost use Rattle.box_compile.specs.inner.Emitted.{Emitted};
ghost use Rattle.box_compile.specs.inner.Entries.{entry_in};

use crate::counts::{count, plus};
use crate::finding::find_in_rule;
use crate::functions::emit_functions;
use crate::needed::needed_functions;
use crate::pattern_code::emit_fields;
use crate::places::counted_places;
use crate::results::emit_result;
use crate::sizes::box_words;
use crate::spots::Spot;
use crate::writer::Writer;
use box_code::BoxProgram;
use hume_base::{List, Ty, copy_ty};
use hume_model::{BoxC, Core, HandC, PortC, Res, RuleC};
use std::alloc::{AllocError, Global};

/// The program of a box, with the bounds that it has.
pub(crate) fn box_program(
    alloc: Global,
    core: &Core,
    b: &BoxC,
    heap: u32,
    stack: u32,
    work: u32,
) -> Result<BoxProgram, AllocError>
    requires heap { heap ≡ (box_bound core.now b.now).heap }
    requires stack { stack ≡ (box_bound core.now b.now).stack }
    requires work { work ≡ (box_bound core.now b.now).work }
    ensures { IfOk result (RepresentsBox core.now b.now) }
{
    let exceptions = count(core.exns.len())?;
    if !are_known(b.handlers.as_slice(), exceptions) {
        return Err(AllocError);
    }
    let outs = types_of(alloc, b.outs.as_slice())?;
    let mut functions = write_functions(alloc, core, b)?;
    let entries = functions.entries.as_slice();
    let begins = emit_box(alloc, &mut functions.writer, entries, b, exceptions)?;
    Ok(BoxProgram {
        code: functions.writer.into_code(),
        rules: begins.rules,
        handlers: begins.handlers,
        heap,
        stack,
        work,
        outs,
    })
}

// A code that has the functions which a box needs, and where each of them begins.
#[derive(Drop)]
struct Functions {
    writer: Writer,
    entries: List<Option<u32>>,
}

fn write_functions(alloc: Global, core: &Core, b: &BoxC) -> Result<Functions, AllocError>
    ensures { IfOk result (λ functions. Emitted [] functions.writer (λ code from to. FunctionsStand code (entry_in functions.entries) core.now)) }
{
    let needed = needed_functions(alloc, core, b)?;
    let mut writer = Writer::make(alloc, box_words(core, b, &needed))?;
    let entries = emit_functions(alloc, &mut writer, core, &needed)?;
    Ok(Functions { writer, entries })
}

// Where the rules and the handlers of a box begin.
#[derive(Drop)]
struct Beginnings {
    rules: List<u32>,
    handlers: List<u32>,
}

// The code of the rules and handlers of a box, where there are so many exceptions.
fn emit_box(
    alloc: Global,
    writer: &mut Writer,
    entries: &[Option<u32>],
    b: &BoxC,
    exceptions: u32,
) -> Result<Beginnings, AllocError>
    ensures { IfOk result (λ begins. BoxWritten writer.old writer.new (entry_in entries.now) b.now begins.rules begins.handlers exceptions) }
{
    let rules = emit_rules(alloc, writer, entries, b.rules.as_slice())?;
    let found = emit_handlers(alloc, writer, entries, b, exceptions)?;
    let handlers = all_places(alloc, found.as_slice(), writer.len())?;
    Ok(Beginnings { rules, handlers })
}

// Whether each handler is for one of so many exceptions.
fn are_known(handlers: &[HandC], exceptions: u32) -> bool
    ensures { IsTrue result → (exn : ℕ) (handler : Handler) → find (λ (handler : Handler). handler.exn == exn) handlers.now ≡ Some handler → exn < exceptions }
{
    for handler in handlers {
        if handler.exn >= exceptions {
            return false;
        }
    }
    true
}

// The code of rules, and where each of them begins.
fn emit_rules(
    alloc: Global,
    writer: &mut Writer,
    entries: &[Option<u32>],
    rules: &[RuleC],
) -> Result<List<u32>, AllocError>
    ensures { IfOk result (λ places. Emitted writer.old writer.new (λ code from to. RulesFound code (entry_in entries.now) places rules.now)) }
{
    let mut places = List::new(alloc);
    for rule in rules {
        places.push(emit_rule(alloc, writer, entries, rule)?)?;
    }
    Ok(places)
}

fn emit_rule(
    alloc: Global,
    writer: &mut Writer,
    entries: &[Option<u32>],
    rule: &RuleC,
) -> Result<u32, AllocError>
    ensures { IfOk result (λ place. Emitted writer.old writer.new (λ code from to. RuleStands code (entry_in entries.now) rule.now place)) }
{
    let place = writer.len();
    let built = find_in_rule(alloc, rule.pats.as_slice())?;
    match emit_bound(
        alloc,
        writer,
        entries,
        built.count,
        built.found.spots.as_slice(),
        &rule.result,
    ) {
        Err(error) => Err(error),
        Ok(()) => Ok(place),
    }
}

// A word for each variable, found at a spot on a stack of so many words, and then the result.
fn emit_bound(
    alloc: Global,
    writer: &mut Writer,
    entries: &[Option<u32>],
    high: u32,
    spots: &[Spot],
    outcome: &Res,
) -> Result<(), AllocError>
    ensures { OnOk result (Emitted writer.old writer.new (λ code from to. BoundResultStands code (entry_in entries.now) high spots.now outcome.now from)) }
{
    let variables = count(spots.len())?;
    emit_fields(writer, high, spots)?;
    let places = counted_places(alloc, high, variables)?;
    emit_result(
        alloc,
        writer,
        entries,
        &places,
        plus(high, variables)?,
        outcome,
    )
}

// The code of the handlers, and for each of so many exceptions where the box's handler begins, if it has one.
fn emit_handlers(
    alloc: Global,
    writer: &mut Writer,
    entries: &[Option<u32>],
    b: &BoxC,
    exceptions: u32,
) -> Result<List<Option<u32>>, AllocError>
    ensures { IfOk result (λ found. Emitted writer.old writer.new
        (λ code from to. HandlersFound code (entry_in entries.now) b.now found exceptions)) }
{
    let mut found = List::new(alloc);
    for exn in 0..exceptions {
        let place = emit_for_exception(alloc, writer, entries, b.handlers.as_slice(), exn)?;
        found.push(place)?;
    }
    Ok(found)
}

fn handler_for(handlers: &[HandC], exn: u32) -> Option<&HandC>
    ensures { let found = find (λ (handler : Handler). handler.exn == exn) handlers.now in
        MatchOption result (found ≡ None) (λ handler. found ≡ Some handler.now) }
{
    for handler in handlers {
        if handler.exn == exn {
            return Some(handler);
        }
    }
    None
}

// The code of the box's handler for an exception, if it has one, and where it begins.
fn emit_for_exception(
    alloc: Global,
    writer: &mut Writer,
    entries: &[Option<u32>],
    handlers: &[HandC],
    exn: u32,
) -> Result<Option<u32>, AllocError>
    ensures { IfOk result (λ place. Emitted writer.old writer.new
        (λ code from to. HandlerFound code (entry_in entries.now) (find (λ (handler : Handler). handler.exn == exn) handlers.now) place)) }
{
    match handler_for(handlers, exn) {
        None => Ok(None),
        Some(handler) => match emit_handler(alloc, writer, entries, handler) {
            Err(error) => Err(error),
            Ok(place) => Ok(Some(place)),
        },
    }
}

fn emit_handler(
    alloc: Global,
    writer: &mut Writer,
    entries: &[Option<u32>],
    handler: &HandC,
) -> Result<u32, AllocError>
    ensures { IfOk result (λ place. Emitted writer.old writer.new (λ code from to. HandlerStands code (entry_in entries.now) handler.now place)) }
{
    let place = writer.len();
    let spots = spots_of_handler(alloc, handler)?;
    match emit_bound(alloc, writer, entries, 1, spots.as_slice(), &handler.result) {
        Err(error) => Err(error),
        Ok(()) => Ok(place),
    }
}

fn spots_of_handler(alloc: Global, handler: &HandC) -> Result<List<Spot>, AllocError>
    ensures { IfOk result (λ spots. spots ≡ handler_spots handler.now) }
{
    let mut spots = List::new(alloc);
    if handler.bound {
        spots.push(Spot::root(alloc, 0))?;
    }
    Ok(spots)
}

// The places, with the end of the code for those that aren't there.
fn all_places(alloc: Global, found: &[Option<u32>], end: u32) -> Result<List<u32>, AllocError>
    ensures { IfOk result (λ places. places ≡ map (λ (place : Option ℕ). unwrap_or place end) found.now) }
{
    let mut places = List::new(alloc);
    for place in found {
        places.push(place.unwrap_or(end))?;
    }
    Ok(places)
}

fn types_of(alloc: Global, ports: &[PortC]) -> Result<List<Ty>, AllocError>
    ensures { IfOk result (λ types. types ≡ port_types ports.now) }
{
    let mut types = List::new(alloc);
    for port in ports {
        types.push(copy_ty(alloc, &port.ty)?)?;
    }
    Ok(types)
}
