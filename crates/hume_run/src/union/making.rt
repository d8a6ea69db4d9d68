//! The run of an open union.
ghost use Rattle.std.specs.Prelude.{◌≡◌, ◌≤◌, ◌<◌, ◌^◌, ◌∷◌, ℕ, All, List, length, map};
ghost use Rattle.std.specs.List.{filter_map};
ghost use Rattle.hume_base.specs.declared.limits.TheConstants.{MAX_WORKERS};
ghost use Rattle.hume_ports.specs.Ports.{names};
ghost use Rattle.hume_text.specs.Chunks.{room_of};
ghost use Rattle.port_acts.specs.Places.{IsPlaceOf};
ghost use Rattle.run_rounds.specs.Members.{views};
ghost use Rattle.run_rounds.specs.Opened.{core_in};
ghost use Rattle.run_rounds.specs.Streams.{ArePlacesOf, ArePortsApart, std_out};
ghost use Rattle.trace_print.specs.InTurn.{EndsLines};
ghost use Rattle.trace_print.specs.declared.space_lines.TheConstants.{LINE_BYTES as ROOM};
ghost use Rattle.trace_print.specs.table.Table.{box_line};
ghost use Rattle.hume_calls.specs.Unions.{program_members, program_tables, union_table};
ghost use Rattle.hume_run.specs.inner.UnionEnds.{IsBounded, IsOpenUnion, RunsUnion, UnionEnds};

use crate::union::opening::OpenedUnion;
use hume_calls::Status;
use hume_front::Accepted;
use hume_ports::{Failed, Port};
use hume_text::Chunk;
use port_acts::{finish_acts, write_act};
use run_rounds::{Member, each_run_has_inputs};
use std::thread::Threads;
use trace_print::table::{write_boxes, write_total};
use turn_workers::Gate;

/// Makes an open union's run for `steps` supersteps on `workers` workers.
pub fn make_union<R: Threads + Sync, G: Gate>(
    rt: &R,
    mut union: OpenedUnion,
    ports: &mut [Box<dyn Port>],
    steps: u32,
    workers: u32,
    out: usize,
    gate: &G,
) -> Status
    requires workers { workers ≤ MAX_WORKERS }
    requires few { length union.members.items < 2 ^ 31 }
    requires open { (sources : List (List ℕ)) × IsOpenUnion out sources union }
    requires places { ArePlacesOf (core_in union.opened.running) (names (map view ports.old)) union.opened.places.items }
    requires apart { ArePortsApart (core_in union.opened.running) }
    requires out { IsPlaceOf std_out (names (map view ports.old)) out }
    ensures { (sources : List (List ℕ)) → IsOpenUnion out sources union
        → RunsUnion steps sources union.programs.items (map view ports.old) (map view ports.new) result }
{
    let made = make_in_turn(rt, &mut union, ports, steps, workers, out, gate);
    drop(union);
    match made {
        Ok(true) => Status::BadValue,
        Ok(false) => Status::Done,
        Err(Failed) => Status::Fault,
    }
}

// Writes the table, runs, and finishes. Answers whether a bad line of a stream has blocked a round.
fn make_in_turn<R: Threads + Sync, G: Gate>(
    rt: &R,
    union: &mut OpenedUnion,
    ports: &mut [Box<dyn Port>],
    steps: u32,
    workers: u32,
    out: usize,
    gate: &G,
) -> Result<bool, Failed>
    requires workers { workers ≤ MAX_WORKERS }
    requires few { length union.old.members.items < 2 ^ 31 }
    requires open { (sources : List (List ℕ)) × IsOpenUnion out sources union.old }
    requires places { ArePlacesOf (core_in union.old.opened.running) (names (map view ports.old)) union.old.opened.places.items }
    requires apart { ArePortsApart (core_in union.old.opened.running) }
    requires out { IsPlaceOf std_out (names (map view ports.old)) out }
    ensures { (sources : List (List ℕ)) → IsOpenUnion out sources union.old
        → UnionEnds steps sources union.old.programs.items (map view ports.old) (map view ports.new) result }
{
    each_run_has_inputs();
    match write_table(union, ports, out) {
        Ok(()) => {}
        Err(failed) => return Err(failed),
    }
    let opened = &mut union.opened;
    let blocked = match opened.running.run_union(
        rt,
        &union.members,
        steps,
        workers,
        gate,
        ports,
        &opened.places,
        out,
    ) {
        Ok(blocked) => blocked,
        Err(failed) => return Err(failed),
    };
    match finish_acts(ports, &opened.finishes) {
        Ok(()) => Ok(blocked),
        Err(failed) => Err(failed),
    }
}

// Writes the table of each program behind the line that names it, and then the line of all boxes together.
fn write_table(
    union: &mut OpenedUnion,
    ports: &mut [Box<dyn Port>],
    out: usize,
) -> Result<(), Failed>
    requires open { (sources : List (List ℕ)) × IsOpenUnion out sources union.old }
    requires out { IsPlaceOf std_out (names (map view ports.old)) out }
    ensures ends { (sources : List (List ℕ)) → IsOpenUnion out sources union.old
        → EndsLines out (union_table sources union.old.programs.items) (map view ports.old) (map view ports.new) result }
    ensures same_names { names (map view ports.new) ≡ names (map view ports.old) }
    ensures open { (sources : List (List ℕ)) → IsOpenUnion out sources union.old → IsOpenUnion out sources union.new }
    ensures programs { union.new.programs ≡ union.old.programs }
    ensures running { union.new.opened.running ≡ union.old.opened.running }
    ensures places { union.new.opened.places ≡ union.old.opened.places }
    ensures members { union.new.members ≡ union.old.members }
{
    let opened = &mut union.opened;
    match write_programs(
        &union.members,
        &union.programs,
        &mut opened.chunk,
        ports,
        out,
    ) {
        Ok(()) => {}
        Err(failed) => return Err(failed),
    }
    write_total(
        opened.running.core(),
        &opened.costs,
        &mut opened.chunk,
        ports,
        out,
    )
}

#[cycle(write_programs)]
fn write_programs(
    members: &[Member],
    programs: &[Accepted],
    chunk: &mut Chunk,
    ports: &mut [Box<dyn Port>],
    out: usize,
) -> Result<(), Failed>
    requires bounded { All IsBounded programs.now }
    requires room { ROOM ≤ room_of chunk.old }
    requires place { out < length ports.old }
    ensures ends { (sources : List (List ℕ)) (from : ℕ) → views members.now ≡ program_members sources programs.now from
        → EndsLines out (program_tables sources programs.now from) (map view ports.old) (map view ports.new) result }
    ensures same_names { names (map view ports.new) ≡ names (map view ports.old) }
    ensures room { room_of chunk.new ≡ room_of chunk.old }
{
    let Some((member, others)) = members.split_first() else {
        return Ok(());
    };
    let Some((program, later)) = programs.split_first() else {
        return Ok(());
    };
    match write_program(member, program, chunk, ports, out) {
        Ok(()) => {}
        Err(failed) => return Err(failed),
    }
    write_programs(others, later, chunk, ports, out)
}

fn write_program(
    member: &Member,
    program: &Accepted,
    chunk: &mut Chunk,
    ports: &mut [Box<dyn Port>],
    out: usize,
) -> Result<(), Failed>
    requires bounded { IsBounded program.now }
    requires room { ROOM ≤ room_of chunk.old }
    requires place { out < length ports.old }
    ensures ends { EndsLines out (member.now.head.items ∷ filter_map (box_line program.now.core) program.now.core.nodes)
        (map view ports.old) (map view ports.new) result }
    ensures same_names { names (map view ports.new) ≡ names (map view ports.old) }
    ensures room { room_of chunk.new ≡ room_of chunk.old }
{
    match write_act(ports, out, &member.head) {
        Ok(()) => {}
        Err(failed) => return Err(failed),
    }
    write_boxes(&program.core, &program.costs, chunk, ports, out)
}
