//! A union all of whose memory is taken.
ghost use Rattle.std.specs.Prelude.{◌≡◌, ◌≤◌, ◌<◌, ◌+◌, ◌^◌, ◌++◌, [], ℕ, All, List, map, length, None, Some, string_bytes, slice_index_or, IfOk};
ghost use Rattle.hume_ports.specs.Ports.{names};
ghost use Rattle.run_rounds.specs.Members.{views};
ghost use Rattle.run_rounds.specs.Opened.{core_in};
ghost use Rattle.run_rounds.specs.Streams.{ArePlacesOf, ArePortsApart, streams};
ghost use Rattle.union_front.specs.Unions.{IsUnion};
ghost use Rattle.hume_calls.specs.Streams.{unfit_line};
ghost use Rattle.hume_calls.specs.Unions.{program_members, union_core};
ghost use Rattle.hume_run.specs.inner.UnionEnds.{IsBounded, IsOpenUnion};

use hume_calls::{Opened, PlacesError, Ready, find_places, open, program_line};
use hume_front::Accepted;
use hume_ports::Port;
use run_rounds::Member;
use std::alloc::{AllocError, Global};
use union_front::Union;

/// A run of the union, and its programs.
#[derive(Drop)]
pub struct OpenedUnion {
    pub opened: Opened,
    pub programs: Vec<Accepted>,
    /// The programs as the report has them.
    pub members: Vec<Member>,
}

/// Takes all memory of a run of the union of the programs, which have the sources of these names.
pub fn open_union(
    alloc: Global,
    ports: &[Box<dyn Port>],
    sources: &[String],
    programs: Vec<Accepted>,
    union: Union,
    out: usize,
) -> Result<OpenedUnion, AllocError>
    requires several { 1 ≤ length sources.now }
    requires few { length programs.items < 2 ^ 31 }
    requires sources { length sources.now ≡ length programs.items }
    requires bounded { All IsBounded programs.items }
    requires union { IsUnion (union_core programs.items) union }
    requires fit { (first : List ℕ) → first ≡ slice_index_or (map string_bytes sources.now) 0 []
        → unfit_line (names (map view ports.now)) first [] (streams (union_core programs.items)) ≡ None }
    ensures programs { IfOk result (λ union. union.programs.items ≡ programs.items) }
    ensures open { IfOk result (IsOpenUnion out (map string_bytes sources.now)) }
    ensures places { IfOk result (λ union. ArePlacesOf (core_in union.opened.running) (names (map view ports.now)) union.opened.places.items) }
    ensures apart { IfOk result (λ union. ArePortsApart (core_in union.opened.running)) }
{
    let Union {
        core,
        wiring,
        costs,
    } = union;
    let ready = Ready {
        core,
        wiring,
        costs,
    };
    let places = match find_places(alloc, ports, &ready.core, sources[0].as_bytes(), &[]) {
        Ok(places) => places,
        Err(PlacesError::Unfit(_)) => unreachable!(),
        Err(PlacesError::NoMemory) => return Err(AllocError),
    };
    let members = members_of(alloc, sources, &programs)?;
    let opened = open(alloc, ready, places, out, false)?;
    Ok(OpenedUnion {
        opened,
        programs,
        members,
    })
}

// The programs as the report has them.
fn members_of(
    alloc: Global,
    sources: &[String],
    programs: &[Accepted],
) -> Result<Vec<Member>, AllocError>
    requires few { length programs.now < 2 ^ 31 }
    requires sources { length sources.now ≡ length programs.now }
    requires bounded { All IsBounded programs.now }
    ensures { IfOk result (λ members. views members.items ≡ program_members (map string_bytes sources.now) programs.now 1) }
{
    let mut members = Vec::new(alloc);
    add_members(alloc, sources, programs, 1, &mut members)?;
    Ok(members)
}

// Adds those of the programs from this number on.
#[cycle(add_members)]
fn add_members(
    alloc: Global,
    sources: &[String],
    programs: &[Accepted],
    number: u32,
    members: &mut Vec<Member>,
) -> Result<(), AllocError>
    requires few { number + length programs.now < 2 ^ 32 }
    requires bounded { All IsBounded programs.now }
    ensures { IfOk result (λ done. views members.new.items ≡ views members.old.items ++ program_members (map string_bytes sources.now) programs.now number) }
{
    let Some((source, others)) = sources.split_first() else {
        return Ok(());
    };
    let Some((program, later)) = programs.split_first() else {
        return Ok(());
    };
    let member = Member {
        head: program_line(alloc, number, source.as_bytes())?,
        nodes: program.core.nodes.len() as u32,
    };
    members.push(member)?;
    add_members(alloc, others, later, number + 1, members)
}
