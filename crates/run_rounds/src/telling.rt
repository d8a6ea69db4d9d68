//! What a run tells besides the values of streams: supersteps with all wires, peaks, and a bad line. Each line is one write.
ghost use Rattle.std.specs.Prelude.{◌≡◌, ◌+◌, ◌≤◌, ◌<◌, ◌^◌, ◌∷◌, [], ℕ, suc, length, map, slice_get};
ghost use Rattle.std.specs.List.{flat_map, range_with_len};
ghost use Rattle.hume_net.specs.Sides.{on_wire};
ghost use Rattle.hume_ports.specs.Ports.{names};
ghost use Rattle.hume_text.specs.Chunks.{bytes_in, room_of};
ghost use Rattle.port_acts.specs.Acts.{writes, write_each};
ghost use Rattle.port_acts.specs.Ends.{Ends, never};
ghost use Rattle.port_acts.specs.Places.{IsPlaceOf};
ghost use Rattle.phase_workers.specs.Engines.{core_of, state_of, heap_peak_at, stack_peak_at};
ghost use Rattle.phase_workers.specs.Runnable.{IsRunnable};
ghost use Rattle.run_rounds.specs.Streams.{std_out};
ghost use Rattle.trace_print.specs.TraceLines.{step_line as line_of_step, line_there, peak_lines, wire_lines};
ghost use Rattle.trace_print.specs.Rooms.{line_room};
ghost use Rattle.run_rounds.specs.Members.{member_bad_line, member_lines, members_before, nodes_of, one_member, view_of, views};
ghost use Rattle.run_rounds.specs.Writes.{told, superstep_lines, bad_value_line, name_of};
ghost use Rattle.run_rounds.specs.Telling.{top_there, tops};

use crate::bad_line::{BadLine, put_bad_line, put_member_bad_line};
use crate::members::{Member, members_before};
use hume_model::{Core, NodeC};
use hume_ports::{Failed, Port};
use hume_text::Chunk;
use phase_workers::Engine;
use port_acts::write_act;
use trace_print::{lines_are_short, peak_line, step_line, wire_line};

/// Tells a superstep, counted from 1, and what is on each wire after it.
pub fn tell_superstep(
    engine: &Engine,
    step: u32,
    ports: &mut [Box<dyn Port>],
    out: usize,
    chunk: &mut Chunk,
) -> Result<(), Failed>
    requires runnable { IsRunnable (core_of engine.now) }
    requires out { IsPlaceOf std_out (names (map view ports.old)) out }
    requires room { line_room (core_of engine.now) ≤ room_of chunk.old }
    ensures ends { Ends never [] (write_each (told (superstep_lines (core_of engine.now) step (on_wire (state_of engine.now))))) []
        (map view ports.old) (map view ports.new) result }
    ensures same_names { names (map view ports.new) ≡ names (map view ports.old) }
    ensures room { room_of chunk.new ≡ room_of chunk.old }
{
    match tell_step(step, ports, out, chunk) {
        Ok(()) => {}
        Err(failed) => return Err(failed),
    }
    tell_wires(engine, ports, out, chunk)
}

/// Tells what is on each wire.
pub fn tell_wires(
    engine: &Engine,
    ports: &mut [Box<dyn Port>],
    out: usize,
    chunk: &mut Chunk,
) -> Result<(), Failed>
    requires runnable { IsRunnable (core_of engine.now) }
    requires out { IsPlaceOf std_out (names (map view ports.old)) out }
    requires room { line_room (core_of engine.now) ≤ room_of chunk.old }
    ensures ends { Ends never [] (write_each (told (wire_lines (core_of engine.now) (on_wire (state_of engine.now))))) []
        (map view ports.old) (map view ports.new) result }
    ensures same_names { names (map view ports.new) ≡ names (map view ports.old) }
    ensures room { room_of chunk.new ≡ room_of chunk.old }
{
    let count = engine.core().wires.len();
    for wire in 0..count {
        match tell_wire(engine, wire, ports, out, chunk) {
            Ok(()) => {}
            Err(failed) => return Err(failed),
        }
    }
    Ok(())
}

fn tell_step(
    step: u32,
    ports: &mut [Box<dyn Port>],
    out: usize,
    chunk: &mut Chunk,
) -> Result<(), Failed>
    requires out { IsPlaceOf std_out (names (map view ports.old)) out }
    requires room { 160 ≤ room_of chunk.old }
    ensures ends { Ends never [] (writes std_out (line_of_step step) ∷ []) [] (map view ports.old) (map view ports.new) result }
    ensures same_names { names (map view ports.new) ≡ names (map view ports.old) }
    ensures room { room_of chunk.new ≡ room_of chunk.old }
{
    lines_are_short();
    chunk.clear();
    step_line(step, chunk);
    tell(ports, out, chunk)
}

fn tell_wire(
    engine: &Engine,
    wire: usize,
    ports: &mut [Box<dyn Port>],
    out: usize,
    chunk: &mut Chunk,
) -> Result<(), Failed>
    requires runnable { IsRunnable (core_of engine.now) }
    requires there { wire < length (core_of engine.now).wires }
    requires out { IsPlaceOf std_out (names (map view ports.old)) out }
    requires room { line_room (core_of engine.now) ≤ room_of chunk.old }
    ensures ends { Ends never [] (write_each (told (line_there (core_of engine.now) (on_wire (state_of engine.now) wire)
        (slice_get (core_of engine.now).wires wire)))) []
        (map view ports.old) (map view ports.new) result }
    ensures same_names { names (map view ports.new) ≡ names (map view ports.old) }
    ensures room { room_of chunk.new ≡ room_of chunk.old }
{
    chunk.clear();
    wire_line(engine.core(), engine.wire(wire as u32), chunk);
    tell(ports, out, chunk)
}

/// Tells what each box has taken at most in one of its execute steps.
pub fn tell_peaks(
    engine: &Engine,
    ports: &mut [Box<dyn Port>],
    out: usize,
    chunk: &mut Chunk,
) -> Result<(), Failed>
    requires runnable { IsRunnable (core_of engine.now) }
    requires out { IsPlaceOf std_out (names (map view ports.old)) out }
    requires room { 160 ≤ room_of chunk.old }
    ensures ends { Ends never [] (write_each (told (peak_lines (core_of engine.now) (tops engine.now)))) []
        (map view ports.old) (map view ports.new) result }
    ensures same_names { names (map view ports.new) ≡ names (map view ports.old) }
    ensures room { room_of chunk.new ≡ room_of chunk.old }
{
    let count = engine.core().nodes.len();
    tell_peaks_from(engine, 0, count, ports, out, chunk)
}

/// Tells this of the boxes among `count` nodes, from the node `first` on.
pub fn tell_peaks_from(
    engine: &Engine,
    first: usize,
    count: usize,
    ports: &mut [Box<dyn Port>],
    out: usize,
    chunk: &mut Chunk,
) -> Result<(), Failed>
    requires runnable { IsRunnable (core_of engine.now) }
    requires within { first + count ≤ length (core_of engine.now).nodes }
    requires out { IsPlaceOf std_out (names (map view ports.old)) out }
    requires room { 160 ≤ room_of chunk.old }
    ensures ends { Ends never [] (write_each (told (flat_map (top_there engine.now) (range_with_len first count)))) []
        (map view ports.old) (map view ports.new) result }
    ensures same_names { names (map view ports.new) ≡ names (map view ports.old) }
    ensures room { room_of chunk.new ≡ room_of chunk.old }
{
    for place in 0..count {
        match tell_peak(engine, first + place, ports, out, chunk) {
            Ok(()) => {}
            Err(failed) => return Err(failed),
        }
    }
    Ok(())
}

/// Tells the peaks of programs of a union, each program's behind the line that names it. Their nodes are those from `first` on.
#[cycle(tell_members)]
pub fn tell_members(
    engine: &Engine,
    members: &[Member],
    first: usize,
    ports: &mut [Box<dyn Port>],
    out: usize,
    chunk: &mut Chunk,
) -> Result<(), Failed>
    requires runnable { IsRunnable (core_of engine.now) }
    requires within { first + nodes_of (views members.now) ≤ length (core_of engine.now).nodes }
    requires out { IsPlaceOf std_out (names (map view ports.old)) out }
    requires room { 160 ≤ room_of chunk.old }
    ensures ends { Ends never [] (write_each (told (member_lines (top_there engine.now) first (views members.now)))) []
        (map view ports.old) (map view ports.new) result }
    ensures same_names { names (map view ports.new) ≡ names (map view ports.old) }
    ensures room { room_of chunk.new ≡ room_of chunk.old }
{
    let Some((member, later)) = members.split_first() else {
        return Ok(());
    };
    match tell_member(engine, member, first, ports, out, chunk) {
        Ok(()) => {}
        Err(failed) => return Err(failed),
    }
    tell_members(
        engine,
        later,
        first + member.nodes as usize,
        ports,
        out,
        chunk,
    )
}

// Tells the line that names a program, and the peaks of its boxes.
fn tell_member(
    engine: &Engine,
    member: &Member,
    first: usize,
    ports: &mut [Box<dyn Port>],
    out: usize,
    chunk: &mut Chunk,
) -> Result<(), Failed>
    requires runnable { IsRunnable (core_of engine.now) }
    requires within { first + member.now.nodes ≤ length (core_of engine.now).nodes }
    requires out { IsPlaceOf std_out (names (map view ports.old)) out }
    requires room { 160 ≤ room_of chunk.old }
    ensures ends { Ends never [] (write_each (told (one_member (top_there engine.now) first (view_of member.now)))) []
        (map view ports.old) (map view ports.new) result }
    ensures same_names { names (map view ports.new) ≡ names (map view ports.old) }
    ensures room { room_of chunk.new ≡ room_of chunk.old }
{
    match tell_line(ports, out, &member.head) {
        Ok(()) => {}
        Err(failed) => return Err(failed),
    }
    tell_peaks_from(engine, first, member.nodes as usize, ports, out, chunk)
}

fn tell_peak(
    engine: &Engine,
    node: usize,
    ports: &mut [Box<dyn Port>],
    out: usize,
    chunk: &mut Chunk,
) -> Result<(), Failed>
    requires runnable { IsRunnable (core_of engine.now) }
    requires there { node < length (core_of engine.now).nodes }
    requires out { IsPlaceOf std_out (names (map view ports.old)) out }
    requires room { 160 ≤ room_of chunk.old }
    ensures ends { Ends never [] (write_each (told (top_there engine.now node))) []
        (map view ports.old) (map view ports.new) result }
    ensures same_names { names (map view ports.new) ≡ names (map view ports.old) }
    ensures room { room_of chunk.new ≡ room_of chunk.old }
{
    match engine.core().nodes.get(node) {
        Some(NodeC::Rules(b)) => {
            lines_are_short();
            chunk.clear();
            let heap = engine.heap_peak(node as u32);
            let stack = engine.stack_peak(node as u32);
            peak_line(b.name.bytes(), heap, stack, chunk);
            tell(ports, out, chunk)
        }
        Some(NodeC::From(_) | NodeC::To(_)) | None => Ok(()),
    }
}

/// Tells the bad line of an input stream.
pub fn tell_bad_line(
    core: &Core,
    bad: BadLine,
    ports: &mut [Box<dyn Port>],
    out: usize,
    chunk: &mut Chunk,
) -> Result<(), Failed>
    requires runnable { IsRunnable core.now }
    requires out { IsPlaceOf std_out (names (map view ports.old)) out }
    requires room { 160 ≤ room_of chunk.old }
    ensures ends { Ends never [] (writes std_out (bad_value_line (name_of (slice_get core.now.nodes bad.node)) bad.line) ∷ []) []
        (map view ports.old) (map view ports.new) result }
    ensures same_names { names (map view ports.new) ≡ names (map view ports.old) }
    ensures room { room_of chunk.new ≡ room_of chunk.old }
{
    chunk.clear();
    put_bad_line(stream_name(core, bad.node), bad.line, chunk);
    tell(ports, out, chunk)
}

/// Tells the bad line of an input stream behind the number of the stream's program, counted from 1.
pub fn tell_member_bad_line(
    core: &Core,
    members: &[Member],
    bad: BadLine,
    ports: &mut [Box<dyn Port>],
    out: usize,
    chunk: &mut Chunk,
) -> Result<(), Failed>
    requires runnable { IsRunnable core.now }
    requires few { length members.now < 2 ^ 31 }
    requires out { IsPlaceOf std_out (names (map view ports.old)) out }
    requires room { 160 ≤ room_of chunk.old }
    ensures ends { Ends never []
        (writes std_out (member_bad_line (suc (members_before (views members.now) bad.node)) (name_of (slice_get core.now.nodes bad.node)) bad.line) ∷ []) []
        (map view ports.old) (map view ports.new) result }
    ensures same_names { names (map view ports.new) ≡ names (map view ports.old) }
    ensures room { room_of chunk.new ≡ room_of chunk.old }
{
    chunk.clear();
    let number = members_before(members, bad.node) + 1;
    put_member_bad_line(number, stream_name(core, bad.node), bad.line, chunk);
    tell(ports, out, chunk)
}

fn stream_name(core: &Core, node: u32) -> &[u8]
    ensures { result.now ≡ name_of (slice_get core.now.nodes node) }
{
    match core.nodes.get(node as usize) {
        Some(NodeC::From(stream)) => stream.name.bytes(),
        Some(NodeC::Rules(_) | NodeC::To(_)) | None => &[],
    }
}

// Writes a line that is there.
fn tell_line(ports: &mut [Box<dyn Port>], out: usize, line: &[u8]) -> Result<(), Failed>
    requires { IsPlaceOf std_out (names (map view ports.old)) out }
    ensures ends { Ends never [] (writes std_out line.now ∷ []) [] (map view ports.old) (map view ports.new) result }
    ensures same_names { names (map view ports.new) ≡ names (map view ports.old) }
{
    write_act(ports, out, line)
}

// Writes what the chunk holds.
fn tell(ports: &mut [Box<dyn Port>], out: usize, chunk: &Chunk) -> Result<(), Failed>
    requires { IsPlaceOf std_out (names (map view ports.old)) out }
    ensures ends { Ends never [] (writes std_out (bytes_in chunk.now) ∷ []) [] (map view ports.old) (map view ports.new) result }
    ensures same_names { names (map view ports.new) ≡ names (map view ports.old) }
{
    write_act(ports, out, chunk.bytes())
}
