//! The line that is told of a log.
ghost use Rattle.std.specs.Prelude.{◌≡◌, ◌+◌, ◌≤◌, ◌++◌, ◌∷◌, [], length, map, slice_get, Some};
ghost use Rattle.hume_ports.specs.Ports.{names};
ghost use Rattle.hume_text.specs.Chunks.{bytes_in, room_of};
ghost use Rattle.port_acts.specs.Acts.{writes};
ghost use Rattle.port_acts.specs.Ends.{Ends, never};
ghost use Rattle.port_acts.specs.Places.{IsPlaceOf};
ghost use Rattle.phase_workers.specs.Runnable.{IsRunnable};
ghost use Rattle.run_rounds.specs.Streams.{std_out};
ghost use Rattle.log_rounds.specs.VerifyActs.{blame, fault_line, holds_line, node_name};
ghost use Rattle.log_rounds.specs.inner.Stops.{stop_line};

use crate::verifying::Stop;
use hume_model::{Core, NodeC};
use hume_ports::{Failed, Port};
use hume_text::Chunk;
use itoa::Buffer;
use port_acts::write_act;
use run_log::LogFault;
use run_rounds::tell_bad_line;

/// Tells what comes of the log, by why it was verified no further.
pub(crate) fn tell_stop(
    core: &Core,
    stop: Option<Stop>,
    ports: &mut [Box<dyn Port>],
    out: usize,
    chunk: &mut Chunk,
) -> Result<(), Failed>
    requires runnable { IsRunnable core.now }
    requires out { IsPlaceOf std_out (names (map view ports.old)) out }
    requires room { 160 ≤ room_of chunk.old }
    ensures ends { Ends never [] (writes std_out (stop_line core.now stop) ∷ []) [] (map view ports.old) (map view ports.new) result }
    ensures same_names { names (map view ports.new) ≡ names (map view ports.old) }
    ensures room { room_of chunk.new ≡ room_of chunk.old }
{
    match stop {
        None => tell_holds(ports, out),
        Some(stop) => tell_reason(core, stop, ports, out, chunk),
    }
}

// Tells why the log was verified no further.
fn tell_reason(
    core: &Core,
    stop: Stop,
    ports: &mut [Box<dyn Port>],
    out: usize,
    chunk: &mut Chunk,
) -> Result<(), Failed>
    requires runnable { IsRunnable core.now }
    requires out { IsPlaceOf std_out (names (map view ports.old)) out }
    requires room { 160 ≤ room_of chunk.old }
    ensures ends { Ends never [] (writes std_out (stop_line core.now (Some stop)) ∷ []) [] (map view ports.old) (map view ports.new) result }
    ensures same_names { names (map view ports.new) ≡ names (map view ports.old) }
    ensures room { room_of chunk.new ≡ room_of chunk.old }
{
    match stop {
        Stop::Wrong(fault) => tell_fault(core, fault, ports, out, chunk),
        Stop::Bad(bad) => tell_bad_line(core, bad, ports, out, chunk),
    }
}

fn tell_holds(ports: &mut [Box<dyn Port>], out: usize) -> Result<(), Failed>
    requires { IsPlaceOf std_out (names (map view ports.old)) out }
    ensures ends { Ends never [] (writes std_out holds_line ∷ []) [] (map view ports.old) (map view ports.new) result }
    ensures same_names { names (map view ports.new) ≡ names (map view ports.old) }
{
    write_act(ports, out, b"log holds\n")
}

// Tells which line of the log is wrong, and the name of the node that is blamed, if one is.
fn tell_fault(
    core: &Core,
    fault: LogFault,
    ports: &mut [Box<dyn Port>],
    out: usize,
    chunk: &mut Chunk,
) -> Result<(), Failed>
    requires runnable { IsRunnable core.now }
    requires out { IsPlaceOf std_out (names (map view ports.old)) out }
    requires room { 160 ≤ room_of chunk.old }
    ensures ends { Ends never [] (writes std_out (fault_line core.now fault) ∷ []) [] (map view ports.old) (map view ports.new) result }
    ensures same_names { names (map view ports.new) ≡ names (map view ports.old) }
    ensures room { room_of chunk.new ≡ room_of chunk.old }
{
    chunk.clear();
    chunk.put(b"log fails line ");
    chunk.put(Buffer::new().format(fault.line).as_bytes());
    put_blame(core, fault.node, chunk);
    chunk.put(b"\n");
    write_act(ports, out, chunk.bytes())
}

fn put_blame(core: &Core, node: Option<u32>, chunk: &mut Chunk)
    requires runnable { IsRunnable core.now }
    requires room { length (bytes_in chunk.old) + 80 ≤ room_of chunk.old }
    ensures blame { bytes_in chunk.new ≡ bytes_in chunk.old ++ blame core.now node }
    ensures room { room_of chunk.new ≡ room_of chunk.old }
{
    match node {
        None => {}
        Some(node) => {
            chunk.put(b" box ");
            chunk.put(name_of(core, node));
        }
    }
}

fn name_of(core: &Core, node: u32) -> &[u8]
    ensures { result.now ≡ node_name (slice_get core.now.nodes node) }
{
    match core.nodes.get(node as usize) {
        Some(NodeC::Rules(b)) => b.name.bytes(),
        Some(NodeC::From(stream) | NodeC::To(stream)) => stream.name.bytes(),
        None => &[],
    }
}
