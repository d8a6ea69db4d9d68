ghost use Rattle.std.specs.Prelude.{◌≡◌, [], List, length, map};
ghost use Rattle.hume_ports.specs.Ports.{names};
ghost use Rattle.port_acts.specs.Ends.{Ends, never};
ghost use Rattle.hume_console.specs.Session.{Session as Stood};
ghost use Rattle.hume_console.specs.inner.Closing.{all_finishes, node_finish, stream_finishes, AreClosable, EndsClosed, IsClosable};
ghost use Rattle.hume_console.specs.declared.ending.Ending.{Ending};
ghost use Rattle.hume_console.specs.inner.Answering.{StandsClosed};
ghost use Rattle.hume_console.specs.inner.Standing.{Call};
ghost use Rattle.hume_ports.specs.Port.{PortView};

use crate::places::Places;
use crate::session::Session;
use hume_model::Core;
use hume_ports::{Failed, Port};
use port_acts::finish_act;
use run_rounds::is_output;

/// Finishes the ports of a session that has come to its end.
pub fn finish(session: &Session, ports: &mut [Box<dyn Port>]) -> Result<(), Failed>
    requires at { (call : Call) × (ending : Ending) × (gone : List PortView)
        × StandsClosed call ending session.now (record { ports = map view ports.old; gone = gone }) }
    ensures ends { (call : Call) (ending : Ending) (gone : List PortView)
        → StandsClosed call ending session.now (record { ports = map view ports.old; gone = gone })
        → EndsClosed call ending (record { ports = map view ports.new; gone = gone }) result }
    ensures same_names { names (map view ports.new) ≡ names (map view ports.old) }
{
    close(session.engine.core(), &session.places, ports)
}

// Finishes the port of each output stream in source order, each once, and `std_out` last.
fn close(core: &Core, places: &Places, ports: &mut [Box<dyn Port>]) -> Result<(), Failed>
    requires closable { (session : Stood) × AreClosable core.now session (names (map view ports.old)) places.now.streams.items places.now.std_out }
    ensures ends { (session : Stood) → AreClosable core.now session (names (map view ports.old)) places.now.streams.items places.now.std_out
        → Ends never [] (all_finishes core.now session) [] (map view ports.old) (map view ports.new) result }
    ensures same_names { names (map view ports.new) ≡ names (map view ports.old) }
{
    match close_streams(core, &places.streams, places.std_out, ports) {
        Ok(()) => finish_act(ports, places.std_out),
        Err(failed) => Err(failed),
    }
}

// Finishes the ports of the output streams that aren't `std_out`.
fn close_streams(
    core: &Core,
    places: &[usize],
    out: usize,
    ports: &mut [Box<dyn Port>],
) -> Result<(), Failed>
    requires closable { (session : Stood) × AreClosable core.now session (names (map view ports.old)) places.now out }
    ensures ends { (session : Stood) → AreClosable core.now session (names (map view ports.old)) places.now out
        → Ends never [] (stream_finishes core.now session (length core.now.nodes)) [] (map view ports.old) (map view ports.new) result }
    ensures same_names { names (map view ports.new) ≡ names (map view ports.old) }
{
    for node in 0..places.len() {
        match close_node(core, node, places[node], out, ports) {
            Ok(()) => {}
            Err(failed) => return Err(failed),
        }
    }
    Ok(())
}

// Finishes the port of a node, if that is an output stream and its port isn't `std_out`.
fn close_node(
    core: &Core,
    node: usize,
    at: usize,
    out: usize,
    ports: &mut [Box<dyn Port>],
) -> Result<(), Failed>
    requires closable { (session : Stood) × IsClosable core.now session (names (map view ports.old)) node at out }
    ensures ends { (session : Stood) → IsClosable core.now session (names (map view ports.old)) node at out
        → Ends never [] (node_finish core.now session node) [] (map view ports.old) (map view ports.new) result }
    ensures same_names { names (map view ports.new) ≡ names (map view ports.old) }
{
    if at == out {
        return Ok(());
    }
    if !is_output(core, node) {
        return Ok(());
    }
    finish_act(ports, at)
}
