ghost use Rattle.std.specs.Prelude.{◌≡◌, ◌+◌, ◌≤◌, ◌<◌, ℕ, List, [], length, map, vec_len, vec_capacity, slice_get};
ghost use Rattle.hume_ports.specs.Ports.{names, ForNameAt};
ghost use Rattle.port_acts.specs.Ends.{Ends, never};
ghost use Rattle.phase_workers.specs.Engines.{core_of, span_of, state_of, ArePeaksKept};
ghost use Rattle.phase_workers.specs.Runnable.{IsRunnable};
ghost use Rattle.hume_console.specs.Session.{Session};
ghost use Rattle.hume_console.specs.inner.Exchanging.{finish_of, left_exchange, EndsExchange, IsRebound};
ghost use Rattle.hume_console.specs.inner.Placed.{ArePlaced};
ghost use Rattle.hume_console.specs.inner.Standing.{BeginsAsItIs, Bindings, Call, Commands, Later, Stands};

use crate::finding::find_exchange;
use crate::places::Places;
use crate::retiring::retire;
use hume_model::Core;
use hume_ports::{Failed, Port};
use phase_workers::Engine;
use port_acts::finish_act;
use run_rounds::{is_input, is_output};

/// Lets the stream of that name go on with the port of that name, and moves its old port to those that are gone. Answers whether
/// it was done: not where there is no such stream or port, or the port is taken, or the old one is `std_out`.
pub fn exchange(
    engine: &mut Engine,
    places: &mut Places,
    stream: &[u8],
    port: &[u8],
    ports: &mut Vec<Box<dyn Port>>,
    gone: &mut Vec<Box<dyn Port>>,
) -> Result<bool, Failed>
    requires runnable { IsRunnable (core_of engine.old) }
    requires placed { (source : List ℕ) × (session : Session) × ArePlaced (core_of engine.old) source session (names (map view ports.old.items)) places.old }
    requires room { vec_len gone.old + vec_len ports.old ≤ vec_capacity gone.old }
    ensures room { vec_len gone.new + vec_len ports.new ≤ vec_capacity gone.new }
    ensures ends { (call : Call) (limit number : ℕ) (later : Later) (commands : Commands) (b : Bindings) → BeginsAsItIs later
        → Stands call limit (left_exchange call number stream.now port.now later) engine.old commands places.old
        (record { ports = map view ports.old.items; gone = map view gone.old.items }) b
        → EndsExchange call limit number later engine.new commands places.new
        (record { ports = map view ports.new.items; gone = map view gone.new.items }) result }
{
    let Some(exchange) = find_exchange(engine.core(), places, stream, port, ports) else {
        return Ok(false);
    };
    let node = exchange.node;
    let at = places.of_node(node);
    match finish_old(engine.core(), node, ports, at) {
        Ok(()) => {}
        Err(failed) => return Err(failed),
    }
    forget_old(engine, node);
    retire(ports, at, gone);
    places.exchange(node, exchange.to);
    Ok(true)
}

// Finishes the port at that place, if the node is an output stream.
fn finish_old(
    core: &Core,
    node: usize,
    ports: &mut [Box<dyn Port>],
    at: usize,
) -> Result<(), Failed>
    requires { at < length ports.old }
    ensures ends { ForNameAt at (map view ports.old) (λ name.
        Ends never [] (finish_of name (slice_get core.now.nodes node)) [] (map view ports.old) (map view ports.new) result) }
    ensures same_names { names (map view ports.new) ≡ names (map view ports.old) }
{
    if !is_output(core, node) {
        return Ok(());
    }
    finish_act(ports, at)
}

// Lets the node go on with another port, if it is an input stream.
fn forget_old(engine: &mut Engine, node: usize)
    requires runnable { IsRunnable (core_of engine.old) }
    requires within { node < length (core_of engine.old).nodes }
    ensures span { span_of engine.new ≡ span_of engine.old }
    ensures state { state_of engine.new ≡ state_of engine.old }
    ensures peaks { ArePeaksKept engine.old engine.new }
    ensures bound { IsRebound (core_of engine.old) engine.old engine.new node }
{
    if is_input(engine.core(), node) {
        engine.rebind(node as u32);
    }
}
