//! The queue or the log in the cell of a stream.
ghost use Rattle.std.specs.Prelude.{◌≡◌, ◌≤◌, ◌<◌, ◌*◌, ℕ, List, [], ◌∷◌, map, length, Some, OnOk, OnErr};
ghost use Rattle.std.specs.List.{AllZip};
ghost use Rattle.hume_base.specs.Sizes.{size_of};
ghost use Rattle.hume_base.specs.declared.types.Value.{Value};
ghost use Rattle.hume_net.specs.Nodes.{IsInputStream, IsOutputStream};
ghost use Rattle.hume_ports.specs.Ports.{names, ForNameAt, Untouched};
ghost use Rattle.hume_ports.specs.Delivery.{Roomy};
ghost use Rattle.hume_streams.specs.declared.queue.InQueue.{InQueue as AnyQueue};
ghost use Rattle.hume_streams.specs.declared.log.OutLog.{OutLog as AnyLog};
ghost use Rattle.hume_streams.specs.Logs.{LogView, log_view};
ghost use Rattle.hume_streams.specs.Queues.{queue_view, rebound};
ghost use Rattle.hume_streams.specs.places.FillsOfPorts.{NoReadFails};
ghost use Rattle.hume_streams.specs.places.LineWrites.{line_writes};
ghost use Rattle.hume_text.specs.Chunks.{bytes_in, room_of};
ghost use Rattle.hume_text.specs.Printed.{AreWordsOf};
ghost use Rattle.port_acts.specs.Acts.{write_each};
ghost use Rattle.port_acts.specs.Ends.{Ends, never};
ghost use Rattle.box_step.specs.nodes.Lends.{log_in, queue_in};
ghost use Rattle.phase_workers.specs.Runnable.{IsRunnable};
ghost use Rattle.phase_workers.specs.StreamTypes.{type_at};
ghost use Rattle.phase_workers.specs.inner.Filling.{HasLog, HasQueue, IsFilled};

use crate::seen::{Deed, Seen};
use crate::stream_types::stream_type;
use box_step::nodes::BoxCell;
use hume_model::Core;
use hume_ports::{Failed, Port};
use hume_streams::FillError;
use hume_streams::places::{drain_at, fill_at};
use hume_text::Chunk;

/// Fills the queue of an input stream from the port at that place, until it holds as many values as are wanted. These are then
/// the values to come.
pub(crate) fn fill_cell(
    cell: &mut BoxCell,
    seen: &mut Seen,
    core: &Core,
    node: u32,
    ports: &mut [Box<dyn Port>],
    at: usize,
    want: u32,
) -> Result<(), FillError>
    requires runnable { IsRunnable core.now }
    requires input { IsInputStream core.now node }
    requires place { at < length ports.old }
    requires queue { (queue : AnyQueue) × (queue_in cell.old.kind ≡ Some queue)
        × (size_of core.now.types (type_at core.now node) ≡ (queue_view queue).width) × (want ≤ (queue_view queue).span) }
    ensures filled { IsFilled core.now.types (type_at core.now node) want node at cell.old cell.new seen.old.state seen.new.state
        (map view ports.old) (map view ports.new) result }
    ensures roomy { Roomy (map view ports.old) [] → NoReadFails result }
    ensures same_names { names (map view ports.new) ≡ names (map view ports.old) }
    ensures untouched { ForNameAt at (map view ports.old) (λ name.
        Untouched (name ∷ []) (map view ports.old) (map view ports.new)) }
{
    let types = &core.types;
    let ty = stream_type(core, node);
    match cell.queue() {
        None => unreachable!(),
        Some(queue) => {
            let filled = fill_at(queue, types, ty, ports, at, want);
            *seen = seen.then(&Deed::Filled(node, types, ty, queue));
            filled
        }
    }
}

/// The queue of an input stream then goes on with another port.
pub(crate) fn rebind_cell(cell: &mut BoxCell)
    requires { (queue : AnyQueue) × (queue_in cell.old.kind ≡ Some queue) }
    ensures { HasQueue cell.old cell.new rebound }
{
    match cell.queue() {
        None => unreachable!(),
        Some(queue) => queue.rebind(),
    }
}

/// Writes each value of the log of an output stream as a line to the port at that place. The log then holds none.
pub(crate) fn drain_cell(
    cell: &mut BoxCell,
    core: &Core,
    node: u32,
    ports: &mut [Box<dyn Port>],
    at: usize,
    chunk: &mut Chunk,
) -> Result<(), Failed>
    requires runnable { IsRunnable core.now }
    requires output { IsOutputStream core.now node }
    requires place { at < length ports.old }
    requires clear { bytes_in chunk.old ≡ [] }
    requires spare { 512 * size_of core.now.types (type_at core.now node) < room_of chunk.old }
    requires log { (log : AnyLog) × (log_in cell.old.kind ≡ Some log) }
    ensures ends { (log : AnyLog) → log_in cell.old.kind ≡ Some log → (values : List Value)
        → AllZip (AreWordsOf core.now.types (type_at core.now node)) (log_view log).values values → ForNameAt at (map view ports.old) (λ name.
        Ends never [] (write_each (line_writes name core.now.types (type_at core.now node) values)) [] (map view ports.old) (map view ports.new) result) }
    ensures same_names { names (map view ports.new) ≡ names (map view ports.old) }
    ensures drained { OnOk result (HasLog cell.old cell.new (λ (log : LogView). record log { values = [] })) }
    ensures kept { OnErr result (HasLog cell.old cell.new (λ log. log)) }
    ensures clear { bytes_in chunk.new ≡ [] }
    ensures room { room_of chunk.new ≡ room_of chunk.old }
{
    let ty = stream_type(core, node);
    match cell.log() {
        None => unreachable!(),
        Some(log) => drain_at(log, &core.types, ty, ports, at, chunk),
    }
}

/// The log of an output stream then holds no value.
pub(crate) fn clear_cell(cell: &mut BoxCell)
    requires { (log : AnyLog) × (log_in cell.old.kind ≡ Some log) }
    ensures { HasLog cell.old cell.new (λ (log : LogView). record log { values = [] }) }
{
    match cell.log() {
        None => unreachable!(),
        Some(log) => log.clear(),
    }
}
