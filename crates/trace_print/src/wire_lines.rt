//! The line of a wire: its ends and the values on it.
ghost use Rattle.std.specs.Prelude.{◌≡◌, ◌+◌, ◌*◌, ◌≤◌, ◌<◌, ◌++◌, List, ℕ, length, map, Some, slice_get, codes, true};
ghost use Rattle.std.specs.List.{list_all};
ghost use Rattle.hume_base.specs.declared.limits.TheConstants.{MAX_NAME_BYTES};
ghost use Rattle.hume_base.specs.declared.types.Value.{Value};
ghost use Rattle.hume_base.specs.Sizes.{HaveTheirSizes, size_of};
ghost use Rattle.hume_base.specs.Flat.{flat};
ghost use Rattle.hume_base.specs.Values.{is_value};
ghost use Rattle.hume_model.specs.declared.core_tree.WireC.{WireC as AnyWire};
ghost use Rattle.hume_model.specs.WellFormed.{HasSoundFrame};
ghost use Rattle.hume_text.specs.Bounds.{IsPrintable};
ghost use Rattle.hume_text.specs.Chunks.{bytes_in, room_of};
ghost use Rattle.wire_cells.specs.Cells.{Holds};
ghost use Rattle.trace_print.specs.Rooms.{line_room, wire_room};
ghost use Rattle.trace_print.specs.TraceLines.{first_end, port_name, second_end, values_text, wire_line as line_of_wire};
ghost use Rattle.trace_print.specs.inner.Ends.{END_ROOM, MOST_ROOM};
ghost use Rattle.trace_print.specs.inner.Values.{AreRowsOf};

use hume_base::{Ty, Types, size};
use hume_model::{Core, NodeC, PortC, WireC};
use hume_text::{Chunk, print_value, texts_are_bounded};
use wire_cells::WireCell;

/// Enough bytes for each line of a trace of the core.
pub fn line_bound(core: &Core) -> u32
    requires { HasSoundFrame core.now }
    ensures { result ≡ line_room core.now }
{
    let mut most = 0;
    for w in 0..core.wires.len() {
        most = bound_at(core, w).max(most);
    }
    160 + most
}

// The room of the wire of a number.
fn bound_at(core: &Core, w: usize) -> u32
    requires frame { HasSoundFrame core.now }
    requires there { w < length core.now.wires }
    ensures room { (wire : AnyWire) → slice_get core.now.wires w ≡ Some wire → result ≡ wire_room core.now.types wire }
    ensures few { result ≤ MOST_ROOM }
{
    match core.wires.get(w) {
        None => unreachable!(),
        Some(wire) => wire_bound(&core.types, wire),
    }
}

fn wire_bound(types: &Types, wire: &WireC) -> u32
    requires sizes { HaveTheirSizes types.now }
    requires size { size_of types.now wire.now.ty ≤ 1024 }
    requires depth { wire.now.depth ≤ 16 }
    ensures room { result ≡ wire_room types.now wire.now }
    ensures few { result ≤ MOST_ROOM }
{
    160 + wire.depth * (512 * size(types, &wire.ty) + 3)
}

/// Puts the line of the wire whose cell it is, with all values that the cell holds.
pub fn wire_line(core: &Core, cell: &WireCell, chunk: &mut Chunk)
    requires frame { HasSoundFrame core.now }
    requires there { cell.now.number < length core.now.wires }
    requires printable { (wire : AnyWire) → slice_get core.now.wires cell.now.number ≡ Some wire → IsPrintable core.now.types wire.ty }
    requires holds { (wire : AnyWire) → slice_get core.now.wires cell.now.number ≡ Some wire → (held : List Value) × Holds core.now.types wire cell.now held }
    requires room { length (bytes_in chunk.old) + line_room core.now ≤ room_of chunk.old }
    ensures line { (wire : AnyWire) (held : List Value) → slice_get core.now.wires cell.now.number ≡ Some wire → Holds core.now.types wire cell.now held
        → bytes_in chunk.new ≡ bytes_in chunk.old ++ line_of_wire core.now wire held }
    ensures room { room_of chunk.new ≡ room_of chunk.old }
{
    match core.wires.get(cell.number() as usize) {
        None => unreachable!(),
        Some(wire) => put_wire(core, wire, cell, chunk),
    }
}

fn put_wire(core: &Core, wire: &WireC, cell: &WireCell, chunk: &mut Chunk)
    requires frame { HasSoundFrame core.now }
    requires printable { IsPrintable core.now.types wire.now.ty }
    requires holds { (held : List Value) × Holds core.now.types wire.now cell.now held }
    requires room { length (bytes_in chunk.old) + wire_room core.now.types wire.now ≤ room_of chunk.old }
    ensures line { (held : List Value) → Holds core.now.types wire.now cell.now held
        → bytes_in chunk.new ≡ bytes_in chunk.old ++ line_of_wire core.now wire.now held }
    ensures room { room_of chunk.new ≡ room_of chunk.old }
{
    chunk.put(b"wire ");
    put_first_end(core, wire, chunk);
    chunk.put(b" to ");
    put_second_end(core, wire, chunk);
    chunk.put(b" ");
    put_values(&core.types, &wire.ty, cell, chunk);
    chunk.put(b"\n");
}

fn put_first_end(core: &Core, wire: &WireC, chunk: &mut Chunk)
    requires frame { HasSoundFrame core.now }
    requires room { length (bytes_in chunk.old) + END_ROOM ≤ room_of chunk.old }
    ensures line { bytes_in chunk.new ≡ bytes_in chunk.old ++ first_end core.now wire.now }
    ensures few { length (bytes_in chunk.new) ≤ length (bytes_in chunk.old) + END_ROOM }
    ensures room { room_of chunk.new ≡ room_of chunk.old }
{
    match core.nodes.get(wire.from as usize) {
        None => {}
        Some(NodeC::Rules(b)) => put_port(
            b.name.bytes(),
            name_at(b.outs.as_slice(), wire.from_port as usize),
            chunk,
        ),
        Some(NodeC::From(stream) | NodeC::To(stream)) => chunk.put(stream.name.bytes()),
    }
}

fn put_second_end(core: &Core, wire: &WireC, chunk: &mut Chunk)
    requires frame { HasSoundFrame core.now }
    requires room { length (bytes_in chunk.old) + END_ROOM ≤ room_of chunk.old }
    ensures line { bytes_in chunk.new ≡ bytes_in chunk.old ++ second_end core.now wire.now }
    ensures few { length (bytes_in chunk.new) ≤ length (bytes_in chunk.old) + END_ROOM }
    ensures room { room_of chunk.new ≡ room_of chunk.old }
{
    match core.nodes.get(wire.to as usize) {
        None => {}
        Some(NodeC::Rules(b)) => put_port(
            b.name.bytes(),
            name_at(b.ins.as_slice(), wire.to_port as usize),
            chunk,
        ),
        Some(NodeC::From(stream) | NodeC::To(stream)) => chunk.put(stream.name.bytes()),
    }
}

// The name of a box, a dot and the name of its input or output.
fn put_port(name: &[u8], port: &[u8], chunk: &mut Chunk)
    requires name { length name.now ≤ MAX_NAME_BYTES }
    requires port { length port.now ≤ MAX_NAME_BYTES }
    requires room { length (bytes_in chunk.old) + END_ROOM ≤ room_of chunk.old }
    ensures line { bytes_in chunk.new ≡ bytes_in chunk.old ++ (name.now ++ codes "." ++ port.now) }
    ensures few { length (bytes_in chunk.new) ≤ length (bytes_in chunk.old) + END_ROOM }
    ensures room { room_of chunk.new ≡ room_of chunk.old }
{
    chunk.put(name);
    chunk.put(b".");
    chunk.put(port);
}

// The name of the input or output at a place.
fn name_at(ports: &[PortC], place: usize) -> &[u8]
    ensures { result.now ≡ port_name (slice_get ports.now place) }
{
    match ports.get(place) {
        None => &[],
        Some(port) => port.name.bytes(),
    }
}

// All values of a cell, the oldest first, or that there is none.
fn put_values(types: &Types, ty: &Ty, cell: &WireCell, chunk: &mut Chunk)
    requires sizes { HaveTheirSizes types.now }
    requires printable { IsPrintable types.now ty.now }
    requires holds { (held : List Value) × AreRowsOf types.now ty.now cell.now.values held }
    requires room { length (bytes_in chunk.old) + (5 + cell.now.depth * (512 * size_of types.now ty.now + 3)) ≤ room_of chunk.old }
    ensures text { (held : List Value) → AreRowsOf types.now ty.now cell.now.values held
        → bytes_in chunk.new ≡ bytes_in chunk.old ++ values_text types.now ty.now held }
    ensures few { length (bytes_in chunk.new) ≤ length (bytes_in chunk.old) + (5 + cell.now.depth * (512 * size_of types.now ty.now + 3)) }
    ensures room { room_of chunk.new ≡ room_of chunk.old }
{
    if cell.full() {
        put_all(types, ty, cell, chunk);
    } else {
        chunk.put(b"empty");
    }
}

// All values of a cell that holds some.
fn put_all(types: &Types, ty: &Ty, cell: &WireCell, chunk: &mut Chunk)
    requires sizes { HaveTheirSizes types.now }
    requires printable { IsPrintable types.now ty.now }
    requires some { 1 ≤ length cell.now.values }
    requires holds { (held : List Value) × AreRowsOf types.now ty.now cell.now.values held }
    requires room { length (bytes_in chunk.old) + cell.now.depth * (512 * size_of types.now ty.now + 3) ≤ room_of chunk.old }
    ensures text { (held : List Value) → AreRowsOf types.now ty.now cell.now.values held
        → bytes_in chunk.new ≡ bytes_in chunk.old ++ values_text types.now ty.now held }
    ensures few { length (bytes_in chunk.new) ≤ length (bytes_in chunk.old) + cell.now.depth * (512 * size_of types.now ty.now + 3) }
    ensures room { room_of chunk.new ≡ room_of chunk.old }
{
    texts_are_bounded();
    let count = cell.count();
    print_value(types, ty, cell.nth(0), chunk);
    for i in 1..count {
        chunk.put(b" | ");
        print_value(types, ty, cell.nth(i), chunk);
    }
}
