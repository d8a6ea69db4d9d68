//! What a session tells of a line of commands that is wrong. Each line is one write.
ghost use Rattle.std.specs.Prelude.{◌≡◌, ◌≤◌, ◌∷◌, [], map};
ghost use Rattle.hume_ports.specs.Ports.{names};
ghost use Rattle.hume_text.specs.Chunks.{room_of};
ghost use Rattle.port_acts.specs.Acts.{writes};
ghost use Rattle.port_acts.specs.Ends.{Ends, never};
ghost use Rattle.port_acts.specs.Places.{IsPlaceOf};
ghost use Rattle.run_rounds.specs.Streams.{std_out};
ghost use Rattle.run_rounds.specs.Writes.{bad_value_line};
ghost use Rattle.hume_console.specs.Words.{std_in};
ghost use Rattle.hume_console.specs.Commands.{no_command_line, no_exchange_line};

use crate::lines::{put_no_command, put_no_exchange};
use hume_ports::{Failed, Port};
use hume_text::Chunk;
use port_acts::write_act;
use run_rounds::put_bad_line;

/// Tells that the line of that number has no form.
pub fn tell_no_command(
    number: u32,
    ports: &mut [Box<dyn Port>],
    out: usize,
    chunk: &mut Chunk,
) -> Result<(), Failed>
    requires out { IsPlaceOf std_out (names (map view ports.old)) out }
    requires room { 160 ≤ room_of chunk.old }
    ensures ends { Ends never [] (writes std_out (no_command_line number) ∷ []) [] (map view ports.old) (map view ports.new) result }
    ensures same_names { names (map view ports.new) ≡ names (map view ports.old) }
    ensures room { room_of chunk.new ≡ room_of chunk.old }
{
    chunk.clear();
    put_no_command(number, chunk);
    write_act(ports, out, chunk.bytes())
}

/// Tells that the line of that number asks for an exchange that can't be.
pub fn tell_no_exchange(
    number: u32,
    ports: &mut [Box<dyn Port>],
    out: usize,
    chunk: &mut Chunk,
) -> Result<(), Failed>
    requires out { IsPlaceOf std_out (names (map view ports.old)) out }
    requires room { 160 ≤ room_of chunk.old }
    ensures ends { Ends never [] (writes std_out (no_exchange_line number) ∷ []) [] (map view ports.old) (map view ports.new) result }
    ensures same_names { names (map view ports.new) ≡ names (map view ports.old) }
    ensures room { room_of chunk.new ≡ room_of chunk.old }
{
    chunk.clear();
    put_no_exchange(number, chunk);
    write_act(ports, out, chunk.bytes())
}

/// Tells that the line of that number is too long, or one too many.
pub fn tell_bad_command(
    number: u32,
    ports: &mut [Box<dyn Port>],
    out: usize,
    chunk: &mut Chunk,
) -> Result<(), Failed>
    requires out { IsPlaceOf std_out (names (map view ports.old)) out }
    requires room { 160 ≤ room_of chunk.old }
    ensures ends { Ends never [] (writes std_out (bad_value_line std_in number) ∷ []) [] (map view ports.old) (map view ports.new) result }
    ensures same_names { names (map view ports.new) ≡ names (map view ports.old) }
    ensures room { room_of chunk.new ≡ room_of chunk.old }
{
    chunk.clear();
    put_bad_line(b"std_in", u64::from(number), chunk);
    write_act(ports, out, chunk.bytes())
}
