//! The lines that tell what is wrong with a line of commands.
ghost use Rattle.std.specs.Prelude.{◌≡◌, ◌+◌, ◌≤◌, ◌++◌, length};
ghost use Rattle.hume_text.specs.Chunks.{bytes_in, room_of};
ghost use Rattle.hume_console.specs.Commands.{no_command_line, no_exchange_line};

use hume_text::Chunk;
use itoa::Buffer;

/// Puts the line that tells which line has no form of a command.
pub fn put_no_command(number: u32, chunk: &mut Chunk)
    requires { length (bytes_in chunk.old) + 128 ≤ room_of chunk.old }
    ensures line { bytes_in chunk.new ≡ bytes_in chunk.old ++ no_command_line number }
    ensures room { room_of chunk.new ≡ room_of chunk.old }
{
    chunk.put(b"no command line ");
    chunk.put(Buffer::new().format(number).as_bytes());
    chunk.put(b"\n");
}

/// Puts the line that tells which line asks for an exchange that can't be.
pub fn put_no_exchange(number: u32, chunk: &mut Chunk)
    requires { length (bytes_in chunk.old) + 128 ≤ room_of chunk.old }
    ensures line { bytes_in chunk.new ≡ bytes_in chunk.old ++ no_exchange_line number }
    ensures room { room_of chunk.new ≡ room_of chunk.old }
{
    chunk.put(b"no exchange line ");
    chunk.put(Buffer::new().format(number).as_bytes());
    chunk.put(b"\n");
}
