ghost use Rattle.std.specs.Prelude.{◌≡◌, ◌<◌, length, IfSome};
ghost use Rattle.std.specs.List.{position};
ghost use Rattle.std.specs.Option.{option_map};
ghost use Rattle.hume_calls.specs.Words.{number_of};
ghost use Rattle.hume_console.specs.inner.Asked.{asked_by};
ghost use Rattle.hume_console.specs.Commands.{command_of, exchange_at, exchange_of, is_space, step_of};

use hume_calls::words::numbers::{is_number, value};
use run_rounds::SPAN;

/// What a line asks for.
#[derive(Clone, Copy)]
pub enum Command<'a> {
    /// Make that many supersteps.
    Step(u32),
    /// Tell what is on each wire.
    Wires,
    /// Tell what each box took at most.
    Peaks,
    /// Let the stream of a name go on with the port of a name.
    Exchange { stream: &'a [u8], port: &'a [u8] },
    End,
}

/// What a line asks for, if it has a form.
pub fn read_command(line: &[u8]) -> Option<Command>
    ensures { option_map asked_by result ≡ command_of line.now }
{
    if line == b"wires".as_slice() {
        return Some(Command::Wires);
    }
    if line == b"peaks".as_slice() {
        return Some(Command::Peaks);
    }
    if line == b"end".as_slice() {
        return Some(Command::End);
    }
    if let Some(number) = line.strip_prefix(b"step ") {
        return read_step(number);
    }
    read_exchange(line.strip_prefix(b"exchange ")?)
}

fn read_step(number: &[u8]) -> Option<Command>
    ensures { option_map asked_by result ≡ step_of (number_of number.now) }
{
    if !is_number(number) {
        return None;
    }
    let steps = value(number);
    if 1 <= steps && steps <= SPAN {
        return Some(Command::Step(steps));
    }
    None
}

// The name of a stream up to a space, and the name of a port behind it. A port's name may have spaces.
fn read_exchange(names: &[u8]) -> Option<Command>
    ensures { option_map asked_by result ≡ exchange_at names.now (position is_space names.now) }
{
    let end = first_space(names)?;
    named(&names[..end], &names[end + 1..])
}

// An exchange of two names, if none is empty.
fn named<'a>(stream: &'a [u8], port: &'a [u8]) -> Option<Command<'a>>
    ensures { option_map asked_by result ≡ exchange_of stream.now port.now }
{
    if stream.len() == 0 || port.len() == 0 {
        return None;
    }
    Some(Command::Exchange { stream, port })
}

#[tactic(auto, using(crate::proofs::Placing::position_within))]
fn first_space(bytes: &[u8]) -> Option<usize>
    ensures place { result ≡ position is_space bytes.now }
    ensures within { IfSome result (λ place. place < length bytes.now) }
{
    bytes.iter().position(|byte| *byte == b' ')
}
