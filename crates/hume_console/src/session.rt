ghost use Rattle.std.specs.Prelude.{◌≡◌, ◌+◌, ◌≤◌, ℕ, List, OnOk, length, map, vec_len, vec_capacity};
ghost use Rattle.hume_console.specs.declared.session.TheConstants.{MAX_COMMANDS};

use crate::answering::{Turn, obey};
use crate::command::read_command;
use crate::command_lines::{CommandLines, Next};
use crate::ending::Ending;
use crate::places::Places;
use crate::telling::tell_bad_command;
use hume_ports::{Failed, Port};
use hume_text::Chunk;
use phase_workers::Engine;
use std::thread::Threads;
use turn_workers::Gate;

/// How many lines of commands may be read.
pub const MAX_COMMANDS: u32 = 1_000_000;

/// A session with all its memory: a net, the lines of its commands, and room for a line that is told.
#[derive(Drop)]
pub struct Session {
    pub engine: Engine,
    pub lines: CommandLines,
    pub chunk: Chunk,
    pub places: Places,
    pub workers: u32,
}

impl Session {
    ghost use Rattle.hume_console.specs.inner.Answering.{EndsLine, EndsLines, IsRoomy, StandsAt};
    ghost use Rattle.hume_console.specs.inner.CommandBuffers.{unread_in, IsNext};
    ghost use Rattle.hume_console.specs.inner.Lines.{EndsNext, StandsBad, StandsBeforeLine};
    ghost use Rattle.hume_ports.specs.Port.{PortView};
    ghost use Rattle.hume_ports.specs.Ports.{names};
    ghost use Rattle.hume_console.specs.inner.Standing.{Call};

    /// Does what the lines of the commands ask for, one by one, until they end, or a line is bad.
    pub fn run<R: Threads + Sync, G: Gate>(
        &mut self,
        rt: &R,
        ports: &mut Vec<Box<dyn Port>>,
        gone: &mut Vec<Box<dyn Port>>,
        gate: &G,
    ) -> Result<Ending, Failed>
        requires roomy { IsRoomy self.old }
        requires room { vec_len gone.old + vec_len ports.old ≤ vec_capacity gone.old }
        requires at { (call : Call) × StandsAt call 1 self.old (record { ports = map view ports.old.items; gone = map view gone.old.items }) }
        ensures ends { (call : Call) → StandsAt call 1 self.old (record { ports = map view ports.old.items; gone = map view gone.old.items })
            → EndsLines call self.new (record { ports = map view ports.new.items; gone = map view gone.new.items }) result }
    {
        for done in 0..MAX_COMMANDS {
            match self.answer_line(rt, done + 1, ports, gone, gate) {
                Ok(Turn::Continues) => {}
                Ok(Turn::Ends(ending)) => return Ok(ending),
                Err(failed) => return Err(failed),
            }
        }
        self.refuse_line(ports)
    }

    // Ends where there is no further line, or else tells that there is one too many.
    fn refuse_line(&mut self, ports: &mut [Box<dyn Port>]) -> Result<Ending, Failed>
        requires roomy { IsRoomy self.old }
        requires at { (call : Call) × (gone : List PortView) × StandsAt call (MAX_COMMANDS + 1) self.old (record { ports = map view ports.old; gone = gone }) }
        ensures ends { (call : Call) (gone : List PortView) → StandsAt call (MAX_COMMANDS + 1) self.old (record { ports = map view ports.old; gone = gone })
            → EndsLines call self.new (record { ports = map view ports.new; gone = gone }) result }
        ensures same_names { names (map view ports.new) ≡ names (map view ports.old) }
    {
        match self.read_line(MAX_COMMANDS + 1, ports) {
            Ok(Next::End) => Ok(Ending::Done),
            Ok(Next::Line(_)) => self.tell_bad(MAX_COMMANDS + 1, ports),
            Ok(Next::TooLong) => self.tell_bad(MAX_COMMANDS + 1, ports),
            Err(failed) => Err(failed),
        }
    }

    // Reads the line of that number, and answers it.
    fn answer_line<R: Threads + Sync, G: Gate>(
        &mut self,
        rt: &R,
        number: u32,
        ports: &mut Vec<Box<dyn Port>>,
        gone: &mut Vec<Box<dyn Port>>,
        gate: &G,
    ) -> Result<Turn, Failed>
        requires roomy { IsRoomy self.old }
        requires room { vec_len gone.old + vec_len ports.old ≤ vec_capacity gone.old }
        requires number { number ≤ MAX_COMMANDS }
        requires at { (call : Call) × StandsAt call number self.old (record { ports = map view ports.old.items; gone = map view gone.old.items }) }
        ensures ends { (call : Call) → StandsAt call number self.old (record { ports = map view ports.old.items; gone = map view gone.old.items })
            → EndsLine call number self.new (record { ports = map view ports.new.items; gone = map view gone.new.items }) result }
        ensures roomy { OnOk result (IsRoomy self.new) }
        ensures room { vec_len gone.new + vec_len ports.new ≤ vec_capacity gone.new }
    {
        match self.read_line(number, ports) {
            Ok(Next::End) => Ok(Turn::Ends(Ending::Done)),
            Ok(Next::TooLong) => match self.tell_bad(number, ports) {
                Ok(ending) => Ok(Turn::Ends(ending)),
                Err(failed) => Err(failed),
            },
            Ok(Next::Line(length)) => self.answer(rt, length, number, ports, gone, gate),
            Err(failed) => Err(failed),
        }
    }

    // Reads until the line of that number stands at the front, or it is too long, or there is none.
    fn read_line(&mut self, number: u32, ports: &mut [Box<dyn Port>]) -> Result<Next, Failed>
        requires roomy { IsRoomy self.old }
        requires at { (call : Call) × (gone : List PortView) × StandsAt call number self.old (record { ports = map view ports.old; gone = gone }) }
        ensures ends { (call : Call) (gone : List PortView) → StandsAt call number self.old (record { ports = map view ports.old; gone = gone })
            → EndsNext call number self.new (record { ports = map view ports.new; gone = gone }) result }
        ensures roomy { OnOk result (IsRoomy self.new) }
        ensures same_names { names (map view ports.new) ≡ names (map view ports.old) }
    {
        self.lines.next(ports, self.places.std_in)
    }

    // Answers the line of that number, which stands at the front and has so many bytes, and takes it.
    fn answer<R: Threads + Sync, G: Gate>(
        &mut self,
        rt: &R,
        length: usize,
        number: u32,
        ports: &mut Vec<Box<dyn Port>>,
        gone: &mut Vec<Box<dyn Port>>,
        gate: &G,
    ) -> Result<Turn, Failed>
        requires roomy { IsRoomy self.old }
        requires room { vec_len gone.old + vec_len ports.old ≤ vec_capacity gone.old }
        requires number { number ≤ MAX_COMMANDS }
        requires at { (call : Call) × StandsBeforeLine call number length self.old
            (record { ports = map view ports.old.items; gone = map view gone.old.items }) }
        ensures ends { (call : Call) → StandsBeforeLine call number length self.old
            (record { ports = map view ports.old.items; gone = map view gone.old.items })
            → EndsLine call number self.new (record { ports = map view ports.new.items; gone = map view gone.new.items }) result }
        ensures roomy { OnOk result (IsRoomy self.new) }
        ensures room { vec_len gone.new + vec_len ports.new ≤ vec_capacity gone.new }
    {
        let command = read_command(&self.lines.unread()[..length]);
        let turn = match obey(
            rt,
            &mut self.engine,
            &mut self.places,
            &mut self.chunk,
            self.workers,
            command,
            number,
            ports,
            gone,
            gate,
        ) {
            Ok(turn) => turn,
            Err(failed) => return Err(failed),
        };
        self.lines.take_line(length);
        Ok(turn)
    }

    // Tells that the line of that number is bad.
    fn tell_bad(&mut self, number: u32, ports: &mut [Box<dyn Port>]) -> Result<Ending, Failed>
        requires roomy { IsRoomy self.old }
        requires at { (call : Call) × (gone : List PortView) × StandsBad call number self.old (record { ports = map view ports.old; gone = gone }) }
        ensures ends { (call : Call) (gone : List PortView) → StandsBad call number self.old (record { ports = map view ports.old; gone = gone })
            → EndsLines call self.new (record { ports = map view ports.new; gone = gone }) result }
        ensures roomy { OnOk result (IsRoomy self.new) }
        ensures same_names { names (map view ports.new) ≡ names (map view ports.old) }
    {
        match tell_bad_command(number, ports, self.places.std_out, &mut self.chunk) {
            Ok(()) => Ok(Ending::BadValue),
            Err(failed) => Err(failed),
        }
    }
}
