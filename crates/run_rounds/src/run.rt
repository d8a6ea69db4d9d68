//! A run that is open.
ghost use Rattle.std.specs.Prelude.{◌≡◌, ◌≤◌, ◌<◌, ◌*◌, ◌^◌, ◌∷◌, [], suc, length, map, slice_get, IfOk, None};
ghost use Rattle.hume_base.specs.Least.{IsLeast};
ghost use Rattle.hume_net.specs.StatePlaces.{BoxesHandleAll};
ghost use Rattle.hume_ports.specs.Ports.{names};
ghost use Rattle.hume_text.specs.Chunks.{room_of};
ghost use Rattle.port_acts.specs.Acts.{write_each, writes};
ghost use Rattle.port_acts.specs.Ends.{Ends, never};
ghost use Rattle.port_acts.specs.Places.{IsPlaceOf};
ghost use Rattle.wiring_check.specs.Wires.{IsWiringOf};
ghost use Rattle.box_compile.specs.Programs.{AreProgramsOf};
ghost use Rattle.box_costs.specs.CostRules.{BreaksCosts};
ghost use Rattle.phase_workers.specs.Engines.{core_of};
ghost use Rattle.phase_workers.specs.Runnable.{IsRunnable};
ghost use Rattle.run_rounds.specs.Streams.{ArePlacesOf, ArePortsApart, std_out};
ghost use Rattle.trace_print.specs.Rooms.{line_room};
ghost use Rattle.run_rounds.specs.MadeRounds.{RoundsEnd};
ghost use Rattle.run_rounds.specs.Members.{EndsMembers, member_bad_line, member_lines, members_before, nodes_of, views};
ghost use Rattle.run_rounds.specs.Runs.{EndsRun};
ghost use Rattle.run_rounds.specs.Telling.{top_there, tops};
ghost use Rattle.run_rounds.specs.Writes.{bad_value_line, name_of, told};
ghost use Rattle.trace_print.specs.TraceLines.{peak_lines};

use crate::bad_line::BadLine;
use crate::members::Member;
use crate::rounds::{make_rounds, span};
use crate::telling::{tell_bad_line, tell_member_bad_line, tell_members, tell_peaks};
use box_code::BoxProgram;
use hume_base::List;
use hume_base::limits::MAX_TYPE_WORDS;
use hume_model::Core;
use hume_ports::{Failed, Port};
use hume_text::Chunk;
use phase_workers::Engine;
use std::alloc::{AllocError, Global};
use std::thread::Threads;
use trace_print::line_bound;
use turn_workers::Gate;
use wiring_check::Wiring;

// No text of a value is longer than so many bytes for each of its words.
const WORD_BYTES: u32 = 512;

/// A run that is open: a net, and room for a line. No later call needs memory.
#[derive(Drop)]
pub struct Running {
    engine: Engine,
    chunk: Chunk,
    // whether all wires are told after each superstep
    traced: bool,
    ghost values: { 512 * 1024 < room_of chunk },
    ghost lines: { line_room (core_of engine) ≤ room_of chunk },
}

impl Running {
    ghost use Rattle.run_rounds.specs.Opened.{core_in, engine_in, traced_in, IsOpened};

    /// The run of a core before its first superstep, of boxes whose programs are given. If `traced`, it will tell all wires after each
    /// superstep. It takes all memory that the run needs.
    pub fn make(
        alloc: Global,
        core: Core,
        wiring: &Wiring,
        programs: List<BoxProgram>,
        traced: bool,
    ) -> Result<Running, AllocError>
        requires runnable { IsRunnable core }
        requires handles { BoxesHandleAll core }
        requires wiring { IsWiringOf core wiring.now }
        requires programs { AreProgramsOf core programs }
        requires within { IsLeast (BreaksCosts core) None }
        ensures { IfOk result (λ running. IsOpened core traced running) }
    {
        let bytes = line_bound(&core).max(WORD_BYTES * MAX_TYPE_WORDS + 1);
        let chunk = Chunk::make(alloc, bytes)?;
        let engine = Engine::make(alloc, core, wiring, programs, span(traced))?;
        Ok(Running {
            engine,
            chunk,
            traced,
        })
    }

    pub fn core(&self) -> &Core
        ensures { result.now ≡ core_in self.now }
    {
        self.engine.core()
    }

    /// Makes `steps` supersteps by rounds of at most `workers` threads, and then tells what each box took at most. Answers whether a
    /// bad line of a stream has blocked a round; it is told then. The ports of the streams are given by their places, one for each
    /// node, and so is the port for all that is told besides.
    pub fn run<R: Threads + Sync, G: Gate>(
        &mut self,
        rt: &R,
        steps: u32,
        workers: u32,
        gate: &G,
        ports: &mut [Box<dyn Port>],
        places: &[usize],
        out: usize,
    ) -> Result<bool, Failed>
        requires workers { workers ≤ 2 ^ 16 }
        requires runnable { IsRunnable (core_in self.old) }
        requires places { ArePlacesOf (core_in self.old) (names (map view ports.old)) places.now }
        requires apart { ArePortsApart (core_in self.old) }
        requires out { IsPlaceOf std_out (names (map view ports.old)) out }
        requires opened { IsOpened (core_in self.old) (traced_in self.old) self.old }
        ensures ends { EndsRun (core_in self.old) (traced_in self.old) steps (map view ports.old) (map view ports.new) result }
        ensures same_names { names (map view ports.new) ≡ names (map view ports.old) }
    {
        match self.make_rounds(rt, steps, workers, gate, ports, places, out) {
            Ok(None) => match self.tell_peaks(ports, out) {
                Ok(()) => Ok(false),
                Err(failed) => Err(failed),
            },
            Ok(Some(bad)) => match self.tell_bad_line(bad, ports, out) {
                Ok(()) => Ok(true),
                Err(failed) => Err(failed),
            },
            Err(failed) => Err(failed),
        }
    }

    /// Runs the core of a union as `run` does, and tells all by its programs.
    pub fn run_union<R: Threads + Sync, G: Gate>(
        &mut self,
        rt: &R,
        members: &[Member],
        steps: u32,
        workers: u32,
        gate: &G,
        ports: &mut [Box<dyn Port>],
        places: &[usize],
        out: usize,
    ) -> Result<bool, Failed>
        requires workers { workers ≤ 2 ^ 16 }
        requires runnable { IsRunnable (core_in self.old) }
        requires places { ArePlacesOf (core_in self.old) (names (map view ports.old)) places.now }
        requires apart { ArePortsApart (core_in self.old) }
        requires out { IsPlaceOf std_out (names (map view ports.old)) out }
        requires opened { IsOpened (core_in self.old) (traced_in self.old) self.old }
        requires few { length members.now < 2 ^ 31 }
        requires nodes { nodes_of (views members.now) ≤ length (core_in self.old).nodes }
        ensures ends { EndsMembers (core_in self.old) (views members.now) (traced_in self.old) steps (map view ports.old) (map view ports.new) result }
        ensures same_names { names (map view ports.new) ≡ names (map view ports.old) }
    {
        match self.make_rounds(rt, steps, workers, gate, ports, places, out) {
            Ok(None) => {
                match self.tell_members(members, ports, out) {
                    Ok(()) => {}
                    Err(failed) => return Err(failed),
                }
                Ok(false)
            }
            Ok(Some(bad)) => {
                match self.tell_member_bad_line(members, bad, ports, out) {
                    Ok(()) => {}
                    Err(failed) => return Err(failed),
                }
                Ok(true)
            }
            Err(failed) => Err(failed),
        }
    }

    /// Makes `steps` supersteps by rounds of at most `workers` threads, until a bad line of a stream blocks one: it is the answer then.
    pub fn make_rounds<R: Threads + Sync, G: Gate>(
        &mut self,
        rt: &R,
        steps: u32,
        workers: u32,
        gate: &G,
        ports: &mut [Box<dyn Port>],
        places: &[usize],
        out: usize,
    ) -> Result<Option<BadLine>, Failed>
        requires workers { workers ≤ 2 ^ 16 }
        requires runnable { IsRunnable (core_in self.old) }
        requires places { ArePlacesOf (core_in self.old) (names (map view ports.old)) places.now }
        requires apart { ArePortsApart (core_in self.old) }
        requires out { IsPlaceOf std_out (names (map view ports.old)) out }
        requires opened { IsOpened (core_in self.old) (traced_in self.old) self.old }
        ensures core { core_in self.new ≡ core_in self.old }
        ensures ends { RoundsEnd (core_in self.old) (traced_in self.old) steps (map view ports.old) (map view ports.new) (engine_in self.new) result }
        ensures same_names { names (map view ports.new) ≡ names (map view ports.old) }
    {
        make_rounds(
            rt,
            &mut self.engine,
            self.traced,
            steps,
            workers,
            gate,
            ports,
            places,
            out,
            &mut self.chunk,
        )
    }

    /// Tells what each box has taken at most in one of its execute steps.
    pub fn tell_peaks(&mut self, ports: &mut [Box<dyn Port>], out: usize) -> Result<(), Failed>
        requires runnable { IsRunnable (core_in self.old) }
        requires out { IsPlaceOf std_out (names (map view ports.old)) out }
        ensures ends { Ends never [] (write_each (told (peak_lines (core_in self.old) (tops (engine_in self.old))))) []
            (map view ports.old) (map view ports.new) result }
        ensures same_names { names (map view ports.new) ≡ names (map view ports.old) }
    {
        tell_peaks(&self.engine, ports, out, &mut self.chunk)
    }

    /// Tells the bad line of an input stream.
    pub fn tell_bad_line(
        &mut self,
        bad: BadLine,
        ports: &mut [Box<dyn Port>],
        out: usize,
    ) -> Result<(), Failed>
        requires runnable { IsRunnable (core_in self.old) }
        requires out { IsPlaceOf std_out (names (map view ports.old)) out }
        ensures ends { Ends never [] (writes std_out (bad_value_line (name_of (slice_get (core_in self.old).nodes bad.node)) bad.line) ∷ []) []
            (map view ports.old) (map view ports.new) result }
        ensures same_names { names (map view ports.new) ≡ names (map view ports.old) }
    {
        tell_bad_line(self.engine.core(), bad, ports, out, &mut self.chunk)
    }

    /// Tells what each box of a union has taken at most, by its programs.
    pub fn tell_members(
        &mut self,
        members: &[Member],
        ports: &mut [Box<dyn Port>],
        out: usize,
    ) -> Result<(), Failed>
        requires runnable { IsRunnable (core_in self.old) }
        requires nodes { nodes_of (views members.now) ≤ length (core_in self.old).nodes }
        requires out { IsPlaceOf std_out (names (map view ports.old)) out }
        ensures ends { Ends never [] (write_each (told (member_lines (top_there (engine_in self.old)) 0 (views members.now)))) []
            (map view ports.old) (map view ports.new) result }
        ensures same_names { names (map view ports.new) ≡ names (map view ports.old) }
    {
        tell_members(&self.engine, members, 0, ports, out, &mut self.chunk)
    }

    /// Tells the bad line of an input stream of a union, and the number of its program.
    pub fn tell_member_bad_line(
        &mut self,
        members: &[Member],
        bad: BadLine,
        ports: &mut [Box<dyn Port>],
        out: usize,
    ) -> Result<(), Failed>
        requires runnable { IsRunnable (core_in self.old) }
        requires few { length members.now < 2 ^ 31 }
        requires out { IsPlaceOf std_out (names (map view ports.old)) out }
        ensures ends { Ends never []
            (writes std_out (member_bad_line (suc (members_before (views members.now) bad.node))
            (name_of (slice_get (core_in self.old).nodes bad.node)) bad.line) ∷ []) []
            (map view ports.old) (map view ports.new) result }
        ensures same_names { names (map view ports.new) ≡ names (map view ports.old) }
    {
        tell_member_bad_line(
            self.engine.core(),
            members,
            bad,
            ports,
            out,
            &mut self.chunk,
        )
    }
}
