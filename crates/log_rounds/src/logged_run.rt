//! A logged run that is open.
ghost use Rattle.std.specs.Prelude.{◌≡◌, ◌≤◌, ◌<◌, length, map, IfOk, None};
ghost use Rattle.hume_base.specs.declared.limits.TheConstants.{MAX_SUPERSTEPS};
ghost use Rattle.hume_base.specs.Least.{IsLeast};
ghost use Rattle.hume_net.specs.StatePlaces.{BoxesHandleAll};
ghost use Rattle.hume_ports.specs.Ports.{names, ForNameAt};
ghost use Rattle.hume_text.specs.Chunks.{room_of};
ghost use Rattle.port_acts.specs.Places.{IsPlaceOf};
ghost use Rattle.wiring_check.specs.Wires.{IsWiringOf};
ghost use Rattle.box_compile.specs.Programs.{AreProgramsOf};
ghost use Rattle.box_costs.specs.CostRules.{BreaksCosts};
ghost use Rattle.phase_workers.specs.Runnable.{IsRunnable};
ghost use Rattle.run_rounds.specs.Streams.{ArePlacesOf, ArePortsApart, std_out};

use crate::recording::record_supersteps;
use crate::telling::tell_stop;
use crate::verdict::{Verdict, verdict_of};
use crate::verifying::judge;
use box_code::BoxProgram;
use hume_base::List;
use hume_model::Core;
use hume_ports::{Failed, Port};
use hume_text::Chunk;
use run_log::LogRun;
use run_rounds::{each_run_has_inputs, tell_bad_line};
use std::alloc::{AllocError, Global};
use wiring_check::Wiring;

// No line that is told is longer.
const LINE_BYTES: u32 = 160;

/// A run whose halves are written to a log or compared with one, and room for a line. No call but `make` needs memory.
#[derive(Drop)]
pub struct LoggedRun {
    run: LogRun,
    chunk: Chunk,
    ghost line: { 160 ≤ room_of chunk },
}

impl LoggedRun {
    ghost use Rattle.log_rounds.specs.Ended.{EndsRecord, EndsVerify};
    ghost use Rattle.log_rounds.specs.Opened.{core_in, run_in, IsApart, IsFresh};

    /// The run of a core before its first superstep, of boxes whose programs are given. It takes all memory that the run needs.
    pub fn make(
        alloc: Global,
        core: Core,
        wiring: &Wiring,
        programs: List<BoxProgram>,
    ) -> Result<LoggedRun, AllocError>
        requires runnable { IsRunnable core }
        requires handles { BoxesHandleAll core }
        requires wiring { IsWiringOf core wiring.now }
        requires programs { AreProgramsOf core programs }
        requires within { IsLeast (BreaksCosts core) None }
        ensures { IfOk result (λ logged. IsFresh core (run_in logged)) }
    {
        let chunk = Chunk::make(alloc, LINE_BYTES)?;
        let run = LogRun::make(alloc, core, wiring, programs)?;
        Ok(LoggedRun { run, chunk })
    }

    pub fn core(&self) -> &Core
        ensures { result.now ≡ core_in self.now }
    {
        self.run.core()
    }

    /// Makes `steps` supersteps from the start, and writes the start and the halves of each to the log. Answers whether a bad line of a
    /// stream has blocked a superstep; it is told then. The ports of the streams are given by their places, one for each node, and so
    /// are those of the log and of what is told.
    pub fn record(
        &mut self,
        steps: u32,
        ports: &mut [Box<dyn Port>],
        places: &[usize],
        log: usize,
        out: usize,
    ) -> Result<bool, Failed>
        requires steps { steps ≤ MAX_SUPERSTEPS }
        requires runnable { IsRunnable (core_in self.old) }
        requires places { ArePlacesOf (core_in self.old) (names (map view ports.old)) places.now }
        requires apart { ArePortsApart (core_in self.old) }
        requires log { log < length ports.old }
        requires out { IsPlaceOf std_out (names (map view ports.old)) out }
        requires fresh { IsFresh (core_in self.old) (run_in self.old) }
        ensures ends { ForNameAt log (map view ports.old) (λ name.
            EndsRecord (core_in self.old) name steps (map view ports.old) (map view ports.new) result) }
        ensures same_names { names (map view ports.new) ≡ names (map view ports.old) }
    {
        each_run_has_inputs();
        match self.run.write(ports, log) {
            Ok(()) => {}
            Err(failed) => return Err(failed),
        }
        match record_supersteps(&mut self.run, steps, ports, places, log) {
            Ok(None) => Ok(false),
            Ok(Some(bad)) => match tell_bad_line(
                self.run.core(),
                bad,
                ports,
                out,
                &mut self.chunk,
            ) {
                Ok(()) => Ok(true),
                Err(failed) => Err(failed),
            },
            Err(failed) => Err(failed),
        }
    }

    /// Makes `steps` supersteps from the start, compares the log with the start and the halves of each, and tells what comes of it: up to
    /// the first block that differs, or to a superstep that a bad line of a stream blocks. The ports of the streams are given by their
    /// places, one for each node, and so are those of the log and of what is told.
    pub fn verify(
        &mut self,
        steps: u32,
        ports: &mut [Box<dyn Port>],
        places: &[usize],
        log: usize,
        out: usize,
    ) -> Result<Verdict, Failed>
        requires steps { steps ≤ MAX_SUPERSTEPS }
        requires runnable { IsRunnable (core_in self.old) }
        requires places { ArePlacesOf (core_in self.old) (names (map view ports.old)) places.now }
        requires apart { ArePortsApart (core_in self.old) }
        requires log { log < length ports.old }
        requires own { ForNameAt log (map view ports.old) (IsApart (core_in self.old)) }
        requires out { IsPlaceOf std_out (names (map view ports.old)) out }
        requires fresh { IsFresh (core_in self.old) (run_in self.old) }
        ensures ends { ForNameAt log (map view ports.old) (λ name.
            EndsVerify (core_in self.old) name steps (map view ports.old) (map view ports.new) result) }
        ensures same_names { names (map view ports.new) ≡ names (map view ports.old) }
    {
        each_run_has_inputs();
        let stop = match judge(&mut self.run, steps, ports, places, log) {
            Ok(stop) => stop,
            Err(failed) => return Err(failed),
        };
        match tell_stop(self.run.core(), stop, ports, out, &mut self.chunk) {
            Ok(()) => Ok(verdict_of(stop)),
            Err(failed) => Err(failed),
        }
    }
}
