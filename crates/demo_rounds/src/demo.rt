//! A demo that is open.
ghost use Rattle.std.specs.Prelude.{◌≡◌, ◌≤◌, ◌<◌, ◌^◌, length, map, IfOk, None};
ghost use Rattle.hume_base.specs.Least.{IsLeast};
ghost use Rattle.hume_net.specs.StatePlaces.{BoxesHandleAll};
ghost use Rattle.hume_ports.specs.Ports.{names};
ghost use Rattle.hume_text.specs.Chunks.{room_of};
ghost use Rattle.wiring_check.specs.Wires.{IsWiringOf};
ghost use Rattle.box_compile.specs.Programs.{AreProgramsOf};
ghost use Rattle.box_costs.specs.CostRules.{BreaksCosts};
ghost use Rattle.stream_totals.specs.declared.chain_lines.TheConstants.{CHAIN_LINE_BYTES};
ghost use Rattle.phase_workers.specs.Runnable.{IsRunnable};
ghost use Rattle.trace_print.specs.InTurn.{EndsLines};
ghost use Rattle.demo_rounds.specs.Chains.{demo_lines};

use crate::chains::tell_chains;
use crate::counting::{SPAN, count_rounds};
use box_code::BoxProgram;
use hume_base::List;
use hume_model::Core;
use hume_ports::{Failed, Port};
use hume_text::Chunk;
use phase_workers::Engine;
use std::alloc::{AllocError, Global};
use std::thread::Threads;
use stream_totals::{CHAIN_LINE_BYTES, Total};
use turn_workers::Gate;
use wiring_check::Wiring;

/// A demo that is open: a net, a total for each node, and room for a line. No later call needs memory.
#[derive(Drop)]
pub struct Demo {
    engine: Engine,
    totals: Vec<Total>,
    chunk: Chunk,
    ghost lines: { CHAIN_LINE_BYTES ≤ room_of chunk },
}

impl Demo {
    ghost use Rattle.demo_rounds.specs.Opened.{core_in, IsOpened};

    /// The demo of a core before its first superstep, of boxes whose programs are given. It takes all memory that the demo needs.
    pub fn make(
        alloc: Global,
        core: Core,
        wiring: &Wiring,
        programs: List<BoxProgram>,
    ) -> Result<Demo, AllocError>
        requires runnable { IsRunnable core }
        requires handles { BoxesHandleAll core }
        requires wiring { IsWiringOf core wiring.now }
        requires programs { AreProgramsOf core programs }
        requires within { IsLeast (BreaksCosts core) None }
        ensures { IfOk result (λ demo. IsOpened core demo) }
    {
        let chunk = Chunk::make(alloc, CHAIN_LINE_BYTES)?;
        let totals = vec![in alloc; Total::none(); core.nodes.len()]?;
        let engine = Engine::make(alloc, core, wiring, programs, SPAN)?;
        Ok(Demo {
            engine,
            totals,
            chunk,
        })
    }

    pub fn core(&self) -> &Core
        ensures { result.now ≡ core_in self.now }
    {
        self.engine.core()
    }

    /// Makes `steps` supersteps by at most `workers` threads, and then writes the line of each output stream to the port at the place
    /// `out`.
    pub fn run<R: Threads + Sync, G: Gate>(
        &mut self,
        rt: &R,
        steps: u32,
        workers: u32,
        gate: &G,
        ports: &mut [Box<dyn Port>],
        out: usize,
    ) -> Result<(), Failed>
        requires workers { workers ≤ 2 ^ 16 }
        requires runnable { IsRunnable (core_in self.old) }
        requires place { out < length ports.old }
        requires opened { IsOpened (core_in self.old) self.old }
        ensures ends { EndsLines out (demo_lines (core_in self.old) steps) (map view ports.old) (map view ports.new) result }
        ensures same_names { names (map view ports.new) ≡ names (map view ports.old) }
    {
        count_rounds(rt, &mut self.engine, &mut self.totals, steps, workers, gate);
        tell_chains(
            self.engine.core(),
            &self.totals,
            ports,
            out,
            &mut self.chunk,
        )
    }
}
