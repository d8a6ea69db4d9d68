//! A run that is logged.
ghost use Rattle.std.specs.Prelude.{◌≡◌, ◌≤◌, ◌<◌, ◌+◌, ◌^◌, ℕ, List, [], ◌∷◌, length, map, vec_len, IfOk, IsSome, IsErrOf, None};
ghost use Rattle.hume_base.specs.Least.{IsLeast};
ghost use Rattle.hume_base.specs.Sizes.{size_of};
ghost use Rattle.hume_net.specs.Nodes.{IsInputStream};
ghost use Rattle.hume_net.specs.StatePlaces.{BoxesHandleAll};
ghost use Rattle.hume_net.specs.Start.{start, no_values};
ghost use Rattle.hume_ports.specs.Delivery.{Roomy};
ghost use Rattle.hume_ports.specs.Ports.{names, ForNameAt, Untouched};
ghost use Rattle.hume_streams.specs.Queues.{first_view, IsQueueOf};
ghost use Rattle.hume_text.specs.Chunks.{room_of};
ghost use Rattle.wiring_check.specs.Wires.{IsWiringOf};
ghost use Rattle.box_compile.specs.Programs.{AreProgramsOf};
ghost use Rattle.box_costs.specs.CostRules.{BreaksCosts};
ghost use Rattle.phase_workers.specs.Engines.{core_of, queue_at, span_of};
ghost use Rattle.phase_workers.specs.NodeFills.{FillsNode};
ghost use Rattle.phase_workers.specs.Runnable.{IsRunnable};
ghost use Rattle.phase_workers.specs.StreamTypes.{type_at};
ghost use Rattle.trace_print.specs.InTurn.{EndsLines};
ghost use Rattle.trace_print.specs.Rooms.{line_room};
ghost use Rattle.run_log.specs.declared.half.Half.TheVariants.{End};
ghost use Rattle.run_log.specs.Nets.{engine_in, net_or_none};

use crate::comparing::compare_block;
use crate::fault::LogFault;
use crate::half::superstep_behind;
use crate::net::Net;
use crate::writing::write_block;
use box_code::BoxProgram;
use hume_base::List;
use hume_model::Core;
use hume_ports::{Failed, Port};
use hume_streams::FillError;
use hume_text::Chunk;
use phase_workers::Engine;
use std::alloc::{AllocError, Global};
use trace_print::line_bound;
use wiring_check::Wiring;

/// A net whose supersteps are made by halves, with room for a line of its log. No call but `make` needs memory.
#[derive(Drop)]
pub struct LogRun {
    // there is always one
    net: Option<Net>,
    // that of the last half; 0 at the start
    superstep: u32,
    chunk: Chunk,
    buffer: Vec<u8>,
    ghost there: { IsSome net },
    ghost span: { span_of (engine_in (net_or_none net)) ≡ 1 },
    ghost lines: { line_room (core_of (engine_in (net_or_none net))) ≤ room_of chunk },
    ghost wide: { room_of chunk ≤ vec_len buffer },
}

impl LogRun {
    ghost use Rattle.run_log.specs.Compared.{Compares};
    ghost use Rattle.run_log.specs.Moments.{block_at, core_in, engine_of, moment_of, next_half};

    /// The run of a core before its first superstep, of boxes whose programs are given. It takes all memory that the run needs.
    pub fn make(
        alloc: Global,
        core: Core,
        wiring: &Wiring,
        programs: List<BoxProgram>,
    ) -> Result<LogRun, AllocError>
        requires runnable { IsRunnable core }
        requires handles { BoxesHandleAll core }
        requires wiring { IsWiringOf core wiring.now }
        requires programs { AreProgramsOf core programs }
        requires within { IsLeast (BreaksCosts core) None }
        ensures core { IfOk result (λ run. core_in run ≡ core) }
        ensures moment { IfOk result (λ run. moment_of run ≡ record { half = End; superstep = 0; state = start core (no_values core) }) }
        ensures begun { IfOk result (λ run. (n : ℕ) → IsInputStream core n
            → queue_at (engine_of run) n ≡ first_view (size_of core.types (type_at core n)) 1) }
        ensures right { IfOk result (λ run. (n : ℕ) → IsInputStream core n
            → (text : List ℕ) → IsQueueOf core.types (type_at core n) (queue_at (engine_of run) n) text [] text) }
    {
        let bytes = line_bound(&core);
        let chunk = Chunk::make(alloc, bytes)?;
        let buffer = vec![in alloc; 0u8; bytes as usize]?;
        let engine = Engine::make(alloc, core, wiring, programs, 1)?;
        Ok(LogRun {
            net: Some(Net::Whole(engine)),
            superstep: 0,
            chunk,
            buffer,
        })
    }

    pub fn core(&self) -> &Core
        ensures { result.now ≡ core_in self.now }
    {
        match &self.net {
            None => unreachable!(),
            Some(net) => net.core(),
        }
    }

    /// Reads lines of the port at that place until the input stream has `want` values to come, or the port is at its end, or a line
    /// is bad. It takes no memory.
    pub fn fill(
        &mut self,
        node: u32,
        ports: &mut [Box<dyn Port>],
        at: usize,
        want: u32,
    ) -> Result<(), FillError>
        requires runnable { IsRunnable (core_in self.old) }
        requires whole { (moment_of self.old).half ≡ End }
        requires input { IsInputStream (core_in self.old) node }
        requires place { at < length ports.old }
        requires want { want ≤ 1 }
        ensures core { core_in self.new ≡ core_in self.old }
        ensures half { (moment_of self.new).half ≡ End }
        ensures superstep { (moment_of self.new).superstep ≡ (moment_of self.old).superstep }
        ensures fills { ForNameAt at (map view ports.old) (λ name.
            FillsNode want (engine_of self.old) (engine_of self.new) node name (map view ports.old) (map view ports.new) result) }
        ensures roomy { Roomy (map view ports.old) [] → IsErrOf result FillError.Failed → ⊥ }
        ensures same_names { names (map view ports.new) ≡ names (map view ports.old) }
        ensures untouched { ForNameAt at (map view ports.old) (λ name.
            Untouched (name ∷ []) (map view ports.old) (map view ports.new)) }
    {
        match &mut self.net {
            Some(Net::Whole(engine)) => engine.fill(node, ports, at, want),
            Some(Net::Midst(_)) | None => unreachable!(),
        }
    }

    /// Makes the execute steps of the next superstep, before which output streams forget what they took, or the super steps of the one
    /// that has begun. It takes no memory.
    pub fn half(&mut self)
        requires runnable { IsRunnable (core_in self.old) }
        requires few { (moment_of self.old).superstep + 1 < 2 ^ 32 }
        ensures core { core_in self.new ≡ core_in self.old }
        ensures moment { moment_of self.new ≡ next_half (core_in self.old) (moment_of self.old) }
        ensures queues { (n : ℕ) → queue_at (engine_of self.new) n ≡ queue_at (engine_of self.old) n }
    {
        match self.net.take() {
            None => unreachable!(),
            Some(net) => {
                self.superstep = superstep_behind(self.superstep, net.half());
                let _ = self.net.insert(net.next());
            }
        }
    }

    /// Writes the block of the present half to the port at that place, each line by a write of its own.
    pub fn write(&mut self, ports: &mut [Box<dyn Port>], at: usize) -> Result<(), Failed>
        requires runnable { IsRunnable (core_in self.old) }
        requires place { at < length ports.old }
        ensures engine { engine_of self.new ≡ engine_of self.old }
        ensures moment { moment_of self.new ≡ moment_of self.old }
        ensures ends { EndsLines at (block_at (core_in self.old) (moment_of self.old)) (map view ports.old) (map view ports.new) result }
        ensures same_names { names (map view ports.new) ≡ names (map view ports.old) }
    {
        match &self.net {
            None => unreachable!(),
            Some(net) => write_block(net, self.superstep, ports, at, &mut self.chunk),
        }
    }

    /// Reads as many bytes of the port at that place as the block of the present half has, or all if fewer are left. Answers the first
    /// line that differs.
    pub fn compare(
        &mut self,
        ports: &mut [Box<dyn Port>],
        at: usize,
    ) -> Result<Option<LogFault>, Failed>
        requires runnable { IsRunnable (core_in self.old) }
        requires place { at < length ports.old }
        ensures engine { engine_of self.new ≡ engine_of self.old }
        ensures moment { moment_of self.new ≡ moment_of self.old }
        ensures compares { ForNameAt at (map view ports.old) (λ name.
            Compares (core_in self.old) (moment_of self.old) name (map view ports.old) (map view ports.new) result) }
        ensures same_names { names (map view ports.new) ≡ names (map view ports.old) }
        ensures untouched { ForNameAt at (map view ports.old) (λ name.
            Untouched (name ∷ []) (map view ports.old) (map view ports.new)) }
    {
        match &self.net {
            None => unreachable!(),
            Some(net) => compare_block(
                net,
                self.superstep,
                ports,
                at,
                &mut self.chunk,
                &mut self.buffer,
            ),
        }
    }
}
