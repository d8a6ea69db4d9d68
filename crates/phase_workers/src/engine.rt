//! An engine: the cells of a core's net, which makes supersteps by rounds.
ghost use Rattle.std.specs.Prelude.{◌≡◌, ◌≤◌, ◌<◌, ◌*◌, ◌^◌, max, ℕ, List, [], ◌∷◌, length, map, slice_get, slice_set, Some, None, IfOk, IfSome, OnOk, OnErr, IsErrOf};
ghost use Rattle.hume_base.specs.Flat.{flat};
ghost use Rattle.hume_base.specs.Least.{IsLeast};
ghost use Rattle.hume_base.specs.Sizes.{size_of};
ghost use Rattle.hume_model.specs.declared.core_tree.WireC.{WireC as AnyWire};
ghost use Rattle.hume_net.specs.Lockstep.{lockstep};
ghost use Rattle.hume_net.specs.Nodes.{IsInputStream, IsOutputStream};
ghost use Rattle.hume_net.specs.Plan.{plan_of};
ghost use Rattle.hume_net.specs.Sides.{on_wire, part_of};
ghost use Rattle.hume_net.specs.StatePlaces.{BoxesHandleAll};
ghost use Rattle.hume_net.specs.Start.{start, no_values};
ghost use Rattle.hume_ports.specs.Delivery.{Roomy};
ghost use Rattle.hume_ports.specs.Ports.{names, ForNameAt, Untouched};
ghost use Rattle.hume_streams.specs.Logs.{log_view};
ghost use Rattle.hume_streams.specs.Queues.{first_view, IsQueueOf};
ghost use Rattle.hume_streams.specs.places.LineWrites.{line_writes};
ghost use Rattle.hume_text.specs.Chunks.{bytes_in, room_of};
ghost use Rattle.port_acts.specs.Acts.{write_each};
ghost use Rattle.port_acts.specs.Ends.{Ends, never};
ghost use Rattle.superstep_core.specs.Groups.{IsGrouping};
ghost use Rattle.wiring_check.specs.Wires.{IsWiringOf};
ghost use Rattle.box_costs.specs.CostRules.{BreaksCosts};
ghost use Rattle.net_costs.specs.Steps.{peaks};
ghost use Rattle.box_compile.specs.Programs.{AreProgramsOf};
ghost use Rattle.wire_cells.specs.Cells.{Holds};
ghost use Rattle.phase_workers.specs.Runnable.{IsRunnable};
ghost use Rattle.phase_workers.specs.StreamTypes.{type_at};

use crate::begin::{begin_nodes, begin_wires};
use crate::making::make_parts;
use crate::paths::Paths;
use crate::seen::{Deed, Seen};
use crate::stepping::step_all;
use crate::streams::{clear_cell, drain_cell, fill_cell, rebind_cell};
use box_code::BoxProgram;
use box_step::nodes::BoxCell;
use hume_base::List;
use hume_model::Core;
use hume_ports::{Failed, Port};
use hume_streams::{FillError, OutLog};
use hume_text::Chunk;
use std::alloc::{AllocError, Global};
use std::marker::Model;
use std::thread::Threads;
use step_turns::Gate;
use superstep_core::Grouping;
use wire_cells::WireCell;
use wiring_check::Wiring;

/// The cells of a core's net, each at time 0, with what their half steps go by. All memory that a run needs is taken when it is made, but
/// for what several workers share.
#[derive(Drop)]
pub struct Engine {
    pub(crate) core: Core,
    pub(crate) bare: Core,
    pub(crate) paths: Paths,
    pub(crate) nodes: Vec<BoxCell>,
    // at the number of each wire its cell
    pub(crate) home: Vec<Option<WireCell>>,
    pub(crate) span: u32,
    pub(crate) seen: Seen,
}

impl Model for Engine {
    ghost use Rattle.std.specs.Coded.{codes};
    ghost use Rattle.hume_model.specs.contracts.core_tree.Core as core_type;
    ghost use Rattle.hume_net.specs.contracts.state.State as state_type;
    ghost use Rattle.phase_workers.specs.Engines.{EngineView};

    ghost Value = { EngineView };

    ghost coded = { Prim.hlevel (codes, core_type.the_row.coded, state_type.the_row.coded) };

    ghost use Rattle.phase_workers.specs.inner.Whole.{IsWhole, engine_view};

    ghost view = { λ a. engine_view a.core a.span a.seen.state a.nodes.items };

    ghost invariant = { λ a. IsWhole a.core a.bare a.paths a.span a.seen.state a.nodes.items a.home.items };
}

impl Engine {
    ghost use Rattle.phase_workers.specs.Engines.{ArePeaksKept, core_of, heap_peak_at, queue_at, span_of, stack_peak_at, state_of};
    ghost use Rattle.phase_workers.specs.NodeFills.{FillsNode};

    /// All cells of the core's net before the first superstep, with room for `span` values in each queue and log. All memory that a
    /// run needs is taken here.
    pub fn make(
        alloc: Global,
        core: Core,
        wiring: &Wiring,
        programs: List<BoxProgram>,
        span: u32,
    ) -> Result<Engine, AllocError>
        requires runnable { IsRunnable core }
        requires handles { BoxesHandleAll core }
        requires wiring { IsWiringOf core wiring.now }
        requires programs { AreProgramsOf core programs }
        requires within { IsLeast (BreaksCosts core) None }
        ensures core { IfOk result (λ engine. core_of engine ≡ core) }
        ensures span { IfOk result (λ engine. span_of engine ≡ span) }
        ensures state { IfOk result (λ engine. state_of engine ≡ start core (no_values core)) }
        ensures peaks { IfOk result (λ engine. (n : ℕ) → (heap_peak_at engine n ≡ 0) × (stack_peak_at engine n ≡ 0)) }
        ensures begun { IfOk result (λ engine. (n : ℕ) → IsInputStream core n
            → queue_at engine n ≡ first_view (size_of core.types (type_at core n)) span) }
        ensures right { IfOk result (λ engine. (n : ℕ) → IsInputStream core n
            → (text : List ℕ) → IsQueueOf core.types (type_at core n) (queue_at engine n) text [] text) }
    {
        let parts = make_parts(alloc, &core, wiring, programs, span)?;
        let seen = Seen::new().then(&Deed::Opened(&core));
        Ok(Engine {
            core,
            bare: parts.bare,
            paths: parts.paths,
            nodes: parts.nodes,
            home: parts.home,
            span,
            seen,
        })
    }

    pub fn core(&self) -> &Core
        ensures { result.now ≡ core_of self.now }
    {
        &self.core
    }

    /// Reads lines of the port at that place until the input stream has `want` values to come, or the port is at its end, or a line
    /// is bad. It takes no memory.
    pub fn fill(
        &mut self,
        node: u32,
        ports: &mut [Box<dyn Port>],
        at: usize,
        want: u32,
    ) -> Result<(), FillError>
        requires runnable { IsRunnable (core_of self.old) }
        requires input { IsInputStream (core_of self.old) node }
        requires place { at < length ports.old }
        requires span { want ≤ span_of self.old }
        ensures core { core_of self.new ≡ core_of self.old }
        ensures span { span_of self.new ≡ span_of self.old }
        ensures peaks { ArePeaksKept self.old self.new }
        ensures fills { ForNameAt at (map view ports.old) (λ name.
            FillsNode want self.old self.new node name (map view ports.old) (map view ports.new) result) }
        ensures roomy { Roomy (map view ports.old) [] → IsErrOf result FillError.Failed → ⊥ }
        ensures same_names { names (map view ports.new) ≡ names (map view ports.old) }
        ensures untouched { ForNameAt at (map view ports.old) (λ name.
            Untouched (name ∷ []) (map view ports.old) (map view ports.new)) }
    {
        let cell = &mut self.nodes[node as usize];
        fill_cell(cell, &mut self.seen, &self.core, node, ports, at, want)
    }

    /// The input stream goes on with another port, whose lines count from 1: what was read of its old port is forgotten but for the
    /// values to come. It takes no memory.
    pub fn rebind(&mut self, node: u32)
        requires { IsInputStream (core_of self.old) node }
        ensures core { core_of self.new ≡ core_of self.old }
        ensures span { span_of self.new ≡ span_of self.old }
        ensures state { state_of self.new ≡ state_of self.old }
        ensures peaks { ArePeaksKept self.old self.new }
        ensures begun { queue_at self.new node ≡ first_view (size_of (core_of self.old).types (type_at (core_of self.old) node)) (span_of self.old) }
        ensures right { (text : List ℕ)
            → IsQueueOf (core_of self.old).types (type_at (core_of self.old) node) (queue_at self.new node) text [] text }
        ensures others { (other : ℕ) → (other ≡ node → ⊥) → queue_at self.new other ≡ queue_at self.old other }
    {
        rebind_cell(&mut self.nodes[node as usize]);
    }

    /// Makes `steps` supersteps by at most `workers` threads, this one included. Several threads share a table and groups of nodes, for
    /// which it asks for memory. If there is none, or a thread leaves early, this one makes the half steps that are left.
    pub fn round<R: Threads + Sync, G: Gate>(&mut self, rt: &R, steps: u32, workers: u32, gate: &G)
        requires workers { workers ≤ 2 ^ 16 }
        requires span { steps ≤ span_of self.old }
        requires clear { (n : ℕ) → IsOutputStream (core_of self.old) n → (part_of (state_of self.old) n).taken ≡ [] }
        ensures core { core_of self.new ≡ core_of self.old }
        ensures span { span_of self.new ≡ span_of self.old }
        ensures queues { (n : ℕ) → queue_at self.new n ≡ queue_at self.old n }
        ensures state { state_of self.new ≡ lockstep (core_of self.old) (state_of self.old) steps }
        ensures heap { (n : ℕ) → heap_peak_at self.new n ≡ max (heap_peak_at self.old n) (peaks (core_of self.old) (state_of self.old) steps n).heap }
        ensures stack { (n : ℕ) → stack_peak_at self.new n ≡ max (stack_peak_at self.old n) (peaks (core_of self.old) (state_of self.old) steps n).stack }
    {
        let alloc = *self.nodes.allocator();
        let workers = self
            .paths
            .choose_workers(alloc, &self.bare, self.nodes.as_slice(), steps, workers);
        step_all(
            rt,
            &self.bare,
            &self.paths,
            steps,
            workers,
            gate,
            &mut self.nodes,
            &mut self.home,
        );
        begin_nodes(&mut self.nodes);
        begin_wires(&mut self.home);
        self.seen = self.seen.then(&Deed::Stepped(&self.core, steps));
    }

    /// Rounds by so many workers go by groups that are given: a node's is what its number leaves by `count`. A round gives the same by any
    /// groups, and calls that compare this are what it is for. It takes memory.
    pub fn divide(&mut self, numbers: &[u32], count: u32, workers: u32) -> Result<(), AllocError>
        requires count { (0 < count) × (count ≤ 2 ^ 16) }
        requires workers { (0 < workers) × (workers ≤ 2 ^ 16) }
        ensures { self.new ≡ self.old }
    {
        let alloc = *self.nodes.allocator();
        self.paths
            .divide_by(alloc, &self.bare, numbers, count, workers)
    }

    /// The groups by which several workers go or went last, if any did.
    pub fn groups(&self) -> Option<&Grouping>
        ensures { IfSome result (λ groups. IsGrouping (plan_of (core_of self.now)) groups.now) }
    {
        match &self.paths.division {
            Some(division) => Some(&division.groups),
            None => None,
        }
    }

    /// Writes each value that the output stream has taken as a line to the port at that place, by a write of its own, and then forgets
    /// them. It takes no memory.
    pub fn drain(
        &mut self,
        node: u32,
        ports: &mut [Box<dyn Port>],
        at: usize,
        chunk: &mut Chunk,
    ) -> Result<(), Failed>
        requires runnable { IsRunnable (core_of self.old) }
        requires output { IsOutputStream (core_of self.old) node }
        requires place { at < length ports.old }
        requires clear { bytes_in chunk.old ≡ [] }
        requires spare { 512 * size_of (core_of self.old).types (type_at (core_of self.old) node) < room_of chunk.old }
        ensures core { core_of self.new ≡ core_of self.old }
        ensures span { span_of self.new ≡ span_of self.old }
        ensures queues { (n : ℕ) → queue_at self.new n ≡ queue_at self.old n }
        ensures peaks { ArePeaksKept self.old self.new }
        ensures ends { ForNameAt at (map view ports.old) (λ name. Ends never []
            (write_each (line_writes name (core_of self.old).types (type_at (core_of self.old) node) (part_of (state_of self.old) node).taken))
            [] (map view ports.old) (map view ports.new) result) }
        ensures same_names { names (map view ports.new) ≡ names (map view ports.old) }
        ensures drained { OnOk result (state_of self.new ≡ record (state_of self.old) { taken = slice_set (state_of self.old).taken node [] }) }
        ensures kept { OnErr result (state_of self.new ≡ state_of self.old) }
        ensures chunk { (bytes_in chunk.new ≡ []) × (room_of chunk.new ≡ room_of chunk.old) }
    {
        let cell = &mut self.nodes[node as usize];
        match drain_cell(cell, &self.core, node, ports, at, chunk) {
            Ok(()) => {
                self.seen = self.seen.then(&Deed::Cleared(node));
                Ok(())
            }
            Err(failed) => Err(failed),
        }
    }

    /// The log of an output stream, lent for reading.
    pub fn log(&self, node: u32) -> &OutLog
        requires { IsOutputStream (core_of self.now) node }
        ensures { (log_view result.now).values
            ≡ map (flat (core_of self.now).types (type_at (core_of self.now) node)) (part_of (state_of self.now) node).taken }
    {
        match self.nodes[node as usize].log_seen() {
            None => unreachable!(),
            Some(log) => log,
        }
    }

    /// Forgets what an output stream has taken.
    pub fn clear(&mut self, node: u32)
        requires { IsOutputStream (core_of self.old) node }
        ensures core { core_of self.new ≡ core_of self.old }
        ensures span { span_of self.new ≡ span_of self.old }
        ensures queues { (n : ℕ) → queue_at self.new n ≡ queue_at self.old n }
        ensures peaks { ArePeaksKept self.old self.new }
        ensures state { state_of self.new ≡ record (state_of self.old) { taken = slice_set (state_of self.old).taken node [] } }
    {
        clear_cell(&mut self.nodes[node as usize]);
        self.seen = self.seen.then(&Deed::Cleared(node));
    }

    /// The cell of a wire.
    pub fn wire(&self, wire: u32) -> &WireCell
        requires { wire < length (core_of self.now).wires }
        ensures number { result.now.number ≡ wire }
        ensures holds { (its : AnyWire) → slice_get (core_of self.now).wires wire ≡ Some its
            → Holds (core_of self.now).types its result.now (on_wire (state_of self.now) wire) }
    {
        match &self.home[wire as usize] {
            None => unreachable!(),
            Some(cell) => cell,
        }
    }

    /// The most words of heap that the node's box has taken in an execute step; 0 of a stream.
    pub fn heap_peak(&self, node: u32) -> u32
        requires { node < length (core_of self.now).nodes }
        ensures { result ≡ heap_peak_at self.now node }
    {
        self.nodes[node as usize].heap_peak()
    }

    /// The most words of stack that the node's box has taken in an execute step; 0 of a stream.
    pub fn stack_peak(&self, node: u32) -> u32
        requires { node < length (core_of self.now).nodes }
        ensures { result ≡ stack_peak_at self.now node }
    {
        self.nodes[node as usize].stack_peak()
    }
}
