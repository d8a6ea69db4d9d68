//! An engine in the midst of a superstep: each node has made its execute step, and none its super step.
ghost use Rattle.std.specs.Prelude.{◌≡◌, ◌≤◌, ◌<◌, ℕ, [], length, Some, slice_get};
ghost use Rattle.hume_model.specs.declared.core_tree.WireC.{WireC as AnyWire};
ghost use Rattle.hume_net.specs.Lockstep.{mid, up};
ghost use Rattle.hume_net.specs.Nodes.{IsOutputStream};
ghost use Rattle.hume_net.specs.Sides.{on_wire, part_of};
ghost use Rattle.wire_cells.specs.Cells.{Holds};

use crate::begin::{begin_nodes, begin_wires};
use crate::engine::Engine;
use crate::paths::Paths;
use crate::seen::{Deed, Seen};
use crate::stepping::sweep_all;
use box_step::nodes::BoxCell;
use hume_model::Core;
use std::marker::Model;
use wire_cells::WireCell;

/// The cells of an engine between the execute steps of a superstep and its super steps, each at time 1.
#[derive(Drop)]
pub struct Halfway {
    core: Core,
    bare: Core,
    paths: Paths,
    nodes: Vec<BoxCell>,
    // at the number of each wire its cell
    home: Vec<Option<WireCell>>,
    span: u32,
    // the state before the execute steps
    seen: Seen,
}

impl Model for Halfway {
    ghost use Rattle.phase_workers.specs.Engines.{EngineView};
    ghost use Rattle.phase_workers.specs.contracts.engine.Engine as engine_type;

    ghost Value = { EngineView };

    ghost coded = { engine_type.the_row.coded };

    ghost use Rattle.phase_workers.specs.inner.Midst.{IsMidst, midst_view};

    ghost view = { λ a. midst_view a.core a.span a.seen.state a.nodes.items };

    ghost invariant = { λ a. IsMidst a.core a.bare a.paths a.span a.seen.state a.nodes.items a.home.items };
}

impl Engine {
    ghost use Rattle.phase_workers.specs.Engines.{core_of, queue_at, span_of, state_of};

    /// Makes the execute steps of all nodes. Output streams have forgotten what they took, and have room for a value. It takes no
    /// memory.
    pub fn execute(self) -> Halfway
        requires span { 1 ≤ span_of self }
        requires clear { (n : ℕ) → IsOutputStream (core_of self) n → (part_of (state_of self) n).taken ≡ [] }
        ensures core { core_of result ≡ core_of self }
        ensures span { span_of result ≡ span_of self }
        ensures queues { (n : ℕ) → queue_at result n ≡ queue_at self n }
        ensures state { state_of result ≡ mid (core_of self) (state_of self) }
    {
        let Engine {
            core,
            bare,
            paths,
            mut nodes,
            mut home,
            span,
            seen,
        } = self;
        sweep_all(&bare, &paths.sides, 0, &mut nodes, &mut home);
        Halfway {
            core,
            bare,
            paths,
            nodes,
            home,
            span,
            seen,
        }
    }
}

impl Halfway {
    ghost use Rattle.phase_workers.specs.Engines.{core_of, queue_at, span_of, state_of};

    pub fn core(&self) -> &Core
        ensures { result.now ≡ core_of self.now }
    {
        &self.core
    }

    /// Makes the super steps of all nodes. It takes no memory.
    pub fn super_step(self) -> Engine
        ensures core { core_of result ≡ core_of self }
        ensures span { span_of result ≡ span_of self }
        ensures queues { (n : ℕ) → queue_at result n ≡ queue_at self n }
        ensures state { state_of result ≡ up (core_of self) (state_of self) }
    {
        let Halfway {
            core,
            bare,
            paths,
            mut nodes,
            mut home,
            span,
            seen,
        } = self;
        sweep_all(&bare, &paths.sides, 1, &mut nodes, &mut home);
        begin_nodes(&mut nodes);
        begin_wires(&mut home);
        let seen = seen.then(&Deed::Stepped(&core, 1));
        Engine {
            core,
            bare,
            paths,
            nodes,
            home,
            span,
            seen,
        }
    }

    /// The cell of a wire.
    pub fn wire(&self, wire: u32) -> &WireCell
        requires { wire < length (core_of self.now).wires }
        ensures number { result.now.number ≡ wire }
        ensures holds { (its : AnyWire) → slice_get (core_of self.now).wires wire ≡ Some its
            → Holds (core_of self.now).types its result.now (on_wire (state_of self.now) wire) }
    {
        match &self.home[wire as usize] {
            None => unreachable!(),
            Some(cell) => cell,
        }
    }
}
