//! The net of a run at a half of a superstep.
ghost use Rattle.std.specs.Prelude.{◌≡◌, ◌<◌, ℕ, length, Some, slice_get};
ghost use Rattle.hume_model.specs.declared.core_tree.WireC.{WireC as AnyWire};
ghost use Rattle.hume_net.specs.Sides.{on_wire};
ghost use Rattle.phase_workers.specs.Engines.{core_of, queue_at, span_of, state_of};
ghost use Rattle.phase_workers.specs.Runnable.{IsRunnable};
ghost use Rattle.wire_cells.specs.Cells.{Holds};

use crate::forgetting::execute;
use crate::half::Half;
use hume_model::Core;
use phase_workers::{Engine, Halfway};
use wire_cells::WireCell;

/// A net before a superstep or after one, or in its midst.
#[derive(Drop)]
pub(crate) enum Net {
    Whole(Engine),
    Midst(Halfway),
}

impl Net {
    ghost use Rattle.run_log.specs.Nets.{engine_in, half_in};
    ghost use Rattle.run_log.specs.Halves.{half_behind};
    ghost use Rattle.run_log.specs.Moments.{state_behind};

    pub(crate) fn core(&self) -> &Core
        ensures { result.now ≡ core_of (engine_in self.now) }
    {
        match self {
            Net::Whole(engine) => engine.core(),
            Net::Midst(halfway) => halfway.core(),
        }
    }

    /// The half that it is at.
    pub(crate) fn half(&self) -> Half
        ensures { result ≡ half_in self.now }
    {
        match self {
            Net::Whole(_) => Half::End,
            Net::Midst(_) => Half::Mid,
        }
    }

    /// The net a half later: it begins a superstep, or ends the one that has begun.
    pub(crate) fn next(self) -> Net
        requires runnable { IsRunnable (core_of (engine_in self)) }
        requires span { span_of (engine_in self) ≡ 1 }
        ensures core { core_of (engine_in result) ≡ core_of (engine_in self) }
        ensures span { span_of (engine_in result) ≡ 1 }
        ensures queues { (n : ℕ) → queue_at (engine_in result) n ≡ queue_at (engine_in self) n }
        ensures half { half_in result ≡ half_behind (half_in self) }
        ensures state { state_of (engine_in result) ≡ state_behind (core_of (engine_in self)) (state_of (engine_in self)) (half_in self) }
    {
        match self {
            Net::Whole(engine) => Net::Midst(execute(engine)),
            Net::Midst(halfway) => Net::Whole(halfway.super_step()),
        }
    }

    /// The cell of a wire.
    pub(crate) fn wire(&self, wire: u32) -> &WireCell
        requires { wire < length (core_of (engine_in self.now)).wires }
        ensures number { result.now.number ≡ wire }
        ensures holds { (its : AnyWire) → slice_get (core_of (engine_in self.now)).wires wire ≡ Some its
            → Holds (core_of (engine_in self.now)).types its result.now (on_wire (state_of (engine_in self.now)) wire) }
    {
        match self {
            Net::Whole(engine) => engine.wire(wire),
            Net::Midst(halfway) => halfway.wire(wire),
        }
    }
}
