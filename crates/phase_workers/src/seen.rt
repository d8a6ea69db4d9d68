//! The state of a net, which only proofs read. It takes no memory, and its calls do nothing at run time.
ghost use Rattle.std.specs.Prelude.{◌≡◌, [], None};
ghost use Rattle.std.specs.Borrow.{ftrue};
ghost use Rattle.hume_net.specs.declared.state.State.{State};
ghost use Rattle.phase_workers.specs.StateCodes.{state_code};

use hume_base::{Ty, Types};
use hume_model::Core;
use hume_streams::InQueue;
use std::marker::Model;

/// The state that the cells of a net are at. What holds it has to say how it agrees with cells: by itself it says nothing.
#[derive(Drop)]
pub(crate) struct Seen {
    ghost state: { State } by { state_code },
}

impl Model for Seen {
    ghost also_owns = { λ _. ftrue };
}

/// What was done to a net.
#[derive(Clone, Copy, Drop)]
pub(crate) enum Deed<'a> {
    /// It was opened.
    Opened(&'a Core),
    /// It made so many supersteps.
    Stepped(&'a Core, u32),
    /// The values of this queue are those to come from the stream of the number.
    Filled(u32, &'a Types, &'a Ty, &'a InQueue),
    /// What the stream of the number took was forgotten.
    Cleared(u32),
}

impl Seen {
    ghost use Rattle.phase_workers.specs.inner.Seeing.{state_after};

    pub(crate) fn new() -> Seen
        ensures { result.state ≡ record { wires = []; pending = []; orders = []; coming = []; taken = [] } }
    {
        Seen {}
    }

    /// The state after the deed.
    #[inline(always)]
    pub(crate) fn then(&self, _deed: &Deed<'_>) -> Seen
        ensures { result.state ≡ state_after self.now.state _deed.now }
    {
        Seen {}
    }
}
