ghost use Rattle.std.specs.Prelude.{◌≡◌, ◌++◌, ◌∷◌, [], IfOk, OnOk, OnErr, slice_set, slice_index_or};
ghost use Rattle.hume_net.specs.Lockstep.{superstep};
ghost use Rattle.hume_net.specs.Start.{start, no_values};
ghost use Rattle.hume_model.specs.WellFormed.{HasSmallBoxes};
ghost use Rattle.hume_net.specs.inner.Ends.{ends_of};
ghost use Rattle.hume_net.specs.Nodes.{HasParts, IsInputStream, IsOutputStream};

use crate::ends::{Ends, find_ends};
use crate::phases::{state_after_execute, state_after_super};
use crate::start::start_state;
use crate::state::State;
use hume_base::{List, Value};
use hume_model::Core;
use std::alloc::{AllocError, Global};

/// A core with a state, which goes on by whole supersteps. It copies all values in each one: it is the plain reference,
/// and not the engine.
#[derive(Drop)]
pub struct Net<'a> {
    pub core: &'a Core,
    pub state: State,
    ends: Ends,
    ghost parts: { HasParts core.now state },
    ghost found: { ends ≡ ends_of core.now },
}

/// The net with the initial values on its wires and no values to come.
#[tactic(auto, using(crate::proofs::Starts::start_steps))]
pub fn net_make<'a>(alloc: Global, core: &'a Core) -> Result<Net<'a>, AllocError>
    requires { HasSmallBoxes core.now }
    ensures core { IfOk result (λ net. net.core.now ≡ core.now) }
    ensures state { IfOk result (λ net. net.state ≡ start core.now (no_values core.now)) }
{
    let state = start_state(alloc, core)?;
    let ends = find_ends(alloc, core)?;
    Ok(Net { core, state, ends })
}

#[tactic(auto, using(crate::proofs::Starts::start_steps), unfolding(crate::specs::Lockstep::superstep))]
fn state_after_superstep(
    alloc: Global,
    core: &Core,
    ends: &Ends,
    state: &State,
) -> Result<State, AllocError>
    requires { ends.now ≡ ends_of core.now }
    ensures { IfOk result (λ after. after ≡ superstep core.now state.now) }
{
    let mid = state_after_execute(alloc, core, ends, state)?;
    state_after_super(alloc, core, ends, &mid)
}

impl<'a> Net<'a> {
    /// One superstep.
    #[tactic(auto, using(crate::proofs::Starts::start_steps), unfolding(crate::specs::Lockstep::superstep))]
    pub fn step(&mut self, alloc: Global) -> Result<(), AllocError>
        ensures core { self.new.core ≡ self.old.core }
        ensures ok { OnOk result (self.new.state ≡ superstep self.old.core.now self.old.state) }
        ensures err { OnErr result (self.new.state ≡ self.old.state) }
    {
        self.state = state_after_superstep(alloc, self.core, &self.ends, &self.state)?;
        Ok(())
    }

    /// Adds a value to those that are to come from an input stream.
    pub fn feed(&mut self, node: u32, value: Value) -> Result<(), AllocError>
        requires { IsInputStream self.old.core.now node }
        ensures core { self.new.core ≡ self.old.core }
        ensures ok { OnOk result (self.new.state
            ≡ record self.old.state { coming = slice_set self.old.state.coming node (slice_index_or self.old.state.coming node [] ++ value ∷ []) }) }
        ensures err { OnErr result (self.new.state ≡ self.old.state) }
    {
        self.state.coming.push_at(node as usize, value)
    }

    /// The values that an output stream has taken.
    pub fn taken(&self, node: u32) -> &List<Value>
        requires { IsOutputStream self.now.core.now node }
        ensures { result.now ≡ slice_index_or self.now.state.taken node [] }
    {
        &self.state.taken[node as usize]
    }

    /// Forgets the values that an output stream has taken.
    pub fn clear(&mut self, node: u32)
        requires { IsOutputStream self.old.core.now node }
        ensures core { self.new.core ≡ self.old.core }
        ensures state { self.new.state ≡ record self.old.state { taken = slice_set self.old.state.taken node [] } }
    {
        self.state.taken.clear_at(node as usize);
    }
}
