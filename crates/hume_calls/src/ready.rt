//! Cores that are ready to run.
ghost use Rattle.std.specs.Prelude.{◌≡◌, ℕ, List};
ghost use Rattle.hume_front.specs.Accepted.{IsAccepted};
ghost use Rattle.hume_calls.specs.Ready.{IsReady};

use hume_front::Accepted;
use hume_model::Core;
use space_costs::Costs;
use wiring_check::Wiring;

/// A core that can be run, with the wires of its inputs and outputs and the most that its boxes may take.
#[derive(Drop)]
pub struct Ready {
    pub core: Core,
    pub wiring: Wiring,
    pub costs: Costs,
}

/// An accepted source is ready to run.
pub fn made_ready(accepted: Accepted) -> Ready
    requires { (text : List ℕ) × IsAccepted text accepted }
    ensures ready { IsReady result }
    ensures core { result.core ≡ accepted.core }
{
    let Accepted {
        core,
        wiring,
        costs,
        ..
    } = accepted;
    Ready {
        core,
        wiring,
        costs,
    }
}
