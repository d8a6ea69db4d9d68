//! The check of a core's wires.
ghost use Rattle.std.specs.Prelude.{◌≡◌, IfOk, IfErr, OnOk, None, Some};
ghost use Rattle.hume_base.specs.Least.{IsLeast};
ghost use Rattle.hume_model.specs.Declarations.{IsRefusal};
ghost use Rattle.hume_model.specs.WellFormed.{HasSoundFrame};
ghost use Rattle.hume_model.specs.WireRules.{BreaksWires};
ghost use Rattle.wiring_check.specs.Wires.{IsWiringOf, IsWireError};

use crate::findings::least_broken;
use crate::first_wires::first_wires;
use crate::side::Side;
use crate::wiring::Wiring;
use hume_base::{Finding, Refusal};
use hume_model::{Core, declared_line};
use std::alloc::{AllocError, Global};
use thiserror::Error;

/// Why a core has no wiring.
#[derive(Debug, Drop, PartialEq, Eq, Error)]
pub enum WireError {
    /// The least rule that its wires break.
    #[error("the wires break a rule")]
    Refused(Refusal),
    #[error("out of memory")]
    NoMemory,
}

impl From<AllocError> for WireError {
    ghost use Rattle.wiring_check.specs.declared.check.WireError.TheVariants.{NoMemory};

    ghost from_gives = { λ _ error. error ≡ NoMemory };

    fn from(_: AllocError) -> Self {
        WireError::NoMemory
    }
}

/// The wires of the core's inputs and outputs, if each has its one wire and each wire joins what goes together.
pub fn check_wires(alloc: Global, core: &Core) -> Result<Wiring, WireError>
    requires { HasSoundFrame core.now }
    ensures wiring { IfOk result (IsWiringOf core.now) }
    ensures fine { OnOk result (IsLeast (BreaksWires core.now) None) }
    ensures refused { IfErr result (IsWireError core.now) }
{
    let inputs = first_wires(alloc, core, Side::Inputs)?;
    let outputs = first_wires(alloc, core, Side::Outputs)?;
    match least_broken(core, &inputs, &outputs) {
        Some(finding) => Err(WireError::Refused(refusal(core, finding))),
        None => Ok(Wiring::of(inputs, outputs)),
    }
}

fn refusal(core: &Core, finding: Finding) -> Refusal
    requires { IsLeast (BreaksWires core.now) (Some finding) }
    ensures { IsRefusal core.now (BreaksWires core.now) result }
{
    Refusal {
        rule: finding.rule,
        line: declared_line(core, finding.declaration),
    }
}
