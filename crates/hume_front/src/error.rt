//! Why a source isn't accepted, and how each phase tells it.
ghost use Rattle.std.specs.Prelude.{◌≡◌};

use hume_base::Refusal;
use hume_check::CheckError;
use space_costs::CostError;
use std::alloc::AllocError;
use thiserror::Error;
use wiring_check::WireError;

/// Why a source isn't accepted.
#[derive(Debug, Drop, PartialEq, Eq, Error)]
pub enum FrontError {
    /// The least rule that it breaks.
    #[error("the source breaks a rule")]
    Refused(Refusal),
    #[error("out of memory")]
    NoMemory,
}

impl From<AllocError> for FrontError {
    ghost use Rattle.hume_front.specs.declared.error.FrontError.TheVariants.{NoMemory};

    ghost from_gives = { λ _ error. error ≡ NoMemory };

    fn from(_: AllocError) -> Self {
        FrontError::NoMemory
    }
}

impl From<Refusal> for FrontError {
    ghost use Rattle.hume_front.specs.declared.error.FrontError.TheVariants.{Refused};

    ghost from_gives = { λ refusal error. error ≡ Refused refusal };

    fn from(refusal: Refusal) -> Self {
        FrontError::Refused(refusal)
    }
}

impl From<CheckError> for FrontError {
    ghost use Rattle.hume_front.specs.Errors.{of_check};

    ghost from_gives = { λ told error. error ≡ of_check told };

    fn from(told: CheckError) -> Self {
        match told {
            CheckError::Refused(refusal) => FrontError::Refused(refusal),
            CheckError::NoMemory => FrontError::NoMemory,
        }
    }
}

impl From<WireError> for FrontError {
    ghost use Rattle.hume_front.specs.Errors.{of_wires};

    ghost from_gives = { λ told error. error ≡ of_wires told };

    fn from(told: WireError) -> Self {
        match told {
            WireError::Refused(refusal) => FrontError::Refused(refusal),
            WireError::NoMemory => FrontError::NoMemory,
        }
    }
}

impl From<CostError> for FrontError {
    ghost use Rattle.hume_front.specs.Errors.{of_costs};

    ghost from_gives = { λ told error. error ≡ of_costs told };

    fn from(told: CostError) -> Self {
        match told {
            CostError::Refused(refusal) => FrontError::Refused(refusal),
            CostError::NoMemory => FrontError::NoMemory,
        }
    }
}
