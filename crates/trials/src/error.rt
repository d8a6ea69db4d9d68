use std::alloc::AllocError;
use std::io;
use thiserror::Error;

/// Why there is no trial.
#[derive(Debug, Drop, Error)]
pub enum TrialError {
    #[error("call .. | code SOURCE BOX | net SOURCE STEPS | held FIRST SECOND SOURCE WORD.. | round FIRST SECOND SOURCE STEPS WORKERS | claims | text")]
    Usage,
    #[error("the source can't be read")]
    NoSource,
    #[error("the source isn't accepted")]
    Refused,
    #[error("the source has no box of that name")]
    NoBox,
    #[error("out of memory")]
    NoMemory,
    #[error("the standard output failed")]
    NotTold,
}

impl From<AllocError> for TrialError {
    fn from(_: AllocError) -> Self {
        TrialError::NoMemory
    }
}

impl From<io::Error> for TrialError {
    fn from(_: io::Error) -> Self {
        TrialError::NotTold
    }
}
