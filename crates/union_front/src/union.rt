use hume_model::Core;
use space_costs::Costs;
use thiserror::Error;
use wiring_check::Wiring;

/// A union that may run.
#[derive(Drop)]
pub struct Union {
    pub core: Core,
    /// The wires of the core's inputs and outputs.
    pub wiring: Wiring,
    /// The most that an execute step of each node may take.
    pub costs: Costs,
}

/// Why programs aren't united.
#[derive(Debug, Drop, PartialEq, Eq, Error)]
pub enum UnionError {
    /// The union of the programs up to the one of this number, counted from 1, passes a limit.
    #[error("with program {0} a limit is passed")]
    OverLimit(u32),
    #[error("out of memory")]
    NoMemory,
}
