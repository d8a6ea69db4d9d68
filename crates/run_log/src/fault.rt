//! The first line of a log that differs.

/// The first line of a log that differs from what the run gives.
#[derive(Clone, Copy, Debug, PartialEq)]
pub struct LogFault {
    /// Its number among the lines of the log, counted from 1.
    pub line: u64,
    /// The node that made the wire of this line so: none where the line is of no wire, is of the start, or isn't there in full.
    pub node: Option<u32>,
}
