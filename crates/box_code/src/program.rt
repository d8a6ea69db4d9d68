//! A box as code.
use crate::code::Code;
use hume_base::{List, Ty};

/// The code of a box: of its rules and handlers, and of the functions that they call.
#[derive(Drop)]
pub struct BoxProgram {
    pub code: Code,
    /// Where the code of each rule begins.
    pub rules: List<u32>,
    /// For each exception where the code of the box's handler begins, or the length of the code if the box has none.
    pub handlers: List<u32>,
    /// Bounds on the words of its heap and of its stack, and on the instructions that an execute step runs.
    pub heap: u32,
    pub stack: u32,
    pub work: u32,
    /// The types of the box's outputs.
    pub outs: List<Ty>,
}
