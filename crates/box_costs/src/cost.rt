//! What it takes to evaluate.

/// Words of heap, words of stack, and instructions.
#[derive(Clone, Copy)]
pub struct Cost {
    pub heap: u32,
    pub stack: u32,
    pub work: u32,
}
