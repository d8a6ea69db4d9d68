//! How far the numbers of a program move up.

/// By how much they move up: the numbers of data types, of declared exceptions, of functions and of nodes.
#[derive(Clone, Copy, Debug)]
pub struct Moves {
    pub types: u32,
    pub exns: u32,
    pub funs: u32,
    pub nodes: u32,
}
