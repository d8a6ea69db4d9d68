//! From functions to their trees.
//!
//! Main call: `function_cores` makes the trees of a function's equations, with whether a literal in one of them is out of the
//! range of its type (`Functions.antt`, and `DeclarationWalk.antt` of `check_typing`). An equation's patterns are checked against
//! the types of the parameters, its body against the type that the function gives.
//!
//! Proved: `function_cores` gives exactly the trees of a function's equations, with whether a literal in one of them is out of
//! range, and leaves the state as it was; it answers `NoType` only where the function has no trees.
//!
//! It knows functions. It doesn't know boxes, or how signatures are made.

mod equations;
mod functions;
mod signature;

pub(crate) use functions::function_cores;
