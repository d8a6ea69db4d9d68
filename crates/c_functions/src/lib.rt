//! The functions of a core as functions of C.
//!
//! Main calls: `functions_of` writes each function of a core, and tells what calls of it need to know (`Functions.antt`). A function that
//! can't raise an exception and gives a number gives it as its value; any other one writes its result through the pointer `out`, and
//! one that may raise returns the number of the exception, or 0. `functions_raise` says which ones may raise (`Raising.antt`).
//!
//! Proved: both give exactly what is defined, if memory doesn't run out.
//!
//! It knows typed equations and how their bodies are written. It doesn't know boxes, or the file around.
#![tactic(auto)]

mod equations;
mod functions;
mod parameters;
mod raising;

pub use functions::{Function, Functions, functions_of};
pub use raising::{functions_raise, has_some};
