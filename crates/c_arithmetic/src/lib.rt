//! Arithmetic that wraps around, in C.
//!
//! A sum, a difference and a product are made without a sign, in 32 bits or in 64, and brought back to the bits of the type by a
//! function for its width, so that nothing overflows. Numbers with a sign are divided by a function that tests for -1, others by C's own
//! operators. Operands are compared in place, or by a function where compilers warn of the comparison. Main calls: `operation`, `quotient`
//! and `conversion` write an operation on operands; `helpers` declares the functions of all widths. `Bodies.antt` and `Helpers.antt` say
//! what these functions are, `Operations.antt` what is written for an operation or a conversion.
//!
//! Proved: each call gives exactly the trees that these files define, if memory doesn't run out. That these trees give what operations
//! of Hume give is a law of `c_numbers`.
//!
//! It knows numbers of Hume and of C. It doesn't know cores, or which functions a file needs.
#![tactic(auto)]

mod bodies;
mod conversions;
mod functions;
mod operations;

pub use conversions::conversion;
pub use functions::{Helper, Numbers, helpers};
pub use operations::{operation, quotient};
