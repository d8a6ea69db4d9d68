//! Numbers of Hume in C: what the functions of arithmetic give.
//!
//! A word of `int` or `nat` with so many bits is a number of the C type of its width (`Shown.antt`). `Agreeing.antt` says what it means
//! that a call gives what an operation of Hume gives, `Declared.antt` where the function has to stand.
//!
//! Proved: for every width from 1 to 64 and an `int` of 16 to 32 bits, sums, differences, products and negations
//! (`wrapping_calls_give_what_operations_give`), quotients and rests of numbers with a sign (`dividing_calls_give_what_operations_give`),
//! conversions (`converting_calls_give_what_conversions_give`) and comparisons (`comparing_calls_tell_what_comparisons_tell`).
//! Where C's own operators and casts are enough, they give the same (`operators_give_what_operations_give`). So whatever `c_arithmetic` writes
//! for an operation on numbers gives what the operation gives (`written_operations_give_what_operations_give`, `Written.antt`).
//! In a file each function stands behind those that it calls (`functions_stand_behind_those_that_they_call`).
//!
//! Nothing runs here. It knows numbers of Hume, and what C means. It doesn't know cores, or which functions a file needs.
#![tactic(auto)]

mod laws;

pub use laws::{
    comparing_calls_tell_what_comparisons_tell, converting_calls_give_what_conversions_give,
    dividing_calls_give_what_operations_give, functions_stand_behind_those_that_they_call,
    operators_give_what_operations_give, wrapping_calls_give_what_operations_give,
    written_operations_give_what_operations_give,
};
