//! The words of a call.
//!
//! Main call: `read_words`. `Words.antt` says which words give which order.
//!
//! Proved: it gives the order of the words, and none where they are of no form.
//!
//! It knows words and numbers in them. It doesn't know what an order owes.
pub mod numbers;
mod reading;

pub use reading::read_words;
