//! The memory of a box that runs as code: a heap of objects, a stack of words, and a buffer for the words of its outputs.
//!
//! `BoxHeap` holds objects, each with a tag and fields, one after another; `BoxStack` holds words; `OutBuf` holds the words of
//! each output that is present. Each takes its memory in `make` and none later. Heap and stack record the most that they held.
//! `Heaps.antt`, `Stacks.antt` and `Outputs.antt` define what they hold, and `Standing.antt` which words stand for which
//! values.
//!
//! Proved: each call of `BoxHeap`, `BoxStack` and `OutBuf` changes what they hold exactly as its name says, takes no memory
//! after `make`, and keeps the peak of heap and stack exact. Laws: an object that is put into a heap is found at its place and
//! stays there (`objects_stay`); a word still stands for its value after objects are put (`standing_words_stay`), and an object
//! whose fields stand for the parts of a value stands for it (`put_objects_stand`).
//!
//! It knows words, objects and values. It doesn't know types, boxes or code.
#![tactic(auto)]

mod heap;
mod laws;
mod out_buf;
mod stack;

pub use heap::BoxHeap;
pub use laws::{objects_stay, put_objects_stand, standing_words_stay};
pub use out_buf::OutBuf;
pub use stack::BoxStack;
