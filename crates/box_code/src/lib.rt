//! The code of boxes: instructions, their words, what they do, and which code stands for which box.
//!
//! `Instr` is an instruction, `Code` holds words that `Code::push` appends and `decode` reads, and `BoxProgram` is a box as
//! code. `Words.antt` says how an instruction is stored, `Machine.antt` what it does, `Represents.antt` which code stands for
//! which expression, result and function, and `RepresentsBox.antt` which program for which box.
//!
//! Proved: `Code::push` appends exactly the words of an instruction, and `decode` gives the instruction at a place, with the
//! place after it. Laws: an instruction that stands at a place is read there (`what_stands_is_read`), an appended one stands at
//! the end (`what_is_appended_stands`), and code that stands for something still does when words are appended
//! (`code_may_grow`).
//!
//! It knows cores, their bounds, words and objects. It doesn't know how a core becomes code, or what runs it.
#![tactic(auto)]

mod code;
mod decoding;
mod heads;
mod instr;
mod laws;
mod program;

pub use code::Code;
pub use decoding::{decode, decode_words};
pub use instr::{Comparison, Instr, Path, Scalar};
pub use laws::{code_may_grow, what_is_appended_stands, what_stands_is_read};
pub use program::BoxProgram;
