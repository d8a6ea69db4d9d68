//! The tree of a C99 file, and its text.
//!
//! A `CProgram` has the forms of C that a program for a microcontroller needs: static objects, functions without recursion, and no
//! loops but those that count. Main call: `put_program`, which appends the text of a file to bytes. `Words.antt` says how types
//! and constants are written, `Expressions.antt` where parentheses stand, `Statements.antt` how lines are broken and indented, and
//! `Program.antt` what a file is made of.
//!
//! Proved: each call appends exactly the text that is defined.
//!
//! It knows how C is written. It doesn't know what C means, whether names are legal, types fit or constants lie within their types,
//! which its callers see to, or what a tree is made of.
#![tactic(auto)]

mod put_expressions;
mod put_file;
mod put_members;
mod put_statements;
mod put_words;
pub mod rank;
mod tree;

pub use put_file::put_program;
pub use tree::{
    CConstant, CCount, CExp, CFunction, CHead, CItem, CMember, COp, CParameter, CProgram, CStm,
    CType, CVariable, Linkage, Passing, Width,
};
